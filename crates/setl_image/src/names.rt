//! Names and parameters.

ghost use Rattle.std.specs.Prelude.{◌≡◌, ℕ, List};
ghost use Rattle.setl_tree.specs.declared.tree.Param.{Param};
ghost use Rattle.setl_tree.specs.declared.tree.Passing.{Passing};
ghost use Rattle.setl_image_codec.specs.Given.{Gives};
ghost use Rattle.setl_image_codec.specs.Numbers.{listed};
ghost use Rattle.setl_image_codec.specs.Texts.{name};
ghost use Rattle.setl_image_format.specs.ImageCodec.{param, passing};

use setl_image_codec::{
    Coder, ImageFault, push_number, push_text, read_list, read_name, read_number,
};
use setl_tree::{Items, Param, Passing, Text};
use std::alloc::{AllocError, Global};

/// Names.
#[derive(Drop)]
pub(crate) struct NameCoder {}

impl Coder for NameCoder {
    type Out = Text;

    ghost use Rattle.std.specs.Prelude.{List, ℕ};
    ghost use Rattle.setl_image_codec.specs.Texts.{name};

    ghost Plain = { List ℕ };

    ghost view = { λ x. x };

    ghost codec = { λ c. name };

    fn read<'a>(&self, alloc: Global, bytes: &'a [u8]) -> Result<(Text, &'a [u8]), ImageFault> {
        read_name(alloc, bytes)
    }

    fn push(&self, into: &mut Vec<u8>, x: &Text) -> Result<(), AllocError> {
        push_text(into, x)
    }
}

/// Parameters.
#[derive(Drop)]
pub(crate) struct ParamCoder {}

impl Coder for ParamCoder {
    type Out = Param;

    ghost use Rattle.setl_tree.specs.declared.tree.Param.{Param};
    ghost use Rattle.setl_image_format.specs.ImageCodec.{param};

    ghost Plain = { Param };

    ghost view = { λ x. x };

    ghost codec = { λ c. param };

    fn read<'a>(&self, alloc: Global, bytes: &'a [u8]) -> Result<(Param, &'a [u8]), ImageFault> {
        let (passing, rest) = read_passing(bytes)?;
        let (name, rest) = read_name(alloc, rest)?;
        let (line, rest) = read_number(rest)?;
        Ok((
            Param {
                passing,
                name,
                line,
            },
            rest,
        ))
    }

    fn push(&self, into: &mut Vec<u8>, x: &Param) -> Result<(), AllocError> {
        into.push(match x.passing {
            Passing::Rd => 0,
            Passing::Wr => 1,
            Passing::Rw => 2,
        })?;
        push_text(into, &x.name)?;
        push_number(into, x.line)
    }
}

/// The list of names at the front, and what stands behind it.
pub(crate) fn read_names(alloc: Global, bytes: &[u8]) -> Result<(Items<Text>, &[u8]), ImageFault>
    ensures { Gives {Y = List (List ℕ) × List ℕ} (λ x. (x.0, x.1.now)) result ((listed name).read bytes.now) }
{
    read_list(alloc, &NameCoder {}, bytes)
}

/// The list of parameters at the front, and what stands behind it.
pub(crate) fn read_params(alloc: Global, bytes: &[u8]) -> Result<(Items<Param>, &[u8]), ImageFault>
    ensures { Gives {Y = List Param × List ℕ} (λ x. (x.0, x.1.now)) result ((listed param).read bytes.now) }
{
    read_list(alloc, &ParamCoder {}, bytes)
}

// How a parameter is passed.
fn read_passing(bytes: &[u8]) -> Result<(Passing, &[u8]), ImageFault>
    ensures { Gives {Y = Passing × List ℕ} (λ x. (x.0, x.1.now)) result (passing.read bytes.now) }
{
    match bytes {
        [0, rest @ ..] => Ok((Passing::Rd, rest)),
        [1, rest @ ..] => Ok((Passing::Wr, rest)),
        [2, rest @ ..] => Ok((Passing::Rw, rest)),
        _ => Err(ImageFault::Bad),
    }
}
