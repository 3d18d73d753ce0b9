//! Sections: bases and declared variables, each with its mode.

ghost use Rattle.std.specs.Prelude.{◌≡◌, ◌++◌, ℕ, List, map, OnOk};
ghost use Rattle.setl_image_codec.specs.Codec.{pair};
ghost use Rattle.setl_image_codec.specs.Given.{Gives};
ghost use Rattle.setl_image_codec.specs.Numbers.{listed};
ghost use Rattle.setl_image_codec.specs.Texts.{name};
ghost use Rattle.setl_image_format.specs.ImageCodec.{Named, section};
ghost use Rattle.setl_image_format.specs.ModeCodec.{mode};
ghost use Rattle.setl_image.specs.Views.{modes_of, named_of, table_of};

use crate::modes::{push_mode, read_mode};
use setl_image_codec::{Coder, ImageFault, push_list, push_text, read_list, read_name};
use setl_modes::{ModeTable, NamedMode};
use setl_tree::Items;
use std::alloc::{AllocError, Global};

// How many of the modes `set`, `tuple`, `smap` and `mmap` may stand inside each other.
const DEEPEST: u32 = 200;

/// Names, each with a mode that may name one of these bases.
#[derive(Drop)]
pub(crate) struct NamedCoder<'b> {
    pub bases: &'b [NamedMode],
}

impl<'b> Coder for NamedCoder<'b> {
    type Out = NamedMode;

    ghost use Rattle.setl_image_codec.specs.Codec.{pair};
    ghost use Rattle.setl_image_codec.specs.Texts.{name};
    ghost use Rattle.setl_image_format.specs.ImageCodec.{Named};
    ghost use Rattle.setl_image_format.specs.ModeCodec.{mode};
    ghost use Rattle.setl_image.specs.Views.{modes_of, named_of};

    ghost Plain = { Named };

    ghost view = { named_of };

    ghost codec = { λ c. pair name (mode (modes_of c.bases.now)) };

    fn read<'a>(
        &self,
        alloc: Global,
        bytes: &'a [u8],
    ) -> Result<(NamedMode, &'a [u8]), ImageFault> {
        let (name, rest) = read_name(alloc, bytes)?;
        let (mode, rest) = read_mode(alloc, self.bases, DEEPEST, rest)?;
        Ok((NamedMode { name, mode }, rest))
    }

    fn push(&self, into: &mut Vec<u8>, x: &NamedMode) -> Result<(), AllocError> {
        push_text(into, &x.name)?;
        push_mode(into, &x.mode)
    }
}

/// The section at the front, and what stands behind it.
#[tactic(auto, using(crate::proofs::ModeSteps::section_read))]
pub(crate) fn read_section(alloc: Global, bytes: &[u8]) -> Result<(ModeTable, &[u8]), ImageFault>
    ensures { Gives {Y = (List Named × List Named) × List ℕ} (λ x. (table_of x.0, x.1.now)) result (section.read bytes.now) }
{
    let (bases, rest) = read_list(alloc, &NamedCoder { bases: &[] }, bytes)?;
    let (vars, rest) = read_vars(alloc, &bases, rest)?;
    Ok((ModeTable { bases, vars }, rest))
}

// The declared variables at the front, and what stands behind them.
fn read_vars<'a>(
    alloc: Global,
    bases: &Items<NamedMode>,
    bytes: &'a [u8],
) -> Result<(Items<NamedMode>, &'a [u8]), ImageFault>
    ensures { Gives {Y = List Named × List ℕ} (λ x. (map named_of x.0, x.1.now)) result ((listed (pair name (mode (modes_of bases.now)))).read bytes.now) }
{
    let coder = NamedCoder {
        bases: bases.as_slice(),
    };
    read_list(alloc, &coder, bytes)
}

/// Adds the section.
pub(crate) fn push_section(into: &mut Vec<u8>, table: &ModeTable) -> Result<(), AllocError>
    requires { section.Fits (table_of table.now) }
    ensures { OnOk result (into.new.items ≡ into.old.items ++ section.write (table_of table.now)) }
{
    push_list(&NamedCoder { bases: &[] }, into, table.bases.as_slice())?;
    push_vars(into, &table.bases, &table.vars)
}

// Adds the declared variables.
fn push_vars(
    into: &mut Vec<u8>,
    bases: &Items<NamedMode>,
    vars: &Items<NamedMode>,
) -> Result<(), AllocError>
    requires { (listed (pair name (mode (modes_of bases.now)))).Fits (map named_of vars.now) }
    ensures { OnOk result (into.new.items ≡ into.old.items ++ (listed (pair name (mode (modes_of bases.now)))).write (map named_of vars.now)) }
{
    let coder = NamedCoder {
        bases: bases.as_slice(),
    };
    push_list(&coder, into, vars.as_slice())
}
