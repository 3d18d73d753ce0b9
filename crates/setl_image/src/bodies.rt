//! Bodies.

ghost use Rattle.std.specs.Prelude.{◌≡◌, ◌+◌, ◌++◌, ℕ, List, [], length, OnOk};
ghost use Rattle.setl_code.specs.declared.code.Body.{Body};
ghost use Rattle.setl_code.specs.declared.code.Step.{Step};
ghost use Rattle.setl_image_codec.specs.Codec.{never};
ghost use Rattle.setl_image_codec.specs.Given.{Gives};
ghost use Rattle.setl_image_codec.specs.Numbers.{listed};
ghost use Rattle.setl_image_format.specs.ImageCodec.{body};
ghost use Rattle.setl_image_format.specs.Steps.{step};

use crate::names::{ParamCoder, read_params};
use crate::own_names::{OwnNameCoder, read_own_names};
use setl_code::{Body, OwnName, Step};
use setl_image_codec::{
    Coder, ImageFault, push_list, push_text, read_list, read_name, read_number,
};
use setl_image_steps::StepCoder;
use setl_tree::{Items, Param, Text};
use std::alloc::{AllocError, Global};

/// Bodies of code with so many variables that all bodies see.
#[derive(Drop)]
pub(crate) struct BodyCoder {
    pub globals: usize,
}

impl Coder for BodyCoder {
    type Out = Body;

    ghost use Rattle.setl_code.specs.declared.code.Body.{Body};
    ghost use Rattle.setl_image_format.specs.ImageCodec.{body};

    ghost Plain = { Body };

    ghost view = { λ x. x };

    ghost codec = { λ c. body c.globals };

    fn read<'a>(&self, alloc: Global, bytes: &'a [u8]) -> Result<(Body, &'a [u8]), ImageFault> {
        let (name, rest) = read_name(alloc, bytes)?;
        let (parameters, rest) = read_params(alloc, rest)?;
        let rest = read_none(rest)?;
        let rest = read_none(rest)?;
        let (names, rest) = read_own_names(alloc, rest)?;
        let (steps, rest) = read_steps(alloc, self.globals, &parameters, &names, rest)?;
        Ok((
            Body {
                name,
                parameters,
                names,
                steps,
            },
            rest,
        ))
    }

    #[tactic(auto, using(crate::proofs::Decoding::same_items))]
    fn push(&self, into: &mut Vec<u8>, x: &Body) -> Result<(), AllocError> {
        push_text(into, &x.name)?;
        push_list(&ParamCoder {}, into, x.parameters.as_slice())?;
        into.push(0)?;
        into.push(0)?;
        push_list(&OwnNameCoder {}, into, x.names.as_slice())?;
        push_steps(into, self.globals, &x.parameters, &x.names, &x.steps)
    }
}

// What stands behind the empty list at the front.
fn read_none(bytes: &[u8]) -> Result<&[u8], ImageFault>
    ensures { Gives {Y = List ⊥ × List ℕ} (λ rest. ([], rest.now)) result ((listed never).read bytes.now) }
{
    let (count, rest) = read_number(bytes)?;
    if count == 0 {
        Ok(rest)
    } else {
        Err(ImageFault::Bad)
    }
}

// The steps at the front, where a body has these parameters and names and all bodies see so many variables.
fn read_steps<'a>(
    alloc: Global,
    globals: usize,
    parameters: &Items<Param>,
    names: &Items<OwnName>,
    bytes: &'a [u8],
) -> Result<(Items<Step>, &'a [u8]), ImageFault>
    ensures { Gives {Y = List Step × List ℕ} (λ x. (x.0, x.1.now)) result ((listed (step globals (length parameters.now + length names.now))).read bytes.now) }
{
    let coder = StepCoder {
        globals,
        own: parameters.len() as u128 + names.len() as u128,
    };
    read_list(alloc, &coder, bytes)
}

// Adds the steps.
fn push_steps(
    into: &mut Vec<u8>,
    globals: usize,
    parameters: &Items<Param>,
    names: &Items<OwnName>,
    steps: &Items<Step>,
) -> Result<(), AllocError>
    requires { (listed (step globals (length parameters.now + length names.now))).Fits steps.now }
    ensures { OnOk result (into.new.items ≡ into.old.items ++ (listed (step globals (length parameters.now + length names.now))).write steps.now) }
{
    let coder = StepCoder {
        globals,
        own: parameters.len() as u128 + names.len() as u128,
    };
    push_list(&coder, into, steps.as_slice())
}

/// The bodies at the front, where all bodies see these variables.
pub(crate) fn read_all_bodies<'a>(
    alloc: Global,
    vars: &Items<Text>,
    bytes: &'a [u8],
) -> Result<(Items<Body>, &'a [u8]), ImageFault>
    ensures { Gives {Y = List Body × List ℕ} (λ x. (x.0, x.1.now)) result ((listed (body (length vars.now))).read bytes.now) }
{
    let coder = BodyCoder {
        globals: vars.len(),
    };
    read_list(alloc, &coder, bytes)
}

/// Adds the bodies.
pub(crate) fn push_bodies(
    into: &mut Vec<u8>,
    vars: &Items<Text>,
    bodies: &Items<Body>,
) -> Result<(), AllocError>
    requires { (listed (body (length vars.now))).Fits bodies.now }
    ensures { OnOk result (into.new.items ≡ into.old.items ++ (listed (body (length vars.now))).write bodies.now) }
{
    let coder = BodyCoder {
        globals: vars.len(),
    };
    push_list(&coder, into, bodies.as_slice())
}
