//! The section that declares some variables.

ghost use Rattle.std.specs.Prelude.{◌≡◌, ◌++◌, IfOk, OnOk};
ghost use Rattle.setl_advise_flows.specs.Flow as plain;
ghost use Rattle.setl_advise_lattice.specs.code.Levels.{flow_of, kind_of, middle_flow};
ghost use Rattle.setl_advise_section.specs.Section.{base_line, is_scalar, is_used, lines_text, map_uses, section_text, uses};
ghost use Rattle.setl_advise_section.specs.code.Numbers.{bases_of, plain_variables};

use crate::lines::{Numbers, push_base, push_line};
use setl_advise_lattice::{Flat, Flow, Kind, Level};
use std::alloc::{AllocError, Global};

/// A variable by its name, with its flow.
#[derive(Clone, Copy, Debug)]
pub struct Variable<'p> {
    pub name: &'p [u8],
    pub flow: Flow,
}

/// Whether a flow is that of the scalars of a kind.
fn is_scalar(k: Kind, f: Level<Level<Flat>>) -> bool
    ensures { result ≡ is_scalar (kind_of k) (middle_flow f) }
{
    match f {
        Level::Nothing => false,
        Level::Scalar(l) => k.is(l),
        Level::Set(_) => false,
        Level::Tuple(_) => false,
        Level::Map(_, _) => false,
        Level::Any => false,
    }
}

/// Whether the mode of maps from the scalars of a kind names the base of a kind.
fn map_uses(k: Kind, l: Kind, g: Level<Level<Flat>>) -> bool
    ensures { result ≡ map_uses (kind_of k) (kind_of l) (middle_flow g) }
{
    match l {
        Kind::Truth => false,
        Kind::Whole | Kind::Letters | Kind::Token => k.is(l) || is_scalar(k, g),
    }
}

/// Whether the mode that is advised for maps names the base of a kind.
fn any_map_uses(k: Kind, f: Level<Level<Flat>>, g: Level<Level<Flat>>) -> bool
    ensures { result ≡ uses (kind_of k) (plain.Map (middle_flow f) (middle_flow g)) }
{
    match f {
        Level::Nothing => false,
        Level::Scalar(l) => map_uses(k, l, g),
        Level::Set(_) => false,
        Level::Tuple(_) => false,
        Level::Map(_, _) => false,
        Level::Any => false,
    }
}

/// Whether the mode that is advised for a flow names the base of a kind.
fn uses(k: Kind, f: Flow) -> bool
    ensures { result ≡ uses (kind_of k) (flow_of f) }
{
    match f {
        Level::Nothing => false,
        Level::Scalar(_) => false,
        Level::Set(h) => is_scalar(k, h),
        Level::Tuple(h) => is_scalar(k, h),
        Level::Map(g, h) => any_map_uses(k, g, h),
        Level::Any => false,
    }
}

/// Whether the mode that is advised for one of some variables names the base of a kind.
pub fn is_used(k: Kind, variables: &[Variable<'_>]) -> bool
    ensures { result ≡ is_used (kind_of k) (plain_variables variables.now) }
{
    for v in variables {
        if uses(k, v.flow) {
            return true;
        }
    }
    false
}

/// Adds the line of the base of a kind, if the base is used. The error is want of memory.
fn push_used_base(
    into: &mut Vec<u8>,
    k: Kind,
    variables: &[Variable<'_>],
    numbers: Numbers,
) -> Result<(), AllocError>
    ensures { OnOk result (into.new.items ≡ into.old.items ++ base_line (bases_of numbers) (kind_of k) (plain_variables variables.now)) }
{
    if is_used(k, variables) {
        push_base(into, k, numbers)
    } else {
        Ok(())
    }
}

/// Adds the lines of variables. The error is want of memory.
fn push_lines(
    into: &mut Vec<u8>,
    variables: &[Variable<'_>],
    numbers: Numbers,
) -> Result<(), AllocError>
    ensures { OnOk result (into.new.items ≡ into.old.items ++ lines_text (bases_of numbers) (plain_variables variables.now)) }
{
    for v in variables {
        push_line(into, v.name, v.flow, numbers)?;
    }
    Ok(())
}

/// The text of the section that declares these variables with the modes that are advised for their flows. The bases of the
/// integers, the strings and the atoms have names by these numbers. The error is want of memory.
pub fn section(
    alloc: Global,
    variables: &[Variable<'_>],
    numbers: Numbers,
) -> Result<Vec<u8>, AllocError>
    ensures { IfOk result (λ text. text.items ≡ section_text (bases_of numbers) (plain_variables variables.now)) }
{
    let mut text = Vec::from_slice(alloc, b"repr\n")?;
    push_used_base(&mut text, Kind::Whole, variables, numbers)?;
    push_used_base(&mut text, Kind::Letters, variables, numbers)?;
    push_used_base(&mut text, Kind::Token, variables, numbers)?;
    push_lines(&mut text, variables, numbers)?;
    text.extend_from_slice(b"end repr;\n")?;
    Ok(text)
}
