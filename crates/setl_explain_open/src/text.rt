//! What is told of the constructs that are open.
ghost use Rattle.std.specs.Prelude.{◌≡◌, ◌++◌, flat_map, OnOk};
ghost use Rattle.setl_explain_open.specs.Texts as spec;

use crate::reached::Opening;
use setl_explain_words::push_kind;
use setl_text::push_decimal;
use std::alloc::AllocError;

/// Adds a line for a construct, with the line of its first token.
#[tactic(auto, unfolding(crate::specs::Texts::opening_text))]
fn push_opening(into: &mut Vec<u8>, opening: Opening) -> Result<(), AllocError>
    ensures { OnOk result (into.new.items ≡ into.old.items ++ spec.opening_text opening) }
{
    into.extend_from_slice(b"    ")?;
    push_kind(into, opening.kind)?;
    into.extend_from_slice(b" of line ")?;
    push_decimal(into, u64::from(opening.line))?;
    into.push(b'\n')?;
    Ok(())
}

/// Adds a line for each construct.
fn push_openings(into: &mut Vec<u8>, openings: &[Opening]) -> Result<(), AllocError>
    ensures { OnOk result (into.new.items ≡ into.old.items ++ flat_map spec.opening_text openings.now) }
{
    for opening in openings {
        push_opening(into, *opening)?;
    }
    Ok(())
}

/// Adds a line that says that so many constructs are open; nothing where none is.
#[tactic(auto, unfolding(crate::specs::Texts::heading))]
fn push_heading(into: &mut Vec<u8>, count: usize) -> Result<(), AllocError>
    ensures { OnOk result (into.new.items ≡ into.old.items ++ spec.heading count) }
{
    if count > 0 {
        into.extend_from_slice(b"Still open at this place:\n")?;
    }
    Ok(())
}

/// Adds a line for each construct that is open, below one that says so; nothing where none is. The error is want of memory.
pub fn push_open(into: &mut Vec<u8>, openings: &[Opening]) -> Result<(), AllocError>
    ensures { OnOk result (into.new.items ≡ into.old.items ++ spec.open_text openings.now) }
{
    push_heading(into, openings.len())?;
    push_openings(into, openings)
}
