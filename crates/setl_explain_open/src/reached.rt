//! The constructs that are open.
ghost use Rattle.std.specs.Prelude.{◌≡◌, ◌<◌, length, IfOk, OnOk};
ghost use Rattle.setl_parse_cursor.specs.Plain.{plain_tokens};
ghost use Rattle.setl_explain_open.specs.Opens as spec;
ghost use Rattle.setl_explain_open.specs.code.Steps.{IsStep};

use crate::effect::{Effect, effect_behind};
use setl_parse_cursor::{Cursor, same_kind};
use setl_token::TokenList;
use setl_tree::Kind;
use std::alloc::{AllocError, Global};

/// The token that opens a construct: its kind and its line.
#[derive(Clone, Copy)]
pub struct Opening {
    pub kind: Kind,
    pub line: u32,
}

/// Closes the innermost construct where `end` stood last.
fn close(stack: &mut Vec<Opening>, ended: bool)
    ensures { stack.new.items ≡ spec.ended_at (record { stack = stack.old.items; ended = ended }) }
{
    if ended {
        stack.truncate(stack.len().saturating_sub(1));
    }
}

/// Adds to the open constructs what a token does to them. The error is want of memory.
fn note(stack: &mut Vec<Opening>, effect: Effect, opening: Opening) -> Result<(), AllocError>
    ensures { OnOk result (stack.new.items ≡ spec.noted stack.old.items effect opening) }
{
    let inside = stack.len().saturating_sub(1);
    match effect {
        Effect::Opens => stack.push(opening)?,
        Effect::OpensAround => stack.insert(inside, opening)?,
        Effect::Closes => stack.truncate(inside),
        Effect::None => {}
    }
    Ok(())
}

/// Adds to the open constructs what a token of a kind does to them, behind `end` or not, and gives whether it is `end`. The
/// error is want of memory.
fn step(stack: &mut Vec<Opening>, ended: bool, kind: Kind, line: u32) -> Result<bool, AllocError>
    ensures { IfOk result (λ now. record { stack = stack.new.items; ended = now } ≡ spec.behind (record { stack = stack.old.items; ended = ended }) kind line) }
{
    close(stack, ended);
    note(stack, effect_behind(ended, kind), Opening { kind, line })?;
    Ok(same_kind(kind, Kind::End))
}

/// Adds to the open constructs what the token with this index does to them, if it begins before a place, and gives whether
/// the last token so far is `end`. The error is want of memory.
fn step_before(
    stack: &mut Vec<Opening>,
    ended: bool,
    cursor: &Cursor<'_>,
    list: &TokenList,
    i: usize,
    at: usize,
) -> Result<bool, AllocError>
    requires within { i < length list.now.tokens }
    requires whole { cursor.now ≡ plain_tokens list.now }
    ensures { IfOk result (λ now. IsStep list.now at i (record { stack = stack.old.items; ended = ended }) (record { stack = stack.new.items; ended = now })) }
{
    let token = list.at(i);
    if token.from as usize >= at {
        return Ok(ended);
    }
    step(stack, ended, cursor.kind_behind(i), token.line)
}

/// The constructs that are open behind the tokens before a place, the outermost first; what `end` closes is open up to the
/// token behind it. The error is want of memory.
pub fn open_at(alloc: Global, list: &TokenList, at: usize) -> Result<Vec<Opening>, AllocError>
    ensures { IfOk result (λ all. all.items ≡ spec.open_at list.now at) }
{
    let cursor = Cursor::new(alloc, list);
    let mut stack = Vec::new(alloc);
    let mut ended = false;
    for i in 0..list.len() {
        ended = step_before(&mut stack, ended, &cursor, list, i, at)?;
    }
    Ok(stack)
}
