//! Why a source is refused, and the line that tells it.
ghost use Rattle.std.specs.Prelude.{◌≡◌, ◌∷◌, ◌++◌, [], OnOk, IfOk, codes, decimal};
ghost use Rattle.setl_top_status.specs.Reasons.{at_place, reason_line};

use itoa::Buffer;
use std::alloc::{AllocError, Global};

/// Why a source is refused. Places are in bytes from 0, and lines are counted from 1.
#[derive(Clone, Copy)]
pub enum Reason {
    /// It has more than 2^24 bytes.
    TooLong,
    /// At this place a byte stands that begins no token, blank or comment.
    Byte { at: u32 },
    /// At this place a string begins that isn't closed on its line.
    OpenString { at: u32 },
    /// At this place a number begins that is above 2^127 - 1.
    WideNumber { at: u32 },
    /// The token at this place, or the end of the source, goes on no program.
    Syntax { at: u32 },
    /// The token at this place opens a nesting inside 200 others.
    Nesting { at: u32 },
    /// The rule of this number is broken at this line.
    Broken { rule: u8, line: u32 },
}

/// Adds a number in decimal digits. The error is want of memory.
pub fn push_number(line: &mut Vec<u8>, number: u64) -> Result<(), AllocError>
    ensures { OnOk result (line.new.items ≡ line.old.items ++ decimal number) }
{
    let mut buffer = Buffer::new();
    line.extend_from_slice(buffer.format(number).as_bytes())
}

/// The line that tells what stands at a place.
fn at_place(alloc: Global, at: u32, what: &[u8]) -> Result<Vec<u8>, AllocError>
    ensures { IfOk result (λ line. line.items ≡ at_place at what.now ++ 10 ∷ []) }
{
    let mut line = Vec::from_slice(alloc, b"at ")?;
    push_number(&mut line, u64::from(at))?;
    line.extend_from_slice(b": ")?;
    line.extend_from_slice(what)?;
    line.push(b'\n')?;
    Ok(line)
}

/// The begin of a line that tells what is so at a line of the source.
pub fn at_line(alloc: Global, line: u32) -> Result<Vec<u8>, AllocError>
    ensures { IfOk result (λ told. told.items ≡ codes "line " ++ decimal line ++ codes ": ") }
{
    let mut told = Vec::from_slice(alloc, b"line ")?;
    push_number(&mut told, u64::from(line))?;
    told.extend_from_slice(b": ")?;
    Ok(told)
}

/// The line that tells a broken rule.
fn rule_line(alloc: Global, line: u32, rule: u8) -> Result<Vec<u8>, AllocError>
    ensures { IfOk result (λ told. told.items ≡ reason_line (Reason.Broken rule line) ++ 10 ∷ []) }
{
    let mut told = at_line(alloc, line)?;
    told.extend_from_slice(b"rule ")?;
    push_number(&mut told, u64::from(rule))?;
    told.push(b'\n')?;
    Ok(told)
}

/// The line that tells a reason, with its line feed.
pub fn reason_line(alloc: Global, reason: Reason) -> Result<Vec<u8>, AllocError>
    ensures { IfOk result (λ line. line.items ≡ reason_line reason ++ 10 ∷ []) }
{
    match reason {
        Reason::TooLong => Vec::from_slice(alloc, b"source too long\n"),
        Reason::Byte { at } => at_place(alloc, at, b"byte"),
        Reason::OpenString { at } => at_place(alloc, at, b"open string"),
        Reason::WideNumber { at } => at_place(alloc, at, b"wide number"),
        Reason::Syntax { at } => at_place(alloc, at, b"syntax"),
        Reason::Nesting { at } => at_place(alloc, at, b"nesting"),
        Reason::Broken { rule, line } => rule_line(alloc, line, rule),
    }
}
