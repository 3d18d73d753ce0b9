//! A place of a source as line and column, and its line with a mark below the place.
//!
//! Lines and columns are counted from 1. A column counts bytes: a tab is one, and a character has as many as its UTF-8 text.
#![tactic(auto)]

ghost use Rattle.std.specs.Prelude.{◌≡◌, ◌≤◌, ◌<◌, ◌^◌, ◌-◌, ◌++◌, ◌∷◌, [], codes, decimal, drop, flat_map, length, nat_le, take, ◌&&◌, OnOk};
ghost use Rattle.std.specs.Str.{str_eq_ignore_ascii_case};
ghost use Rattle.setl_token.specs.Lex.{line_at};
ghost use Rattle.setl_explain_places.specs.Places as spec;

use setl_text::push_decimal;
use setl_token::{Token, TokenList};
use std::alloc::AllocError;

/// Where the line of a place begins.
fn line_start(source: &[u8], at: usize) -> usize
    requires { at ≤ length source.now }
    ensures value { result ≡ spec.line_start source.now at }
    ensures within { result ≤ at }
{
    let mut start = at;
    while start > 0 && source[start - 1] != b'\n' {
        start -= 1;
    }
    start
}

/// The bytes at the front up to the first line feed.
fn line_of(z: &[u8]) -> &[u8]
    ensures { result.now ≡ spec.line_of z.now }
{
    let mut end = 0;
    while end < z.len() && z[end] != b'\n' {
        end += 1;
    }
    &z[..end]
}

/// The number of the line of a place, from 1.
fn line_number(source: &[u8], at: usize) -> usize
    requires within { at ≤ length source.now }
    requires short { length source.now ≤ 2 ^ 24 }
    ensures { result ≡ line_at source.now at }
{
    1 + source[..at].iter().filter(|b| **b == b'\n').count()
}

/// Adds what stands below a byte: a tab below a tab, nothing below a byte that goes on a character, and otherwise a blank.
fn push_below(into: &mut Vec<u8>, b: u8) -> Result<(), AllocError>
    ensures { OnOk result (into.new.items ≡ into.old.items ++ spec.below b) }
{
    if b == b'\t' {
        into.push(b'\t')?;
    } else if b < 128 || b >= 192 {
        into.push(b' ')?;
    }
    Ok(())
}

/// Adds what stands below bytes.
fn push_all_below(into: &mut Vec<u8>, bytes: &[u8]) -> Result<(), AllocError>
    ensures { OnOk result (into.new.items ≡ into.old.items ++ flat_map spec.below bytes.now) }
{
    for b in bytes {
        push_below(into, *b)?;
    }
    Ok(())
}

/// Adds the line and the column of a place, in a line of its own.
#[tactic(auto, unfolding(crate::specs::Places::position_text))]
fn push_position(into: &mut Vec<u8>, line: usize, column: usize) -> Result<(), AllocError>
    ensures { OnOk result (into.new.items ≡ into.old.items ++ spec.position_text line column) }
{
    into.extend_from_slice(b"line ")?;
    push_decimal(into, line as u64)?;
    into.extend_from_slice(b", column ")?;
    push_decimal(into, column as u64)?;
    into.push(b'\n')?;
    Ok(())
}

/// Adds a line and below it the mark behind some of its bytes.
#[tactic(auto, unfolding(crate::specs::Places::marked_text))]
fn push_marked(into: &mut Vec<u8>, line: &[u8], before: &[u8]) -> Result<(), AllocError>
    ensures { OnOk result (into.new.items ≡ into.old.items ++ spec.marked_text line.now before.now) }
{
    into.extend_from_slice(b"    ")?;
    into.extend_from_slice(line)?;
    into.extend_from_slice(b"\n    ")?;
    push_all_below(into, before)?;
    into.extend_from_slice(b"^\n")
}

/// Adds the three lines of a place whose line begins at `start`.
#[tactic(auto, unfolding(crate::specs::Places::place_from))]
fn push_from(into: &mut Vec<u8>, source: &[u8], start: usize, at: usize) -> Result<(), AllocError>
    requires before { start ≤ at }
    requires within { at ≤ length source.now }
    requires short { length source.now ≤ 2 ^ 24 }
    ensures { OnOk result (into.new.items ≡ into.old.items ++ spec.place_from source.now start at) }
{
    push_position(into, line_number(source, at), at - start + 1)?;
    push_marked(into, line_of(&source[start..]), &source[start..at])
}

/// Adds three lines: the line and the column of a place, the source's line there, and a mark below the place. The error is
/// want of memory.
pub fn push_place(into: &mut Vec<u8>, source: &[u8], at: usize) -> Result<(), AllocError>
    requires within { at ≤ length source.now }
    requires short { length source.now ≤ 2 ^ 24 }
    ensures { OnOk result (into.new.items ≡ into.old.items ++ spec.place_text source.now at) }
{
    push_from(into, source, line_start(source, at), at)
}

/// The place of the first token on a line, or the end of the source where there is none.
#[tactic(auto, using(crate::proofs::Firsts::first_here, crate::proofs::Firsts::first_later))]
pub fn first_on_line(list: &TokenList, line: u32) -> usize
    ensures value { result ≡ spec.first_on_line list.now line }
    ensures within { result ≤ length list.now.source }
{
    for i in 0..list.len() {
        let token = list.at(i);
        if token.line == line {
            return token.from as usize;
        }
    }
    list.source().len()
}

/// Whether a token that is spelled so stands on a line or behind it, and its spelling is this text, whatever the case of its
/// letters.
fn is_spelled_from(token: Token, spelling: &[u8], line: u32, text: &[u8]) -> bool
    ensures { result ≡ (nat_le line token.line && str_eq_ignore_ascii_case spelling.now text.now) }
{
    token.line >= line && spelling.eq_ignore_ascii_case(text)
}

/// The place of the first token from a line on that is spelled so, whatever the case of its letters, or the end of the source
/// where there is none.
pub fn spelled_from(list: &TokenList, line: u32, text: &[u8]) -> usize
    ensures value { result ≡ spec.spelled_from list.now line text.now }
    ensures within { result ≤ length list.now.source }
{
    for i in 0..list.len() {
        let token = list.at(i);
        if is_spelled_from(*token, list.text(i), line, text) {
            return token.from as usize;
        }
    }
    list.source().len()
}
