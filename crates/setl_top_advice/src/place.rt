//! Where a section is put into a source.
ghost use Rattle.std.specs.Prelude.{◌≡◌, ◌<◌, ◌≤◌, length, IfOk, IfSome};
ghost use Rattle.setl_top_advice.specs.Put.{IsEmptySection, IsPlace, with_section};

use setl_token::TokenList;
use std::alloc::{AllocError, Global};

/// Bytes of a source in place of which a section is put: those from `from` up to `to`.
#[derive(Clone, Copy, Debug)]
pub struct Place {
    pub from: usize,
    pub to: usize,
}

/// The index behind the next `;`, from an index on.
fn behind_semicolon(list: &TokenList, i: usize) -> usize
    requires { i < length list.now.tokens }
    ensures { i < result }
{
    for k in i..list.len() {
        if list.is_sign(k, b";") {
            return k + 1;
        }
    }
    list.len()
}

/// The index behind the lines with `var`.
fn behind_vars(list: &TokenList) -> usize {
    let mut i = 3;
    'vars: while i < list.len() && list.is_word(i, b"var") {
        i = behind_semicolon(list, i);
    }
    i
}

/// The index of the last token of the empty section that begins with the token of an index, if one does.
fn empty_section(list: &TokenList, i: usize) -> Option<usize>
    requires { i < length list.now.tokens }
    ensures section { IfSome result (λ last. IsEmptySection list.now.source list.now.tokens i last) }
    ensures within { IfSome result (λ last. last < length list.now.tokens) }
{
    let left = list.len() - i;
    if left < 3 || !list.is_word(i, b"repr") || !list.is_word(i + 1, b"end") {
        return None;
    }
    if list.is_sign(i + 2, b";") {
        return Some(i + 2);
    }
    if left > 3 && list.is_word(i + 2, b"repr") && list.is_sign(i + 3, b";") {
        return Some(i + 3);
    }
    None
}

/// Where a section is put into the source of some tokens: in place of an empty one, or of none before the statements.
fn place_in(list: &TokenList) -> Place
    ensures place { IsPlace list.now.source list.now.tokens result.from result.to }
    ensures from { result.from ≤ length list.now.source }
    ensures to { result.to ≤ length list.now.source }
{
    let i = behind_vars(list);
    if i >= list.len() {
        return Place { from: 0, to: 0 };
    }
    let from = list.at(i).from as usize;
    match empty_section(list, i) {
        None => Place { from, to: from },
        Some(last) => Place {
            from,
            to: list.at(last).to as usize,
        },
    }
}

/// The source with a text in place of some bytes. The error is want of memory.
fn put(alloc: Global, source: &[u8], at: Place, text: &[u8]) -> Result<Vec<u8>, AllocError>
    requires from { at.from ≤ length source.now }
    requires to { at.to ≤ length source.now }
    ensures { IfOk result (λ whole. whole.items ≡ with_section source.now text.now at.from at.to) }
{
    let mut whole = Vec::from_slice(alloc, &source[..at.from])?;
    whole.extend_from_slice(text)?;
    whole.extend_from_slice(&source[at.to..])?;
    Ok(whole)
}

/// The source of some tokens with a section where it belongs, and that place. The error is want of memory.
pub fn with_section(
    alloc: Global,
    list: &TokenList,
    text: &[u8],
) -> Result<(Place, Vec<u8>), AllocError>
    ensures whole { IfOk result (λ found. found.1.items ≡ with_section list.now.source text.now found.0.from found.0.to) }
    ensures place { IfOk result (λ found. IsPlace list.now.source list.now.tokens found.0.from found.0.to) }
{
    let at = place_in(list);
    let whole = put(alloc, list.source(), at, text)?;
    Ok((at, whole))
}
