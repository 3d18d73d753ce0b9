//! What names and strings hold.

ghost use Rattle.std.specs.Prelude.{◌≡◌, IfOk, drop};
ghost use Rattle.std.specs.List.{AllByRecursion};
ghost use Rattle.setl_tree.specs.Texts.{IsTextByte};
ghost use Rattle.setl_token.specs.Bytes.{lower};
ghost use Rattle.setl_parse_cursor.specs.Plain as spec;
ghost use Rattle.setl_parse_cursor.specs.Plain.{plain_tokens, next_token};

use setl_token::{TokenKind, TokenList};
use setl_tree::Text;
use std::alloc::{AllocError, Global};

/// Bytes with each doubled apostrophe made single.
fn undoubled(alloc: Global, body: &[u8]) -> Result<Vec<u8>, AllocError>
    ensures { IfOk result (λ v. v.items ≡ spec.undoubled body.now) }
{
    let mut bytes = Vec::new(alloc);
    let mut rest = body;
    while let Some((b, behind)) = rest.split_first() {
        bytes.push(*b)?;
        rest = match behind {
            [_, others @ ..] if *b == b'\'' => others,
            _ => behind,
        };
    }
    Ok(bytes)
}

/// What stands between the first and the last byte.
fn inside(text: &[u8]) -> &[u8]
    ensures { result.now ≡ spec.inside text.now }
{
    if text.len() < 2 {
        return &[];
    }
    &text[1..text.len() - 1]
}

/// A name in lower case.
fn name_text(alloc: Global, text: &[u8]) -> Result<Text, AllocError>
    requires { AllByRecursion IsTextByte (lower text.now) }
    ensures { IfOk result (λ t. t ≡ lower text.now) }
{
    Text::of(alloc, &text.to_ascii_lowercase(alloc)?)
}

/// What a string holds.
fn string_text(alloc: Global, text: &[u8]) -> Result<Text, AllocError>
    requires { AllByRecursion IsTextByte (spec.undoubled (spec.inside text.now)) }
    ensures { IfOk result (λ t. t ≡ spec.undoubled (spec.inside text.now)) }
{
    Text::of(alloc, &undoubled(alloc, inside(text))?)
}

/// What the name or the string with this index holds; nothing where another token or none stands.
pub fn content(alloc: Global, list: &TokenList, at: usize) -> Result<Text, AllocError>
    ensures { IfOk result (λ t. t ≡ (next_token (drop at (plain_tokens list.now))).text) }
{
    if at >= list.len() {
        return Text::of(alloc, &[]);
    }
    match list.at(at).kind {
        TokenKind::Name => name_text(alloc, list.text(at)),
        TokenKind::Str => string_text(alloc, list.text(at)),
        TokenKind::Word => Text::of(alloc, &[]),
        TokenKind::Sign => Text::of(alloc, &[]),
        TokenKind::Number(_) => Text::of(alloc, &[]),
    }
}
