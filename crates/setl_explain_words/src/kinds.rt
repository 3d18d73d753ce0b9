//! Kinds of tokens.
ghost use Rattle.std.specs.Prelude.{◌≡◌, ◌++◌, OnOk};
ghost use Rattle.setl_explain_words.specs.Kinds as spec;

use setl_token::spelling;
use setl_tree::Kind;
use std::alloc::AllocError;

/// A token of a kind: the word or sign itself, or some name, number or string; nothing behind the last token.
pub fn sample(kind: Kind) -> &'static str
    ensures { result.now ≡ spec.sample kind }
{
    match kind {
        Kind::Name => "a",
        Kind::Number => "0",
        Kind::StringLiteral => "''",
        _ => spelling(kind),
    }
}

/// Adds how a kind of tokens is told. The error is want of memory.
pub fn push_kind(into: &mut Vec<u8>, kind: Kind) -> Result<(), AllocError>
    ensures { OnOk result (into.new.items ≡ into.old.items ++ spec.kind_text kind) }
{
    match kind {
        Kind::Name => into.extend_from_slice(b"a name"),
        Kind::Number => into.extend_from_slice(b"a number"),
        Kind::StringLiteral => into.extend_from_slice(b"a string"),
        _ => push_spelled(into, kind),
    }
}

/// Adds the word or sign of a kind between grave accents.
fn push_spelled(into: &mut Vec<u8>, kind: Kind) -> Result<(), AllocError>
    ensures { OnOk result (into.new.items ≡ into.old.items ++ spec.quoted kind) }
{
    into.push(b'`')?;
    into.extend_from_slice(spelling(kind).as_bytes())?;
    into.push(b'`')?;
    Ok(())
}
