//! Tokens that are tried at a place.
ghost use Rattle.std.specs.Prelude.{◌≡◌, ◌≢◌, ◌≤◌, ◌^◌, ◌+◌, true, false, length, IfOk};
ghost use Rattle.setl_token.specs.Lex.{Spelled};
ghost use Rattle.setl_explain_next.specs.Next.{continued, GoesOn, GoesOnAt, StandsAt};

use setl_explain_words::sample;
use setl_parse::{ParseFault, one_fault, parse};
use setl_token::{LexFault, TokenList, lexing_is_determined, tokens};
use setl_tree::Kind;
use std::alloc::{AllocError, Global};

/// The source up to a place, and behind it a line feed and a token of a kind.
fn continued(alloc: Global, source: &[u8], at: usize, kind: Kind) -> Result<Vec<u8>, AllocError>
    requires { at ≤ length source.now }
    ensures { IfOk result (λ text. text.items ≡ continued source.now at kind) }
{
    let mut text = Vec::from_slice(alloc, &source[..at])?;
    text.push(b'\n')?;
    text.extend_from_slice(sample(kind).as_bytes())?;
    Ok(text)
}

/// Whether a fault stands elsewhere than at a place. The error is want of memory.
fn stands_elsewhere(fault: ParseFault, place: usize) -> Result<bool, AllocError>
    ensures { IfOk result (λ b. (fault ≢ ParseFault.NoMemory) × (b ≡ true → StandsAt place fault → ⊥) × (b ≡ false → StandsAt place fault)) }
{
    match fault {
        ParseFault::NoMemory => Err(AllocError),
        ParseFault::Syntax { at } => Ok(at as usize != place),
        ParseFault::Nesting { at } => Ok(at as usize != place),
    }
}

/// Whether a source goes on at a place, by its tokens. The error is want of memory.
fn list_goes_on(alloc: Global, list: &TokenList, place: usize) -> Result<bool, AllocError>
    requires { Spelled list.now.source list.now.tokens }
    ensures yes { IfOk result (λ b. b ≡ true → GoesOnAt list.now.source place) }
    ensures no { IfOk result (λ b. b ≡ false → GoesOnAt list.now.source place → ⊥) }
{
    lexing_is_determined();
    one_fault();
    let fault = match parse(alloc, list) {
        Ok(_) => return Ok(true),
        Err(fault) => fault,
    };
    stands_elsewhere(fault, place)
}

/// Whether a text is spelled of tokens that have no fault at a place. The error is want of memory.
fn goes_on_at(alloc: Global, text: &[u8], place: usize) -> Result<bool, AllocError>
    requires { length text.now ≤ 2 ^ 24 }
    ensures yes { IfOk result (λ b. b ≡ true → GoesOnAt text.now place) }
    ensures no { IfOk result (λ b. b ≡ false → GoesOnAt text.now place → ⊥) }
{
    lexing_is_determined();
    match tokens(alloc, text) {
        Ok(list) => list_goes_on(alloc, &list, place),
        Err(LexFault::NoMemory) => Err(AllocError),
        Err(LexFault::Byte { .. }) => Ok(false),
        Err(LexFault::OpenString { .. }) => Ok(false),
        Err(LexFault::WideNumber { .. }) => Ok(false),
    }
}

/// The greatest length of a source. A source of 2^20 bytes with one token more is far below it.
const MOST_SOURCE: usize = 1 << 24;

/// Whether the source up to a place can go on with a token of a kind. The error is want of memory.
pub fn goes_on(alloc: Global, source: &[u8], at: usize, kind: Kind) -> Result<bool, AllocError>
    requires within { at ≤ length source.now }
    requires short { length source.now ≤ 2 ^ 20 }
    ensures yes { IfOk result (λ b. b ≡ true → GoesOn source.now at kind) }
    ensures no { IfOk result (λ b. b ≡ false → GoesOn source.now at kind → ⊥) }
{
    let text = continued(alloc, source, at, kind)?;
    if text.len() > MOST_SOURCE {
        return Err(AllocError);
    }
    goes_on_at(alloc, &text, at + 1)
}
