//! The lexer of SETL: the bytes of a source, cut into tokens by a table of reserved words and signs.
//!
//! A source is tokens, blanks and comments put together, each the longest that begins at its place. Blanks are the
//! bytes 9, 10, 13 and 32. A comment begins with `$` and runs up to the end of its line. Tokens are words, names,
//! numbers, strings and signs. Bytes from 128 stand only in strings and comments.
#![tactic(auto)]

ghost use Rattle.std.specs.Prelude.{◌≡◌, ◌==◌, ◌<◌, ◌≤◌, ◌^◌, ◌⊎◌, ℕ, length, count_by, List, [], IfOk, IfErr, MatchResult};
ghost use Rattle.std.specs.Result.{IsErrAnd};
ghost use Rattle.setl_token.specs.Lex.{Spelled, LexFails, Tells, fault_of};

mod laws;
mod pieces;
mod spellings;

pub use laws::{blank_ends_token, lexing_is_determined, piece_at_is_longest};
use pieces::{PieceKind, cut};
use spellings::reads_as;
pub use spellings::{spelled_kind, spelling};
use std::alloc::{AllocError, AllocFailed, Global};
use std::marker::Model;
use thiserror::Error;

/// What a token is.
#[derive(Clone, Copy, Debug, PartialEq, Eq)]
pub enum TokenKind {
    /// A reserved word, in letters of either case.
    Word,
    /// A letter, then letters, digits and `_`, which is no reserved word. Upper case is read as lower case.
    Name,
    /// A whole run of digits, with its value, which is at most 2^127 - 1.
    Number(i128),
    /// An apostrophe, bytes other than byte 10 with each apostrophe doubled, and an apostrophe.
    Str,
    /// One of `:=` `..` `/=` `<=` `>=` `**` `;` `:` `,` `(` `)` `{` `}` `[` `]` `|` `=` `<` `>` `+` `-` `*` `/` `#`.
    Sign,
}

/// A token of a source.
#[derive(Clone, Copy, Debug, PartialEq, Eq)]
pub struct Token {
    /// What it is.
    pub kind: TokenKind,
    /// The place of its first byte, counted from 0.
    pub from: u32,
    /// The place behind its last byte.
    pub to: u32,
    /// Its line: 1 plus the number of bytes 10 before it.
    pub line: u32,
}

/// The tokens of the longest source stay below 1 GB.
const _: () = prove!(size_of::<Token>() <= 48);

/// Why no token, blank or comment begins at a place.
#[derive(Clone, Copy, Debug, PartialEq, Eq)]
pub enum Cause {
    /// The byte there begins none. A single `.` is such a byte.
    Byte,
    /// A string begins there that has no closing apostrophe on its line.
    OpenString,
    /// A run of digits begins there whose value is above 2^127 - 1.
    WideNumber,
}

/// Why a source has no tokens: the first lexical fault and its place, counted in bytes from 0, or want of memory.
#[derive(Clone, Copy, Debug, PartialEq, Eq, Error)]
pub enum LexFault {
    /// At this place a byte stands that begins no token, blank or comment.
    #[error("byte {at} begins no token")]
    Byte { at: u32 },
    /// At this place a string begins that has no closing apostrophe on its line.
    #[error("the string at byte {at} isn't closed")]
    OpenString { at: u32 },
    /// At this place a number begins that is above 2^127 - 1.
    #[error("the number at byte {at} is too large")]
    WideNumber { at: u32 },
    /// Memory ran out.
    #[error("out of memory")]
    NoMemory,
}

impl From<AllocError> for LexFault {
    ghost use Rattle.std.specs.Prelude.{◌≡◌};
    ghost use Rattle.setl_token.specs.declared.LexFault.TheVariants.{NoMemory};

    ghost from_gives = { λ _ e. e ≡ NoMemory };

    fn from(_e: AllocError) -> LexFault {
        LexFault::NoMemory
    }
}

impl<T: Drop> From<AllocFailed<T>> for LexFault {
    ghost use Rattle.std.specs.Prelude.{◌≡◌};
    ghost use Rattle.setl_token.specs.declared.LexFault.TheVariants.{NoMemory};

    ghost from_gives = { λ _ e. e ≡ NoMemory };

    fn from(_e: AllocFailed<T>) -> LexFault {
        LexFault::NoMemory
    }
}

fn fault_at(cause: Cause, place: u32) -> LexFault
    ensures { result ≡ fault_of cause place }
{
    match cause {
        Cause::Byte => LexFault::Byte { at: place },
        Cause::OpenString => LexFault::OpenString { at: place },
        Cause::WideNumber => LexFault::WideNumber { at: place },
    }
}

/// A source with the list of its tokens.
#[derive(Drop)]
pub struct TokenList {
    source: Vec<u8>,
    tokens: Vec<Token>,
}

impl Model for TokenList {
    ghost use Rattle.setl_token.specs.Text.{Lexed, IsLexed};

    ghost Value = { Lexed };

    ghost view = { λ l. record { source = l.source.items; tokens = l.tokens.items } };

    ghost invariant = { λ l. IsLexed l.source.items l.tokens.items };
}

impl TokenList {
    ghost use Rattle.std.specs.Prelude.{◌↔◌, IsTrue, IfSome, Some, slice_get};
    ghost use Rattle.std.specs.Option.{IsSomeAnd};
    ghost use Rattle.setl_token.specs.Text.{token_text, IsFormed, IsWord, IsSign};

    /// How many tokens there are. The tokens of a list are always those of its source.
    pub fn len(&self) -> usize
        ensures value { result ≡ length self.now.tokens }
        ensures few { result ≤ length self.now.source }
        ensures spelled { Spelled self.now.source self.now.tokens }
    {
        self.tokens.len()
    }

    /// Whether there is no token.
    pub fn is_empty(&self) -> bool
        ensures { IsTrue result ↔ (self.now.tokens ≡ []) }
    {
        self.tokens.is_empty()
    }

    /// The token with this index, counted from 0. Its bytes are of the form of its kind.
    pub fn at(&self, i: usize) -> &Token
        requires { i < length self.now.tokens }
        ensures value { slice_get self.now.tokens i ≡ Some result.now }
        ensures some { result.now.from < result.now.to }
        ensures within { result.now.to ≤ length self.now.source }
        ensures formed { IsFormed self.now.source result.now }
    {
        &self.tokens[i]
    }

    /// The source, whole.
    pub fn source(&self) -> &[u8]
        ensures value { result.now ≡ self.now.source }
        ensures short { length result.now ≤ 2 ^ 24 }
    {
        &self.source
    }

    /// The bytes of the token with this index.
    pub fn text(&self, i: usize) -> &[u8]
        requires { i < length self.now.tokens }
        ensures { IfSome (slice_get self.now.tokens i) (λ t. result.now ≡ token_text self.now.source t) }
    {
        let token = self.at(i);
        &self.source[token.from as usize..token.to as usize]
    }

    /// Whether there is a token with this index and it is this reserved word, given in lower case, whatever the case
    /// of its own letters.
    pub fn is_word(&self, i: usize, word: &[u8]) -> bool
        ensures { IsTrue result
            ↔ IsSomeAnd (slice_get self.now.tokens i) (λ t. IsWord self.now.source t word.now) }
    {
        i < self.len() && matches!(self.at(i).kind, TokenKind::Word) && reads_as(self.text(i), word)
    }

    /// Whether there is a token with this index and it is this sign.
    pub fn is_sign(&self, i: usize, sign: &[u8]) -> bool
        ensures { IsTrue result
            ↔ IsSomeAnd (slice_get self.now.tokens i) (λ t. IsSign self.now.source t sign.now) }
    {
        i < self.len() && matches!(self.at(i).kind, TokenKind::Sign) && self.text(i) == sign
    }
}

/// How many line feeds there are.
fn line_feeds(z: &[u8]) -> usize
    ensures value { result ≡ count_by (λ b. b == 10) z.now }
    ensures within { result ≤ length z.now }
{
    z.iter().filter(|b| **b == b'\n').count()
}

/// The tokens of a source.
///
/// # Errors
///
/// `Byte`, `OpenString` and `WideNumber` tell the first place where no token, blank or comment begins, and why.
/// `NoMemory` if memory runs out.
pub fn tokens(alloc: Global, source: &[u8]) -> Result<TokenList, LexFault>
    requires { length source.now ≤ 2 ^ 24 }
    ensures source { IfOk result (λ l. l.source ≡ source.now) }
    ensures spelled { IfOk result (λ l. Spelled source.now l.tokens) }
    ensures fails { IfErr result (Tells source.now) }
    ensures lexes { (ts : List Token) → Spelled source.now ts
        → MatchResult result (λ l. l.tokens ≡ ts) (λ e. e ≡ LexFault.NoMemory) }
    ensures refuses { (cause : Cause) (place : ℕ) → LexFails source.now cause place
        → IsErrAnd result (λ e. (e ≡ fault_of cause place) ⊎ (e ≡ LexFault.NoMemory)) }
{
    let mut tokens = Vec::new(alloc);
    let mut at = 0;
    let mut line = 1;
    while at < source.len() {
        let rest = &source[at..];
        let piece = match cut(rest) {
            Ok(piece) => piece,
            Err(cause) => return Err(fault_at(cause, at as u32)),
        };
        let to = at + piece.len;
        if let PieceKind::Token(kind) = piece.kind {
            tokens.push(Token {
                kind,
                from: at as u32,
                to: to as u32,
                line,
            })?;
        }
        line += line_feeds(&source[at..to]) as u32;
        at = to;
    }
    Ok(TokenList {
        source: source.to_vec(alloc)?,
        tokens,
    })
}
