//! The pieces of a source, which are tokens, blanks and comments, and where each ends.

ghost use Rattle.std.specs.Prelude.{◌≡◌, ◌<◌, ◌≤◌, length, drop, slice_index, IfOk, IfSome};
ghost use Rattle.std.specs.List.{prefix_len};
ghost use Rattle.setl_token.specs.Bytes as bytes;
ghost use Rattle.setl_token.specs.code.Pieces as spec;

use crate::spellings::spelled_kind;
use crate::{Cause, TokenKind};
use setl_tree::Kind;

/// What a piece is.
#[derive(Clone, Copy)]
pub enum PieceKind {
    /// One of the bytes 9, 10, 13 and 32.
    Blank,
    /// From `$` up to the end of the line, without its line feed.
    Comment,
    /// A token.
    Token(TokenKind),
}

/// A token, a blank or a comment.
#[derive(Clone, Copy)]
pub struct Piece {
    /// What it is.
    pub kind: PieceKind,
    /// How many bytes it has.
    pub len: usize,
}

/// A class of bytes of which runs are taken.
#[derive(Clone, Copy)]
pub enum Class {
    /// Digits.
    Digit,
    /// Letters, digits and `_`.
    Word,
    /// All bytes but line feeds.
    Line,
}

fn is_in(class: Class, b: u8) -> bool
    ensures { result ≡ spec.is_in class b }
{
    match class {
        Class::Digit => b.is_ascii_digit(),
        Class::Word => b.is_ascii_alphanumeric() || b == b'_',
        Class::Line => b != b'\n',
    }
}

fn is_blank(b: u8) -> bool
    ensures { result ≡ bytes.is_blank b }
{
    b == b'\t' || b == b'\n' || b == b'\r' || b == b' '
}

/// How many bytes at the front are of the class.
fn run(class: Class, z: &[u8]) -> usize
    ensures value { result ≡ prefix_len (spec.is_in class) z.now }
    ensures within { result ≤ length z.now }
{
    let mut end = 0;
    while end < z.len() && is_in(class, z[end]) {
        end += 1;
    }
    end
}

/// The byte at a place, or 0 past the end.
fn byte_at(z: &[u8], at: usize) -> u8
    ensures value { result ≡ slice_index z.now at }
    ensures within { 0 < result → at < length z.now }
{
    if at < z.len() { z[at] } else { 0 }
}

/// Where a string ends that begins at the front, if it ends.
fn string_end(z: &[u8]) -> Option<usize>
    requires { 0 < length z.now }
    ensures value { result ≡ spec.string_end 1 (drop 1 z.now) }
    ensures within { IfSome result (λ n. (0 < n) × (n ≤ length z.now)) }
{
    let mut at = 1;
    while at < z.len() {
        if z[at] == b'\'' {
            if byte_at(z, at + 1) != b'\'' {
                return Some(at + 1);
            }
            at += 2;
        } else if z[at] == b'\n' {
            return None;
        } else {
            at += 1;
        }
    }
    None
}

/// The greatest number that a source can spell: 2^127 - 1.
const LIMIT: u128 = 170141183460469231731687303715884105727;

/// The number that digits spell, unless it is above the limit.
fn number(digits: &[u8]) -> Option<u128>
    ensures value { result ≡ spec.within_limit (bytes.value_of digits.now) }
    ensures within { IfSome result (λ n. n ≤ LIMIT) }
{
    let mut value: u128 = 0;
    for d in digits {
        let digit = u128::from(d.saturating_sub(b'0'));
        if value > (LIMIT - digit) / 10 {
            return None;
        }
        value = 10 * value + digit;
    }
    Some(value)
}

/// How many bytes the sign has that begins with these two bytes, or 0 if none does.
fn sign_len(b: u8, next: u8) -> usize
    ensures value { result ≡ spec.sign_len b next }
    ensures within { (result ≤ 2) × (result ≡ 2 → 0 < next) }
{
    match (b, next) {
        (b':' | b'/' | b'<' | b'>', b'=') | (b'.', b'.') | (b'*', b'*') => 2,
        (b';' | b':' | b',' | b'(' | b')' | b'{' | b'}' | b'[' | b']', _) => 1,
        (b'|' | b'=' | b'<' | b'>' | b'+' | b'-' | b'*' | b'/' | b'#', _) => 1,
        _ => 0,
    }
}

/// The piece that begins at the front, or why none does.
#[tactic(auto, unfolding(crate::specs::code::Pieces::piece_at))]
pub fn cut(z: &[u8]) -> Result<Piece, Cause>
    requires { 0 < length z.now }
    ensures value { result ≡ spec.piece_at z.now }
    ensures within { IfOk result (λ p. (0 < p.len) × (p.len ≤ length z.now)) }
{
    let b = z[0];
    if is_blank(b) {
        Ok(Piece {
            kind: PieceKind::Blank,
            len: 1,
        })
    } else if b == b'$' {
        Ok(Piece {
            kind: PieceKind::Comment,
            len: run(Class::Line, z),
        })
    } else if b.is_ascii_alphabetic() {
        let len = run(Class::Word, z);
        Ok(Piece {
            kind: PieceKind::Token(word_kind(&z[..len])),
            len,
        })
    } else if b.is_ascii_digit() {
        let len = run(Class::Digit, z);
        match number(&z[..len]) {
            Some(n) => Ok(Piece {
                kind: PieceKind::Token(TokenKind::Number(n as i128)),
                len,
            }),
            None => Err(Cause::WideNumber),
        }
    } else if b == b'\'' {
        match string_end(z) {
            Some(len) => Ok(Piece {
                kind: PieceKind::Token(TokenKind::Str),
                len,
            }),
            None => Err(Cause::OpenString),
        }
    } else {
        match sign_len(b, byte_at(z, 1)) {
            0 => Err(Cause::Byte),
            len => Ok(Piece {
                kind: PieceKind::Token(TokenKind::Sign),
                len,
            }),
        }
    }
}

fn word_kind(text: &[u8]) -> TokenKind
    ensures { result ≡ spec.word_kind text.now }
{
    if spelled_kind(text) == Kind::SourceEnd {
        TokenKind::Name
    } else {
        TokenKind::Word
    }
}
