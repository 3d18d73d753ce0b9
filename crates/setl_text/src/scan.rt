//! The steps of the reader of denotations, byte by byte.

ghost use Rattle.std.specs.Prelude.{◌≡◌, ◌<◌, ◌+◌, ◌*◌, ◌++◌, ◌∷◌, [], true, List, Some};
ghost use Rattle.std.specs.List.{All, AllByRecursion};
ghost use Rattle.setl_value.specs.Datum.{depth};
ghost use Rattle.setl_value.specs.code.DatumOf.{datum};
ghost use Rattle.setl_text.specs.Bytes.{IsLow, is_digit, is_letter, lower, signed};
ghost use Rattle.setl_text.specs.Reading as spec;
ghost use Rattle.setl_text.specs.Reading.{Open};
ghost use Rattle.setl_text.specs.code.Scans.{token_of, opens, TokenFits, IsShallow, Feeds, Finishes, begin_mark};

use crate::place::{Collection, Put, close_set, close_tuple, open, place, push, take_through};
use crate::{Got, ReadFault};
use setl_value::{Text, Value};
use std::alloc::Global;

/// How much of an integer, word or string was taken: nothing, a minus sign, digits and whether a minus sign stands
/// before them, letters with the boolean that they begin and the letters that it still wants, the bytes of a string,
/// or these and an apostrophe behind them.
#[derive(Drop)]
pub(crate) enum Piece {
    Idle,
    Minus,
    Digits(bool, u128),
    Letters(bool, &'static [u8]),
    Quoted(Vec<u8>),
    Apostrophe(Vec<u8>),
}

/// What a byte did: it was taken, or the denotation of a value or of `om` ends behind it or before it.
#[derive(Drop)]
pub(crate) enum Fed {
    More(Piece),
    Through(Option<Value>),
    Before(Option<Value>),
}

/// Takes the next byte, unless the denotation ends before it.
pub(crate) fn feed(
    alloc: Global,
    piece: Piece,
    opened: &mut Vec<Collection>,
    b: u8,
) -> Result<Fed, ReadFault>
    requires token { TokenFits (token_of piece) }
    requires shallow { IsShallow (opens opened.old.items) }
    ensures { Feeds (spec.step (token_of piece) (opens opened.old.items) b) (opens opened.new.items) result }
{
    match piece {
        Piece::Idle => begin(alloc, opened, b),
        Piece::Minus => after_minus(b),
        Piece::Digits(negative, size) => in_number(alloc, opened, negative, size, b),
        Piece::Letters(value, wanted) => in_word(alloc, opened, value, wanted, b),
        Piece::Quoted(bytes) => in_string(bytes, b),
        Piece::Apostrophe(bytes) => after_quote(alloc, opened, bytes, b),
    }
}

/// Takes the end of the input.
pub(crate) fn finish(
    alloc: Global,
    piece: Piece,
    opened: &mut Vec<Collection>,
) -> Result<Got, ReadFault>
    requires token { TokenFits (token_of piece) }
    requires shallow { IsShallow (opens opened.old.items) }
    ensures { Finishes (spec.finish (token_of piece) (opens opened.old.items)) result }
{
    match piece {
        Piece::Idle => finish_idle(opened),
        Piece::Minus => Err(ReadFault::Form),
        Piece::Digits(negative, size) => last(opened, Value::Int(integer(negative, size))),
        Piece::Letters(value, wanted) => finish_word(opened, value, wanted),
        Piece::Quoted(_) => Err(ReadFault::Form),
        Piece::Apostrophe(bytes) => last(opened, Value::Text(Text::from_bytes(alloc, bytes)?)),
    }
}

// Takes the end of the input between integers, words and strings.
fn finish_idle(opened: &Vec<Collection>) -> Result<Got, ReadFault>
    ensures { Finishes (spec.finish spec.Between (opens opened.now.items)) result }
{
    if opened.is_empty() {
        Ok(Got::End)
    } else {
        Err(ReadFault::Form)
    }
}

// Takes the end of the input in or behind a word.
fn finish_word(opened: &mut Vec<Collection>, value: bool, wanted: &[u8]) -> Result<Got, ReadFault>
    requires shallow { IsShallow (opens opened.old.items) }
    ensures { Finishes (spec.finish (spec.InWord value wanted.now) (opens opened.old.items)) result }
{
    match wanted.split_first() {
        None => last(opened, Value::Bool(value)),
        Some(_) => Err(ReadFault::Form),
    }
}

// The answer for a value that ends with the input.
fn last(opened: &mut Vec<Collection>, v: Value) -> Result<Got, ReadFault>
    requires flat { depth (datum v) ≡ 0 }
    requires shallow { IsShallow (opens opened.old.items) }
    ensures { Finishes (spec.placed_at_end (spec.put_value (Some (datum v)) (opens opened.old.items))) result }
{
    match place(opened, Some(v))? {
        Put::Alone(Some(v)) => Ok(Got::Value(v)),
        Put::Alone(None) => Ok(Got::Om),
        Put::Inner => Err(ReadFault::Form),
    }
}

// Takes a byte between integers, words and strings.
fn begin(alloc: Global, opened: &mut Vec<Collection>, b: u8) -> Result<Fed, ReadFault>
    requires shallow { IsShallow (opens opened.old.items) }
    ensures { Feeds (spec.begin (opens opened.old.items) b) (opens opened.new.items) result }
{
    if is_space(opened, b) {
        return Ok(Fed::More(Piece::Idle));
    }
    if is_number_byte(b) {
        return Ok(Fed::More(Piece::Digits(false, u128::from(b - b'0'))));
    }
    if is_word_byte(b) {
        return begin_word(b);
    }
    begin_sign(alloc, opened, b)
}

// Takes a byte that isn't a blank, a digit or a letter.
fn begin_sign(alloc: Global, opened: &mut Vec<Collection>, b: u8) -> Result<Fed, ReadFault>
    requires shallow { IsShallow (opens opened.old.items) }
    ensures { Feeds (begin_mark (opens opened.old.items) b) (opens opened.new.items) result }
{
    match b {
        b'{' => open(opened, Collection::InSet(Vec::new(alloc))),
        b'[' => open(opened, Collection::InTuple(Vec::new(alloc))),
        b'}' => close_set(alloc, opened),
        b']' => close_tuple(alloc, opened),
        b'*' => take_through(opened, None),
        b'\'' => Ok(Fed::More(Piece::Quoted(Vec::new(alloc)))),
        b'-' => Ok(Fed::More(Piece::Minus)),
        _ => Err(ReadFault::Form),
    }
}

// Takes the first letter of a word.
#[tactic(auto, using(crate::proofs::Fails::low_rue, crate::proofs::Fails::low_alse))]
fn begin_word(b: u8) -> Result<Fed, ReadFault>
    ensures { (os : List Open) → IsShallow os → Feeds (spec.first_letter b os) os result }
{
    match lower_case(b) {
        b't' => Ok(Fed::More(Piece::Letters(true, b"rue"))),
        b'f' => Ok(Fed::More(Piece::Letters(false, b"alse"))),
        _ => Err(ReadFault::Form),
    }
}

// Takes a byte behind a value without sets and tuples that ends before it.
fn begin_behind(
    alloc: Global,
    opened: &mut Vec<Collection>,
    v: Value,
    b: u8,
) -> Result<Fed, ReadFault>
    requires flat { depth (datum v) ≡ 0 }
    requires shallow { IsShallow (opens opened.old.items) }
    ensures { Feeds (spec.before (spec.put_value (Some (datum v)) (opens opened.old.items)) b) (opens opened.new.items) result }
{
    match place(opened, Some(v))? {
        Put::Alone(v) => Ok(Fed::Before(v)),
        Put::Inner => begin(alloc, opened, b),
    }
}

// Takes a byte behind a minus sign.
fn after_minus(b: u8) -> Result<Fed, ReadFault>
    ensures { (os : List Open) → IsShallow os → Feeds (spec.after_minus os b) os result }
{
    if is_number_byte(b) {
        Ok(Fed::More(Piece::Digits(true, u128::from(b - b'0'))))
    } else {
        Err(ReadFault::Form)
    }
}

// Takes a byte behind digits.
fn in_number(
    alloc: Global,
    opened: &mut Vec<Collection>,
    negative: bool,
    size: u128,
    b: u8,
) -> Result<Fed, ReadFault>
    requires small { spec.within negative size ≡ true }
    requires shallow { IsShallow (opens opened.old.items) }
    ensures { Feeds (spec.in_number negative size (opens opened.old.items) b) (opens opened.new.items) result }
{
    if is_number_byte(b) {
        next_digit(negative, size, b - b'0')
    } else {
        begin_behind(alloc, opened, Value::Int(integer(negative, size)), b)
    }
}

/// The greatest size of an integer that isn't negative: 2^127 - 1.
const GREATEST: u128 = 170141183460469231731687303715884105727;

// One more digit of an integer.
fn next_digit(negative: bool, size: u128, digit: u8) -> Result<Fed, ReadFault>
    requires small { spec.within negative size ≡ true }
    requires one { digit < 10 }
    ensures { (os : List Open) → IsShallow os → Feeds (spec.sized negative (size * 10 + digit) os) os result }
{
    let limit = if negative { GREATEST + 1 } else { GREATEST };
    let digit = u128::from(digit);
    if size > (limit - digit) / 10 {
        Err(ReadFault::Wide)
    } else {
        Ok(Fed::More(Piece::Digits(negative, size * 10 + digit)))
    }
}

// The integer of this size.
fn integer(negative: bool, size: u128) -> i128
    requires { spec.within negative size ≡ true }
    ensures { result ≡ signed negative size }
{
    if !negative {
        size as i128
    } else if size == 0 {
        0
    } else {
        -((size - 1) as i128) - 1
    }
}

// Takes a byte behind letters.
fn in_word(
    alloc: Global,
    opened: &mut Vec<Collection>,
    value: bool,
    wanted: &'static [u8],
    b: u8,
) -> Result<Fed, ReadFault>
    requires low { AllByRecursion IsLow wanted.now }
    requires shallow { IsShallow (opens opened.old.items) }
    ensures { Feeds (spec.in_word value wanted.now (opens opened.old.items) b) (opens opened.new.items) result }
{
    match wanted.split_first() {
        None => behind_word(alloc, opened, value, b),
        Some((w, ws)) => {
            if lower_case(b) == *w {
                Ok(Fed::More(Piece::Letters(value, ws)))
            } else {
                Err(ReadFault::Form)
            }
        }
    }
}

// Takes a byte behind a whole word.
fn behind_word(
    alloc: Global,
    opened: &mut Vec<Collection>,
    value: bool,
    b: u8,
) -> Result<Fed, ReadFault>
    requires shallow { IsShallow (opens opened.old.items) }
    ensures { Feeds (spec.in_word value [] (opens opened.old.items) b) (opens opened.new.items) result }
{
    if is_word_byte(b) {
        Err(ReadFault::Form)
    } else {
        begin_behind(alloc, opened, Value::Bool(value), b)
    }
}

// Takes a byte of a string.
fn in_string(bytes: Vec<u8>, b: u8) -> Result<Fed, ReadFault>
    requires { All (λ b. (b ≡ 10) → ⊥) bytes.items }
    ensures { (os : List Open) → IsShallow os → Feeds (spec.in_string bytes.items os b) os result }
{
    match b {
        b'\'' => Ok(Fed::More(Piece::Apostrophe(bytes))),
        b'\n' => Err(ReadFault::Form),
        _ => longer(bytes, b),
    }
}

// The string with one more byte.
fn longer(bytes: Vec<u8>, b: u8) -> Result<Fed, ReadFault>
    requires lines { All (λ b. (b ≡ 10) → ⊥) bytes.items }
    requires other { (b ≡ 10) → ⊥ }
    ensures { (os : List Open) → IsShallow os → Feeds (spec.Goes (spec.InString (bytes.items ++ b ∷ [])) os) os result }
{
    let mut bytes = bytes;
    push(&mut bytes, b)?;
    Ok(Fed::More(Piece::Quoted(bytes)))
}

// Takes a byte behind an apostrophe in or behind a string.
fn after_quote(
    alloc: Global,
    opened: &mut Vec<Collection>,
    bytes: Vec<u8>,
    b: u8,
) -> Result<Fed, ReadFault>
    requires lines { All (λ b. (b ≡ 10) → ⊥) bytes.items }
    requires shallow { IsShallow (opens opened.old.items) }
    ensures { Feeds (spec.after_quote bytes.items (opens opened.old.items) b) (opens opened.new.items) result }
{
    if b == b'\'' {
        longer(bytes, b)
    } else {
        begin_behind(
            alloc,
            opened,
            Value::Text(Text::from_bytes(alloc, bytes)?),
            b,
        )
    }
}

// ---- bytes

fn is_space(opened: &Vec<Collection>, b: u8) -> bool
    ensures { result ≡ spec.gap_at (opens opened.now.items) b }
{
    match b {
        b'\t' | b'\n' | b'\r' | b' ' => true,
        b',' => !opened.is_empty(),
        _ => false,
    }
}

fn is_number_byte(b: u8) -> bool
    ensures { result ≡ is_digit b }
{
    b'0' <= b && b <= b'9'
}

fn is_word_byte(b: u8) -> bool
    ensures { result ≡ is_letter b }
{
    b'A' <= b && b <= b'Z' || b'a' <= b && b <= b'z'
}

// The letter in lower case.
fn lower_case(b: u8) -> u8
    ensures { result ≡ lower b }
{
    if b'A' <= b && b <= b'Z' { b + 32 } else { b }
}
