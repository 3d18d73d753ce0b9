//! The texts of values and the line of a `print`.

ghost use Rattle.std.specs.Prelude.{◌≡◌, ◌<◌, ◌++◌, ◌∷◌, [], Some, IfOk, OnOk, length, map, slice_get, decimal};
ghost use Rattle.std.specs.Fmt.{signed_decimal};
ghost use Rattle.std.specs.List.{All};
ghost use Rattle.setl_value.specs.code.Body.{Members};
ghost use Rattle.setl_value.specs.Datum.{bool, set_of, text, tuple_of};
ghost use Rattle.setl_value.specs.code.DatumOf.{datum, part};
ghost use Rattle.setl_text.specs.Texts.{argument_text, doubled, inner_text, part_texts, print_line, spaced};
ghost use Rattle.setl_text.specs.code.TextParts.{blank_before, component_text};

use itoa::Buffer;
use setl_value::{SetBody, Text, TupleBody, Value};
use std::alloc::{AllocError, Global};

/// The text of a value as it stands inside another value.
///
/// Booleans are `true` and `false`, integers decimal, an atom is `#` and its number, a string stands between
/// apostrophes with each apostrophe doubled, a tuple between `[` and `]`, a set in canonical order between `{` and `}`,
/// with one blank between two texts and `*` for `om`. None of its bytes is 10, so it can be a string. The error is want
/// of memory.
pub fn text(alloc: Global, v: &Value) -> Result<Vec<u8>, AllocError>
    ensures text { IfOk result (λ t. t.items ≡ inner_text (datum v.now)) }
    ensures no_line_end { IfOk result (λ t. All (λ b. (b ≡ 10) → ⊥) t.items) }
{
    v.learn();
    let mut into = Vec::new(alloc);
    push_inner(&mut into, v)?;
    Ok(into)
}

/// The line that `print` writes: the texts of its arguments with one blank between two, and byte 10.
///
/// A string stands as it is where it is an argument, and `om`, which is `None`, is `*`. The error is want of memory.
pub fn line(alloc: Global, vs: &[Option<Value>]) -> Result<Vec<u8>, AllocError>
    ensures { IfOk result (λ l. l.items ≡ print_line (map part vs.now)) }
{
    let mut into = Vec::new(alloc);
    'arguments: for (i, v) in vs.iter().enumerate() {
        push_blank(&mut into, i)?;
        push_argument(&mut into, v)?;
    }
    into.push(b'\n')?;
    Ok(into)
}

// Adds the text of an argument of `print`.
fn push_argument(into: &mut Vec<u8>, v: &Option<Value>) -> Result<(), AllocError>
    ensures { OnOk result (into.new.items ≡ into.old.items ++ argument_text (part v.now)) }
{
    match v {
        None => {
            into.push(b'*')?;
            Ok(())
        }
        Some(Value::Text(t)) => into.extend_from_slice(t.bytes()),
        Some(v) => push_inner(into, v),
    }
}

// Adds the blank that stands before the i-th of some texts.
fn push_blank(into: &mut Vec<u8>, i: usize) -> Result<(), AllocError>
    ensures { OnOk result (into.new.items ≡ into.old.items ++ blank_before i) }
{
    if i > 0 {
        into.push(b' ')?;
        Ok(())
    } else {
        Ok(())
    }
}

// Adds the text of a value inside another one.
#[cycle(texts)]
fn push_inner(into: &mut Vec<u8>, v: &Value) -> Result<(), AllocError>
    ensures { OnOk result (into.new.items ≡ into.old.items ++ inner_text (datum v.now)) }
{
    match v {
        Value::Bool(b) => push_boolean(into, *b),
        Value::Int(z) => push_integer(into, *z),
        Value::Text(t) => push_quoted(into, t.bytes()),
        Value::Atom(n) => push_atom(into, *n),
        Value::Tuple(t) => push_tuple(into, t),
        Value::Set(s) => push_set(into, s),
    }
}

// Adds the text of a set.
#[cycle(texts)]
fn push_set(into: &mut Vec<u8>, s: &SetBody) -> Result<(), AllocError>
    ensures { OnOk result (into.new.items ≡ into.old.items ++ inner_text (set_of (Members s.now))) }
{
    into.push(b'{')?;
    push_members(into, s)?;
    into.push(b'}')?;
    Ok(())
}

// Adds the texts of the members with one blank between two.
#[cycle(texts)]
fn push_members(into: &mut Vec<u8>, s: &SetBody) -> Result<(), AllocError>
    ensures { OnOk result (into.new.items ≡ into.old.items ++ spaced (map inner_text (Members s.now))) }
{
    let mut members = s.members();
    let Some(first) = members.next() else {
        return Ok(());
    };
    push_inner(into, first)?;
    'members: for v in members {
        into.push(b' ')?;
        push_inner(into, v)?;
    }
    Ok(())
}

// Adds the text of a tuple.
#[cycle(texts)]
fn push_tuple(into: &mut Vec<u8>, t: &TupleBody) -> Result<(), AllocError>
    ensures { OnOk result (into.new.items ≡ into.old.items ++ inner_text (tuple_of t.now)) }
{
    into.push(b'[')?;
    push_parts(into, t)?;
    into.push(b']')?;
    Ok(())
}

// Adds the texts of the components with one blank between two.
#[cycle(texts)]
fn push_parts(into: &mut Vec<u8>, t: &TupleBody) -> Result<(), AllocError>
    ensures { OnOk result (into.new.items ≡ into.old.items ++ spaced (map component_text t.now)) }
{
    'parts: for i in 0..t.len() {
        push_blank(into, i)?;
        push_part(into, t, i)?;
    }
    Ok(())
}

// Adds the text of the i-th component.
#[cycle(texts)]
fn push_part(into: &mut Vec<u8>, t: &TupleBody, i: usize) -> Result<(), AllocError>
    requires { i < length t.now }
    ensures { (p : _) → slice_get t.now i ≡ Some p → OnOk result (into.new.items ≡ into.old.items ++ component_text p) }
{
    match t.at(i) {
        None => {
            into.push(b'*')?;
            Ok(())
        }
        Some(v) => push_inner(into, v),
    }
}

// Adds the text of a boolean.
fn push_boolean(into: &mut Vec<u8>, b: bool) -> Result<(), AllocError>
    ensures { OnOk result (into.new.items ≡ into.old.items ++ inner_text (bool b)) }
{
    if b {
        into.extend_from_slice(b"true")
    } else {
        into.extend_from_slice(b"false")
    }
}

/// Adds an integer in decimal. The error is want of memory.
pub fn push_integer(into: &mut Vec<u8>, z: i128) -> Result<(), AllocError>
    ensures { OnOk result (into.new.items ≡ into.old.items ++ signed_decimal z) }
{
    let mut buffer = Buffer::new();
    into.extend_from_slice(buffer.format(z).as_bytes())
}

/// Adds a number in decimal. The error is want of memory.
pub fn push_decimal(into: &mut Vec<u8>, n: u64) -> Result<(), AllocError>
    ensures { OnOk result (into.new.items ≡ into.old.items ++ decimal n) }
{
    let mut buffer = Buffer::new();
    into.extend_from_slice(buffer.format(n).as_bytes())
}

// Adds the text of an atom.
fn push_atom(into: &mut Vec<u8>, n: u64) -> Result<(), AllocError>
    ensures { OnOk result (into.new.items ≡ into.old.items ++ 35 ∷ decimal n) }
{
    into.push(b'#')?;
    push_decimal(into, n)
}

/// Adds the text of a string of these bytes inside another value: between apostrophes, each apostrophe in it doubled. The
/// error is want of memory.
pub fn push_quoted(into: &mut Vec<u8>, bytes: &[u8]) -> Result<(), AllocError>
    ensures { OnOk result (into.new.items ≡ into.old.items ++ inner_text (text bytes.now)) }
{
    into.push(b'\'')?;
    push_doubled(into, bytes)?;
    into.push(b'\'')?;
    Ok(())
}

// Adds some bytes with each apostrophe doubled.
fn push_doubled(into: &mut Vec<u8>, bytes: &[u8]) -> Result<(), AllocError>
    ensures { OnOk result (into.new.items ≡ into.old.items ++ doubled bytes.now) }
{
    for b in bytes {
        push_byte(into, *b)?;
    }
    Ok(())
}

// Adds a byte, twice if it is an apostrophe.
fn push_byte(into: &mut Vec<u8>, b: u8) -> Result<(), AllocError>
    ensures { OnOk result (into.new.items ≡ into.old.items ++ doubled (b ∷ [])) }
{
    if b == b'\'' {
        into.extend_from_slice(b"''")
    } else {
        into.push(b)?;
        Ok(())
    }
}
