//! Values that denotations write, and what is written of them.

ghost use Rattle.setl_rep_bases.specs.Bases.{BasesState};
ghost use Rattle.setl_rep_plain.specs.Standing.{held_value, IsHeldOver};
ghost use Rattle.setl_rep_updates.specs.InForm.{IsValueOrOm};

use setl_base::Elt;
use setl_io::SureSource;
use setl_rep_forms::Held;
use setl_rep_maps::content;
use setl_text::{Got, Reader, push_decimal, text};
use setl_value::Value;
use std::alloc::{AllocError, Global};

/// The value that is denoted, or `om`.
pub fn denoted(alloc: Global, denotation: &str) -> Result<Option<Value>, AllocError> {
    let mut input = SureSource::new(denotation.as_bytes().to_vec(alloc)?);
    let mut reader = Reader::new(alloc)?;
    match reader.next(&mut input) {
        Ok(Got::Value(v)) => Ok(Some(v)),
        Ok(_) => Ok(None),
        Err(_) => Err(AllocError),
    }
}

/// The form of a value or of `om`.
pub fn plain_form(value: Option<Value>) -> Held
    ensures over { (bs : BasesState) → IsHeldOver bs result }
    ensures value { (bs : BasesState) → IsValueOrOm (held_value bs result) }
{
    match value {
        None => Held::Om,
        Some(v) => {
            v.learn();
            Held::Plain(v)
        }
    }
}

/// Adds the text of a value, or `*` for `om`, and the end of a line.
pub fn put_value(alloc: Global, v: &Option<Value>, into: &mut Vec<u8>) -> Result<(), AllocError> {
    match v {
        None => into.push(b'*')?,
        Some(v) => put_text(alloc, v, into)?,
    }
    into.push(b'\n')?;
    Ok(())
}

/// Adds the text of a value.
pub fn put_text(alloc: Global, v: &Value, into: &mut Vec<u8>) -> Result<(), AllocError> {
    let inner = text(alloc, v)?;
    into.extend_from_slice(inner.as_slice())
}

/// Adds a form: what is plain, the numbers of a set, an element or a tuple with a word before them, or those of a map with its
/// contents.
pub fn put_form(alloc: Global, h: &Held, into: &mut Vec<u8>) -> Result<(), AllocError> {
    put_single(alloc, h, into)?;
    for n in 0..9 {
        if let Some(c) = content(h, n + 1) {
            put_content(alloc, n + 1, c, into)?;
        }
    }
    Ok(())
}

fn put_content(alloc: Global, n: u64, c: &Held, into: &mut Vec<u8>) -> Result<(), AllocError> {
    into.push(b' ')?;
    push_decimal(into, n)?;
    into.push(b'(')?;
    put_single(alloc, c, into)?;
    into.push(b')')?;
    Ok(())
}

// The same of a map without its contents.
fn put_single(alloc: Global, h: &Held, into: &mut Vec<u8>) -> Result<(), AllocError> {
    match h {
        Held::Om => into.extend_from_slice(b"*"),
        Held::Plain(v) => put_text(alloc, v, into),
        Held::Elt(_, e) => put_numbers("elmt", &[e.block], into),
        Held::Remote(_, bits) => put_list("remote", bits.numbers(alloc)?, into),
        Held::Sparse(_, table) => put_list("sparse", table.numbers(alloc)?, into),
        Held::RemoteMap(_, _, _) => into.extend_from_slice(b"remote map"),
        Held::SparseMap(_, _, _) => into.extend_from_slice(b"sparse map"),
        Held::EltTuple(_, list) => put_tuple(list.as_slice(), into),
    }
}

fn put_tuple(list: &[Option<Elt>], into: &mut Vec<u8>) -> Result<(), AllocError> {
    into.extend_from_slice(b"tuple")?;
    for e in list {
        into.push(b' ')?;
        put_component(e, into)?;
    }
    Ok(())
}

fn put_component(e: &Option<Elt>, into: &mut Vec<u8>) -> Result<(), AllocError> {
    match e {
        None => into.extend_from_slice(b"*"),
        Some(e) => push_decimal(into, e.block),
    }
}

fn put_list(word: &str, numbers: Vec<u64>, into: &mut Vec<u8>) -> Result<(), AllocError> {
    put_numbers(word, numbers.as_slice(), into)
}

fn put_numbers(word: &str, numbers: &[u64], into: &mut Vec<u8>) -> Result<(), AllocError> {
    into.extend_from_slice(word.as_bytes())?;
    for n in numbers {
        into.push(b' ')?;
        push_decimal(into, *n)?;
    }
    Ok(())
}
