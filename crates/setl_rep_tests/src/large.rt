//! Bases with many members, and modes and values that are deep.

use crate::holding::{bases, count, fitting};
use crate::modes::mode;
use crate::values::{denoted, put_value};
use setl_modes::Mode;
use setl_operators::{Operator, op};
use setl_rep_bases::Bases;
use setl_rep_forms::Held;
use setl_rep_kernels::{is_in, size};
use setl_rep_plain::plain;
use setl_value::Value;
use std::alloc::{AllocError, Global};
use std::process::Abort;
use std::test::Fail;

const MANY: u64 = 100_000;

// The set of the integers from 1 to `MANY`.
fn many(alloc: Global) -> Result<Option<Value>, AllocError> {
    let mut bounds = Vec::new(alloc);
    bounds.push(Some(Value::Int(1)))?;
    bounds.push(Some(Value::Int(i128::from(MANY))))?;
    match op(alloc, Operator::SetRange, bounds, u64::MAX) {
        Ok(a) => Ok(a.value),
        Err(_) => Ok(None),
    }
}

#[test]
fn a_base_has_a_hundred_thousand_members(rt: HostRuntime) -> Result<(), Fail> {
    let alloc = rt.alloc();
    let mut bases = bases(&rt, alloc, "[]")?;
    expect_many(&rt, alloc, &mode(alloc, "remote_set elmt int")?, &mut bases)?;
    Ok(())
}

fn expect_many(
    rt: &impl Abort,
    alloc: Global,
    mode: &Mode,
    bases: &mut Bases,
) -> Result<(), AllocError> {
    let h = fitting(rt, alloc, mode, many(alloc)?, bases)?;
    assert_eq!(rt; count(rt, bases, 0), MANY);
    assert_eq!(rt; size(&h, bases), Some(MANY));
    let last = Held::Plain(Value::Int(i128::from(MANY)));
    assert_eq!(rt; is_in(&last, &h, bases), Some(true));
    Ok(())
}

// Words of a mode, and of a value before and behind the innermost one.
const DEEP: [(&str, &str, &str, &str, &str); 2] = [
    ("plain_set ", "remote_set elmt int", "{", "{1}", "}"),
    ("remote_smap elmt int ", "int", "{[1 ", "5", "]}"),
];

#[test]
fn forms_lie_two_hundred_deep_in_one_another(rt: HostRuntime) -> Result<(), Fail> {
    for (word, last, open, inner, shut) in DEEP {
        let words = repeated(rt.alloc(), word, last, "")?;
        let value = repeated(rt.alloc(), open, inner, shut)?;
        expect_deep(&rt, rt.alloc(), words.as_str(), value.as_str())?;
    }
    Ok(())
}

// The first text 199 times, the second one, and the third one 199 times.
fn repeated(alloc: Global, first: &str, inner: &str, last: &str) -> Result<String, AllocError> {
    let mut text = String::new(alloc);
    for _i in 0..199 {
        text.push_str(first)?;
    }
    text.push_str(inner)?;
    for _i in 0..199 {
        text.push_str(last)?;
    }
    Ok(text)
}

fn expect_deep(rt: &impl Abort, alloc: Global, words: &str, value: &str) -> Result<(), AllocError> {
    let mut bases = bases(rt, alloc, "[]")?;
    let mode = mode(alloc, words)?;
    let h = fitting(rt, alloc, &mode, denoted(alloc, value)?, &mut bases)?;
    assert_eq!(rt; count(rt, &bases, 0), 1);
    let mut shown = Vec::new(alloc);
    put_value(alloc, &plain(alloc, &h, &bases)?, &mut shown)?;
    assert_eq!(rt; shown.len(), value.len() + 1);
    Ok(())
}
