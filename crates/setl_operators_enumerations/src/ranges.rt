//! The ranges `{a..b}`, `[a..b]`, `{a, b..c}` and `[a, b..c]`.

ghost use Rattle.std.specs.Prelude.{◌≡◌, ℤ, map, IfOk, Some};
ghost use Rattle.std.specs.Int.{int_wrap, w128};
ghost use Rattle.setl_value.specs.Datum.{int};
ghost use Rattle.setl_value.specs.code.DatumOf.{datum};
ghost use Rattle.setl_operators_table.specs.Outcome.{adding};
ghost use Rattle.setl_operators_table.specs.Ranges.{spread};
ghost use Rattle.setl_operators_table.specs.RangeRows.{as_set, as_tuple, range_of_integers, stepped_integers};
ghost use Rattle.setl_operators_table.specs.code.Answers.{Tells};
ghost use Rattle.setl_operators_enumerations.specs.Integers.{AreWide};

use crate::counts::{range_count, step_count};
use crate::integers::integers;
use setl_map::gathered;
use setl_operators_table::{Answer, OpFault};
use setl_value::{TupleBody, Value};
use std::alloc::{AllocError, Global};

/// `{a..b}`: the set of the integers from a to b, which charges their number.
pub fn set_range(alloc: Global, a: &Value, b: &Value, turns: u64) -> Result<Answer, OpFault>
    ensures { Tells result (range_of_integers as_set turns (datum a.now) (datum b.now)) }
{
    match (a, b) {
        (Value::Int(a), Value::Int(b)) => set_between(alloc, *a, *b, turns),
        _ => Err(OpFault::Kind),
    }
}

/// `[a..b]`: the tuple of the integers from a to b, which charges their number.
pub fn tuple_range(alloc: Global, a: &Value, b: &Value, turns: u64) -> Result<Answer, OpFault>
    ensures { Tells result (range_of_integers as_tuple turns (datum a.now) (datum b.now)) }
{
    match (a, b) {
        (Value::Int(a), Value::Int(b)) => tuple_between(alloc, *a, *b, turns),
        _ => Err(OpFault::Kind),
    }
}

/// `{a, b..c}`: the set of a, b and on by the same step up to c, which charges their number. Zero for a step 0.
pub fn set_step(
    alloc: Global,
    a: &Value,
    b: &Value,
    c: &Value,
    turns: u64,
) -> Result<Answer, OpFault>
    ensures { Tells result (stepped_integers as_set turns (datum a.now) (datum b.now) (datum c.now)) }
{
    match (a, b) {
        (Value::Int(a), Value::Int(b)) => set_step_to(alloc, *a, *b, c, turns),
        _ => Err(OpFault::Kind),
    }
}

/// `[a, b..c]`: the tuple of a, b and on by the same step up to c, which charges their number. Zero for a step 0.
pub fn tuple_step(
    alloc: Global,
    a: &Value,
    b: &Value,
    c: &Value,
    turns: u64,
) -> Result<Answer, OpFault>
    ensures { Tells result (stepped_integers as_tuple turns (datum a.now) (datum b.now) (datum c.now)) }
{
    match (a, b) {
        (Value::Int(a), Value::Int(b)) => tuple_step_to(alloc, *a, *b, c, turns),
        _ => Err(OpFault::Kind),
    }
}

// `{a..b}` over integers. The turns are tested before any memory is taken, here as below.
fn set_between(alloc: Global, a: i128, b: i128, turns: u64) -> Result<Answer, OpFault>
    ensures { Tells result (range_of_integers as_set turns (int a) (int b)) }
{
    match range_count(a, b, turns) {
        None => Err(OpFault::Spent),
        Some(n) => set_of_integers(alloc, a, 1, n),
    }
}

// `[a..b]` over integers.
fn tuple_between(alloc: Global, a: i128, b: i128, turns: u64) -> Result<Answer, OpFault>
    ensures { Tells result (range_of_integers as_tuple turns (int a) (int b)) }
{
    match range_count(a, b, turns) {
        None => Err(OpFault::Spent),
        Some(n) => tuple_of_integers(alloc, a, 1, n),
    }
}

// `{a, b..c}` over integers a and b.
fn set_step_to(alloc: Global, a: i128, b: i128, c: &Value, turns: u64) -> Result<Answer, OpFault>
    ensures { Tells result (stepped_integers as_set turns (int a) (int b) (datum c.now)) }
{
    let Value::Int(c) = c else {
        return Err(OpFault::Kind);
    };
    if a == b {
        return Err(OpFault::Zero);
    }
    match step_count(a, b, *c, turns) {
        None => Err(OpFault::Spent),
        Some(n) => set_of_integers(alloc, a, b.wrapping_sub(a), n),
    }
}

// `[a, b..c]` over integers a and b.
fn tuple_step_to(alloc: Global, a: i128, b: i128, c: &Value, turns: u64) -> Result<Answer, OpFault>
    ensures { Tells result (stepped_integers as_tuple turns (int a) (int b) (datum c.now)) }
{
    let Value::Int(c) = c else {
        return Err(OpFault::Kind);
    };
    if a == b {
        return Err(OpFault::Zero);
    }
    match step_count(a, b, *c, turns) {
        None => Err(OpFault::Spent),
        Some(n) => tuple_of_integers(alloc, a, b.wrapping_sub(a), n),
    }
}

// The set of n integers from a on, which charges n. The step stands for one that may lie outside 128 bits.
fn set_of_integers(alloc: Global, a: i128, step: i128, n: u64) -> Result<Answer, OpFault>
    ensures { (by : ℤ) → step ≡ int_wrap w128 by → AreWide a by n → Tells result (adding n (as_set (spread a by n))) }
{
    let set = gathered(alloc, integers(alloc, a, step, n)?)?;
    Ok(Answer {
        value: Some(Value::Set(set)),
        charged: n,
    })
}

// The tuple of n integers from a on, which charges n. The step stands for one that may lie outside 128 bits.
fn tuple_of_integers(alloc: Global, a: i128, step: i128, n: u64) -> Result<Answer, OpFault>
    ensures { (by : ℤ) → step ≡ int_wrap w128 by → AreWide a by n → Tells result (adding n (as_tuple (spread a by n))) }
{
    let parts = components(alloc, integers(alloc, a, step, n)?)?;
    Ok(Answer {
        value: Some(Value::Tuple(TupleBody::of(alloc, parts)?)),
        charged: n,
    })
}

// The values as components of a tuple.
fn components(alloc: Global, values: Vec<Value>) -> Result<Vec<Option<Value>>, AllocError>
    ensures { IfOk result (λ ps. ps.items ≡ map Some values.items) }
{
    values.into_iter().map(Some).collect(alloc)
}
