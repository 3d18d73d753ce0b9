//! The arithmetic operators, some of which serve sets, tuples and strings too.

ghost use Rattle.std.specs.Prelude.{◌≡◌, ◌<◌, ◌≤◌, ◌<ℤ◌, ◌++◌, ◌⊎◌, ℕ, pos, MatchResult, OnErr};
ghost use Rattle.setl_value.specs.code.Body.{Members};
ghost use Rattle.setl_value.specs.Datum.{int, set_of, text, tuple_of};
ghost use Rattle.setl_value.specs.code.DatumOf.{datum};
ghost use Rattle.setl_operators_table.specs.Outcome.{value};
ghost use Rattle.setl_operators_table.specs.Numbers.{negate, absolute, is_even, is_odd, raise, divide, greater, lesser, plus, minus, modulo, times, replicated, whole};
ghost use Rattle.setl_operators_table.specs.code.Answers.{Changes, Tells};

use setl_operators_table::answers::{free, set, string, truth, tuple, whole};
use setl_operators_table::{Answer, OpFault};
use setl_scalar::ScalarFault;
use setl_value::{SetBody, Text, TupleBody, Value};
use std::alloc::Global;

/// `- v` of an integer. Kind for any other value, Wide for the least integer.
pub fn negate(v: &Value) -> Result<Answer, OpFault>
    ensures { Tells result (negate (datum v.now)) }
{
    match v {
        Value::Int(z) => whole(setl_scalar::neg(*z)),
        _ => Err(OpFault::Kind),
    }
}

/// `abs v` of an integer. Kind for any other value, Wide for the least integer.
pub fn absolute(v: &Value) -> Result<Answer, OpFault>
    ensures { Tells result (absolute (datum v.now)) }
{
    match v {
        Value::Int(z) => whole(setl_scalar::abs(*z)),
        _ => Err(OpFault::Kind),
    }
}

/// `even v`: whether an integer is a multiple of 2. Kind for any other value.
pub fn even(v: &Value) -> Result<Answer, OpFault>
    ensures { Tells result (is_even (datum v.now)) }
{
    match v {
        Value::Int(z) => truth(z.unsigned_abs() % 2 == 0),
        _ => Err(OpFault::Kind),
    }
}

/// `odd v`: whether an integer is no multiple of 2. Kind for any other value.
pub fn odd(v: &Value) -> Result<Answer, OpFault>
    ensures { Tells result (is_odd (datum v.now)) }
{
    match v {
        Value::Int(z) => truth(z.unsigned_abs() % 2 == 1),
        _ => Err(OpFault::Kind),
    }
}

/// `a ** b` of integers, where `0 ** 0` is 1. Kind for other operands, Range for a negative exponent, Wide past 128 bits.
pub fn power(a: &Value, b: &Value) -> Result<Answer, OpFault>
    ensures { Tells result (raise (datum a.now) (datum b.now)) }
{
    match (a, b) {
        (Value::Int(x), Value::Int(y)) => whole(setl_scalar::power(*x, *y)),
        _ => Err(OpFault::Kind),
    }
}

/// `a div b` of integers, rounded towards zero. Kind for other operands, Zero for a divisor 0, Wide past 128 bits.
pub fn divide(a: &Value, b: &Value) -> Result<Answer, OpFault>
    ensures { Tells result (divide (datum a.now) (datum b.now)) }
{
    match (a, b) {
        (Value::Int(x), Value::Int(y)) => whole(setl_scalar::div(*x, *y)),
        _ => Err(OpFault::Kind),
    }
}

/// `a max b` of integers. Kind for other operands.
pub fn greater(a: &Value, b: &Value) -> Result<Answer, OpFault>
    ensures { Tells result (greater (datum a.now) (datum b.now)) }
{
    match (a, b) {
        (Value::Int(x), Value::Int(y)) => free(Value::Int(if *x <= *y { *y } else { *x })),
        _ => Err(OpFault::Kind),
    }
}

/// `a min b` of integers. Kind for other operands.
pub fn lesser(a: &Value, b: &Value) -> Result<Answer, OpFault>
    ensures { Tells result (lesser (datum a.now) (datum b.now)) }
{
    match (a, b) {
        (Value::Int(x), Value::Int(y)) => free(Value::Int(if *x <= *y { *x } else { *y })),
        _ => Err(OpFault::Kind),
    }
}

/// `a + b`: the sum of integers, the union of sets, one tuple or string after the other. Kind for other operands, Wide
/// past 128 bits.
#[tactic(auto, using(crate::proofs::Views::members_back, crate::proofs::Views::parts_back))]
pub fn plus(alloc: Global, a: &Value, b: &Value) -> Result<Answer, OpFault>
    ensures { Tells result (plus (datum a.now) (datum b.now)) }
{
    match (a, b) {
        (Value::Int(x), Value::Int(y)) => whole(setl_scalar::add(*x, *y)),
        (Value::Set(x), Value::Set(y)) => set(setl_set::union(alloc, x, y)?),
        (Value::Tuple(x), Value::Tuple(y)) => tuple(setl_tuple::cat(alloc, x, y)?),
        (Value::Text(x), Value::Text(y)) => joined(alloc, x, y),
        _ => Err(OpFault::Kind),
    }
}

/// The bytes of one string, then those of the other.
fn joined(alloc: Global, a: &Text, b: &Text) -> Result<Answer, OpFault>
    ensures { Tells result (value (text (a.now ++ b.now))) }
{
    match setl_scalar::cat(alloc, a, b) {
        Ok(t) => string(t),
        Err(_) => Err(OpFault::NoMemory),
    }
}

/// `a + b` in place, which answers what it charges: no turn. A tuple or string that has no other owner grows where it
/// stands. The faults are those of `plus`; after a fault `a` is as before.
pub fn plus_in_place(alloc: Global, a: &mut Value, b: &Value) -> Result<u64, OpFault>
    ensures changes { Changes result (plus (datum a.old) (datum b.now)) (datum a.new) }
    ensures refused { OnErr result (a.new ≡ a.old) }
{
    match a {
        Value::Int(x) => add_integer(x, b),
        Value::Set(x) => add_set(alloc, x, b),
        Value::Tuple(x) => append_tuple(x, b),
        Value::Text(x) => append_string(x, b),
        Value::Bool(_) => Err(OpFault::Kind),
        Value::Atom(_) => Err(OpFault::Kind),
    }
}

/// An integer with any value added to it.
fn add_integer(x: &mut i128, b: &Value) -> Result<u64, OpFault>
    ensures changes { Changes result (plus (int x.old) (datum b.now)) (int x.new) }
    ensures refused { OnErr result (x.new ≡ x.old) }
{
    let Value::Int(y) = b else {
        return Err(OpFault::Kind);
    };
    write(x, setl_scalar::add(*x, *y))
}

/// Writes what an operation on integers gave, if it gave one.
fn write(x: &mut i128, given: Result<i128, ScalarFault>) -> Result<u64, OpFault>
    ensures changes { Changes result (whole given) (int x.new) }
    ensures refused { OnErr result (x.new ≡ x.old) }
{
    match given {
        Ok(z) => {
            *x = z;
            Ok(0)
        }
        Err(ScalarFault::Wide) => Err(OpFault::Wide),
        Err(ScalarFault::Zero) => Err(OpFault::Zero),
        Err(ScalarFault::Range) => Err(OpFault::Range),
        Err(ScalarFault::NoMemory) => Err(OpFault::NoMemory),
    }
}

/// A set with the members of any value.
#[tactic(auto, using(crate::proofs::Views::members_back))]
fn add_set(alloc: Global, x: &mut SetBody, b: &Value) -> Result<u64, OpFault>
    ensures changes { Changes result (plus (set_of (Members x.old)) (datum b.now)) (set_of (Members x.new)) }
    ensures refused { OnErr result (x.new ≡ x.old) }
{
    let Value::Set(y) = b else {
        return Err(OpFault::Kind);
    };
    setl_set::unite(alloc, x, y)?;
    Ok(0)
}

/// A tuple with the components of any value behind its own.
#[tactic(auto, using(crate::proofs::Views::parts_back))]
fn append_tuple(x: &mut TupleBody, b: &Value) -> Result<u64, OpFault>
    ensures changes { Changes result (plus (tuple_of x.old) (datum b.now)) (tuple_of x.new) }
    ensures refused { OnErr result (x.new ≡ x.old) }
{
    let Value::Tuple(y) = b else {
        return Err(OpFault::Kind);
    };
    x.append(y)?;
    Ok(0)
}

/// A string with the bytes of any value behind its own.
fn append_string(x: &mut Text, b: &Value) -> Result<u64, OpFault>
    ensures changes { Changes result (plus (text x.old) (datum b.now)) (text x.new) }
    ensures refused { OnErr result (x.new ≡ x.old) }
{
    let Value::Text(y) = b else {
        return Err(OpFault::Kind);
    };
    x.append(y)?;
    Ok(0)
}

/// `a - b`: the difference of integers or sets. Kind for other operands, Wide past 128 bits.
#[tactic(auto, using(crate::proofs::Views::members_back))]
pub fn minus(alloc: Global, a: &Value, b: &Value) -> Result<Answer, OpFault>
    ensures { Tells result (minus (datum a.now) (datum b.now)) }
{
    match (a, b) {
        (Value::Int(x), Value::Int(y)) => whole(setl_scalar::sub(*x, *y)),
        (Value::Set(x), Value::Set(y)) => set(setl_set::minus(alloc, x, y)?),
        _ => Err(OpFault::Kind),
    }
}

/// `a - b` in place, which answers what it charges: no turn. A set loses a member where it stands. The faults are those of
/// `minus`; after a fault `a` is as before.
pub fn minus_in_place(alloc: Global, a: &mut Value, b: &Value) -> Result<u64, OpFault>
    ensures changes { Changes result (minus (datum a.old) (datum b.now)) (datum a.new) }
    ensures refused { OnErr result (a.new ≡ a.old) }
{
    match a {
        Value::Int(x) => subtract_integer(x, b),
        Value::Set(x) => subtract_set(alloc, x, b),
        _ => Err(OpFault::Kind),
    }
}

/// An integer with any value taken off it.
fn subtract_integer(x: &mut i128, b: &Value) -> Result<u64, OpFault>
    ensures changes { Changes result (minus (int x.old) (datum b.now)) (int x.new) }
    ensures refused { OnErr result (x.new ≡ x.old) }
{
    let Value::Int(y) = b else {
        return Err(OpFault::Kind);
    };
    write(x, setl_scalar::sub(*x, *y))
}

/// A set without the members of any value.
#[tactic(auto, using(crate::proofs::Views::members_back))]
fn subtract_set(alloc: Global, x: &mut SetBody, b: &Value) -> Result<u64, OpFault>
    ensures changes { Changes result (minus (set_of (Members x.old)) (datum b.now)) (set_of (Members x.new)) }
    ensures refused { OnErr result (x.new ≡ x.old) }
{
    let Value::Set(y) = b else {
        return Err(OpFault::Kind);
    };
    setl_set::subtract(alloc, x, y)?;
    Ok(0)
}

/// `a mod b`: the remainder of integers, from 0 to below the divisor's absolute value, or the symmetric difference of
/// sets. Kind for other operands, Zero for a divisor 0.
#[tactic(auto, using(crate::proofs::Views::members_back))]
pub fn modulo(alloc: Global, a: &Value, b: &Value) -> Result<Answer, OpFault>
    ensures { Tells result (modulo (datum a.now) (datum b.now)) }
{
    match (a, b) {
        (Value::Int(x), Value::Int(y)) => whole(setl_scalar::modulo(*x, *y)),
        (Value::Set(x), Value::Set(y)) => set(setl_set::symm(alloc, x, y)?),
        _ => Err(OpFault::Kind),
    }
}

/// `a * b`: the product of integers, the intersection of sets, or so many copies of a tuple or string, which charge
/// their number. Kind for other operands, Range for a negative number of copies, Spent where it is above the turns that
/// are left, Wide past 128 bits.
#[tactic(auto, using(crate::proofs::Rows::times_bool, crate::proofs::Rows::times_atom))]
pub fn times(alloc: Global, a: &Value, b: &Value, turns: u64) -> Result<Answer, OpFault>
    ensures { Tells result (times turns (datum a.now) (datum b.now)) }
{
    match a {
        Value::Int(n) => integer_times(alloc, *n, b, turns),
        Value::Set(x) => set_times(alloc, x, b),
        Value::Tuple(t) => tuple_times(alloc, t, b, turns),
        Value::Text(t) => string_times(alloc, t, b, turns),
        Value::Bool(_) => Err(OpFault::Kind),
        Value::Atom(_) => Err(OpFault::Kind),
    }
}

/// An integer times any value.
#[tactic(auto, using(crate::proofs::Rows::no_copies_of_bool, crate::proofs::Rows::no_copies_of_atom, crate::proofs::Rows::no_copies_of_set))]
fn integer_times(alloc: Global, n: i128, b: &Value, turns: u64) -> Result<Answer, OpFault>
    ensures { Tells result (times turns (int n) (datum b.now)) }
{
    match b {
        Value::Int(y) => whole(setl_scalar::mul(n, *y)),
        Value::Tuple(t) => tuple_copies(alloc, n, t, turns),
        Value::Text(t) => string_copies(alloc, n, t, turns),
        Value::Bool(_) => Err(OpFault::Kind),
        Value::Atom(_) => Err(OpFault::Kind),
        Value::Set(_) => Err(OpFault::Kind),
    }
}

/// A set times any value, which charges nothing.
#[tactic(auto, using(crate::proofs::Views::members_back, crate::proofs::Rows::set_by_integer))]
fn set_times(alloc: Global, x: &SetBody, b: &Value) -> Result<Answer, OpFault>
    ensures { (turns : ℕ) → Tells result (times turns (set_of (Members x.now)) (datum b.now)) }
{
    match b {
        Value::Set(y) => set(setl_set::meet(alloc, x, y)?),
        _ => Err(OpFault::Kind),
    }
}

/// A tuple times any value.
fn tuple_times(alloc: Global, t: &TupleBody, b: &Value, turns: u64) -> Result<Answer, OpFault>
    ensures { Tells result (times turns (tuple_of t.now) (datum b.now)) }
{
    match b {
        Value::Int(n) => tuple_copies(alloc, *n, t, turns),
        _ => Err(OpFault::Kind),
    }
}

/// A string times any value.
fn string_times(alloc: Global, t: &Text, b: &Value, turns: u64) -> Result<Answer, OpFault>
    ensures { Tells result (times turns (text t.now) (datum b.now)) }
{
    match b {
        Value::Int(n) => string_copies(alloc, *n, t, turns),
        _ => Err(OpFault::Kind),
    }
}

/// `n` copies of a tuple, one after another.
fn tuple_copies(alloc: Global, n: i128, t: &TupleBody, turns: u64) -> Result<Answer, OpFault>
    ensures { Tells result (replicated turns n (tuple_of t.now)) }
{
    let charged = charge_of(n, turns)?;
    match setl_tuple::repeat(alloc, t, n) {
        Ok(s) => Ok(Answer {
            value: Some(Value::Tuple(s)),
            charged,
        }),
        Err(_) => Err(OpFault::NoMemory),
    }
}

/// `n` copies of a string, one after another.
fn string_copies(alloc: Global, n: i128, t: &Text, turns: u64) -> Result<Answer, OpFault>
    ensures { Tells result (replicated turns n (text t.now)) }
{
    let charged = charge_of(n, turns)?;
    match setl_scalar::repeat(alloc, t, n) {
        Ok(s) => Ok(Answer {
            value: Some(Value::Text(s)),
            charged,
        }),
        Err(_) => Err(OpFault::NoMemory),
    }
}

/// What `n` copies charge. Range for a negative number, Spent where it is above the turns left.
fn charge_of(n: i128, turns: u64) -> Result<u64, OpFault>
    ensures { MatchResult result (λ k. (n ≡ pos k) × (k ≤ turns)) (λ e. ((e ≡ OpFault.Range) × (n <ℤ pos 0)) ⊎ ((e ≡ OpFault.Spent) × (pos turns <ℤ n))) }
{
    if n < 0 {
        return Err(OpFault::Range);
    }
    if n > i128::from(turns) {
        return Err(OpFault::Spent);
    }
    Ok(n as u64)
}
