//! The sets of subsets `pow s` and `n npow s`.

ghost use Rattle.std.specs.Prelude.{◌≡◌, ◌≤◌, length, pos};
ghost use Rattle.setl_value.specs.code.Body.{Members};
ghost use Rattle.setl_value.specs.Datum.{int, set_of};
ghost use Rattle.setl_value.specs.code.DatumOf.{datum};
ghost use Rattle.setl_operators_table.specs.Collections.{all_subsets, some_subsets};
ghost use Rattle.setl_operators_table.specs.Outcome.{adding, within_depth};
ghost use Rattle.setl_operators_table.specs.code.Answers.{Tells};

use crate::counts::{power_count, subset_count};
use setl_operators_table::answers::shallow_set;
use setl_operators_table::{Answer, OpFault};
use setl_set::SetFault;
use setl_value::{SetBody, Value};
use std::alloc::Global;

/// `pow s`: the set of all subsets, which charges their number. Deep where it is more than 500 deep.
pub fn pow(alloc: Global, s: &Value, turns: u64) -> Result<Answer, OpFault>
    ensures { Tells result (all_subsets turns (datum s.now)) }
{
    match s {
        Value::Set(s) => all_subsets(alloc, s, turns),
        _ => Err(OpFault::Kind),
    }
}

/// `n npow s`: the set of all subsets with n members, which charges their number. Range for a negative n, Deep where it is
/// more than 500 deep.
pub fn npow(alloc: Global, n: &Value, s: &Value, turns: u64) -> Result<Answer, OpFault>
    ensures { Tells result (some_subsets turns (datum n.now) (datum s.now)) }
{
    match (n, s) {
        (Value::Int(n), Value::Set(s)) => some_subsets(alloc, *n, s, turns),
        _ => Err(OpFault::Kind),
    }
}

// `pow s` over a set.
fn all_subsets(alloc: Global, s: &SetBody, turns: u64) -> Result<Answer, OpFault>
    ensures { Tells result (all_subsets turns (set_of (Members s.now))) }
{
    let Some(count) = power_count(s.len(), turns) else {
        return Err(OpFault::Spent);
    };
    match setl_set::pow(alloc, s) {
        Ok(sets) => charged(sets, count),
        Err(SetFault::Deep) => Err(OpFault::Deep),
        Err(SetFault::NoMemory) => Err(OpFault::NoMemory),
    }
}

// `n npow s` over an integer and a set. No subset has more members than s.
fn some_subsets(alloc: Global, n: i128, s: &SetBody, turns: u64) -> Result<Answer, OpFault>
    ensures { Tells result (some_subsets turns (int n) (set_of (Members s.now))) }
{
    if n < 0 {
        return Err(OpFault::Range);
    }
    if n > s.len() as i128 {
        return shallow_set(SetBody::new(alloc)?);
    }
    subsets_of_size(alloc, n as usize, s, turns)
}

// `n npow s` where s has n members or more.
fn subsets_of_size(alloc: Global, n: usize, s: &SetBody, turns: u64) -> Result<Answer, OpFault>
    requires { n ≤ length (Members s.now) }
    ensures { Tells result (some_subsets turns (int (pos n)) (set_of (Members s.now))) }
{
    let Some(count) = subset_count(s.len(), n, turns) else {
        return Err(OpFault::Spent);
    };
    match setl_set::npow(alloc, n as u64, s) {
        Ok(sets) => charged(sets, count),
        Err(SetFault::Deep) => Err(OpFault::Deep),
        Err(SetFault::NoMemory) => Err(OpFault::NoMemory),
    }
}

// A set with the turns that it charges.
fn charged(s: SetBody, turns: u64) -> Result<Answer, OpFault>
    ensures { Tells result (adding turns (within_depth (set_of (Members s)))) }
{
    s.learn();
    Ok(Answer {
        value: Some(Value::Set(s)),
        charged: turns,
    })
}
