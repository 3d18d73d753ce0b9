//! The enumerations `{a, b, ..}` and `[a, b, ..]`.

ghost use Rattle.std.specs.Prelude.{◌≡◌, ◌++◌, ◌∷◌, ◌≤◌, [], map, nat_lt, IfOk, OnOk};
ghost use Rattle.std.specs.Option.{option_map};
ghost use Rattle.setl_value.specs.Datum.{depth, part_depth, set_of, tuple_of};
ghost use Rattle.setl_value.specs.code.DatumOf.{datum, part};
ghost use Rattle.setl_operators_table.specs.Collections.{enumerate_set, enumerate_tuple};
ghost use Rattle.setl_operators_table.specs.Outcome.{all_values};
ghost use Rattle.setl_operators_table.specs.code.Answers.{Tells};
ghost use Rattle.setl_operators_enumerations.specs.ValueData.{value_data};

use setl_map::gathered;
use setl_operators_table::answers::{shallow_set, shallow_tuple};
use setl_operators_table::{Answer, OpFault};
use setl_value::{TupleBody, Value};
use std::alloc::{AllocError, Global};

/// `{a, b, ..}`. Om where an operand is `om`, Deep where the set is more than 500 deep.
pub fn enumerate_set(alloc: Global, operands: &[Option<Value>]) -> Result<Answer, OpFault>
    ensures { Tells result (enumerate_set (all_values (map part operands.now))) }
{
    let Some(values) = all_values(alloc, operands)? else {
        return Err(OpFault::Om);
    };
    if are_deep(values.as_slice()) {
        return Err(OpFault::Deep);
    }
    shallow_set(gathered(alloc, values)?)
}

// Copies of some operands, and None where one of them is `om`.
fn all_values(alloc: Global, operands: &[Option<Value>]) -> Result<Option<Vec<Value>>, AllocError>
    ensures { IfOk result (λ o. all_values (map part operands.now) ≡ option_map value_data o) }
{
    let mut values = Vec::with_capacity(alloc, operands.len())?;
    for operand in operands {
        match operand {
            None => return Ok(None),
            Some(v) => push_copy(v, &mut values)?,
        }
    }
    Ok(Some(values))
}

// Puts a copy at the end.
fn push_copy(v: &Value, values: &mut Vec<Value>) -> Result<(), AllocError>
    ensures { OnOk result (map datum values.new.items ≡ map datum values.old.items ++ datum v.now ∷ []) }
{
    values.push(v.copy()?)?;
    Ok(())
}

// Whether the set of these values would be more than 500 deep.
fn are_deep(values: &[Value]) -> bool
    ensures { result ≡ nat_lt 500 (depth (set_of (map datum values.now))) }
{
    for v in values {
        v.learn();
        if v.depth() == 500 {
            return true;
        }
    }
    false
}

/// `[a, b, ..]`, without the `om` at its end. Deep where the tuple is more than 500 deep.
pub fn enumerate_tuple(alloc: Global, operands: Vec<Option<Value>>) -> Result<Answer, OpFault>
    ensures { Tells result (enumerate_tuple (map part operands.items)) }
{
    if has_deep(operands.as_slice()) {
        return Err(OpFault::Deep);
    }
    shallow_tuple(TupleBody::of(alloc, operands)?)
}

// Whether the tuple of these components would be more than 500 deep.
fn has_deep(parts: &[Option<Value>]) -> bool
    ensures { result ≡ nat_lt 500 (depth (tuple_of (map part parts.now))) }
{
    for p in parts {
        if part_depth(p) == 500 {
            return true;
        }
    }
    false
}

// The depth of a component, and 0 for `om`.
fn part_depth(p: &Option<Value>) -> u32
    ensures value { result ≡ part_depth (part p.now) }
    ensures bound { result ≤ 500 }
{
    match p {
        None => 0,
        Some(v) => {
            v.learn();
            v.depth()
        }
    }
}
