//! Putting a part, and combining it with a value.

ghost use Rattle.std.specs.Prelude.{◌≡◌, ◌∷◌, [], Some, OnErr, map};
ghost use Rattle.setl_value.specs.code.DatumOf.{datum, part};
ghost use Rattle.setl_operators_table.specs.declared.Operator.TheVariants.{Add, Subtract, With, Less, Lessf};
ghost use Rattle.setl_operators_table.specs.Operators.{op_of, operand_count};
ghost use Rattle.setl_model.specs.Places.{with_part_at_all, combined};
ghost use Rattle.setl_machine_updates.specs.Selectors.{selected};
ghost use Rattle.setl_machine_updates.specs.Updates.{Updates};

use crate::one_image::combine_images;
use crate::one_part::combine_there;
use crate::selectors::{Selector, apply, part_at, put_part};
use crate::two_parts::{combine_inside, put_there};
use setl_operators_arithmetic::{minus_in_place, plus_in_place};
use setl_operators_collections::{less_in_place, lessf_in_place, with_in_place};
use setl_operators_table::{OpFault, Operator};
use setl_value::Value;
use std::alloc::Global;

/// Puts a value, or `om` where it is None, at the part at some selectors, the outermost first; without selectors it
/// becomes the whole. Answers the turns that are left.
///
/// The outer parts are read from the outermost inwards, and put from the innermost outwards; the first step that fails
/// tells its fault. Om where what the step selects from is `om`, or its selector's operand, or a new part at a brace;
/// else Kind where what it selects from, the operand, or the new part at a brace is of another kind; else Range for a
/// place of a tuple or string below 1; else Spent where a put charges more turns than are left; else Deep where the new
/// whole would be more than 500 deep. NoMemory may come at any point. After a fault the whole is as before.
pub fn put_at(
    alloc: Global,
    whole: &mut Option<Value>,
    at: &[Selector],
    value: Option<Value>,
    turns: u64,
) -> Result<u64, OpFault>
    ensures updated { Updates (with_part_at_all (map selected at.now) (part whole.old) (part value) turns) turns (part whole.new) result }
    ensures refused { OnErr result (whole.new ≡ whole.old) }
{
    if put_there(whole, at, &value)? {
        Ok(turns)
    } else {
        put_by_parts(alloc, whole, at, value, turns)
    }
}

// The same by copies of the parts that the selectors but the last lead to.
fn put_by_parts(
    alloc: Global,
    whole: &mut Option<Value>,
    at: &[Selector],
    value: Option<Value>,
    turns: u64,
) -> Result<u64, OpFault>
    ensures updated { Updates (with_part_at_all (map selected at.now) (part whole.old) (part value) turns) turns (part whole.new) result }
    ensures refused { OnErr result (whole.new ≡ whole.old) }
{
    match at {
        [] => {
            *whole = value;
            Ok(turns)
        }
        [only] => put_part(alloc, whole, only, value, turns),
        [first, inner @ ..] => {
            let mut part = part_at(alloc, whole, first, turns)?;
            let left = put_by_parts(alloc, &mut part.value, inner, value, part.left)?;
            put_part(alloc, whole, first, part.value, left)
        }
    }
}

/// Combines the part at some selectors, the outermost first, with a value by a binary operator, of which the part is the
/// left operand. Answers the turns that are left.
///
/// The parts are read from the outermost inwards, then comes the operator, and then the new parts are put from the
/// innermost outwards; the first step that fails tells its fault: reading and putting as in `put_at`, and the operator
/// as in `op`. NoMemory may come at any point. After a fault the whole is as before.
pub fn combine_at(
    alloc: Global,
    what: Operator,
    whole: &mut Option<Value>,
    at: &[Selector],
    value: Option<Value>,
    turns: u64,
) -> Result<u64, OpFault>
    requires { operand_count what ≡ Some 2 }
    ensures updated { Updates (combined (map selected at.now) (part whole.old) (λ p now. op_of what (p ∷ part value ∷ []) now) turns) turns (part whole.new) result }
    ensures refused { OnErr result (whole.new ≡ whole.old) }
{
    match combine_inside(alloc, what, whole, at, &value, turns)? {
        Some(answer) => answer,
        None => combine_by_parts(alloc, what, whole, at, value, turns),
    }
}

// The same by copies of the parts that the selectors but the last lead to.
fn combine_by_parts(
    alloc: Global,
    what: Operator,
    whole: &mut Option<Value>,
    at: &[Selector],
    value: Option<Value>,
    turns: u64,
) -> Result<u64, OpFault>
    requires { operand_count what ≡ Some 2 }
    ensures updated { Updates (combined (map selected at.now) (part whole.old) (λ p now. op_of what (p ∷ part value ∷ []) now) turns) turns (part whole.new) result }
    ensures refused { OnErr result (whole.new ≡ whole.old) }
{
    match at {
        [] => combine(alloc, what, whole, &value, turns),
        [only] => combine_part(alloc, what, whole, only, &value, turns),
        [first, inner @ ..] => {
            let mut part = part_at(alloc, whole, first, turns)?;
            let left = combine_by_parts(alloc, what, &mut part.value, inner, value, part.left)?;
            put_part(alloc, whole, first, part.value, left)
        }
    }
}

// Combines the part at one selector with a value: where it stands, if there is a call for that, and else a copy of it.
fn combine_part(
    alloc: Global,
    what: Operator,
    whole: &mut Option<Value>,
    at: &Selector,
    value: &Option<Value>,
    turns: u64,
) -> Result<u64, OpFault>
    requires { operand_count what ≡ Some 2 }
    ensures updated { Updates (combined (selected at.now ∷ []) (part whole.old) (λ p now. op_of what (p ∷ part value.now ∷ []) now) turns) turns (part whole.new) result }
    ensures refused { OnErr result (whole.new ≡ whole.old) }
{
    match (what, at, value) {
        (_, Selector::Brace(Some(x)), Some(y)) => {
            match combine_images(alloc, what, whole, x, y, turns)? {
                Some(answer) => answer,
                None => combine_copy(alloc, what, whole, at, value, turns),
            }
        }
        (_, Selector::Round(Some(x)), Some(y)) => {
            match combine_there(alloc, what, whole, x, y, turns)? {
                Some(answer) => answer,
                None => combine_copy(alloc, what, whole, at, value, turns),
            }
        }
        _ => combine_copy(alloc, what, whole, at, value, turns),
    }
}

// Combines a copy of the part at one selector with a value, and puts it there.
fn combine_copy(
    alloc: Global,
    what: Operator,
    whole: &mut Option<Value>,
    at: &Selector,
    value: &Option<Value>,
    turns: u64,
) -> Result<u64, OpFault>
    requires { operand_count what ≡ Some 2 }
    ensures updated { Updates (combined (selected at.now ∷ []) (part whole.old) (λ p now. op_of what (p ∷ part value.now ∷ []) now) turns) turns (part whole.new) result }
    ensures refused { OnErr result (whole.new ≡ whole.old) }
{
    let mut part = part_at(alloc, whole, at, turns)?;
    let left = combine(alloc, what, &mut part.value, value, part.left)?;
    put_part(alloc, whole, at, part.value, left)
}

// Combines the whole with a value, in place where the operator has a call for that.
fn combine(
    alloc: Global,
    what: Operator,
    whole: &mut Option<Value>,
    value: &Option<Value>,
    turns: u64,
) -> Result<u64, OpFault>
    requires { operand_count what ≡ Some 2 }
    ensures updated { Updates (op_of what (part whole.old ∷ part value.now ∷ []) turns) turns (part whole.new) result }
    ensures refused { OnErr result (whole.new ≡ whole.old) }
{
    match what {
        Operator::Add => append(alloc, whole, value, turns),
        Operator::Subtract => subtract(alloc, whole, value, turns),
        Operator::With => add(alloc, whole, value, turns),
        Operator::Less => remove(whole, value, turns),
        Operator::Lessf => remove_point(alloc, whole, value, turns),
        _ => {
            let new = apply(alloc, what, whole, value, turns)?;
            *whole = new.value;
            Ok(new.left)
        }
    }
}

// `whole + value`, in place.
fn append(
    alloc: Global,
    whole: &mut Option<Value>,
    value: &Option<Value>,
    turns: u64,
) -> Result<u64, OpFault>
    ensures updated { Updates (op_of Add (part whole.old ∷ part value.now ∷ []) turns) turns (part whole.new) result }
    ensures refused { OnErr result (whole.new ≡ whole.old) }
{
    let Some(whole) = whole else {
        return Err(OpFault::Om);
    };
    let Some(value) = value else {
        return Err(OpFault::Om);
    };
    append_value(alloc, whole, value, turns)
}

/// `whole + value` of two values, in place.
pub(crate) fn append_value(
    alloc: Global,
    whole: &mut Value,
    value: &Value,
    turns: u64,
) -> Result<u64, OpFault>
    ensures updated { Updates (op_of Add (Some (datum whole.old) ∷ Some (datum value.now) ∷ []) turns) turns (Some (datum whole.new)) result }
    ensures refused { OnErr result (whole.new ≡ whole.old) }
{
    let charged = plus_in_place(alloc, whole, value)?;
    Ok(turns.saturating_sub(charged))
}

// `whole - value`, in place.
fn subtract(
    alloc: Global,
    whole: &mut Option<Value>,
    value: &Option<Value>,
    turns: u64,
) -> Result<u64, OpFault>
    ensures updated { Updates (op_of Subtract (part whole.old ∷ part value.now ∷ []) turns) turns (part whole.new) result }
    ensures refused { OnErr result (whole.new ≡ whole.old) }
{
    let Some(whole) = whole else {
        return Err(OpFault::Om);
    };
    let Some(value) = value else {
        return Err(OpFault::Om);
    };
    let charged = minus_in_place(alloc, whole, value)?;
    Ok(turns.saturating_sub(charged))
}

// `whole with value`, in place.
fn add(
    alloc: Global,
    whole: &mut Option<Value>,
    value: &Option<Value>,
    turns: u64,
) -> Result<u64, OpFault>
    ensures updated { Updates (op_of With (part whole.old ∷ part value.now ∷ []) turns) turns (part whole.new) result }
    ensures refused { OnErr result (whole.new ≡ whole.old) }
{
    let Some(whole) = whole else {
        return Err(OpFault::Om);
    };
    let Some(value) = value else {
        return Err(OpFault::Om);
    };
    add_value(alloc, whole, value, turns)
}

/// `whole with value` of two values, in place.
pub(crate) fn add_value(
    alloc: Global,
    whole: &mut Value,
    value: &Value,
    turns: u64,
) -> Result<u64, OpFault>
    ensures updated { Updates (op_of With (Some (datum whole.old) ∷ Some (datum value.now) ∷ []) turns) turns (Some (datum whole.new)) result }
    ensures refused { OnErr result (whole.new ≡ whole.old) }
{
    let charged = with_in_place(alloc, whole, value.copy()?)?;
    Ok(turns.saturating_sub(charged))
}

// `whole less value`, in place.
fn remove(whole: &mut Option<Value>, value: &Option<Value>, turns: u64) -> Result<u64, OpFault>
    ensures updated { Updates (op_of Less (part whole.old ∷ part value.now ∷ []) turns) turns (part whole.new) result }
    ensures refused { OnErr result (whole.new ≡ whole.old) }
{
    let Some(whole) = whole else {
        return Err(OpFault::Om);
    };
    let Some(value) = value else {
        return Err(OpFault::Om);
    };
    let charged = less_in_place(whole, value)?;
    Ok(turns.saturating_sub(charged))
}

// `whole lessf value`, in place.
fn remove_point(
    alloc: Global,
    whole: &mut Option<Value>,
    value: &Option<Value>,
    turns: u64,
) -> Result<u64, OpFault>
    ensures updated { Updates (op_of Lessf (part whole.old ∷ part value.now ∷ []) turns) turns (part whole.new) result }
    ensures refused { OnErr result (whole.new ≡ whole.old) }
{
    let Some(whole) = whole else {
        return Err(OpFault::Om);
    };
    let Some(value) = value else {
        return Err(OpFault::Om);
    };
    let charged = lessf_in_place(alloc, whole, value)?;
    Ok(turns.saturating_sub(charged))
}
