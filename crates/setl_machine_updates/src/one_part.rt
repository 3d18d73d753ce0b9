//! The part at one selector, combined with a value where it stands.

ghost use Rattle.std.specs.Prelude.{◌≡◌, ◌<◌, ◌≤◌, max, true, false, ◌∷◌, [], Some, IfOk, IfNone, IfSome, OnErr};
ghost use Rattle.setl_value.specs.Datum.{Datum, int, depth, set_of, tuple_of};
ghost use Rattle.setl_value.specs.code.Body.{Members};
ghost use Rattle.setl_value.specs.code.Changing.{Grows};
ghost use Rattle.setl_value.specs.code.DatumOf.{datum, part};
ghost use Rattle.setl_operators_table.specs.declared.Operator.TheVariants.{Add, Less, With};
ghost use Rattle.setl_operators_table.specs.Operators.{op_of};
ghost use Rattle.setl_model.specs.Core.{Round};
ghost use Rattle.setl_model.specs.Places.{combined};
ghost use Rattle.setl_machine_updates.specs.Changing.{ChangesPart, Deepens, IsLessened, IsShallowAt};
ghost use Rattle.setl_machine_updates.specs.Updates.{Updates};

use crate::updates::{add_value, append_value};
use setl_map::change_image;
use setl_operators_table::laws::operands_grow;
use setl_operators_table::{OpFault, Operator};
use setl_value::{SetBody, TupleBody, Value};
use std::alloc::{AllocError, Global};

/// `whole(x) with:= value` and `whole(x) +:= value` where the part stands, and `whole(x) less:= value` where it is a set of
/// members that are neither sets nor tuples, and what that answers. None for another operator or a whole that is no map or
/// tuple, where x has not one value there, and for values that are very deep; then nothing changed.
pub(crate) fn combine_there(
    alloc: Global,
    what: Operator,
    whole: &mut Option<Value>,
    x: &Value,
    value: &Value,
    turns: u64,
) -> Result<Option<Result<u64, OpFault>>, AllocError>
    ensures updated { IfOk result (λ o. IfSome o (λ r. Updates (combined (Round (Some (datum x.now)) ∷ []) (part whole.old) (λ p now. op_of what (p ∷ Some (datum value.now) ∷ []) now) turns) turns (part whole.new) r)) }
    ensures fault { IfOk result (λ o. IfSome o (λ r. OnErr r (whole.new ≡ whole.old))) }
    ensures unchanged { IfOk result (λ o. IfNone o (whole.new ≡ whole.old)) }
    ensures refused { OnErr result (whole.new ≡ whole.old) }
{
    let Some(whole) = whole else {
        return Ok(None);
    };
    combine_in(alloc, what, whole, x, value, turns)
}

fn combine_in(
    alloc: Global,
    what: Operator,
    whole: &mut Value,
    x: &Value,
    value: &Value,
    turns: u64,
) -> Result<Option<Result<u64, OpFault>>, AllocError>
    ensures updated { IfOk result (λ o. IfSome o (λ r. Updates (combined (Round (Some (datum x.now)) ∷ []) (Some (datum whole.old)) (λ p now. op_of what (p ∷ Some (datum value.now) ∷ []) now) turns) turns (Some (datum whole.new)) r)) }
    ensures fault { IfOk result (λ o. IfSome o (λ r. OnErr r (whole.new ≡ whole.old))) }
    ensures unchanged { IfOk result (λ o. IfNone o (whole.new ≡ whole.old)) }
    ensures refused { OnErr result (whole.new ≡ whole.old) }
{
    if value.depth() >= 498 {
        return Ok(None);
    }
    match what {
        Operator::With => add_to_part(alloc, whole, x, value, turns),
        Operator::Add => append_to_part(alloc, whole, x, value, turns),
        Operator::Less => remove_from_part(whole, x, value, turns),
        _ => Ok(None),
    }
}

// `whole(x) with:= value` where the part stands.
fn add_to_part(
    alloc: Global,
    whole: &mut Value,
    x: &Value,
    value: &Value,
    turns: u64,
) -> Result<Option<Result<u64, OpFault>>, AllocError>
    requires shallow { depth (datum value.now) < 498 }
    ensures updated { IfOk result (λ o. IfSome o (λ r. Updates (combined (Round (Some (datum x.now)) ∷ []) (Some (datum whole.old)) (λ p now. op_of With (p ∷ Some (datum value.now) ∷ []) now) turns) turns (Some (datum whole.new)) r)) }
    ensures fault { IfOk result (λ o. IfSome o (λ r. OnErr r (whole.new ≡ whole.old))) }
    ensures unchanged { IfOk result (λ o. IfNone o (whole.new ≡ whole.old)) }
    ensures refused { OnErr result (whole.new ≡ whole.old) }
{
    operands_grow();
    change_part(whole, x, |part| add_value(alloc, part, value, turns))
}

// `whole(x) +:= value` where the part stands.
fn append_to_part(
    alloc: Global,
    whole: &mut Value,
    x: &Value,
    value: &Value,
    turns: u64,
) -> Result<Option<Result<u64, OpFault>>, AllocError>
    requires shallow { depth (datum value.now) < 498 }
    ensures updated { IfOk result (λ o. IfSome o (λ r. Updates (combined (Round (Some (datum x.now)) ∷ []) (Some (datum whole.old)) (λ p now. op_of Add (p ∷ Some (datum value.now) ∷ []) now) turns) turns (Some (datum whole.new)) r)) }
    ensures fault { IfOk result (λ o. IfSome o (λ r. OnErr r (whole.new ≡ whole.old))) }
    ensures unchanged { IfOk result (λ o. IfNone o (whole.new ≡ whole.old)) }
    ensures refused { OnErr result (whole.new ≡ whole.old) }
{
    operands_grow();
    change_part(whole, x, |part| append_value(alloc, part, value, turns))
}

// `whole(x) less:= value` where the part stands, if it is a flat set.
fn remove_from_part(
    whole: &mut Value,
    x: &Value,
    value: &Value,
    turns: u64,
) -> Result<Option<Result<u64, OpFault>>, AllocError>
    ensures updated { IfOk result (λ o. IfSome o (λ r. Updates (combined (Round (Some (datum x.now)) ∷ []) (Some (datum whole.old)) (λ p now. op_of Less (p ∷ Some (datum value.now) ∷ []) now) turns) turns (Some (datum whole.new)) r)) }
    ensures fault { IfOk result (λ o. IfSome o (λ r. OnErr r (whole.new ≡ whole.old))) }
    ensures unchanged { IfOk result (λ o. IfNone o (whole.new ≡ whole.old)) }
    ensures refused { OnErr result (whole.new ≡ whole.old) }
{
    let Some(answer) = change_part(whole, x, |part| remove_if_flat(part, value))? else {
        return Ok(None);
    };
    if answer? {
        Ok(Some(Ok(turns)))
    } else {
        Ok(None)
    }
}

// `part less value`, in place, where the part is a set of members that are neither sets nor tuples. Its answer is whether this was
// so, and else nothing changed.
fn remove_if_flat(part: &mut Value, value: &Value) -> Result<bool, AllocError>
    ensures removed { IfOk result (λ done. done ≡ true → IsLessened (datum value.now) (datum part.old) (datum part.new)) }
    ensures deeper { depth (datum part.old) ≤ depth (datum part.new) }
    ensures bound { depth (datum part.new) ≤ max (depth (datum part.old)) 1 }
    ensures unchanged { IfOk result (λ done. done ≡ false → part.new ≡ part.old) }
    ensures refused { OnErr result (part.new ≡ part.old) }
{
    match part {
        Value::Set(s) => remove_from_flat(s, value),
        _ => Ok(false),
    }
}

// The same of a set.
fn remove_from_flat(s: &mut SetBody, value: &Value) -> Result<bool, AllocError>
    ensures removed { IfOk result (λ done. done ≡ true → IsLessened (datum value.now) (set_of (Members s.old)) (set_of (Members s.new))) }
    ensures deeper { depth (set_of (Members s.old)) ≤ depth (set_of (Members s.new)) }
    ensures bound { depth (set_of (Members s.new)) ≤ max (depth (set_of (Members s.old))) 1 }
    ensures unchanged { IfOk result (λ done. done ≡ false → s.new ≡ s.old) }
    ensures refused { OnErr result (s.new ≡ s.old) }
{
    if s.depth() > 1 {
        return Ok(false);
    }
    setl_set::less(s, value)?;
    Ok(true)
}

/// Lets `change` change the value at a point of a map or a place of a tuple where it stands, to one that is at least as deep
/// and at most 498 deep, and answers what `change` answers. Where there is none, or not one, or a deeper one, the answer is
/// None, and `change` isn't called. Where memory is refused, neither, and the whole is as before.
pub(crate) fn change_part<R, F: FnOnce(&mut Value) -> R>(
    whole: &mut Value,
    x: &Value,
    change: F,
) -> Result<Option<R>, AllocError>
    requires callable { F.IsAlwaysCallable change }
    requires grows { (d : Datum) → depth d < 499 → Grows F.FnOnce change d 499 }
    ensures changed { IfOk result (λ o. IfSome o (λ r. ChangesPart F.FnOnce change (datum x.now) (datum whole.old) r (datum whole.new) (whole.new ≡ whole.old))) }
    ensures unchanged { IfOk result (λ o. IfNone o (whole.new ≡ whole.old)) }
    ensures refused { OnErr result (whole.new ≡ whole.old) }
{
    match whole {
        Value::Set(f) => change_in_map(f, x, change),
        Value::Tuple(t) => change_in_tuple(t, x, change),
        _ => Ok(None),
    }
}

// The same for the one image of a point.
fn change_in_map<R, F: FnOnce(&mut Value) -> R>(
    f: &mut SetBody,
    x: &Value,
    change: F,
) -> Result<Option<R>, AllocError>
    requires callable { F.IsAlwaysCallable change }
    requires grows { (d : Datum) → depth d < 499 → Grows F.FnOnce change d 499 }
    ensures changed { IfOk result (λ o. IfSome o (λ r. ChangesPart F.FnOnce change (datum x.now) (set_of (Members f.old)) r (set_of (Members f.new)) (f.new ≡ f.old))) }
    ensures unchanged { IfOk result (λ o. IfNone o (f.new ≡ f.old)) }
    ensures refused { OnErr result (f.new ≡ f.old) }
{
    match change_image(f, x, change)? {
        None => Ok(None),
        Some(answer) => {
            f.learn();
            Ok(Some(answer))
        }
    }
}

/// The same for the component at a place. The tuple is then at least as deep as before.
pub(crate) fn change_in_tuple<R, F: FnOnce(&mut Value) -> R>(
    t: &mut TupleBody,
    x: &Value,
    change: F,
) -> Result<Option<R>, AllocError>
    requires callable { F.IsAlwaysCallable change }
    requires grows { (d : Datum) → depth d < 499 → Grows F.FnOnce change d 499 }
    ensures changed { IfOk result (λ o. IfSome o (λ r. ChangesPart F.FnOnce change (datum x.now) (tuple_of t.old) r (tuple_of t.new) (t.new ≡ t.old))) }
    ensures deeper { IfOk result (λ o. IfSome o (λ r. Deepens F.FnOnce change (tuple_of t.old) r (tuple_of t.new))) }
    ensures unchanged { IfOk result (λ o. IfNone o (t.new ≡ t.old)) }
    ensures refused { OnErr result (t.new ≡ t.old) }
{
    let Value::Int(place) = x else {
        return Ok(None);
    };
    match shallow_at(t, *place) {
        None => Ok(None),
        Some(i) => change_component(t, *place, i, change),
    }
}

// The index of a place, counted from 1, if a component stands there that is at most 498 deep.
fn shallow_at(t: &TupleBody, place: i128) -> Option<usize>
    ensures { IfSome result (λ i. IsShallowAt t.now place i) }
{
    if place < 1 || place.unsigned_abs() > t.len() as u128 {
        return None;
    }
    let i = (place.unsigned_abs() - 1) as usize;
    match t.at(i) {
        Some(v) if v.depth() < 499 => Some(i),
        _ => None,
    }
}

// The same for the component at an index, which stands there.
fn change_component<R, F: FnOnce(&mut Value) -> R>(
    t: &mut TupleBody,
    place: i128,
    i: usize,
    change: F,
) -> Result<Option<R>, AllocError>
    requires callable { F.IsAlwaysCallable change }
    requires grows { (d : Datum) → depth d < 499 → Grows F.FnOnce change d 499 }
    requires there { IsShallowAt t.old place i }
    ensures changed { IfOk result (λ o. IfSome o (λ r. ChangesPart F.FnOnce change (int place) (tuple_of t.old) r (tuple_of t.new) (t.new ≡ t.old))) }
    ensures deeper { IfOk result (λ o. IfSome o (λ r. Deepens F.FnOnce change (tuple_of t.old) r (tuple_of t.new))) }
    ensures unchanged { IfOk result (λ o. IfNone o (t.new ≡ t.old)) }
    ensures refused { OnErr result (t.new ≡ t.old) }
{
    match t.change_at(i, change)? {
        None => Ok(None),
        Some(answer) => {
            t.learn();
            Ok(Some(answer))
        }
    }
}
