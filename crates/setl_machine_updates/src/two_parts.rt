//! The component of a tuple that is itself the part at a selector, changed where it stands.

ghost use Rattle.std.specs.Prelude.{◌≡◌, ◌⊎◌, ◌<◌, ◌≤◌, ◌+◌, ◌∷◌, [], max, ℕ, true, false, map, Ok, Some, IfOk, IfNone, IfSome, OnErr};
ghost use Rattle.setl_value.specs.Datum.{Datum, depth, tuple_of};
ghost use Rattle.setl_value.specs.code.DatumOf.{datum, part};
ghost use Rattle.setl_operators_table.specs.declared.Operator.TheVariants.{Add, With};
ghost use Rattle.setl_operators_table.specs.Operators.{op_of};
ghost use Rattle.setl_operators_table.specs.Outcome.{value};
ghost use Rattle.setl_model.specs.Core.{Round};
ghost use Rattle.setl_model.specs.Places.{combined, with_part_at, with_part_at_all};
ghost use Rattle.setl_machine_updates.specs.Changing.{CombinesAt};
ghost use Rattle.setl_machine_updates.specs.Selectors.{selected};
ghost use Rattle.setl_machine_updates.specs.Updates.{Updates};

use crate::one_part::{change_in_tuple, change_part};
use crate::selectors::Selector;
use crate::updates::{add_value, append_value};
use setl_operators_table::laws::operands_grow;
use setl_operators_table::{OpFault, Operator};
use setl_value::{TupleBody, Value};
use std::alloc::{AllocError, Global};

/// `whole(x)(y) := value` where the tuple `whole(x)` stands, which charges nothing. Its answer is whether this was done: not where
/// these are no two such selectors, `whole(x)` is no tuple with a component at the place `y`, or that is deeper than the value or
/// very deep. Then, and where memory is refused, the whole is as before.
pub(crate) fn put_there(
    whole: &mut Option<Value>,
    at: &[Selector],
    new: &Option<Value>,
) -> Result<bool, AllocError>
    ensures put { IfOk result (λ done. done ≡ true → (turns : ℕ) → Updates (with_part_at_all (map selected at.now) (part whole.old) (part new.now) turns) turns (part whole.new) (Ok turns)) }
    ensures unchanged { IfOk result (λ done. done ≡ false → whole.new ≡ whole.old) }
    ensures refused { OnErr result (whole.new ≡ whole.old) }
{
    if at.len() != 2 {
        return Ok(false);
    }
    put_at_both(whole, &at[0], &at[1], new)
}

// The same at two selectors.
fn put_at_both(
    whole: &mut Option<Value>,
    first: &Selector,
    second: &Selector,
    new: &Option<Value>,
) -> Result<bool, AllocError>
    ensures put { IfOk result (λ done. done ≡ true → (turns : ℕ) → Updates (combined (selected first.now ∷ []) (part whole.old) (λ p now. with_part_at (selected second.now) p (part new.now) now) turns) turns (part whole.new) (Ok turns)) }
    ensures unchanged { IfOk result (λ done. done ≡ false → whole.new ≡ whole.old) }
    ensures refused { OnErr result (whole.new ≡ whole.old) }
{
    let Some(whole) = whole else {
        return Ok(false);
    };
    let Some(new) = new else {
        return Ok(false);
    };
    put_at_two(whole, first, second, new)
}

// The same of a value.
fn put_at_two(
    whole: &mut Value,
    first: &Selector,
    second: &Selector,
    new: &Value,
) -> Result<bool, AllocError>
    ensures put { IfOk result (λ done. done ≡ true → (turns : ℕ) → Updates (combined (selected first.now ∷ []) (Some (datum whole.old)) (λ p now. with_part_at (selected second.now) p (Some (datum new.now)) now) turns) turns (Some (datum whole.new)) (Ok turns)) }
    ensures unchanged { IfOk result (λ done. done ≡ false → whole.new ≡ whole.old) }
    ensures refused { OnErr result (whole.new ≡ whole.old) }
{
    let Some(x) = at_round(first) else {
        return Ok(false);
    };
    let Some(y) = at_round(second) else {
        return Ok(false);
    };
    put_in_part(whole, x, y, new)
}

/// `whole(x)(y) with:= new` and `whole(x)(y) +:= new` where the tuple `whole(x)` stands, and what that answers. None for another
/// operator, where these are no two such selectors, `whole(x)` is no tuple with a component at the place `y`, and for values that
/// are very deep; then nothing changed.
pub(crate) fn combine_inside(
    alloc: Global,
    what: Operator,
    whole: &mut Option<Value>,
    at: &[Selector],
    new: &Option<Value>,
    turns: u64,
) -> Result<Option<Result<u64, OpFault>>, AllocError>
    ensures updated { IfOk result (λ o. IfSome o (λ r. Updates (combined (map selected at.now) (part whole.old) (λ p now. op_of what (p ∷ part new.now ∷ []) now) turns) turns (part whole.new) r)) }
    ensures fault { IfOk result (λ o. IfSome o (λ r. OnErr r (whole.new ≡ whole.old))) }
    ensures unchanged { IfOk result (λ o. IfNone o (whole.new ≡ whole.old)) }
    ensures refused { OnErr result (whole.new ≡ whole.old) }
{
    if at.len() != 2 {
        return Ok(None);
    }
    combine_at_both(alloc, what, whole, &at[0], &at[1], new, turns)
}

// The same at two selectors.
fn combine_at_both(
    alloc: Global,
    what: Operator,
    whole: &mut Option<Value>,
    first: &Selector,
    second: &Selector,
    new: &Option<Value>,
    turns: u64,
) -> Result<Option<Result<u64, OpFault>>, AllocError>
    ensures updated { IfOk result (λ o. IfSome o (λ r. Updates (combined (selected first.now ∷ selected second.now ∷ []) (part whole.old) (λ p now. op_of what (p ∷ part new.now ∷ []) now) turns) turns (part whole.new) r)) }
    ensures fault { IfOk result (λ o. IfSome o (λ r. OnErr r (whole.new ≡ whole.old))) }
    ensures unchanged { IfOk result (λ o. IfNone o (whole.new ≡ whole.old)) }
    ensures refused { OnErr result (whole.new ≡ whole.old) }
{
    let Some(whole) = whole else {
        return Ok(None);
    };
    let Some(new) = new else {
        return Ok(None);
    };
    combine_at_two(alloc, what, whole, first, second, new, turns)
}

// The same of a value.
fn combine_at_two(
    alloc: Global,
    what: Operator,
    whole: &mut Value,
    first: &Selector,
    second: &Selector,
    new: &Value,
    turns: u64,
) -> Result<Option<Result<u64, OpFault>>, AllocError>
    ensures updated { IfOk result (λ o. IfSome o (λ r. Updates (combined (selected first.now ∷ selected second.now ∷ []) (Some (datum whole.old)) (λ p now. op_of what (p ∷ Some (datum new.now) ∷ []) now) turns) turns (Some (datum whole.new)) r)) }
    ensures fault { IfOk result (λ o. IfSome o (λ r. OnErr r (whole.new ≡ whole.old))) }
    ensures unchanged { IfOk result (λ o. IfNone o (whole.new ≡ whole.old)) }
    ensures refused { OnErr result (whole.new ≡ whole.old) }
{
    let Some(x) = at_round(first) else {
        return Ok(None);
    };
    let Some(y) = at_round(second) else {
        return Ok(None);
    };
    match what {
        Operator::With | Operator::Add => combine_in_part(alloc, what, whole, x, y, new, turns),
        _ => Ok(None),
    }
}

// The same at these selectors.
fn combine_in_part(
    alloc: Global,
    what: Operator,
    whole: &mut Value,
    x: &Value,
    y: &Value,
    new: &Value,
    turns: u64,
) -> Result<Option<Result<u64, OpFault>>, AllocError>
    requires grows { (what ≡ With) ⊎ (what ≡ Add) }
    ensures updated { IfOk result (λ o. IfSome o (λ r. Updates (combined (Round (Some (datum x.now)) ∷ Round (Some (datum y.now)) ∷ []) (Some (datum whole.old)) (λ p now. op_of what (p ∷ Some (datum new.now) ∷ []) now) turns) turns (Some (datum whole.new)) r)) }
    ensures fault { IfOk result (λ o. IfSome o (λ r. OnErr r (whole.new ≡ whole.old))) }
    ensures unchanged { IfOk result (λ o. IfNone o (whole.new ≡ whole.old)) }
    ensures refused { OnErr result (whole.new ≡ whole.old) }
{
    if new.depth() >= 497 {
        return Ok(None);
    }
    match change_part(
        whole,
        x,
        |part| combine_component(alloc, what, part, y, new, turns),
    )? {
        None => Ok(None),
        Some(answer) => answer,
    }
}

// `part(y) with:= new` and `part(y) +:= new`, where the part is a tuple with a component there.
fn combine_component(
    alloc: Global,
    what: Operator,
    part: &mut Value,
    y: &Value,
    new: &Value,
    turns: u64,
) -> Result<Option<Result<u64, OpFault>>, AllocError>
    requires grows { (what ≡ With) ⊎ (what ≡ Add) }
    requires shallow { depth (datum new.now) < 497 }
    ensures updated { IfOk result (λ o. IfSome o (CombinesAt what (datum y.now) (datum new.now) turns (datum part.old) (datum part.new))) }
    ensures deeper { depth (datum part.old) ≤ depth (datum part.new) }
    ensures bound { depth (datum part.new) ≤ max (depth (datum part.old)) (depth (datum new.now) + 2) }
    ensures fault { IfOk result (λ o. IfSome o (λ r. OnErr r (part.new ≡ part.old))) }
    ensures unchanged { IfOk result (λ o. IfNone o (part.new ≡ part.old)) }
    ensures refused { OnErr result (part.new ≡ part.old) }
{
    match part {
        Value::Tuple(t) => combine_in_tuple(alloc, what, t, y, new, turns),
        _ => Ok(None),
    }
}

// The same in a tuple.
fn combine_in_tuple(
    alloc: Global,
    what: Operator,
    t: &mut TupleBody,
    y: &Value,
    new: &Value,
    turns: u64,
) -> Result<Option<Result<u64, OpFault>>, AllocError>
    requires grows { (what ≡ With) ⊎ (what ≡ Add) }
    requires shallow { depth (datum new.now) < 497 }
    ensures updated { IfOk result (λ o. IfSome o (CombinesAt what (datum y.now) (datum new.now) turns (tuple_of t.old) (tuple_of t.new))) }
    ensures deeper { depth (tuple_of t.old) ≤ depth (tuple_of t.new) }
    ensures bound { depth (tuple_of t.new) ≤ max (depth (tuple_of t.old)) (depth (datum new.now) + 2) }
    ensures fault { IfOk result (λ o. IfSome o (λ r. OnErr r (t.new ≡ t.old))) }
    ensures unchanged { IfOk result (λ o. IfNone o (t.new ≡ t.old)) }
    ensures refused { OnErr result (t.new ≡ t.old) }
{
    change_in_tuple(
        t,
        y,
        |component| combine_value(alloc, what, component, new, turns),
    )
}

// `component with new` and `component + new`, in place.
fn combine_value(
    alloc: Global,
    what: Operator,
    component: &mut Value,
    new: &Value,
    turns: u64,
) -> Result<u64, OpFault>
    requires grows { (what ≡ With) ⊎ (what ≡ Add) }
    ensures updated { Updates (op_of what (Some (datum component.old) ∷ Some (datum new.now) ∷ []) turns) turns (Some (datum component.new)) result }
    ensures deeper { depth (datum component.old) ≤ depth (datum component.new) }
    ensures bound { depth (datum component.new) ≤ max (depth (datum component.old)) (depth (datum new.now) + 1) }
    ensures refused { OnErr result (component.new ≡ component.old) }
{
    operands_grow();
    match what {
        Operator::With => add_value(alloc, component, new, turns),
        Operator::Add => append_value(alloc, component, new, turns),
        _ => unreachable!(),
    }
}

/// The operand of a selector `(x)`, where it isn't `om`.
pub(crate) fn at_round(at: &Selector) -> Option<&Value>
    ensures { IfSome result (λ x. selected at.now ≡ Round (Some (datum x.now))) }
{
    match at {
        Selector::Round(Some(x)) => Some(x),
        _ => None,
    }
}

// The same at these selectors.
fn put_in_part(whole: &mut Value, x: &Value, y: &Value, new: &Value) -> Result<bool, AllocError>
    ensures put { IfOk result (λ done. done ≡ true → (turns : ℕ) → Updates (combined (Round (Some (datum x.now)) ∷ []) (Some (datum whole.old)) (λ p now. with_part_at (Round (Some (datum y.now))) p (Some (datum new.now)) now) turns) turns (Some (datum whole.new)) (Ok turns)) }
    ensures unchanged { IfOk result (λ done. done ≡ false → whole.new ≡ whole.old) }
    ensures refused { OnErr result (whole.new ≡ whole.old) }
{
    if new.depth() >= 498 {
        return Ok(false);
    }
    match change_part(whole, x, |part| put_component(part, y, new))? {
        None => Ok(false),
        Some(answer) => answer,
    }
}

// `part(y) := new`, where the part is a tuple with a component there that isn't deeper.
fn put_component(part: &mut Value, y: &Value, new: &Value) -> Result<bool, AllocError>
    requires shallow { depth (datum new.now) < 498 }
    ensures put { IfOk result (λ done. done ≡ true → (left : ℕ) → with_part_at (Round (Some (datum y.now))) (Some (datum part.old)) (Some (datum new.now)) left ≡ value (datum part.new)) }
    ensures deeper { depth (datum part.old) ≤ depth (datum part.new) }
    ensures bound { depth (datum part.new) ≤ max (depth (datum part.old)) (depth (datum new.now) + 1) }
    ensures unchanged { IfOk result (λ done. done ≡ false → part.new ≡ part.old) }
    ensures refused { OnErr result (part.new ≡ part.old) }
{
    match part {
        Value::Tuple(t) => put_in_tuple(t, y, new),
        _ => Ok(false),
    }
}

// The same in a tuple.
fn put_in_tuple(t: &mut TupleBody, y: &Value, new: &Value) -> Result<bool, AllocError>
    requires shallow { depth (datum new.now) < 498 }
    ensures put { IfOk result (λ done. done ≡ true → (left : ℕ) → with_part_at (Round (Some (datum y.now))) (Some (tuple_of t.old)) (Some (datum new.now)) left ≡ value (tuple_of t.new)) }
    ensures deeper { depth (tuple_of t.old) ≤ depth (tuple_of t.new) }
    ensures bound { depth (tuple_of t.new) ≤ max (depth (tuple_of t.old)) (depth (datum new.now) + 1) }
    ensures unchanged { IfOk result (λ done. done ≡ false → t.new ≡ t.old) }
    ensures refused { OnErr result (t.new ≡ t.old) }
{
    match change_in_tuple(t, y, |component| put_if_as_deep(component, new))? {
        None => Ok(false),
        Some(answer) => answer,
    }
}

// Puts a value in the place of one that isn't deeper. Its answer is whether this was so.
fn put_if_as_deep(component: &mut Value, new: &Value) -> Result<bool, AllocError>
    ensures put { IfOk result (λ done. done ≡ true → datum component.new ≡ datum new.now) }
    ensures deeper { depth (datum component.old) ≤ depth (datum component.new) }
    ensures bound { depth (datum component.new) ≤ max (depth (datum component.old)) (depth (datum new.now)) }
    ensures unchanged { IfOk result (λ done. done ≡ false → component.new ≡ component.old) }
    ensures refused { OnErr result (component.new ≡ component.old) }
{
    if component.depth() > new.depth() {
        return Ok(false);
    }
    *component = new.copy()?;
    Ok(true)
}
