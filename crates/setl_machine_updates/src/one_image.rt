//! One image more or less of a point, where the map stands.

ghost use Rattle.std.specs.Prelude.{◌≡◌, ◌<◌, ◌∷◌, [], Some, Ok, IfOk, IfNone, IfSome, IsTrue, OnErr};
ghost use Rattle.setl_value.specs.Datum.{depth, set_of};
ghost use Rattle.setl_value.specs.Pairs.{images, is_map, pair};
ghost use Rattle.setl_value.specs.code.Body.{Members};
ghost use Rattle.setl_value.specs.code.DatumOf.{datum, part};
ghost use Rattle.setl_set.specs.Sets.{remove_datum};
ghost use Rattle.setl_map.specs.Maps.{put_images};
ghost use Rattle.setl_operators_table.specs.declared.Operator.TheVariants.{Add, Subtract, With, Less};
ghost use Rattle.setl_operators_table.specs.Operators.{op_of};
ghost use Rattle.setl_operators_table.specs.Puts.{add_image};
ghost use Rattle.setl_model.specs.Core.{Brace};
ghost use Rattle.setl_model.specs.Places.{combined};
ghost use Rattle.setl_machine_updates.specs.Changing.{CombinesAlike};
ghost use Rattle.setl_machine_updates.specs.Updates.{Updates};

use setl_map::laws::images_are_shallower;
use setl_operators_collections::add_image_in_place;
use setl_operators_table::{OpFault, Operator};
use setl_set::laws::{operations_have_their_members, rising_lists_agree, tests_are_exact};
use setl_value::{SetBody, TupleBody, Value};
use std::alloc::{AllocError, Global};

/// `whole{x} with:= value` and `whole{x} less:= value`, and `whole{x} +:= value` and `whole{x} -:= value` where the value is
/// a set of one member, where the map stands, and what that answers. None for another operator or value, and, where a
/// pair is to go, for a whole that is no map and for values that are too deep to be parts of a pair in a map; then
/// nothing changed.
pub(crate) fn combine_images(
    alloc: Global,
    what: Operator,
    whole: &mut Option<Value>,
    x: &Value,
    value: &Value,
    turns: u64,
) -> Result<Option<Result<u64, OpFault>>, AllocError>
    ensures updated { IfOk result (λ o. IfSome o (λ r. Updates (combined (Brace (Some (datum x.now)) ∷ []) (part whole.old) (λ p now. op_of what (p ∷ Some (datum value.now) ∷ []) now) turns) turns (part whole.new) r)) }
    ensures fault { IfOk result (λ o. IfSome o (λ r. OnErr r (whole.new ≡ whole.old))) }
    ensures unchanged { IfOk result (λ o. IfNone o (whole.new ≡ whole.old)) }
    ensures refused { OnErr result (whole.new ≡ whole.old) }
{
    match what {
        Operator::With => Ok(Some(add_image(alloc, whole, x, value, turns))),
        Operator::Less => remove_image(alloc, whole, x, value, turns),
        _ => combine_alone(alloc, what, whole, x, value, turns),
    }
}

// `whole{x} +:= value` and `whole{x} -:= value` where the value is a set of one member.
fn combine_alone(
    alloc: Global,
    what: Operator,
    whole: &mut Option<Value>,
    x: &Value,
    value: &Value,
    turns: u64,
) -> Result<Option<Result<u64, OpFault>>, AllocError>
    ensures updated { IfOk result (λ o. IfSome o (λ r. Updates (combined (Brace (Some (datum x.now)) ∷ []) (part whole.old) (λ p now. op_of what (p ∷ Some (datum value.now) ∷ []) now) turns) turns (part whole.new) r)) }
    ensures fault { IfOk result (λ o. IfSome o (λ r. OnErr r (whole.new ≡ whole.old))) }
    ensures unchanged { IfOk result (λ o. IfNone o (whole.new ≡ whole.old)) }
    ensures refused { OnErr result (whole.new ≡ whole.old) }
{
    let Some(y) = only_member(value) else {
        return Ok(None);
    };
    learn_alone(value, y);
    match what {
        Operator::Add => Ok(Some(add_image(alloc, whole, x, y, turns))),
        Operator::Subtract => remove_image(alloc, whole, x, y, turns),
        _ => Ok(None),
    }
}

// The one member of a set. None for other sets and values.
fn only_member(value: &Value) -> Option<&Value>
    ensures { IfSome result (λ y. datum value.now ≡ set_of (datum y.now ∷ [])) }
{
    match value {
        Value::Set(members) => only_of(members),
        _ => None,
    }
}

// The same for a set.
fn only_of(members: &SetBody) -> Option<&Value>
    ensures { IfSome result (λ y. Members members.now ≡ datum y.now ∷ []) }
{
    if members.len() == 1 {
        Some(members.at(0))
    } else {
        None
    }
}

// Has no effect: it hands a proof that a set of one member is put to images, and taken off them, as that member is.
fn learn_alone(value: &Value, y: &Value)
    requires { datum value.now ≡ set_of (datum y.now ∷ []) }
    ensures sum { CombinesAlike Add (datum value.now) With (datum y.now) }
    ensures difference { CombinesAlike Subtract (datum value.now) Less (datum y.now) }
{
    rising_lists_agree();
    tests_are_exact();
    operations_have_their_members();
    images_are_shallower();
}

// `whole{x} with:= y` where the map stands.
fn add_image(
    alloc: Global,
    whole: &mut Option<Value>,
    x: &Value,
    y: &Value,
    turns: u64,
) -> Result<u64, OpFault>
    ensures updated { Updates (combined (Brace (Some (datum x.now)) ∷ []) (part whole.old) (λ p now. op_of With (p ∷ Some (datum y.now) ∷ []) now) turns) turns (part whole.new) result }
    ensures refused { OnErr result (whole.new ≡ whole.old) }
{
    images_are_shallower();
    let Some(whole) = whole else {
        return Err(OpFault::Om);
    };
    add_in(alloc, whole, x, y, turns)
}

// The same for a value.
fn add_in(
    alloc: Global,
    whole: &mut Value,
    x: &Value,
    y: &Value,
    turns: u64,
) -> Result<u64, OpFault>
    ensures updated { Updates (add_image (datum whole.old) (datum x.now) (datum y.now)) turns (Some (datum whole.new)) result }
    ensures refused { OnErr result (whole.new ≡ whole.old) }
{
    let charged = add_image_in_place(alloc, whole, x.copy()?, y.copy()?)?;
    Ok(turns.saturating_sub(charged))
}

// `whole{x} less:= y` where the map stands, with the turns that are left: the pair of x and y goes. None for a whole that
// is no map, and for values that are too deep to be parts of a pair in a map; then nothing changed. Where memory is
// refused, the whole is as before.
fn remove_image(
    alloc: Global,
    whole: &mut Option<Value>,
    x: &Value,
    y: &Value,
    turns: u64,
) -> Result<Option<Result<u64, OpFault>>, AllocError>
    ensures updated { IfOk result (λ o. IfSome o (λ r. Updates (combined (Brace (Some (datum x.now)) ∷ []) (part whole.old) (λ p now. op_of Less (p ∷ Some (datum y.now) ∷ []) now) turns) turns (part whole.new) r)) }
    ensures fault { IfOk result (λ o. IfSome o (λ r. OnErr r (whole.new ≡ whole.old))) }
    ensures unchanged { IfOk result (λ o. IfNone o (whole.new ≡ whole.old)) }
    ensures refused { OnErr result (whole.new ≡ whole.old) }
{
    let Some(whole) = whole else {
        return Ok(None);
    };
    match remove_in(alloc, whole, x, y, turns)? {
        Some(left) => Ok(Some(Ok(left))),
        None => Ok(None),
    }
}

// The same for a value.
fn remove_in(
    alloc: Global,
    whole: &mut Value,
    x: &Value,
    y: &Value,
    turns: u64,
) -> Result<Option<u64>, AllocError>
    ensures updated { IfOk result (λ o. IfSome o (λ left. Updates (combined (Brace (Some (datum x.now)) ∷ []) (Some (datum whole.old)) (λ p now. op_of Less (p ∷ Some (datum y.now) ∷ []) now) turns) turns (Some (datum whole.new)) (Ok left))) }
    ensures unchanged { IfOk result (λ o. IfNone o (whole.new ≡ whole.old)) }
    ensures refused { OnErr result (whole.new ≡ whole.old) }
{
    match whole {
        Value::Set(f) => remove_pair(alloc, f, x, y, turns),
        _ => Ok(None),
    }
}

// The same for a set.
fn remove_pair(
    alloc: Global,
    f: &mut SetBody,
    x: &Value,
    y: &Value,
    turns: u64,
) -> Result<Option<u64>, AllocError>
    ensures updated { IfOk result (λ o. IfSome o (λ left. Updates (combined (Brace (Some (datum x.now)) ∷ []) (Some (set_of (Members f.old))) (λ p now. op_of Less (p ∷ Some (datum y.now) ∷ []) now) turns) turns (Some (set_of (Members f.new))) (Ok left))) }
    ensures unchanged { IfOk result (λ o. IfNone o (f.new ≡ f.old)) }
    ensures refused { OnErr result (f.new ≡ f.old) }
{
    if !f.is_map() {
        return Ok(None);
    }
    if x.depth() >= 499 || y.depth() >= 499 {
        return Ok(None);
    }
    learn_removed(f, x, y);
    let gone = pair_of(alloc, x, y)?;
    setl_set::less(f, &gone)?;
    learn_depth(f);
    Ok(Some(turns))
}

// Has no effect: it hands a proof that one image less is one pair less.
fn learn_removed(f: &SetBody, x: &Value, y: &Value)
    requires { IsTrue (is_map (Members f.now)) }
    ensures { remove_datum (pair (datum x.now) (datum y.now)) (Members f.now) ≡ put_images (datum x.now) (remove_datum (datum y.now) (images (datum x.now) (Members f.now))) (Members f.now) }
{
    rising_lists_agree();
    tests_are_exact();
    operations_have_their_members();
    f.learn();
}

// Has no effect: it hands a proof that a set is at most 500 deep.
fn learn_depth(f: &SetBody)
    ensures { depth (set_of (Members f.now)) < 501 }
{
    f.learn();
}

// The pair of two values.
fn pair_of(alloc: Global, x: &Value, y: &Value) -> Result<Value, AllocError>
    requires { (depth (datum x.now) < 499) × (depth (datum y.now) < 499) }
    ensures { IfOk result (λ p. datum p ≡ pair (datum x.now) (datum y.now)) }
{
    let mut parts = Vec::with_capacity(alloc, 2)?;
    parts.push(Some(x.copy()?))?;
    parts.push(Some(y.copy()?))?;
    Ok(Value::Tuple(TupleBody::of(alloc, parts)?))
}
