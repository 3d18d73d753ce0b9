//! Pairs of a point.

ghost use Rattle.std.specs.Prelude.{◌≡◌, ◌≤◌, ◌++◌, map, IfOk, OnOk, Some};
ghost use Rattle.setl_value.specs.Datum.{depth, set_of};
ghost use Rattle.setl_value.specs.Pairs.{pair};
ghost use Rattle.setl_value.specs.code.Body.{Members};
ghost use Rattle.setl_value.specs.code.DatumOf.{datum};
ghost use Rattle.setl_rep_forms.specs.Stands.{images_in, pairs_of};

use setl_value::{SetBody, TupleBody, Value};
use std::alloc::{AllocError, Global};

/// Puts the pairs of a point at the end: that with `y`, or, where `many` says so, those with the members of `y`. An error
/// is want of memory.
pub(crate) fn push_pairs(
    alloc: Global,
    many: bool,
    x: &Value,
    y: &Value,
    pairs: &mut Vec<Value>,
) -> Result<(), AllocError>
    requires { depth (set_of (pairs_of many (Some (datum x.now)) (Some (datum y.now)))) ≤ 500 }
    ensures { OnOk result (map datum pairs.new.items ≡ map datum pairs.old.items ++ pairs_of many (Some (datum x.now)) (Some (datum y.now))) }
{
    if !many {
        pairs.push(pair(alloc, x, y)?)?;
        return Ok(());
    }
    match y {
        Value::Set(images) => push_images(alloc, x, images, pairs),
        _ => Ok(()),
    }
}

// Puts the pairs of a point with the members of a set at the end.
fn push_images(
    alloc: Global,
    x: &Value,
    images: &SetBody,
    pairs: &mut Vec<Value>,
) -> Result<(), AllocError>
    requires { depth (set_of (map (pair (datum x.now)) (Members images.now))) ≤ 500 }
    ensures { OnOk result (map datum pairs.new.items ≡ map datum pairs.old.items ++ map (pair (datum x.now)) (Members images.now)) }
{
    for y in images.members() {
        pairs.push(pair(alloc, x, y)?)?;
    }
    Ok(())
}

// The pair of two values.
fn pair(alloc: Global, x: &Value, y: &Value) -> Result<Value, AllocError>
    requires { depth (pair (datum x.now) (datum y.now)) ≤ 500 }
    ensures { IfOk result (λ p. datum p ≡ pair (datum x.now) (datum y.now)) }
{
    let mut parts = Vec::with_capacity(alloc, 2)?;
    parts.push(Some(x.copy()?))?;
    parts.push(Some(y.copy()?))?;
    Ok(Value::Tuple(TupleBody::of(alloc, parts)?))
}
