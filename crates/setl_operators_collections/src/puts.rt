//! The wholes after `f(x) := y`, `t(i) := y` and `f{x} := s`, and changes in place to them and to that after
//! `f{x} with:= y`.

ghost use Rattle.std.specs.Prelude.{◌≡◌, None, Some, pos, ◌≤ℤ◌, OnErr};
ghost use Rattle.setl_value.specs.code.Body.{Members};
ghost use Rattle.setl_value.specs.Datum.{int, set_of, tuple_of};
ghost use Rattle.setl_value.specs.code.DatumOf.{datum, part};
ghost use Rattle.setl_tuple.specs.Tuples.{index_of};
ghost use Rattle.setl_operators_table.specs.Puts.{add_image, put_part, put_value, put_set};
ghost use Rattle.setl_operators_table.specs.code.Answers.{Changes, Tells};

use crate::changes::changed;
use setl_map::MapFault;
use setl_operators_table::{Answer, OpFault};
use setl_tuple::TupleFault;
use setl_value::{SetBody, TupleBody, Value};
use std::alloc::Global;

/// The whole after `whole(x) := y`, a map or a tuple. A tuple charges a turn for each `om` that is put in between. Range
/// for a place below 1, Deep where the result is more than 500 deep.
pub fn put(
    alloc: Global,
    whole: Value,
    x: Value,
    y: Option<Value>,
    turns: u64,
) -> Result<Answer, OpFault>
    ensures { Tells result (put_value turns (datum whole) (datum x) (part y)) }
{
    let mut whole = whole;
    let charged = put_in_place(alloc, &mut whole, x, y, turns)?;
    Ok(changed(whole, charged))
}

/// `whole(x) := y` in place, which answers what it charges: a turn for each `om` that is put in between in a tuple. Kind
/// for a whole that is no map and no tuple, and for a place of a tuple that is no integer; Range for a place below 1;
/// Spent where the charge is above the turns; Deep where the whole would be more than 500 deep. After a fault the whole
/// is as before.
pub fn put_in_place(
    alloc: Global,
    whole: &mut Value,
    x: Value,
    y: Option<Value>,
    turns: u64,
) -> Result<u64, OpFault>
    ensures changes { Changes result (put_value turns (datum whole.old) (datum x) (part y)) (datum whole.new) }
    ensures refused { OnErr result (whole.new ≡ whole.old) }
{
    match whole {
        Value::Set(f) => put_image(alloc, f, x, y),
        Value::Tuple(t) => put_at(alloc, t, x, y, turns),
        _ => Err(OpFault::Kind),
    }
}

// `f(x) := y`, which charges no turn.
fn put_image(alloc: Global, f: &mut SetBody, x: Value, y: Option<Value>) -> Result<u64, OpFault>
    ensures changes { Changes result (put_value 0 (set_of (Members f.old)) (datum x) (part y)) (set_of (Members f.new)) }
    ensures refused { OnErr result (f.new ≡ f.old) }
{
    match setl_map::put(alloc, f, x, y) {
        Ok(()) => {
            f.learn();
            Ok(0)
        }
        Err(MapFault::Kind) => Err(OpFault::Kind),
        Err(MapFault::Deep) => Err(OpFault::Deep),
        Err(MapFault::NoMemory) => Err(OpFault::NoMemory),
    }
}

// `t(x) := y`, where the place has to be an integer.
fn put_at(
    alloc: Global,
    t: &mut TupleBody,
    x: Value,
    y: Option<Value>,
    turns: u64,
) -> Result<u64, OpFault>
    ensures changes { Changes result (put_value turns (tuple_of t.old) (datum x) (part y)) (tuple_of t.new) }
    ensures refused { OnErr result (t.new ≡ t.old) }
{
    match x {
        Value::Int(i) => put_component(alloc, t, i, y, turns),
        _ => Err(OpFault::Kind),
    }
}

// `t(i) := y`.
fn put_component(
    alloc: Global,
    t: &mut TupleBody,
    i: i128,
    y: Option<Value>,
    turns: u64,
) -> Result<u64, OpFault>
    ensures changes { Changes result (put_value turns (tuple_of t.old) (int i) (part y)) (tuple_of t.new) }
    ensures refused { OnErr result (t.new ≡ t.old) }
{
    if i < 1 {
        return Err(OpFault::Range);
    }
    match y {
        None => put_om(alloc, t, i),
        Some(v) => put_part(alloc, t, i, v, turns),
    }
}

// Puts `om` at a place, which charges no turn.
fn put_om(alloc: Global, t: &mut TupleBody, i: i128) -> Result<u64, OpFault>
    requires { pos 1 ≤ℤ i }
    ensures changes { Changes result (put_part 0 (index_of i) None t.old) (tuple_of t.new) }
    ensures refused { OnErr result (t.new ≡ t.old) }
{
    match setl_tuple::put(alloc, t, i, None) {
        Ok(()) => Ok(0),
        Err(_) => Err(OpFault::NoMemory),
    }
}

// Puts `v` at a place. No memory is taken for a put that the turns don't allow.
fn put_part(alloc: Global, t: &mut TupleBody, i: i128, v: Value, turns: u64) -> Result<u64, OpFault>
    requires { pos 1 ≤ℤ i }
    ensures changes { Changes result (put_part turns (index_of i) (Some (datum v)) t.old) (tuple_of t.new) }
    ensures refused { OnErr result (t.new ≡ t.old) }
{
    let between = (i.unsigned_abs() - 1).saturating_sub(t.len() as u128);
    if between > turns as u128 {
        return Err(OpFault::Spent);
    }
    match setl_tuple::put(alloc, t, i, Some(v)) {
        Ok(()) => {
            t.learn();
            Ok(between as u64)
        }
        Err(TupleFault::Deep) => Err(OpFault::Deep),
        Err(_) => Err(OpFault::NoMemory),
    }
}

/// The map after `f{x} := s`. Deep where it is more than 500 deep.
pub fn put_images(alloc: Global, f: Value, x: Value, s: &Value) -> Result<Answer, OpFault>
    ensures { Tells result (put_set (datum f) (datum x) (datum s.now)) }
{
    let mut f = f;
    let charged = put_images_in_place(alloc, &mut f, x, s)?;
    Ok(changed(f, charged))
}

/// `f{x} := s` in place, which answers what it charges: no turn. Kind for what is no map and for images that are no set,
/// Deep where the map would be more than 500 deep. After a fault the map is as before.
pub fn put_images_in_place(
    alloc: Global,
    f: &mut Value,
    x: Value,
    s: &Value,
) -> Result<u64, OpFault>
    ensures changes { Changes result (put_set (datum f.old) (datum x) (datum s.now)) (datum f.new) }
    ensures refused { OnErr result (f.new ≡ f.old) }
{
    match (f, s) {
        (Value::Set(f), Value::Set(s)) => put_all_images(alloc, f, x, s),
        _ => Err(OpFault::Kind),
    }
}

fn put_all_images(alloc: Global, f: &mut SetBody, x: Value, s: &SetBody) -> Result<u64, OpFault>
    ensures changes { Changes result (put_set (set_of (Members f.old)) (datum x) (set_of (Members s.now))) (set_of (Members f.new)) }
    ensures refused { OnErr result (f.new ≡ f.old) }
{
    match setl_map::put_all(alloc, f, x, s) {
        Ok(()) => {
            f.learn();
            Ok(0)
        }
        Err(MapFault::Kind) => Err(OpFault::Kind),
        Err(MapFault::Deep) => Err(OpFault::Deep),
        Err(MapFault::NoMemory) => Err(OpFault::NoMemory),
    }
}

/// `f{x} with:= y` in place, which answers what it charges: no turn. Kind for what is no map, Deep where the map would be
/// more than 500 deep. After a fault the map is as before. The images that are there are not copied.
pub fn add_image_in_place(alloc: Global, f: &mut Value, x: Value, y: Value) -> Result<u64, OpFault>
    ensures changes { Changes result (add_image (datum f.old) (datum x) (datum y)) (datum f.new) }
    ensures refused { OnErr result (f.new ≡ f.old) }
{
    match f {
        Value::Set(f) => add_one_image(alloc, f, x, y),
        _ => Err(OpFault::Kind),
    }
}

fn add_one_image(alloc: Global, f: &mut SetBody, x: Value, y: Value) -> Result<u64, OpFault>
    ensures changes { Changes result (add_image (set_of (Members f.old)) (datum x) (datum y)) (set_of (Members f.new)) }
    ensures refused { OnErr result (f.new ≡ f.old) }
{
    match setl_map::add_image(alloc, f, x, y) {
        Ok(()) => {
            f.learn();
            Ok(0)
        }
        Err(MapFault::Kind) => Err(OpFault::Kind),
        Err(MapFault::Deep) => Err(OpFault::Deep),
        Err(MapFault::NoMemory) => Err(OpFault::NoMemory),
    }
}
