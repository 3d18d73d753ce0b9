//! The selections `f(x)`, `t(i)`, `f{x}`, `t(i..j)` and `t(i..)`.

ghost use Rattle.std.specs.Prelude.{◌≡◌};
ghost use Rattle.setl_value.specs.code.Body.{Members};
ghost use Rattle.setl_value.specs.Datum.{int, set_of, text, tuple_of};
ghost use Rattle.setl_value.specs.code.DatumOf.{datum};
ghost use Rattle.setl_operators_table.specs.Selections.{get, images_of, slice, tail};
ghost use Rattle.setl_operators_table.specs.code.Answers.{Tells};

use setl_map::MapFault;
use setl_operators_table::answers::{set, string, tuple};
use setl_operators_table::{Answer, OpFault};
use setl_scalar::ScalarFault;
use setl_tuple::TupleFault;
use setl_value::{SetBody, Text, TupleBody, Value, copied};
use std::alloc::Global;

/// `whole(at)`: the only image of a map at a point, or the component of a tuple or the byte of a string at a place; `om`
/// where there is none. Range for a place below 1.
pub fn get(alloc: Global, whole: &Value, at: &Value) -> Result<Answer, OpFault>
    ensures { Tells result (get (datum whole.now) (datum at.now)) }
{
    match (whole, at) {
        (Value::Set(f), x) => image(f, x),
        (Value::Tuple(t), Value::Int(i)) => component(t, *i),
        (Value::Text(t), Value::Int(i)) => letter(alloc, t, *i),
        _ => Err(OpFault::Kind),
    }
}

fn image(f: &SetBody, x: &Value) -> Result<Answer, OpFault>
    ensures { Tells result (get (set_of (Members f.now)) (datum x.now)) }
{
    match setl_map::image(f, x) {
        Ok(value) => Ok(Answer { value, charged: 0 }),
        Err(MapFault::Kind) => Err(OpFault::Kind),
        Err(_) => Err(OpFault::NoMemory),
    }
}

fn component(t: &TupleBody, i: i128) -> Result<Answer, OpFault>
    ensures { Tells result (get (tuple_of t.now) (int i)) }
{
    match setl_tuple::get(t, i) {
        Ok(p) => Ok(Answer {
            value: copied(p)?,
            charged: 0,
        }),
        Err(_) => Err(OpFault::Range),
    }
}

// The string of the byte at a place.
fn letter(alloc: Global, t: &Text, i: i128) -> Result<Answer, OpFault>
    ensures { Tells result (get (text t.now) (int i)) }
{
    if i > t.bytes().len() as i128 {
        return Ok(Answer {
            value: None,
            charged: 0,
        });
    }
    letters(alloc, t, i, i)
}

/// `f{x}`: the set of the images of a map at a point.
pub fn images(alloc: Global, f: &Value, x: &Value) -> Result<Answer, OpFault>
    ensures { Tells result (images_of (datum f.now) (datum x.now)) }
{
    match f {
        Value::Set(f) => all_images(alloc, f, x),
        _ => Err(OpFault::Kind),
    }
}

fn all_images(alloc: Global, f: &SetBody, x: &Value) -> Result<Answer, OpFault>
    ensures { Tells result (images_of (set_of (Members f.now)) (datum x.now)) }
{
    match setl_map::images(alloc, f, x) {
        Ok(s) => set(s),
        Err(MapFault::Kind) => Err(OpFault::Kind),
        Err(_) => Err(OpFault::NoMemory),
    }
}

/// `whole(i..j)` of a tuple or string. Range where the places don't lie in it.
pub fn slice(alloc: Global, whole: &Value, i: &Value, j: &Value) -> Result<Answer, OpFault>
    ensures { Tells result (slice (datum whole.now) (datum i.now) (datum j.now)) }
{
    match whole {
        Value::Tuple(t) => components_at(alloc, t, i, j),
        Value::Text(t) => letters_at(alloc, t, i, j),
        _ => Err(OpFault::Kind),
    }
}

fn components_at(alloc: Global, t: &TupleBody, i: &Value, j: &Value) -> Result<Answer, OpFault>
    ensures { Tells result (slice (tuple_of t.now) (datum i.now) (datum j.now)) }
{
    match (i, j) {
        (Value::Int(i), Value::Int(j)) => components(alloc, t, *i, *j),
        _ => Err(OpFault::Kind),
    }
}

// The tuple of the components at places `i` to `j`.
fn components(alloc: Global, t: &TupleBody, i: i128, j: i128) -> Result<Answer, OpFault>
    ensures { Tells result (slice (tuple_of t.now) (int i) (int j)) }
{
    match setl_tuple::slice(alloc, t, i, j) {
        Ok(s) => tuple(s),
        Err(TupleFault::Range) => Err(OpFault::Range),
        Err(_) => Err(OpFault::NoMemory),
    }
}

fn letters_at(alloc: Global, t: &Text, i: &Value, j: &Value) -> Result<Answer, OpFault>
    ensures { Tells result (slice (text t.now) (datum i.now) (datum j.now)) }
{
    match (i, j) {
        (Value::Int(i), Value::Int(j)) => letters(alloc, t, *i, *j),
        _ => Err(OpFault::Kind),
    }
}

// The string of the bytes at places `i` to `j`.
fn letters(alloc: Global, t: &Text, i: i128, j: i128) -> Result<Answer, OpFault>
    ensures { Tells result (slice (text t.now) (int i) (int j)) }
{
    match setl_scalar::slice(alloc, t, i, j) {
        Ok(s) => string(s),
        Err(ScalarFault::Range) => Err(OpFault::Range),
        Err(_) => Err(OpFault::NoMemory),
    }
}

/// `whole(i..)` of a tuple or string. Range where the place doesn't lie in it.
#[tactic(auto, using(crate::proofs::Rows::parts_back))]
pub fn tail(alloc: Global, whole: &Value, i: &Value) -> Result<Answer, OpFault>
    ensures { Tells result (tail (datum whole.now) (datum i.now)) }
{
    match (whole, i) {
        (Value::Tuple(t), Value::Int(i)) => components(alloc, t, *i, t.len() as i128),
        (Value::Text(t), Value::Int(i)) => letters(alloc, t, *i, t.bytes().len() as i128),
        _ => Err(OpFault::Kind),
    }
}
