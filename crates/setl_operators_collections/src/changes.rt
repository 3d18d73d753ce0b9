//! Sets, tuples and maps with one part more or less, changed in place.

ghost use Rattle.std.specs.Prelude.{◌≡◌, OnErr};
ghost use Rattle.setl_value.specs.code.Body.{Members};
ghost use Rattle.setl_value.specs.Datum.{set_of, tuple_of};
ghost use Rattle.setl_value.specs.code.DatumOf.{datum};
ghost use Rattle.setl_operators_table.specs.Collections.{less_datum, with_datum, lessf_datum};
ghost use Rattle.setl_operators_table.specs.code.Answers.{Changes, Tells};

use setl_map::MapFault;
use setl_operators_table::{Answer, OpFault};
use setl_set::SetFault;
use setl_tuple::TupleFault;
use setl_value::{SetBody, TupleBody, Value};
use std::alloc::Global;

/// `whole with v`: a set with one member more, or a tuple with one component more. Deep where that is more than 500
/// deep.
pub fn with(alloc: Global, whole: Value, v: Value) -> Result<Answer, OpFault>
    ensures { Tells result (with_datum (datum whole) (datum v)) }
{
    let mut whole = whole;
    let charged = with_in_place(alloc, &mut whole, v)?;
    Ok(changed(whole, charged))
}

/// `whole with v` in place, which answers what it charges: no turn. Kind for a whole that is no set and no tuple, Deep
/// where it would be more than 500 deep. After a fault the whole is as before.
pub fn with_in_place(alloc: Global, whole: &mut Value, v: Value) -> Result<u64, OpFault>
    ensures changes { Changes result (with_datum (datum whole.old) (datum v)) (datum whole.new) }
    ensures refused { OnErr result (whole.new ≡ whole.old) }
{
    match whole {
        Value::Set(s) => add_member(alloc, s, v),
        Value::Tuple(t) => add_component(t, v),
        _ => Err(OpFault::Kind),
    }
}

fn add_member(alloc: Global, s: &mut SetBody, v: Value) -> Result<u64, OpFault>
    ensures changes { Changes result (with_datum (set_of (Members s.old)) (datum v)) (set_of (Members s.new)) }
    ensures refused { OnErr result (s.new ≡ s.old) }
{
    match setl_set::with(alloc, s, v) {
        Ok(()) => {
            s.learn();
            Ok(0)
        }
        Err(SetFault::Deep) => Err(OpFault::Deep),
        Err(SetFault::NoMemory) => Err(OpFault::NoMemory),
    }
}

fn add_component(t: &mut TupleBody, v: Value) -> Result<u64, OpFault>
    ensures changes { Changes result (with_datum (tuple_of t.old) (datum v)) (tuple_of t.new) }
    ensures refused { OnErr result (t.new ≡ t.old) }
{
    match setl_tuple::with(t, v) {
        Ok(()) => {
            t.learn();
            Ok(0)
        }
        Err(TupleFault::Deep) => Err(OpFault::Deep),
        Err(_) => Err(OpFault::NoMemory),
    }
}

/// `whole less v`: a set without a member.
pub fn less(whole: Value, v: &Value) -> Result<Answer, OpFault>
    ensures { Tells result (less_datum (datum whole) (datum v.now)) }
{
    let mut whole = whole;
    let charged = less_in_place(&mut whole, v)?;
    Ok(changed(whole, charged))
}

/// `whole less v` in place, which answers what it charges: no turn. Kind for a whole that is no set. After a fault the
/// whole is as before.
pub fn less_in_place(whole: &mut Value, v: &Value) -> Result<u64, OpFault>
    ensures changes { Changes result (less_datum (datum whole.old) (datum v.now)) (datum whole.new) }
    ensures refused { OnErr result (whole.new ≡ whole.old) }
{
    match whole {
        Value::Set(s) => remove_member(s, v),
        _ => Err(OpFault::Kind),
    }
}

fn remove_member(s: &mut SetBody, v: &Value) -> Result<u64, OpFault>
    ensures changes { Changes result (less_datum (set_of (Members s.old)) (datum v.now)) (set_of (Members s.new)) }
    ensures refused { OnErr result (s.new ≡ s.old) }
{
    setl_set::less(s, v)?;
    Ok(0)
}

/// `f lessf x`: a map without the pairs of a point.
pub fn lessf(alloc: Global, f: Value, x: &Value) -> Result<Answer, OpFault>
    ensures { Tells result (lessf_datum (datum f) (datum x.now)) }
{
    let mut f = f;
    let charged = lessf_in_place(alloc, &mut f, x)?;
    Ok(changed(f, charged))
}

/// `f lessf x` in place, which answers what it charges: no turn. Kind for what is no map. After a fault the map is as
/// before.
pub fn lessf_in_place(alloc: Global, f: &mut Value, x: &Value) -> Result<u64, OpFault>
    ensures changes { Changes result (lessf_datum (datum f.old) (datum x.now)) (datum f.new) }
    ensures refused { OnErr result (f.new ≡ f.old) }
{
    match f {
        Value::Set(f) => remove_point(alloc, f, x),
        _ => Err(OpFault::Kind),
    }
}

fn remove_point(alloc: Global, f: &mut SetBody, x: &Value) -> Result<u64, OpFault>
    ensures changes { Changes result (lessf_datum (set_of (Members f.old)) (datum x.now)) (set_of (Members f.new)) }
    ensures refused { OnErr result (f.new ≡ f.old) }
{
    match setl_map::lessf(alloc, f, x) {
        Ok(()) => Ok(0),
        Err(MapFault::Kind) => Err(OpFault::Kind),
        Err(_) => Err(OpFault::NoMemory),
    }
}

/// A value that was changed in place, with what that charged.
pub(crate) fn changed(whole: Value, charged: u64) -> Answer
    ensures { result ≡ record { value = Some whole; charged = charged } }
{
    Answer {
        value: Some(whole),
        charged,
    }
}
