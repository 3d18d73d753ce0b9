//! `from`, `fromb` and `frome`: taking one part out of a set or a tuple in place.

ghost use Rattle.std.specs.Prelude.{◌≡◌, OnErr, IfOk, false};
ghost use Rattle.setl_value.specs.code.Body.{Members};
ghost use Rattle.setl_value.specs.Datum.{set_of, tuple_of};
ghost use Rattle.setl_value.specs.code.DatumOf.{datum};
ghost use Rattle.setl_operators_table.specs.code.Answers.{Takes};
ghost use Rattle.setl_operators_table.specs.Takes.{take_least, take_first, take_last};

use setl_operators_table::{OpFault, Taken};
use setl_value::{SetBody, TupleBody, Value};

/// Takes the least member out of a set in place, as `x from s` does; it charges no turn. An empty set has none to take,
/// and stays. Kind for a whole that is no set. After a fault the whole is as before.
pub fn take_least(whole: &mut Value) -> Result<Taken, OpFault>
    ensures takes { Takes result (take_least (datum whole.old)) (datum whole.new) }
    ensures empty { IfOk result (λ t. t.stored ≡ false → whole.new ≡ whole.old) }
    ensures refused { OnErr result (whole.new ≡ whole.old) }
{
    match whole {
        Value::Set(s) => take_member(s),
        _ => Err(OpFault::Kind),
    }
}

/// Takes the first component off a tuple in place, as `x fromb t` does; it charges no turn. The empty tuple has none to
/// take, and stays. Kind for a whole that is no tuple. After a fault the whole is as before.
pub fn take_first(whole: &mut Value) -> Result<Taken, OpFault>
    ensures takes { Takes result (take_first (datum whole.old)) (datum whole.new) }
    ensures empty { IfOk result (λ t. t.stored ≡ false → whole.new ≡ whole.old) }
    ensures refused { OnErr result (whole.new ≡ whole.old) }
{
    match whole {
        Value::Tuple(t) => take_front(t),
        _ => Err(OpFault::Kind),
    }
}

/// Takes the last component off a tuple in place, as `x frome t` does, and then the `om` at its end; it charges no turn.
/// The empty tuple has none to take, and stays. Kind for a whole that is no tuple. After a fault the whole is as before.
pub fn take_last(whole: &mut Value) -> Result<Taken, OpFault>
    ensures takes { Takes result (take_last (datum whole.old)) (datum whole.new) }
    ensures empty { IfOk result (λ t. t.stored ≡ false → whole.new ≡ whole.old) }
    ensures refused { OnErr result (whole.new ≡ whole.old) }
{
    match whole {
        Value::Tuple(t) => take_back(t),
        _ => Err(OpFault::Kind),
    }
}

fn take_member(s: &mut SetBody) -> Result<Taken, OpFault>
    ensures takes { Takes result (take_least (set_of (Members s.old))) (set_of (Members s.new)) }
    ensures empty { IfOk result (λ t. t.stored ≡ false → s.new ≡ s.old) }
    ensures refused { OnErr result (s.new ≡ s.old) }
{
    if s.len() == 0 {
        return Ok(Taken {
            value: None,
            stored: false,
        });
    }
    let least = s.cut_at(0)?;
    Ok(Taken {
        value: Some(least),
        stored: true,
    })
}

fn take_front(t: &mut TupleBody) -> Result<Taken, OpFault>
    ensures takes { Takes result (take_first (tuple_of t.old)) (tuple_of t.new) }
    ensures empty { IfOk result (λ r. r.stored ≡ false → t.new ≡ t.old) }
    ensures refused { OnErr result (t.new ≡ t.old) }
{
    if t.len() == 0 {
        return Ok(Taken {
            value: None,
            stored: false,
        });
    }
    let first = t.cut_front()?;
    Ok(Taken {
        value: first,
        stored: true,
    })
}

fn take_back(t: &mut TupleBody) -> Result<Taken, OpFault>
    ensures takes { Takes result (take_last (tuple_of t.old)) (tuple_of t.new) }
    ensures empty { IfOk result (λ r. r.stored ≡ false → t.new ≡ t.old) }
    ensures refused { OnErr result (t.new ≡ t.old) }
{
    if t.len() == 0 {
        return Ok(Taken {
            value: None,
            stored: false,
        });
    }
    let last = t.cut_back()?;
    Ok(Taken {
        value: last,
        stored: true,
    })
}
