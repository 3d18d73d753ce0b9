//! Answers of operators, each with the outcome that it tells.

ghost use Rattle.std.specs.Prelude.{◌≡◌, ℤ, Result, IfOk, Ok, Err};
ghost use Rattle.setl_value.specs.code.Body.{Members};
ghost use Rattle.setl_value.specs.Datum.{set_of, text, tuple_of};
ghost use Rattle.setl_value.specs.code.DatumOf.{datum};
ghost use Rattle.setl_operators_table.specs.code.Answers.{Tells};
ghost use Rattle.setl_operators_table.specs.Numbers.{whole};
ghost use Rattle.setl_operators_table.specs.Outcome.{value, truth, set_value, tuple_value, within_depth};

use crate::{Answer, OpFault};
use setl_scalar::ScalarFault;
use setl_value::{SetBody, Text, TupleBody, Value};

/// A value without a charge.
pub fn free(v: Value) -> Result<Answer, OpFault>
    ensures { Tells result (value (datum v)) }
{
    Ok(Answer {
        value: Some(v),
        charged: 0,
    })
}

/// A boolean without a charge.
pub fn truth(b: bool) -> Result<Answer, OpFault>
    ensures { Tells result (truth b) }
{
    free(Value::Bool(b))
}

/// A set without a charge.
pub fn set(s: SetBody) -> Result<Answer, OpFault>
    ensures { Tells result (set_value (Members s)) }
{
    free(Value::Set(s))
}

/// A tuple without a charge.
pub fn tuple(t: TupleBody) -> Result<Answer, OpFault>
    ensures { Tells result (tuple_value t) }
{
    free(Value::Tuple(t))
}

/// A string without a charge.
pub fn string(t: Text) -> Result<Answer, OpFault>
    ensures { Tells result (value (text t)) }
{
    free(Value::Text(t))
}

/// What an operator on integers gave.
pub fn whole(r: Result<i128, ScalarFault>) -> Result<Answer, OpFault>
    ensures { Tells result (whole r) }
{
    match r {
        Ok(z) => free(Value::Int(z)),
        Err(ScalarFault::Wide) => Err(OpFault::Wide),
        Err(ScalarFault::Zero) => Err(OpFault::Zero),
        Err(ScalarFault::Range) => Err(OpFault::Range),
        Err(ScalarFault::NoMemory) => Err(OpFault::NoMemory),
    }
}

/// A set, which is at most 500 deep as each value is.
pub fn shallow_set(s: SetBody) -> Result<Answer, OpFault>
    ensures { Tells result (within_depth (set_of (Members s))) }
{
    s.learn();
    set(s)
}

/// A tuple, which is at most 500 deep as each value is.
pub fn shallow_tuple(t: TupleBody) -> Result<Answer, OpFault>
    ensures { Tells result (within_depth (tuple_of t)) }
{
    t.learn();
    tuple(t)
}
