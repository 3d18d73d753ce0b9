//! Sums and differences that use their operands up: what has no other owner changes where it stands.

ghost use Rattle.std.specs.Prelude.{◌≡◌, Some};
ghost use Rattle.setl_value.specs.code.Body.{Members};
ghost use Rattle.setl_value.specs.Datum.{set_of};
ghost use Rattle.setl_value.specs.code.DatumOf.{datum};
ghost use Rattle.setl_operators_table.specs.Numbers.{plus, minus};
ghost use Rattle.setl_operators_table.specs.code.Answers.{Tells};

use crate::numbers::{minus_in_place, plus_in_place};
use setl_operators_table::answers::set;
use setl_operators_table::{Answer, OpFault};
use setl_set::laws::{operations_have_their_members, rising_lists_agree};
use setl_value::{SetBody, Value};
use std::alloc::Global;

/// `a + b` of values that are used up. It answers as `plus` does.
pub fn sum(alloc: Global, a: Value, b: Value) -> Result<Answer, OpFault>
    ensures { Tells result (plus (datum a) (datum b)) }
{
    match (a, b) {
        (Value::Set(x), Value::Set(y)) => united(alloc, x, y),
        (a, b) => behind(alloc, a, &b),
    }
}

/// `a - b` of values, the first of which is used up. It answers as `minus` does.
pub fn difference(alloc: Global, a: Value, b: &Value) -> Result<Answer, OpFault>
    ensures { Tells result (minus (datum a) (datum b.now)) }
{
    let mut a = a;
    let charged = minus_in_place(alloc, &mut a, b)?;
    Ok(changed(a, charged))
}

// The union of two sets. The second one grows where the first one has one member alone.
fn united(alloc: Global, x: SetBody, y: SetBody) -> Result<Answer, OpFault>
    ensures { Tells result (plus (set_of (Members x)) (set_of (Members y))) }
{
    if x.len() == 1 {
        unions_turn(&y, &x);
        grown(alloc, y, &x)
    } else {
        grown(alloc, x, &y)
    }
}

// A set with the members of another one.
#[tactic(auto, using(crate::proofs::Views::members_back))]
fn grown(alloc: Global, x: SetBody, y: &SetBody) -> Result<Answer, OpFault>
    ensures { Tells result (plus (set_of (Members x)) (set_of (Members y.now))) }
{
    let mut x = x;
    setl_set::unite(alloc, &mut x, y)?;
    set(x)
}

// Has no effect: it hands a proof that the union of two sets is that of the second one and the first one.
fn unions_turn(x: &SetBody, y: &SetBody)
    ensures { plus (set_of (Members x.now)) (set_of (Members y.now)) ≡ plus (set_of (Members y.now)) (set_of (Members x.now)) }
{
    rising_lists_agree();
    operations_have_their_members();
}

// The sum of other values: what the second one has comes behind what the first one has.
fn behind(alloc: Global, a: Value, b: &Value) -> Result<Answer, OpFault>
    ensures { Tells result (plus (datum a) (datum b.now)) }
{
    let mut a = a;
    let charged = plus_in_place(alloc, &mut a, b)?;
    Ok(changed(a, charged))
}

// A value that was changed in place, with what that charged.
fn changed(value: Value, charged: u64) -> Answer
    ensures { result ≡ record { value = Some value; charged = charged } }
{
    Answer {
        value: Some(value),
        charged,
    }
}
