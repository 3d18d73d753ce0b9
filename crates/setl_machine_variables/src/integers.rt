//! Operators on one or two values, which are answered without a list of operands and for no charge.

ghost use Rattle.std.specs.Prelude.{IfSome, ◌≡◌};
ghost use Rattle.setl_operators_table.specs.Numbers.{whole};
ghost use Rattle.setl_operators_table.specs.Outcome.{value};
ghost use Rattle.setl_value.specs.Datum.{int};
ghost use Rattle.setl_value.specs.code.DatumOf.{datum};
ghost use Rattle.setl_machine_variables.specs.Freely.{GivesAlone, GivesFreely, OnTop, OnTopAlone};

use crate::reading::{read_two, size};
use setl_operators::Operator;
use setl_scalar::{ScalarFault, abs, add, div, modulo, mul, neg, sub};
use setl_store::Store;
use setl_value::Value;

/// What an operator gives of the two values on top, where these are integers and it charges nothing, or where it reads the
/// component of a tuple at a place, or whether a value is a member of a set.
#[inline(always)]
pub fn freely_of_top(what: Operator, store: &Store<'_>) -> Option<Value>
    ensures { IfSome result (λ v. OnTop what store.now.core.now.operands (datum v)) }
{
    let Some((a, b)) = store.two() else {
        return None;
    };
    freely_of_two(what, a, b)
}

/// What an operator gives of two values, where these are integers and it charges nothing, or where it reads the component of a
/// tuple at a place, or whether a value is a member of a set.
#[inline(always)]
fn freely_of_two(what: Operator, a: &Value, b: &Value) -> Option<Value>
    ensures { IfSome result (λ v. GivesFreely what (datum a.now) (datum b.now) (datum v)) }
{
    match freely(what, a, b) {
        Some(value) => Some(value),
        None => read_two(what, a, b),
    }
}

/// What an operator with one operand gives of the value on top, where this is an integer or a truth value and it charges
/// nothing, or where it counts the members, components or bytes.
#[inline(always)]
pub fn freely_of_one(what: Operator, store: &Store<'_>) -> Option<Value>
    ensures { IfSome result (λ v. OnTopAlone what store.now.core.now.operands (datum v)) }
{
    let Some(a) = store.one() else {
        return None;
    };
    freely_alone(what, a)
}

/// What an operator with one operand gives of a value, where this is an integer or a truth value and it charges nothing, or where
/// it counts.
#[inline(always)]
fn freely_alone(what: Operator, a: &Value) -> Option<Value>
    ensures { IfSome result (λ v. GivesAlone what (datum a.now) (datum v)) }
{
    match (what, a) {
        (Operator::Negate, Value::Int(z)) => whole(neg(*z)),
        (Operator::Abs, Value::Int(z)) => whole(abs(*z)),
        (Operator::Even, Value::Int(z)) => Some(Value::Bool(z.unsigned_abs() % 2 == 0)),
        (Operator::Odd, Value::Int(z)) => Some(Value::Bool(z.unsigned_abs() % 2 == 1)),
        (Operator::Not, Value::Bool(truth)) => Some(Value::Bool(!*truth)),
        (Operator::Size, _) => size(a),
        _ => None,
    }
}

/// What an operator gives of two values, where these are integers and it charges nothing.
#[inline(always)]
pub(crate) fn freely(what: Operator, a: &Value, b: &Value) -> Option<Value>
    ensures { IfSome result (λ v. GivesFreely what (datum a.now) (datum b.now) (datum v)) }
{
    match (a, b) {
        (Value::Int(x), Value::Int(y)) => freely_of(what, *x, *y),
        _ => None,
    }
}

/// What an operator gives of two integers, where it has two operands, charges nothing and doesn't fail.
#[inline(always)]
fn freely_of(what: Operator, a: i128, b: i128) -> Option<Value>
    ensures { IfSome result (λ v. GivesFreely what (int a) (int b) (datum v)) }
{
    match what {
        Operator::Add => whole(add(a, b)),
        Operator::Subtract => whole(sub(a, b)),
        Operator::Multiply => whole(mul(a, b)),
        Operator::Divide => whole(div(a, b)),
        Operator::Modulo => whole(modulo(a, b)),
        Operator::Equal => Some(Value::Bool(a.cmp(&b).is_eq())),
        Operator::NotEqual => Some(Value::Bool(!a.cmp(&b).is_eq())),
        Operator::Below => Some(Value::Bool(a < b)),
        Operator::AtMost => Some(Value::Bool(a <= b)),
        Operator::Above => Some(Value::Bool(b < a)),
        Operator::AtLeast => Some(Value::Bool(b <= a)),
        _ => None,
    }
}

/// An integer that was computed; None after a fault.
fn whole(computed: Result<i128, ScalarFault>) -> Option<Value>
    ensures { IfSome result (λ v. whole computed ≡ value (datum v)) }
{
    match computed {
        Ok(z) => Some(Value::Int(z)),
        Err(_) => None,
    }
}
