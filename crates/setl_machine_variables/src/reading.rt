//! What operators read of collections: a component, whether there is a member, and how many there are. Nothing is charged.

ghost use Rattle.std.specs.Prelude.{◌≡◌, IfSome};
ghost use Rattle.setl_machine_variables.specs.Freely.{GivesAlone, GivesFreely};
ghost use Rattle.setl_operators_table.specs.Outcome.{truth, value};
ghost use Rattle.setl_operators_table.specs.Selections.{get};
ghost use Rattle.setl_operators_table.specs.Truths.{is_in};
ghost use Rattle.setl_operators_table.specs.declared.Operator.TheVariants.{Size};
ghost use Rattle.setl_value.specs.Datum.{int, tuple_of};
ghost use Rattle.setl_value.specs.code.DatumOf.{datum};

use setl_operators::Operator;
use setl_value::{TupleBody, Value};

/// What an operator reads of two values: the component of a tuple at a place, or whether a value is a member of a set; None for
/// others.
#[inline(never)]
pub(crate) fn read_two(what: Operator, a: &Value, b: &Value) -> Option<Value>
    ensures { IfSome result (λ v. GivesFreely what (datum a.now) (datum b.now) (datum v)) }
{
    match what {
        Operator::Get => component_at(a, b),
        Operator::In => Some(Value::Bool(is_member(a, b)?)),
        Operator::NotIn => Some(Value::Bool(!is_member(a, b)?)),
        _ => None,
    }
}

// The component of a tuple at a place, where there is one.
fn component_at(t: &Value, place: &Value) -> Option<Value>
    ensures { IfSome result (λ v. get (datum t.now) (datum place.now) ≡ value (datum v)) }
{
    match (t, place) {
        (Value::Tuple(t), Value::Int(i)) => component(t, *i),
        _ => None,
    }
}

// The same of the components.
fn component(t: &TupleBody, i: i128) -> Option<Value>
    ensures { IfSome result (λ v. get (tuple_of t.now) (int i) ≡ value (datum v)) }
{
    let Ok(Some(v)) = setl_tuple::get(t, i) else {
        return None;
    };
    match v.copy() {
        Ok(v) => Some(v),
        Err(_) => None,
    }
}

// Whether a value is a member of a set; None where the other value is no set.
#[tactic(auto, using(crate::proofs::Members::members_back))]
fn is_member(v: &Value, s: &Value) -> Option<bool>
    ensures { IfSome result (λ t. is_in (datum v.now) (datum s.now) ≡ truth t) }
{
    match s {
        Value::Set(s) => Some(setl_set::has(s, v)),
        _ => None,
    }
}

/// How many members, components or bytes a value has; None where it has none of these.
#[inline(never)]
#[tactic(auto, using(crate::proofs::Members::members_back, crate::proofs::Members::parts_back))]
pub(crate) fn size(v: &Value) -> Option<Value>
    ensures { IfSome result (λ n. GivesAlone Size (datum v.now) (datum n)) }
{
    match v {
        Value::Set(s) => Some(Value::Int(s.len() as i128)),
        Value::Tuple(t) => Some(Value::Int(t.len() as i128)),
        Value::Text(t) => Some(Value::Int(t.bytes().len() as i128)),
        _ => None,
    }
}
