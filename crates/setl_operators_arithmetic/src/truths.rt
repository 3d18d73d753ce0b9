//! The operators on booleans and those that give booleans.

ghost use Rattle.std.specs.Prelude.{◌≡◌, ◌∷◌, [], None, slice_get, MatchResult};
ghost use Rattle.std.specs.List.{list_any};
ghost use Rattle.std.specs.Option.{option_cmp, unwrap_or};
ghost use Rattle.std.specs.Ordering.{is_eq};
ghost use Rattle.setl_value.specs.code.DatumOf.{datum, lent};
ghost use Rattle.setl_value.specs.Order.{datum_cmp};
ghost use Rattle.setl_value.specs.Pairs.{is_datum};
ghost use Rattle.setl_operators_table.specs.Outcome.{Fails, KindFault, truth};
ghost use Rattle.setl_operators_table.specs.Truths.{negation, both, either, is_below, is_at_most, is_in, subset, opposite, equality, kind_test, is_integer_datum, is_string_datum, is_boolean_datum, is_atom_datum, is_tuple_datum, is_set_datum, is_map_datum};
ghost use Rattle.setl_operators_table.specs.code.Answers.{Tells};

use setl_operators_table::answers::truth;
use setl_operators_table::{Answer, OpFault};
use setl_value::{TupleBody, Value};

/// `not v` of a boolean. Kind for any other value.
pub fn negation(v: &Value) -> Result<Answer, OpFault>
    ensures { Tells result (negation (datum v.now)) }
{
    match v {
        Value::Bool(b) => truth(!*b),
        _ => Err(OpFault::Kind),
    }
}

/// Whether both booleans are true, as the fold `and/` asks. Kind for other operands.
pub fn both(a: &Value, b: &Value) -> Result<Answer, OpFault>
    ensures { Tells result (both (datum a.now) (datum b.now)) }
{
    match (a, b) {
        (Value::Bool(x), Value::Bool(y)) => truth(*x && *y),
        _ => Err(OpFault::Kind),
    }
}

/// Whether one of the booleans is true, as the fold `or/` asks. Kind for other operands.
pub fn either(a: &Value, b: &Value) -> Result<Answer, OpFault>
    ensures { Tells result (either (datum a.now) (datum b.now)) }
{
    match (a, b) {
        (Value::Bool(x), Value::Bool(y)) => truth(*x || *y),
        _ => Err(OpFault::Kind),
    }
}

/// `a < b` of integers by size, or of strings by their bytes. Kind for other operands.
pub fn below(a: &Value, b: &Value) -> Result<Answer, OpFault>
    ensures { Tells result (is_below (datum a.now) (datum b.now)) }
{
    match (a, b) {
        (Value::Int(x), Value::Int(y)) => truth(*x < *y),
        (Value::Text(x), Value::Text(y)) => truth(x.bytes().cmp(y.bytes()).is_lt()),
        _ => Err(OpFault::Kind),
    }
}

/// `a <= b` of integers by size, or of strings by their bytes. Kind for other operands.
pub fn at_most(a: &Value, b: &Value) -> Result<Answer, OpFault>
    ensures { Tells result (is_at_most (datum a.now) (datum b.now)) }
{
    match (a, b) {
        (Value::Int(x), Value::Int(y)) => truth(*x <= *y),
        (Value::Text(x), Value::Text(y)) => truth(!y.bytes().cmp(x.bytes()).is_lt()),
        _ => Err(OpFault::Kind),
    }
}

/// `v in whole`: whether a value is a member of a set or a component of a tuple. Kind for any other whole.
pub fn is_in(v: &Value, whole: &Value) -> Result<Answer, OpFault>
    ensures { Tells result (is_in (datum v.now) (datum whole.now)) }
{
    truth(has(v, whole)?)
}

/// `v notin whole`: whether a value is no member of a set or no component of a tuple. Kind for any other whole.
pub fn not_in(v: &Value, whole: &Value) -> Result<Answer, OpFault>
    ensures { Tells result (opposite (is_in (datum v.now) (datum whole.now))) }
{
    truth(!has(v, whole)?)
}

/// Whether a value is a member of a set or a component of a tuple. Kind for any other whole.
#[tactic(auto, using(crate::proofs::Views::members_back, crate::proofs::Views::parts_back))]
fn has(v: &Value, whole: &Value) -> Result<bool, OpFault>
    ensures { MatchResult result (λ b. is_in (datum v.now) (datum whole.now) ≡ truth b) (λ e. (e ≡ OpFault.Kind) × (is_in (datum v.now) (datum whole.now) ≡ Fails KindFault)) }
{
    match whole {
        Value::Set(s) => Ok(setl_set::has(s, v)),
        Value::Tuple(t) => Ok(is_component(v, t)),
        _ => Err(OpFault::Kind),
    }
}

/// Whether a value is a component of a tuple.
fn is_component(v: &Value, t: &TupleBody) -> bool
    ensures { result ≡ list_any (λ p. is_datum (datum v.now) p) t.now }
{
    for i in 0..t.len() {
        if is_at(v, t, i) {
            return true;
        }
    }
    false
}

/// Whether a value is the component at index `i` of a tuple.
fn is_at(v: &Value, t: &TupleBody, i: usize) -> bool
    ensures { result ≡ is_datum (datum v.now) (unwrap_or (slice_get t.now i) None) }
{
    match t.at(i) {
        None => false,
        Some(w) => v.compare(w).is_eq(),
    }
}

/// `a subset b`: whether all members of one set are members of the other. Kind for other operands.
#[tactic(auto, using(crate::proofs::Views::members_back))]
pub fn subset(a: &Value, b: &Value) -> Result<Answer, OpFault>
    ensures { Tells result (subset (datum a.now) (datum b.now)) }
{
    match (a, b) {
        (Value::Set(x), Value::Set(y)) => truth(setl_set::subset(x, y)),
        _ => Err(OpFault::Kind),
    }
}

/// `a = b` of any two operands, where None is `om`.
pub fn equal(a: Option<&Value>, b: Option<&Value>) -> Result<Answer, OpFault>
    ensures { Tells result (equality (lent a.entry ∷ lent b.entry ∷ [])) }
{
    truth(are_same(a, b))
}

/// `a /= b` of any two operands, where None is `om`.
pub fn not_equal(a: Option<&Value>, b: Option<&Value>) -> Result<Answer, OpFault>
    ensures { Tells result (opposite (equality (lent a.entry ∷ lent b.entry ∷ []))) }
{
    truth(!are_same(a, b))
}

/// Whether two operands are equal, where None is `om`.
fn are_same(a: Option<&Value>, b: Option<&Value>) -> bool
    ensures { result ≡ is_eq (option_cmp datum_cmp (lent a.entry) (lent b.entry)) }
{
    match (a, b) {
        (None, None) => true,
        (Some(x), Some(y)) => x.compare(y).is_eq(),
        _ => false,
    }
}

/// `is_integer v`, which is false of `om`.
pub fn is_integer(v: Option<&Value>) -> Result<Answer, OpFault>
    ensures { Tells result (kind_test is_integer_datum (lent v.entry ∷ [])) }
{
    truth(matches!(v, Some(Value::Int(_))))
}

/// `is_string v`, which is false of `om`.
pub fn is_string(v: Option<&Value>) -> Result<Answer, OpFault>
    ensures { Tells result (kind_test is_string_datum (lent v.entry ∷ [])) }
{
    truth(matches!(v, Some(Value::Text(_))))
}

/// `is_boolean v`, which is false of `om`.
pub fn is_boolean(v: Option<&Value>) -> Result<Answer, OpFault>
    ensures { Tells result (kind_test is_boolean_datum (lent v.entry ∷ [])) }
{
    truth(matches!(v, Some(Value::Bool(_))))
}

/// `is_atom v`, which is false of `om`.
pub fn is_atom(v: Option<&Value>) -> Result<Answer, OpFault>
    ensures { Tells result (kind_test is_atom_datum (lent v.entry ∷ [])) }
{
    truth(matches!(v, Some(Value::Atom(_))))
}

/// `is_tuple v`, which is false of `om`.
pub fn is_tuple(v: Option<&Value>) -> Result<Answer, OpFault>
    ensures { Tells result (kind_test is_tuple_datum (lent v.entry ∷ [])) }
{
    truth(matches!(v, Some(Value::Tuple(_))))
}

/// `is_set v`, which is false of `om`.
pub fn is_set(v: Option<&Value>) -> Result<Answer, OpFault>
    ensures { Tells result (kind_test is_set_datum (lent v.entry ∷ [])) }
{
    truth(matches!(v, Some(Value::Set(_))))
}

/// `is_map v`, which is false of `om`.
#[tactic(auto, using(crate::proofs::Views::members_back))]
pub fn is_map(v: Option<&Value>) -> Result<Answer, OpFault>
    ensures { Tells result (kind_test is_map_datum (lent v.entry ∷ [])) }
{
    match v {
        Some(Value::Set(s)) => truth(s.is_map()),
        _ => truth(false),
    }
}
