//! The operands of a `begin`, taken apart.

ghost use Rattle.std.specs.Prelude.{◌≡◌, ◌∷◌, [], List, Some, None, map, MatchResult};
ghost use Rattle.setl_value.specs.Datum.{Datum};
ghost use Rattle.setl_value.specs.code.DatumOf.{datum, part};
ghost use Rattle.setl_operators_table.specs.Outcome.{all_values};
ghost use Rattle.setl_model.specs.Iterations.{Started, of_values, one_source, integers_between, integers_stepped};
ghost use Rattle.setl_store_iterator.specs.Operands.{fault_of, Refused};

use setl_operators_table::OpFault;
use setl_value::Value;

/// The only operand. Om where one is `om`, Kind where there is another number of them.
pub(crate) fn one(sources: &[Option<Value>]) -> Result<&Value, OpFault>
    ensures { MatchResult result (λ v. map part sources.now ≡ Some (datum v.now) ∷ []) (λ e. (f : Datum → Started) → Refused e (of_values (one_source f) (all_values (map part sources.now)))) }
{
    if sources.len() != 1 {
        return Err(unfit(sources));
    }
    sources[0].as_ref().ok_or(OpFault::Om)
}

/// Both operands. Om where one is `om`, Kind where there is another number of them.
pub(crate) fn two(sources: &[Option<Value>]) -> Result<(&Value, &Value), OpFault>
    ensures { MatchResult result (λ vs. map part sources.now ≡ Some (datum vs.0.now) ∷ Some (datum vs.1.now) ∷ []) (λ e. Refused e (of_values integers_between (all_values (map part sources.now)))) }
{
    if sources.len() != 2 {
        return Err(unfit(sources));
    }
    both(&sources[0], &sources[1])
}

/// The three operands. Om where one is `om`, Kind where there is another number of them.
pub(crate) fn three(sources: &[Option<Value>]) -> Result<(&Value, &Value, &Value), OpFault>
    ensures { MatchResult result (λ vs. map part sources.now ≡ Some (datum vs.0.now) ∷ Some (datum vs.1.now) ∷ Some (datum vs.2.now) ∷ []) (λ e. (order : List Datum → List Datum) → Refused e (of_values (integers_stepped order) (all_values (map part sources.now)))) }
{
    if sources.len() != 3 {
        return Err(unfit(sources));
    }
    all(&sources[0], &sources[1], &sources[2])
}

// Both values. Om where one is `om`.
fn both<'a>(a: &'a Option<Value>, b: &'a Option<Value>) -> Result<(&'a Value, &'a Value), OpFault>
    ensures { MatchResult result (λ vs. (part a.now ≡ Some (datum vs.0.now)) × (part b.now ≡ Some (datum vs.1.now))) (λ e. (e ≡ OpFault.Om) × (all_values (part a.now ∷ part b.now ∷ []) ≡ None)) }
{
    match (a, b) {
        (Some(a), Some(b)) => Ok((a, b)),
        _ => Err(OpFault::Om),
    }
}

// The three values. Om where one is `om`.
fn all<'a>(
    a: &'a Option<Value>,
    b: &'a Option<Value>,
    c: &'a Option<Value>,
) -> Result<(&'a Value, &'a Value, &'a Value), OpFault>
    ensures { MatchResult result (λ vs. (part a.now ≡ Some (datum vs.0.now)) × (part b.now ≡ Some (datum vs.1.now)) × (part c.now ≡ Some (datum vs.2.now))) (λ e. (e ≡ OpFault.Om) × (all_values (part a.now ∷ part b.now ∷ part c.now ∷ []) ≡ None)) }
{
    match (a, b, c) {
        (Some(a), Some(b), Some(c)) => Ok((a, b, c)),
        _ => Err(OpFault::Om),
    }
}

// What is wrong with operands that are not the values they should be: one is `om`, or there are too many or too few.
fn unfit(sources: &[Option<Value>]) -> OpFault
    ensures { result ≡ fault_of (all_values (map part sources.now)) }
{
    for source in sources {
        if source.is_none() {
            return OpFault::Om;
        }
    }
    OpFault::Kind
}
