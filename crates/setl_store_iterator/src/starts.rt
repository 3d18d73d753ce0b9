//! Starting an iterator.

ghost use Rattle.std.specs.Prelude.{◌≡◌, ◌∷◌, [], true, false, List, map, MatchResult};
ghost use Rattle.setl_value.specs.Datum.{Datum, int};
ghost use Rattle.setl_value.specs.code.DatumOf.{datum, part};
ghost use Rattle.setl_program.specs.Program as program;
ghost use Rattle.setl_operators_table.specs.Outcome.{all_values};
ghost use Rattle.setl_model.specs.Iterations.{items_of, values_of, points_of, of_values, integers_stepped};
ghost use Rattle.setl_code.specs.Plain.{plain_begin};
ghost use Rattle.setl_store_iterator.specs.Operands.{AreBounds, Refused};
ghost use Rattle.setl_store_iterator.specs.Starts.{Tells, gives_pairs};

use crate::integers::{between, stepped, stepped_rising};
use crate::iterator::Iterator;
use crate::rests::{MemberAt, Rest};
use crate::sources::{one, three, two};
use setl_code::Begin;
use setl_operators_table::OpFault;
use setl_program::Source;
use setl_value::Value;
use std::alloc::Global;

/// The iterator over the items of its sources, which stand in the order of the program and where None is `om`.
///
/// Om where a source is `om`, else Kind where one is of a kind that has no such items, else Zero for a step 0; NoMemory
/// may come at any point.
pub fn begin(alloc: Global, how: Begin, sources: &[Option<Value>]) -> Result<Iterator, OpFault>
    ensures { Tells result (gives_pairs (plain_begin how)) (items_of (plain_begin how) (map part sources.now)) }
{
    match how {
        Begin::Members(source) => begin_members(alloc, source, sources),
        Begin::Points => over_points(alloc, one(sources)?),
    }
}

fn begin_members(
    alloc: Global,
    source: Source,
    sources: &[Option<Value>],
) -> Result<Iterator, OpFault>
    ensures { Tells result false (items_of (program.Members source) (map part sources.now)) }
{
    match source {
        Source::Values => over_values(alloc, one(sources)?),
        Source::Between => over_range(alloc, sources),
        Source::SetSteps => over_set_steps(alloc, sources),
        Source::TupleSteps => over_tuple_steps(alloc, sources),
    }
}

// Over the members of a set, the components of a tuple or the bytes of a string.
fn over_values(alloc: Global, v: &Value) -> Result<Iterator, OpFault>
    ensures { Tells result false (values_of (datum v.now)) }
{
    match v {
        Value::Set(s) => Ok(Iterator::over(
            alloc,
            Rest::Members(
                s.copy()?,
                MemberAt {
                    index: 0,
                    place: s.start(),
                },
            ),
        )?),
        Value::Tuple(t) => Ok(Iterator::over(alloc, Rest::Components(t.copy()?, 0))?),
        Value::Text(t) => Ok(Iterator::over(alloc, Rest::Letters(t.copy()?, 0))?),
        _ => Err(OpFault::Kind),
    }
}

// Over the arguments of a map, or the places of a tuple or a string.
fn over_points(alloc: Global, v: &Value) -> Result<Iterator, OpFault>
    ensures { Tells result true (points_of (datum v.now)) }
{
    match v {
        Value::Set(s) => {
            if s.is_map() {
                Ok(Iterator::over(
                    alloc,
                    Rest::Points(
                        s.copy()?,
                        MemberAt {
                            index: 0,
                            place: s.start(),
                        },
                    ),
                )?)
            } else {
                Err(OpFault::Kind)
            }
        }
        Value::Tuple(t) => Ok(Iterator::over(alloc, Rest::Places(t.copy()?, 0))?),
        Value::Text(t) => Ok(Iterator::over(alloc, Rest::LetterPlaces(t.copy()?, 0))?),
        _ => Err(OpFault::Kind),
    }
}

// Over the integers of a range.
fn over_range(alloc: Global, sources: &[Option<Value>]) -> Result<Iterator, OpFault>
    ensures { Tells result false (items_of (program.Members Source.Between) (map part sources.now)) }
{
    match two(sources)? {
        (Value::Int(a), Value::Int(b)) => Ok(Iterator::over(
            alloc,
            Rest::Integers(between(*a, *b)),
        )?),
        _ => Err(OpFault::Kind),
    }
}

// Over the integers of a range with a step, rising.
fn over_set_steps(alloc: Global, sources: &[Option<Value>]) -> Result<Iterator, OpFault>
    ensures { Tells result false (items_of (program.Members Source.SetSteps) (map part sources.now)) }
{
    let (a, b, c) = bounds(sources)?;
    Ok(Iterator::over(alloc, Rest::Integers(stepped_rising(a, b, c)))?)
}

// Over the integers of a range with a step, in their order.
fn over_tuple_steps(alloc: Global, sources: &[Option<Value>]) -> Result<Iterator, OpFault>
    ensures { Tells result false (items_of (program.Members Source.TupleSteps) (map part sources.now)) }
{
    let (a, b, c) = bounds(sources)?;
    Ok(Iterator::over(alloc, Rest::Integers(stepped(a, b, c)))?)
}

// The integers a, b and c of a range whose step isn't 0.
fn bounds(sources: &[Option<Value>]) -> Result<(i128, i128, i128), OpFault>
    ensures { MatchResult result (λ r. AreBounds r.0 r.1 r.2 (map part sources.now)) (λ e. (order : List Datum → List Datum) → Refused e (of_values (integers_stepped order) (all_values (map part sources.now)))) }
{
    let (a, b, c) = three(sources)?;
    match (a, b) {
        (Value::Int(a), Value::Int(b)) => bounds_to(*a, *b, c),
        _ => Err(OpFault::Kind),
    }
}

// The same, where a and b are integers.
fn bounds_to(a: i128, b: i128, c: &Value) -> Result<(i128, i128, i128), OpFault>
    ensures { MatchResult result (λ r. (r.0 ≡ a) × (r.1 ≡ b) × (datum c.now ≡ int r.2) × (a ≡ b → ⊥)) (λ e. (order : List Datum → List Datum) → Refused e (integers_stepped order (int a ∷ int b ∷ datum c.now ∷ []))) }
{
    let Value::Int(c) = c else {
        return Err(OpFault::Kind);
    };
    if a == b {
        return Err(OpFault::Zero);
    }
    Ok((a, b, *c))
}
