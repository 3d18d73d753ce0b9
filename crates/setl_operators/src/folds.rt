//! The folds `op/ v`: the members or components combined from the left.

ghost use Rattle.std.specs.Prelude.{◌≡◌, ◌≤◌, ◌-◌, map, IfOk, None, Some};
ghost use Rattle.setl_value.specs.code.Body.{Members};
ghost use Rattle.setl_value.specs.code.DatumOf.{datum, lent, part};
ghost use Rattle.setl_operators_table.specs.code.Answers.{Tells};
ghost use Rattle.setl_operators_table.specs.Folds.{combined, fold_list, fold_datum};
ghost use Rattle.setl_operators_table.specs.Numbers.{plus};
ghost use Rattle.setl_operators_table.specs.Outcome.{adding};
ghost use Rattle.setl_operators.specs.Combinations.{combination};

use setl_operators_arithmetic::{both, either, greater, lesser, plus_in_place, times};
use setl_operators_table::{Answer, OpFault};
use setl_value::{SetBody, TupleBody, Value, copied};
use std::alloc::Global;

/// How a fold combines two values.
#[derive(Clone, Copy)]
pub(crate) enum Combination {
    Sum,
    Product,
    Greatest,
    Least,
    All,
    Any,
}

/// The members of a set or the components of a tuple combined from the left, each with the turns that the earlier ones
/// left. None gives `om`, and one alone is itself. Om where one that is combined is `om`, Kind for any other value.
pub(crate) fn fold(
    alloc: Global,
    by: Combination,
    whole: &Value,
    turns: u64,
) -> Result<Answer, OpFault>
    ensures { Tells result (fold_datum (combination by) turns (datum whole.now)) }
{
    match whole {
        Value::Set(s) => fold_members(alloc, by, s, turns),
        Value::Tuple(t) => fold_components(alloc, by, t, turns),
        _ => Err(OpFault::Kind),
    }
}

// The members combined from the left.
fn fold_members(alloc: Global, by: Combination, s: &SetBody, turns: u64) -> Result<Answer, OpFault>
    ensures { Tells result (fold_list (combination by) (map Some (Members s.now)) turns) }
{
    let mut members = s.members();
    let Some(first) = members.next() else {
        return Ok(om());
    };
    let mut answer = Answer {
        value: Some(first.copy()?),
        charged: 0,
    };
    for v in members {
        answer = combined(alloc, by, answer, Some(v), turns)?;
    }
    Ok(answer)
}

// The components combined from the left.
fn fold_components(
    alloc: Global,
    by: Combination,
    t: &TupleBody,
    turns: u64,
) -> Result<Answer, OpFault>
    ensures { Tells result (fold_list (combination by) t.now turns) }
{
    if t.len() == 0 {
        return Ok(om());
    }
    let mut answer = Answer {
        value: copied(t.at(0))?,
        charged: 0,
    };
    for i in 1..t.len() {
        answer = combined(alloc, by, answer, t.at(i), turns)?;
    }
    Ok(answer)
}

// No value, and no charge.
fn om() -> Answer
    ensures { result ≡ record { value = None; charged = 0 } }
{
    Answer {
        value: None,
        charged: 0,
    }
}

// What the earlier components gave, combined with the next one, with the turns that they left.
fn combined(
    alloc: Global,
    by: Combination,
    before: Answer,
    next: Option<&Value>,
    turns: u64,
) -> Result<Answer, OpFault>
    requires { before.charged ≤ turns }
    ensures tells { Tells result (adding before.charged (combined (combination by) (part before.value) (lent next.entry) (turns - before.charged))) }
    ensures within { IfOk result (λ a. a.charged ≤ turns) }
{
    let Answer { value, charged } = before;
    let Some(v) = value else {
        return Err(OpFault::Om);
    };
    let Some(w) = next else {
        return Err(OpFault::Om);
    };
    let both = combine(alloc, by, v, w, turns - charged)?;
    Ok(Answer {
        value: both.value,
        charged: charged + both.charged,
    })
}

// Two values combined. A sum takes up the first one, so that a tuple or string that is being built isn't copied.
fn combine(
    alloc: Global,
    by: Combination,
    a: Value,
    b: &Value,
    turns: u64,
) -> Result<Answer, OpFault>
    ensures { Tells result (combination by turns (datum a) (datum b.now)) }
{
    match by {
        Combination::Sum => sum(alloc, a, b),
        Combination::Product => times(alloc, &a, b, turns),
        Combination::Greatest => greater(&a, b),
        Combination::Least => lesser(&a, b),
        Combination::All => both(&a, b),
        Combination::Any => either(&a, b),
    }
}

// The sum of two values, made of the first one.
fn sum(alloc: Global, a: Value, b: &Value) -> Result<Answer, OpFault>
    ensures { Tells result (plus (datum a) (datum b.now)) }
{
    let mut a = a;
    let charged = plus_in_place(alloc, &mut a, b)?;
    Ok(Answer {
        value: Some(a),
        charged,
    })
}
