//! Selectors, and the part at one.

ghost use Rattle.std.specs.Prelude.{◌≡◌, ◌∷◌, [], Some, OnErr, map};
ghost use Rattle.setl_value.specs.code.DatumOf.{datum, part};
ghost use Rattle.setl_operators_table.specs.declared.Operator.TheVariants.{Put, PutImages};
ghost use Rattle.setl_operators_table.specs.Operators.{op_of, operand_count};
ghost use Rattle.setl_model.specs.Places.{part_of, part_at_all, with_part_at};
ghost use Rattle.setl_machine_updates.specs.Parts.{Reads};
ghost use Rattle.setl_machine_updates.specs.Selectors.{selected};
ghost use Rattle.setl_machine_updates.specs.Updates.{Updates};

use setl_operators::op_two;
use setl_operators_collections::{put_images_in_place, put_in_place};
use setl_operators_table::{OpFault, Operator};
use setl_value::{Value, copied_part, lend};
use std::alloc::Global;

/// A selector with its operand, where None is `om`.
#[derive(Drop)]
pub enum Selector {
    /// `(x)`
    Round(Option<Value>),
    /// `{x}`
    Brace(Option<Value>),
}

/// A part, where None is `om`, with the turns that are left.
#[derive(Drop)]
pub(crate) struct Part {
    pub(crate) value: Option<Value>,
    pub(crate) left: u64,
}

/// The part at a selector.
pub(crate) fn part_at(
    alloc: Global,
    whole: &Option<Value>,
    at: &Selector,
    turns: u64,
) -> Result<Part, OpFault>
    ensures { Reads (part_of (selected at.now) (part whole.now) turns) turns result }
{
    match at {
        Selector::Round(x) => apply(alloc, Operator::Get, whole, x, turns),
        Selector::Brace(x) => apply(alloc, Operator::Images, whole, x, turns),
    }
}

/// The part at several selectors, the outermost first.
pub(crate) fn part_at_all(
    alloc: Global,
    whole: &Option<Value>,
    at: &[Selector],
    turns: u64,
) -> Result<Part, OpFault>
    ensures { Reads (part_at_all (map selected at.now) (part whole.now) turns) turns result }
{
    match at {
        [] => Ok(Part {
            value: copied_part(whole)?,
            left: turns,
        }),
        [first, inner @ ..] => {
            let part = part_at(alloc, whole, first, turns)?;
            part_at_all(alloc, &part.value, inner, part.left)
        }
    }
}

/// What a binary operator makes of two values.
pub(crate) fn apply(
    alloc: Global,
    what: Operator,
    a: &Option<Value>,
    b: &Option<Value>,
    turns: u64,
) -> Result<Part, OpFault>
    requires { operand_count what ≡ Some 2 }
    ensures { Reads (op_of what (part a.now ∷ part b.now ∷ []) turns) turns result }
{
    let answer = op_two(alloc, what, lend(a), lend(b), turns)?;
    Ok(Part {
        value: answer.value,
        left: turns.saturating_sub(answer.charged),
    })
}

/// Puts a new part at a selector. After a fault the whole is as before.
pub(crate) fn put_part(
    alloc: Global,
    whole: &mut Option<Value>,
    at: &Selector,
    new: Option<Value>,
    turns: u64,
) -> Result<u64, OpFault>
    ensures updated { Updates (with_part_at (selected at.now) (part whole.old) (part new) turns) turns (part whole.new) result }
    ensures refused { OnErr result (whole.new ≡ whole.old) }
{
    let Some(whole) = whole else {
        return Err(OpFault::Om);
    };
    match at {
        Selector::Round(x) => put_round(alloc, whole, x, new, turns),
        Selector::Brace(x) => put_brace(alloc, whole, x, &new, turns),
    }
}

// `whole(x) := new`, in place.
fn put_round(
    alloc: Global,
    whole: &mut Value,
    x: &Option<Value>,
    new: Option<Value>,
    turns: u64,
) -> Result<u64, OpFault>
    ensures updated { Updates (op_of Put (Some (datum whole.old) ∷ part x.now ∷ part new ∷ []) turns) turns (Some (datum whole.new)) result }
    ensures refused { OnErr result (whole.new ≡ whole.old) }
{
    let Some(x) = x else {
        return Err(OpFault::Om);
    };
    let charged = put_in_place(alloc, whole, x.copy()?, new, turns)?;
    Ok(turns.saturating_sub(charged))
}

// `whole{x} := new`, in place.
fn put_brace(
    alloc: Global,
    whole: &mut Value,
    x: &Option<Value>,
    new: &Option<Value>,
    turns: u64,
) -> Result<u64, OpFault>
    ensures updated { Updates (op_of PutImages (Some (datum whole.old) ∷ part x.now ∷ part new.now ∷ []) turns) turns (Some (datum whole.new)) result }
    ensures refused { OnErr result (whole.new ≡ whole.old) }
{
    let Some(x) = x else {
        return Err(OpFault::Om);
    };
    let Some(new) = new else {
        return Err(OpFault::Om);
    };
    let charged = put_images_in_place(alloc, whole, x.copy()?, new)?;
    Ok(turns.saturating_sub(charged))
}
