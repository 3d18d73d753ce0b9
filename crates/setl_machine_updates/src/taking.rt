//! Taking a value out of a part.

ghost use Rattle.std.specs.Prelude.{◌≡◌, ◌≤◌, ◌∷◌, [], false, max, Some, Ok, IfOk, IfNone, IfSome, OnErr, map};
ghost use Rattle.setl_value.specs.Datum.{depth};
ghost use Rattle.setl_value.specs.code.DatumOf.{datum, part};
ghost use Rattle.setl_program.specs.declared.kinds.Taking.TheVariants.{TakeLeast, TakeFirst, TakeLast};
ghost use Rattle.setl_model.specs.Core.{Round};
ghost use Rattle.setl_model.specs.Places.{take_out};
ghost use Rattle.setl_machine_updates.specs.Changing.{IsTakenOut};
ghost use Rattle.setl_machine_updates.specs.Parts.{TakesOne};
ghost use Rattle.setl_machine_updates.specs.Selectors.{selected};
ghost use Rattle.setl_machine_updates.specs.Takes.{Takes};

use crate::one_part::change_part;
use crate::selectors::{Selector, part_at_all};
use crate::two_parts::at_round;
use crate::updates::put_at;
use setl_operators_collections::{take_first, take_last, take_least};
use setl_operators_table::{OpFault, Taken};
use setl_program::Taking;
use setl_value::Value;
use std::alloc::{AllocError, Global};

/// What was taken out of a set or a tuple.
#[derive(Drop)]
pub struct TakenOut {
    /// The member or the component, where None is `om`.
    pub value: Option<Value>,
    /// Whether there was one: of an empty set or tuple nothing is taken, and nothing changes.
    pub stored: bool,
    /// The turns that are left.
    pub left: u64,
}

/// Takes a value out of the set or tuple at some selectors, the outermost first: the least member of a set, or the first
/// or the last component of a tuple.
///
/// The part is read, the value is taken out of it, which charges no turn, and what is left of it is put at the same
/// selectors; the first step that fails tells its fault: reading and putting as in `put_at`, and taking out with Om for a
/// part that is `om` and Kind for one of another kind. NoMemory may come at any point. After a fault the whole is as
/// before.
pub fn take_at(
    alloc: Global,
    end: Taking,
    whole: &mut Option<Value>,
    at: &[Selector],
    turns: u64,
) -> Result<TakenOut, OpFault>
    ensures taken { Takes end (map selected at.now) (part whole.old) turns (part whole.new) result }
    ensures refused { OnErr result (whole.new ≡ whole.old) }
{
    if at.is_empty() {
        return take_whole(end, whole, turns);
    }
    match take_there(end, whole, at, turns)? {
        Some(taken) => Ok(taken),
        None => take_inside(alloc, end, whole, at, turns),
    }
}

// Takes a value out of the whole.
fn take_whole(end: Taking, whole: &mut Option<Value>, turns: u64) -> Result<TakenOut, OpFault>
    ensures taken { Takes end [] (part whole.old) turns (part whole.new) result }
    ensures refused { OnErr result (whole.new ≡ whole.old) }
{
    let taken = take_out(end, whole)?;
    Ok(TakenOut {
        value: taken.value,
        stored: taken.stored,
        left: turns,
    })
}

// Takes a value out of the part at one selector where it stands, if its members or components are neither sets nor tuples; else
// None, and then nothing changed.
fn take_there(
    end: Taking,
    whole: &mut Option<Value>,
    at: &[Selector],
    turns: u64,
) -> Result<Option<TakenOut>, AllocError>
    ensures taken { IfOk result (λ o. IfSome o (λ t. Takes end (map selected at.now) (part whole.old) turns (part whole.new) (Ok t))) }
    ensures unchanged { IfOk result (λ o. IfNone o (whole.new ≡ whole.old)) }
    ensures refused { OnErr result (whole.new ≡ whole.old) }
{
    if at.len() != 1 {
        return Ok(None);
    }
    take_at_one(end, whole, &at[0], turns)
}

// The same at this selector.
fn take_at_one(
    end: Taking,
    whole: &mut Option<Value>,
    at: &Selector,
    turns: u64,
) -> Result<Option<TakenOut>, AllocError>
    ensures taken { IfOk result (λ o. IfSome o (λ t. Takes end (selected at.now ∷ []) (part whole.old) turns (part whole.new) (Ok t))) }
    ensures unchanged { IfOk result (λ o. IfNone o (whole.new ≡ whole.old)) }
    ensures refused { OnErr result (whole.new ≡ whole.old) }
{
    let Some(x) = at_round(at) else {
        return Ok(None);
    };
    let Some(whole) = whole else {
        return Ok(None);
    };
    take_in_part(end, whole, x, turns)
}

// The same of a value.
fn take_in_part(
    end: Taking,
    whole: &mut Value,
    x: &Value,
    turns: u64,
) -> Result<Option<TakenOut>, AllocError>
    ensures taken { IfOk result (λ o. IfSome o (λ t. Takes end (Round (Some (datum x.now)) ∷ []) (Some (datum whole.old)) turns (Some (datum whole.new)) (Ok t))) }
    ensures unchanged { IfOk result (λ o. IfNone o (whole.new ≡ whole.old)) }
    ensures refused { OnErr result (whole.new ≡ whole.old) }
{
    let Some(answer) = change_part(whole, x, |part| take_if_flat(end, part))? else {
        return Ok(None);
    };
    let Some(taken) = answer else {
        return Ok(None);
    };
    Ok(Some(TakenOut {
        value: taken.value,
        stored: taken.stored,
        left: turns,
    }))
}

// Takes a value out of a set or a tuple in place, if its members or components are neither sets nor tuples. None for another one,
// where it has no such value, and where memory is refused; then nothing changed.
fn take_if_flat(end: Taking, part: &mut Value) -> Option<Taken>
    ensures taken { IfSome result (IsTakenOut end (datum part.old) (datum part.new)) }
    ensures deeper { depth (datum part.old) ≤ depth (datum part.new) }
    ensures bound { depth (datum part.new) ≤ max (depth (datum part.old)) 1 }
    ensures unchanged { IfNone result (part.new ≡ part.old) }
{
    if part.depth() > 1 {
        return None;
    }
    match take_value(end, part) {
        Ok(taken) => Some(taken),
        Err(_) => None,
    }
}

// Takes a value out of a copy of the part, and puts what is left of it.
fn take_inside(
    alloc: Global,
    end: Taking,
    whole: &mut Option<Value>,
    at: &[Selector],
    turns: u64,
) -> Result<TakenOut, OpFault>
    ensures taken { Takes end (map selected at.now) (part whole.old) turns (part whole.new) result }
    ensures refused { OnErr result (whole.new ≡ whole.old) }
{
    let mut read = part_at_all(alloc, whole, at, turns)?;
    let taken = take_out(end, &mut read.value)?;
    if !taken.stored {
        return Ok(TakenOut {
            value: taken.value,
            stored: false,
            left: read.left,
        });
    }
    let left = put_at(alloc, whole, at, read.value, read.left)?;
    Ok(TakenOut {
        value: taken.value,
        stored: true,
        left,
    })
}

// Takes a value out of a set or a tuple in place.
fn take_out(end: Taking, whole: &mut Option<Value>) -> Result<Taken, OpFault>
    ensures taken { TakesOne (take_out end (part whole.old)) (part whole.new) result }
    ensures empty { IfOk result (λ t. t.stored ≡ false → whole.new ≡ whole.old) }
    ensures refused { OnErr result (whole.new ≡ whole.old) }
{
    let Some(whole) = whole else {
        return Err(OpFault::Om);
    };
    take_value(end, whole)
}

// The same of a value.
fn take_value(end: Taking, whole: &mut Value) -> Result<Taken, OpFault>
    ensures taken { TakesOne (take_out end (Some (datum whole.old))) (Some (datum whole.new)) result }
    ensures empty { IfOk result (λ t. t.stored ≡ false → whole.new ≡ whole.old) }
    ensures refused { OnErr result (whole.new ≡ whole.old) }
{
    match end {
        Taking::TakeLeast => take_member(whole),
        Taking::TakeFirst => take_front(whole),
        Taking::TakeLast => take_back(whole),
    }
}

// The least member of a set.
fn take_member(whole: &mut Value) -> Result<Taken, OpFault>
    ensures taken { TakesOne (take_out TakeLeast (Some (datum whole.old))) (Some (datum whole.new)) result }
    ensures empty { IfOk result (λ t. t.stored ≡ false → whole.new ≡ whole.old) }
    ensures refused { OnErr result (whole.new ≡ whole.old) }
{
    take_least(whole)
}

// The first component of a tuple.
fn take_front(whole: &mut Value) -> Result<Taken, OpFault>
    ensures taken { TakesOne (take_out TakeFirst (Some (datum whole.old))) (Some (datum whole.new)) result }
    ensures empty { IfOk result (λ t. t.stored ≡ false → whole.new ≡ whole.old) }
    ensures refused { OnErr result (whole.new ≡ whole.old) }
{
    whole.learn();
    take_first(whole)
}

// The last component of a tuple.
fn take_back(whole: &mut Value) -> Result<Taken, OpFault>
    ensures taken { TakesOne (take_out TakeLast (Some (datum whole.old))) (Some (datum whole.new)) result }
    ensures empty { IfOk result (λ t. t.stored ≡ false → whole.new ≡ whole.old) }
    ensures refused { OnErr result (whole.new ≡ whole.old) }
{
    take_last(whole)
}
