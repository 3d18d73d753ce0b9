//! Updates of variables in place.

ghost use Rattle.std.specs.Prelude.{◌≡◌, ◌≤◌, ◌∷◌, [], true, false, Some, None, cond, map, option_map, length, IfOk};
ghost use Rattle.setl_code.specs.Code.{Alter, Putting, Combining, TakingOut};
ghost use Rattle.setl_code.specs.CodeCore.{held, popped};
ghost use Rattle.setl_code.specs.Machine.{selected_by};
ghost use Rattle.setl_code.specs.MayRun.{HasSlot, CanAlter};
ghost use Rattle.setl_code.specs.Plain.{plain_slot, plain_bracket, plain_alteration};
ghost use Rattle.setl_code_declared.specs.Fitting.{Fitting};
ghost use Rattle.setl_operators_table.specs.Operators.{operand_count};
ghost use Rattle.setl_store.specs.Standing.{variables, CanGoOn};
ghost use Rattle.setl_machine_updates.specs.Selectors.{selected};
ghost use Rattle.setl_value.specs.code.DatumOf.{part};
ghost use Rattle.setl_code_events.specs.Told.{value_held, popped_values};
ghost use Rattle.setl_machine_control.specs.Declaring.{Modes, modes_of, Serves, IsDeclared};
ghost use Rattle.setl_machine_control.specs.Working.{DoesBy};
ghost use Rattle.setl_machine_control.specs.declared.end.End.{End};
ghost use Rattle.setl_machine_variables.specs.Altered.{Alters, TakesHeld, stores_new};
ghost use Rattle.setl_machine_variables.specs.Gaining.{GainsIf};

use crate::deciding::{decides_combined, decides_put, decides_taken, kept_unless, learn_laws};
use crate::declarations::Declarations;
use setl_code::{Alteration, Bracket, Slot};
use setl_machine_control::{Control, End, Target, end_update, pop_top};
use setl_machine_updates::{Operator, Selector, Taking, combine_at, put_at, take_at};
use setl_store::{Content, Store};
use setl_value::Value;
use std::alloc::{AllocError, Global};

/// How an update ended, and whether it stored a new whole: not where it took something out of an empty part.
#[derive(Clone, Copy)]
pub struct Updated {
    pub end: End,
    pub stored: bool,
}

/// Pops the operands of the selectors, and does to the part of a variable at them what the alteration says. A new whole
/// that the variable's declaration refuses leaves the variable as it was, and stops the run, as a fault of an operator does;
/// where an operand is lacking the run is stuck. The error is want of memory.
#[inline(never)]
pub fn alter(
    what: Alteration,
    slot: Slot,
    brackets: &[Bracket],
    line: u32,
    declarations: &Declarations<'_>,
    store: &mut Store<'_>,
    control: &mut Control,
) -> Result<Updated, AllocError>
    requires few { CanGoOn store.old }
    requires there { HasSlot (length store.old.core.globals) (length store.old.core.now.own) slot }
    requires can { CanAlter what }
    requires serves { Serves declarations.now store.old }
    ensures did { IfOk result (λ updated. DoesBy (modes_of declarations.now) store.old control.old line (Alter (plain_alteration what) (plain_slot (variables store.old.core) slot) (map plain_bracket brackets.now)) store.new control.new updated.end) }
    ensures stored { IfOk result (λ updated. updated.end ≡ End.Paused → updated.stored ≡ stores_new (plain_alteration what) (value_held (held (plain_slot (variables store.old.core) slot) store.old.core)) (selected_by (map plain_bracket brackets.now) (popped_values (popped (length (map plain_bracket brackets.now)) [] store.old.core.now.operands))) control.old.turns) }
    ensures gained { IfOk result (λ updated. GainsIf updated.stored (modes_of declarations.now) (plain_slot (variables store.old.core) slot) store.old store.new updated.end) }
    ensures reader { control.new.reader ≡ control.old.reader }
{
    let target = Target {
        slot,
        declared: declarations.of_slot(slot, store),
    };
    match brackets.len() {
        0 => alter_at(what, target, &[], line, store, control),
        1 => match pop_top(store)? {
            Some(value) => {
                let at = [selector(brackets[0], value)];
                alter_at(what, target, &at, line, store, control)
            }
            None => Ok(stuck()),
        },
        count => match store.pop_values(count)? {
            Some(values) => {
                let at = selectors(control.alloc(), brackets, values)?;
                alter_at(what, target, at.as_slice(), line, store, control)
            }
            None => Ok(stuck()),
        },
    }
}

/// The end of an update that lacks an operand.
fn stuck() -> Updated
    ensures end { result.end ≡ End.Stuck }
    ensures stored { result.stored ≡ false }
{
    Updated {
        end: End::Stuck,
        stored: false,
    }
}

/// Does to the part of a variable at some selectors what the alteration says, as `alter` does.
#[inline(never)]
fn alter_at(
    what: Alteration,
    target: Target<'_>,
    at: &[Selector],
    line: u32,
    store: &mut Store<'_>,
    control: &mut Control,
) -> Result<Updated, AllocError>
    requires few { CanGoOn store.old }
    requires there { HasSlot (length store.old.core.globals) (length store.old.core.now.own) target.slot }
    requires can { CanAlter what }
    ensures did { (modes : Modes) → IsDeclared modes (plain_slot (variables store.old.core) target.entry.slot) target.entry.declared → Fitting modes store.old.core → IfOk result (λ updated. Alters modes store.old control.old line (plain_alteration what) (plain_slot (variables store.old.core) target.entry.slot) (map selected at.now) store.new control.new updated.end) }
    ensures stored { (modes : Modes) → IsDeclared modes (plain_slot (variables store.old.core) target.entry.slot) target.entry.declared → IfOk result (λ updated. updated.end ≡ End.Paused → updated.stored ≡ stores_new (plain_alteration what) (value_held (held (plain_slot (variables store.old.core) target.entry.slot) store.old.core)) (map selected at.now) control.old.turns) }
    ensures gained { (modes : Modes) → IsDeclared modes (plain_slot (variables store.old.core) target.entry.slot) target.entry.declared → IfOk result (λ updated. GainsIf updated.stored modes (plain_slot (variables store.old.core) target.entry.slot) store.old store.new updated.end) }
    ensures reader { control.new.reader ≡ control.old.reader }
{
    match what {
        Alteration::Put => {
            let end = put(target, at, line, store, control)?;
            Ok(Updated { end, stored: true })
        }
        Alteration::Combine(by) => {
            let end = combine(by, target, at, line, store, control)?;
            Ok(Updated { end, stored: true })
        }
        Alteration::TakeOut(end) => take_out(end, target, at, line, store, control),
    }
}

/// Pops a value and puts it at the part of a variable.
fn put(
    target: Target<'_>,
    at: &[Selector],
    line: u32,
    store: &mut Store<'_>,
    control: &mut Control,
) -> Result<End, AllocError>
    requires few { CanGoOn store.old }
    requires there { HasSlot (length store.old.core.globals) (length store.old.core.now.own) target.slot }
    ensures did { (modes : Modes) → IsDeclared modes (plain_slot (variables store.old.core) target.entry.slot) target.entry.declared → Fitting modes store.old.core → IfOk result (λ end. Alters modes store.old control.old line Putting (plain_slot (variables store.old.core) target.entry.slot) (map selected at.now) store.new control.new end) }
    ensures gained { (modes : Modes) → IsDeclared modes (plain_slot (variables store.old.core) target.entry.slot) target.entry.declared → IfOk result (GainsIf true modes (plain_slot (variables store.old.core) target.entry.slot) store.old store.new) }
    ensures reader { control.new.reader ≡ control.old.reader }
{
    let Some(value) = pop_top(store)? else {
        return Ok(End::Stuck);
    };
    let Some(mut whole) = take_held(target.slot, store)? else {
        return Ok(End::Stuck);
    };
    learn_laws(&whole);
    let sure = decides_put(target.declared, at, &value);
    let kept = kept_unless(sure, &whole)?;
    let left = put_at(control.alloc(), &mut whole, at, value, control.turns());
    end_update(left, whole, kept, true, target, line, store, control)
}

/// Pops a value and combines the part of a variable with it.
fn combine(
    by: Operator,
    target: Target<'_>,
    at: &[Selector],
    line: u32,
    store: &mut Store<'_>,
    control: &mut Control,
) -> Result<End, AllocError>
    requires few { CanGoOn store.old }
    requires there { HasSlot (length store.old.core.globals) (length store.old.core.now.own) target.slot }
    requires two { operand_count by ≡ Some 2 }
    ensures did { (modes : Modes) → IsDeclared modes (plain_slot (variables store.old.core) target.entry.slot) target.entry.declared → Fitting modes store.old.core → IfOk result (λ end. Alters modes store.old control.old line (Combining by) (plain_slot (variables store.old.core) target.entry.slot) (map selected at.now) store.new control.new end) }
    ensures gained { (modes : Modes) → IsDeclared modes (plain_slot (variables store.old.core) target.entry.slot) target.entry.declared → IfOk result (GainsIf true modes (plain_slot (variables store.old.core) target.entry.slot) store.old store.new) }
    ensures reader { control.new.reader ≡ control.old.reader }
{
    let Some(value) = pop_top(store)? else {
        return Ok(End::Stuck);
    };
    let Some(mut whole) = take_held(target.slot, store)? else {
        return Ok(End::Stuck);
    };
    learn_laws(&whole);
    let sure = decides_combined(by, target.declared, at, &value);
    let kept = kept_unless(sure, &whole)?;
    let left = combine_at(control.alloc(), by, &mut whole, at, value, control.turns());
    end_update(left, whole, kept, true, target, line, store, control)
}

/// Takes a value out of the part of a variable, and pushes it; of an empty part `om` is pushed, and nothing is tested.
fn take_out(
    end: Taking,
    target: Target<'_>,
    at: &[Selector],
    line: u32,
    store: &mut Store<'_>,
    control: &mut Control,
) -> Result<Updated, AllocError>
    requires few { CanGoOn store.old }
    requires there { HasSlot (length store.old.core.globals) (length store.old.core.now.own) target.slot }
    ensures did { (modes : Modes) → IsDeclared modes (plain_slot (variables store.old.core) target.entry.slot) target.entry.declared → Fitting modes store.old.core → IfOk result (λ updated. Alters modes store.old control.old line (TakingOut end) (plain_slot (variables store.old.core) target.entry.slot) (map selected at.now) store.new control.new updated.end) }
    ensures stored { (modes : Modes) → IsDeclared modes (plain_slot (variables store.old.core) target.entry.slot) target.entry.declared → IfOk result (λ updated. updated.end ≡ End.Paused → updated.stored ≡ stores_new (TakingOut end) (value_held (held (plain_slot (variables store.old.core) target.entry.slot) store.old.core)) (map selected at.now) control.old.turns) }
    ensures gained { (modes : Modes) → IsDeclared modes (plain_slot (variables store.old.core) target.entry.slot) target.entry.declared → IfOk result (λ updated. GainsIf updated.stored modes (plain_slot (variables store.old.core) target.entry.slot) store.old store.new updated.end) }
    ensures reader { control.new.reader ≡ control.old.reader }
{
    let Some(mut whole) = take_held(target.slot, store)? else {
        return Ok(stuck());
    };
    learn_laws(&whole);
    let sure = decides_taken(target.declared, at);
    let kept = kept_unless(sure, &whole)?;
    match take_at(control.alloc(), end, &mut whole, at, control.turns()) {
        Ok(taken) => {
            store.push(taken.value)?;
            let tested = tested_if(taken.stored, kept);
            let end = end_update(
                Ok(taken.left),
                whole,
                tested,
                taken.stored,
                target,
                line,
                store,
                control,
            )?;
            Ok(Updated {
                end,
                stored: taken.stored,
            })
        }
        Err(fault) => {
            let end = end_update(Err(fault), whole, kept, false, target, line, store, control)?;
            Ok(Updated { end, stored: false })
        }
    }
}

/// What was kept for a test, which comes where a new whole is stored.
#[inline(always)]
fn tested_if(stored: bool, kept: Option<Option<Value>>) -> Option<Option<Value>>
    ensures { option_map part result ≡ cond stored (option_map part kept) None }
{
    if stored { kept } else { None }
}

/// Takes out of its slot what a variable holds. None comes where that was taken before, and then all is as before.
fn take_held(slot: Slot, store: &mut Store<'_>) -> Result<Option<Option<Value>>, AllocError>
    requires { HasSlot (length store.old.core.globals) (length store.old.core.now.own) slot }
    ensures { IfOk result (λ whole. TakesHeld (plain_slot (variables store.old.core) slot) store.old whole store.new) }
{
    match store.slot(slot) {
        Content::Taken => return Ok(None),
        Content::Om | Content::Value(_) | Content::Based => {}
    }
    Ok(Some(store.take_slot(slot)?))
}

/// Selectors with these operands.
fn selectors(
    alloc: Global,
    brackets: &[Bracket],
    values: Vec<Option<Value>>,
) -> Result<Vec<Selector>, AllocError>
    ensures { IfOk result (λ at. map selected at.items ≡ selected_by (map plain_bracket brackets.now) (map part values.items)) }
{
    let mut at = Vec::with_capacity(alloc, values.len())?;
    for (bracket, value) in brackets.iter().zip(values) {
        at.push(selector(*bracket, value))?;
    }
    Ok(at)
}

/// A selector with this operand.
fn selector(bracket: Bracket, value: Option<Value>) -> Selector
    ensures { selected_by (plain_bracket bracket ∷ []) (part value ∷ []) ≡ selected result ∷ [] }
{
    match bracket {
        Bracket::Round => Selector::Round(value),
        Bracket::Brace => Selector::Brace(value),
    }
}
