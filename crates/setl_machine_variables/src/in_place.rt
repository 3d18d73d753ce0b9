//! Updates of integers in place.

ghost use Rattle.std.specs.Prelude.{◌≡◌, ℕ, List, Option, map, length, IfSome, IsSome, IfOk};
ghost use Rattle.setl_code.specs.Code.{Alter};
ghost use Rattle.setl_code.specs.MayRun.{HasSlot, CanAlter};
ghost use Rattle.setl_code.specs.Plain.{plain_slot, plain_bracket, plain_alteration};
ghost use Rattle.setl_store.specs.Standing.{variables, top_of, CanGoOn};
ghost use Rattle.setl_value.specs.code.DatumOf.{datum};
ghost use Rattle.setl_machine_control.specs.Declaring.{Modes, modes_of, Serves};
ghost use Rattle.setl_machine_control.specs.Gaining.{gained_by};
ghost use Rattle.setl_machine_control.specs.declared.end.End.{End};
ghost use Rattle.setl_machine_variables.specs.Freely.{AltersFreely};
ghost use Rattle.setl_machine_variables.specs.Gaining.{stores_at, GainsIf};
ghost use Rattle.setl_model.specs.Step.{declared_mode};
ghost use Rattle.setl_value.specs.Datum.{Datum};
ghost use Rattle.setl_machine_control.specs.Working.{DoesBy, WorksBy};
ghost use Rattle.setl_code.specs.Code.{Alteration as PlainAlteration, Bracket as PlainBracket};

use crate::altering::alter;
use crate::deciding::surely_takes;
use crate::declarations::Declarations;
use crate::in_form::{enters, update_in_form};
use crate::integers::freely;
use setl_code::{Alteration, Bracket, Slot};
use setl_machine_control::{Control, End, go_on};
use setl_store::{Content, Store};
use setl_value::Value;
use std::alloc::AllocError;

/// Does an update: an integer of a variable that surely takes the new one is combined with an integer at once, and else it is
/// `alter`.
/// The error is want of memory.
#[inline(always)]
pub fn update(
    what: Alteration,
    slot: Slot,
    brackets: &[Bracket],
    line: u32,
    declarations: &Declarations<'_>,
    store: &mut Store<'_>,
    control: &mut Control,
) -> Result<End, AllocError>
    requires few { CanGoOn store.old }
    requires there { HasSlot (length store.old.core.globals) (length store.old.core.now.own) slot }
    requires can { CanAlter what }
    requires serves { Serves declarations.now store.old }
    ensures did { IfOk result (λ end. DoesBy (modes_of declarations.now) store.old control.old line (Alter (plain_alteration what) (plain_slot (variables store.old.core) slot) (map plain_bracket brackets.now)) store.new control.new end) }
    ensures gained { IfOk result (GainsIf (stores_at (plain_alteration what) (plain_slot (variables store.old.core) slot) (map plain_bracket brackets.now) store.old.core control.old.turns) (modes_of declarations.now) (plain_slot (variables store.old.core) slot) store.old store.new) }
    ensures reader { control.new.reader ≡ control.old.reader }
{
    match new_integer(what, slot, brackets, declarations, store) {
        Some(value) => put_in_place(value, slot, store),
        None => update_any(what, slot, brackets, line, declarations, store, control),
    }
}

/// Does an update in the form of what the variable holds, or by `alter`. The error is want of memory.
#[inline(always)]
fn update_any(
    what: Alteration,
    slot: Slot,
    brackets: &[Bracket],
    line: u32,
    declarations: &Declarations<'_>,
    store: &mut Store<'_>,
    control: &mut Control,
) -> Result<End, AllocError>
    requires few { CanGoOn store.old }
    requires there { HasSlot (length store.old.core.globals) (length store.old.core.now.own) slot }
    requires can { CanAlter what }
    requires serves { Serves declarations.now store.old }
    ensures did { IfOk result (λ end. DoesBy (modes_of declarations.now) store.old control.old line (Alter (plain_alteration what) (plain_slot (variables store.old.core) slot) (map plain_bracket brackets.now)) store.new control.new end) }
    ensures gained { IfOk result (GainsIf (stores_at (plain_alteration what) (plain_slot (variables store.old.core) slot) (map plain_bracket brackets.now) store.old.core control.old.turns) (modes_of declarations.now) (plain_slot (variables store.old.core) slot) store.old store.new) }
    ensures reader { control.new.reader ≡ control.old.reader }
{
    if update_in_form(what, slot, brackets, declarations, store)? {
        return Ok(End::Paused);
    }
    Ok(alter(what, slot, brackets, line, declarations, store, control)?.end)
}

/// The integer that an update without selectors makes of a variable's integer and the one on top; None where it is another
/// update, or it isn't sure at once that the variable takes it.
#[inline(always)]
fn new_integer(
    what: Alteration,
    slot: Slot,
    brackets: &[Bracket],
    declarations: &Declarations<'_>,
    store: &Store<'_>,
) -> Option<Value>
    requires there { HasSlot (length store.now.core.globals) (length store.now.core.now.own) slot }
    requires serves { Serves declarations.now store.now }
    ensures freely { IfSome result (λ v. AltersFreely (modes_of declarations.now) (plain_alteration what) (plain_slot (variables store.now.core) slot) (map plain_bracket brackets.now) store.now.core (datum v)) }
    ensures entered { (v : Option Datum) → IfSome result (λ _. gained_by (declared_mode (modes_of declarations.now) (plain_slot (variables store.now.core) slot)) v store.now.bases ≡ store.now.bases) }
{
    let Alteration::Combine(by) = what else {
        return None;
    };
    let count = brackets.len();
    if count > 0 {
        return None;
    }
    let whole = match store.slot(slot) {
        Content::Value(whole) => whole,
        Content::Om | Content::Taken | Content::Based => return None,
    };
    let Some(value) = store.one() else {
        return None;
    };
    let Some(new) = freely(by, whole, value) else {
        return None;
    };
    let declared = declarations.of_slot(slot, store);
    if surely_takes(declared, &new) && !enters(declared, store) {
        Some(new)
    } else {
        None
    }
}

/// Drops the top, and puts a value in a variable's slot.
#[inline(always)]
fn put_in_place(value: Value, slot: Slot, store: &mut Store<'_>) -> Result<End, AllocError>
    requires few { CanGoOn store.old }
    requires there { HasSlot (length store.old.core.globals) (length store.old.core.now.own) slot }
    requires some { IsSome (top_of store.old.core.now.operands) }
    ensures did { (modes : Modes) (line : ℕ) (what : PlainAlteration) (bs : List PlainBracket) → AltersFreely modes what (plain_slot (variables store.old.core) slot) bs store.old.core (datum value) → IfOk result (λ end. WorksBy modes store.old line (Alter what (plain_slot (variables store.old.core) slot) bs) store.new end) }
    ensures bases { store.new.bases ≡ store.old.bases }
    ensures going { IfOk result (λ end. end ≡ End.Paused) }
{
    store.drop_top()?;
    store.set_slot(slot, Some(value))?;
    go_on(store);
    Ok(End::Paused)
}
