//! Loads, stores and updates of variables.

ghost use Rattle.std.specs.Prelude.{◌≡◌, length, map, IfOk, List, ℕ};
ghost use Rattle.setl_code.specs.Code.{StoreIn, Alter};
ghost use Rattle.setl_code.specs.CodeCore.{held};
ghost use Rattle.setl_code.specs.MayRun.{HasSlot, CanAlter, InstrFits};
ghost use Rattle.setl_code.specs.Plain.{plain_code, plain_slot, plain_bracket, plain_alteration, plain_instr};
ghost use Rattle.setl_value.specs.code.DatumOf.{part};
ghost use Rattle.setl_watch.specs.Notices.{noticed};
ghost use Rattle.setl_watch.specs.code.NoticeOf.{notice_of};
ghost use Rattle.setl_code_events.specs.Told.{value_held, store_told};
ghost use Rattle.setl_store.specs.Standing.{variables, variables_in, CanGoOn};
ghost use Rattle.setl_machine_control.specs.Control.{stood_for, ControlState};
ghost use Rattle.setl_machine_control.specs.Declaring.{modes_of, Serves};
ghost use Rattle.setl_machine_control.specs.Working.{DoesBy};
ghost use Rattle.setl_machine.specs.Hearing.{ended, DoesTelling};
ghost use Rattle.setl_machine.specs.Gaining.{Gains};
ghost use Rattle.setl_machine.specs.Families.{family_of};
ghost use Rattle.setl_machine.specs.declared.families.Family.{Family};

use crate::telling::alone_telling;
use setl_code::{Alteration, Bracket, Instr, Slot};
use setl_code_events::store_events;
use setl_machine_control::{Control, End};
use setl_machine_variables::{Declarations, alter, load, store_in, take, update};
use setl_store::{Content, Store};
use setl_value::Value;
use setl_watch::Event;
use std::alloc::{AllocError, Global};

/// Does an instruction on a variable. The error is want of memory.
pub(crate) fn do_variable(
    what: &Instr,
    line: u32,
    declarations: &Declarations<'_>,
    store: &mut Store<'_>,
    control: &mut Control,
) -> Result<End, AllocError>
    requires is { family_of what.now ≡ Family.Variables }
    requires few { CanGoOn store.old }
    requires fits { InstrFits (length store.old.core.globals) (length store.old.core.now.own) what.now }
    requires serves { Serves declarations.now store.old }
    ensures did { IfOk result (λ end. DoesBy (modes_of declarations.now) store.old control.old line (plain_instr (variables store.old.core) what.now) store.new control.new end) }
    ensures gained { (rest rest' : List ℕ) → IfOk result (λ end. Gains (modes_of declarations.now) (plain_code store.old.code) line (plain_instr (variables store.old.core) what.now) (stood_for store.old.core control.old rest) (stood_for store.new.core control.new rest') store.old.bases store.new.bases end) }
    ensures reader { control.new.reader ≡ control.old.reader }
{
    match what {
        Instr::Load(slot) => load(*slot, store),
        Instr::Take(slot) => take(*slot, store),
        Instr::Store(slot) => store_in(*slot, line, declarations, store),
        Instr::Alter(what, slot, brackets) => update(
            *what,
            *slot,
            brackets.get().as_slice(),
            line,
            declarations,
            store,
            control,
        ),
        _ => unreachable!(),
    }
}

/// Does an instruction on a variable, and gives its events.
pub(crate) fn variable_telling(
    what: &Instr,
    line: u32,
    declarations: &Declarations<'_>,
    store: &mut Store<'_>,
    control: &mut Control,
) -> Result<Vec<Event>, End>
    requires is { family_of what.now ≡ Family.Variables }
    requires few { CanGoOn store.old }
    requires fits { InstrFits (length store.old.core.globals) (length store.old.core.now.own) what.now }
    requires serves { Serves declarations.now store.old }
    ensures did { DoesTelling (modes_of declarations.now) store.old control.old line (plain_instr (variables store.old.core) what.now) store.new control.new result }
    ensures gained { (rest rest' : List ℕ) → Gains (modes_of declarations.now) (plain_code store.old.code) line (plain_instr (variables store.old.core) what.now) (stood_for store.old.core control.old rest) (stood_for store.new.core control.new rest') store.old.bases store.new.bases (ended result) }
    ensures reader { control.new.reader ≡ control.old.reader }
{
    match what {
        Instr::Store(slot) => store_telling(*slot, line, declarations, store, control.alloc()),
        Instr::Alter(what, slot, brackets) => alter_telling(
            *what,
            *slot,
            brackets.get().as_slice(),
            line,
            declarations,
            store,
            control,
        ),
        _ => alone_telling(what, line, declarations, store, control),
    }
}

/// Stores the top in a variable.
fn store_telling(
    slot: Slot,
    line: u32,
    declarations: &Declarations<'_>,
    store: &mut Store<'_>,
    alloc: Global,
) -> Result<Vec<Event>, End>
    requires few { CanGoOn store.old }
    requires there { HasSlot (length store.old.core.globals) (length store.old.core.now.own) slot }
    requires serves { Serves declarations.now store.old }
    ensures did { (from : ControlState) → DoesTelling (modes_of declarations.now) store.old from line (StoreIn (plain_slot (variables store.old.core) slot)) store.new from result }
    ensures gained { (from : ControlState) (rest rest' : List ℕ) → Gains (modes_of declarations.now) (plain_code store.old.code) line (StoreIn (plain_slot (variables store.old.core) slot)) (stood_for store.old.core from rest) (stood_for store.new.core from rest') store.old.bases store.new.bases (ended result) }
{
    // Its clause names the variables by the body's number, as `stored_events` wants them.
    let _body = store.body();
    match store_in(slot, line, declarations, store)? {
        End::Paused => Ok(stored_events(slot, line, store, alloc)?),
        end => Err(end),
    }
}

/// Updates a variable. One that takes something out of an empty part stores nothing.
fn alter_telling(
    what: Alteration,
    slot: Slot,
    brackets: &[Bracket],
    line: u32,
    declarations: &Declarations<'_>,
    store: &mut Store<'_>,
    control: &mut Control,
) -> Result<Vec<Event>, End>
    requires few { CanGoOn store.old }
    requires there { HasSlot (length store.old.core.globals) (length store.old.core.now.own) slot }
    requires can { CanAlter what }
    requires serves { Serves declarations.now store.old }
    ensures did { DoesTelling (modes_of declarations.now) store.old control.old line (Alter (plain_alteration what) (plain_slot (variables store.old.core) slot) (map plain_bracket brackets.now)) store.new control.new result }
    ensures gained { (rest rest' : List ℕ) → Gains (modes_of declarations.now) (plain_code store.old.code) line (Alter (plain_alteration what) (plain_slot (variables store.old.core) slot) (map plain_bracket brackets.now)) (stood_for store.old.core control.old rest) (stood_for store.new.core control.new rest') store.old.bases store.new.bases (ended result) }
    ensures reader { control.new.reader ≡ control.old.reader }
{
    // Its clause names the variables by the body's number, as `stored_events` wants them.
    let _body = store.body();
    let updated = alter(what, slot, brackets, line, declarations, store, control)?;
    match updated.end {
        End::Paused => {
            if updated.stored {
                Ok(stored_events(slot, line, store, control.alloc())?)
            } else {
                Ok(Vec::new(control.alloc()))
            }
        }
        end => Err(end),
    }
}

/// The events of a store in a slot of the body at work, which was done.
fn stored_events(
    slot: Slot,
    line: u32,
    store: &Store<'_>,
    alloc: Global,
) -> Result<Vec<Event>, AllocError>
    requires { HasSlot (length (variables_in (plain_code store.now.code) store.now.core.now.body).global) (length (variables_in (plain_code store.now.code) store.now.core.now.body).own) slot }
    ensures { IfOk result (λ es. map notice_of es.items ≡ map noticed (store_told line (plain_slot (variables_in (plain_code store.now.code) store.now.core.now.body) slot) store.now.core)) }
{
    let body = store.body();
    let value = held_copy(slot, store)?;
    store_events(alloc, store.code(), body, line, slot, value)
}

/// An equal of what a variable holds, where it isn't taken.
fn held_copy(slot: Slot, store: &Store<'_>) -> Result<Option<Value>, AllocError>
    requires { HasSlot (length store.now.core.globals) (length store.now.core.now.own) slot }
    ensures { IfOk result (λ value. part value ≡ value_held (held (plain_slot (variables store.now.core) slot) store.now.core)) }
{
    match store.slot(slot) {
        Content::Value(value) => Ok(Some(value.copy()?)),
        Content::Based => store.value(slot),
        Content::Om | Content::Taken => Ok(None),
    }
}
