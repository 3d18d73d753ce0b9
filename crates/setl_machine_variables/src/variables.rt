//! Instructions that push a value, and those on variables.

ghost use Rattle.std.specs.Prelude.{◌≡◌, ◌∷◌, ℕ, drop, true, length, Option, Some, IfOk, IfSome, OnOk};
ghost use Rattle.setl_code.specs.Code.{Push, Load, Take, StoreIn};
ghost use Rattle.setl_code.specs.CodeCore.{Result as Holds};
ghost use Rattle.setl_code.specs.MayRun.{HasSlot};
ghost use Rattle.setl_code.specs.Plain.{plain_slot};
ghost use Rattle.setl_store.specs.Standing.{variables, CanGoOn};
ghost use Rattle.setl_value.specs.Datum.{Datum, int, text};
ghost use Rattle.setl_value.specs.code.DatumOf.{datum, part};
ghost use Rattle.setl_machine_control.specs.Declaring.{modes_of, Serves};
ghost use Rattle.setl_machine_control.specs.Working.{Works, WorksBy};
ghost use Rattle.setl_machine_control.specs.Gaining.{gained_by};
ghost use Rattle.setl_machine_variables.specs.Freely.{WorksOrLeaves};
ghost use Rattle.setl_machine_variables.specs.Gaining.{GainsStore};
ghost use Rattle.setl_model.specs.Step.{declared_mode};

use crate::deciding::surely_takes;
use crate::declarations::Declarations;
use crate::in_form::{enters, load_form, put};
use setl_code::{Literal, Slot};
use setl_machine_control::{End, StopKind, go_on, pop_top, refusal};
use setl_store::{Content, Store};
use setl_tree::Text as Name;
use setl_value::{Text, Value};
use std::alloc::{AllocError, Global};

/// Pushes a value, or `om`. The error is want of memory.
#[inline]
pub fn push(value: Option<Value>, store: &mut Store<'_>) -> Result<End, AllocError>
    requires { CanGoOn store.old }
    ensures { (line : ℕ) → IfOk result (λ end. Works store.old line (Push (part value)) store.new end) }
{
    store.push(value)?;
    go_on(store);
    Ok(End::Paused)
}

/// Pushes an integer. The error is want of memory.
#[inline(always)]
pub fn push_integer(value: &Literal, store: &mut Store<'_>) -> Result<End, AllocError>
    requires { CanGoOn store.old }
    ensures { (line : ℕ) → IfOk result (λ end. Works store.old line (Push (Some (int value.now))) store.new end) }
{
    store.push(Some(Value::Int(value.get())))?;
    go_on(store);
    Ok(End::Paused)
}

/// Pushes a string. The error is want of memory.
#[inline(never)]
pub fn push_text(alloc: Global, bytes: &Name, store: &mut Store<'_>) -> Result<End, AllocError>
    requires { CanGoOn store.old }
    ensures { (line : ℕ) → IfOk result (λ end. Works store.old line (Push (Some (text bytes.now))) store.new end) }
{
    let value = Text::of(alloc, bytes.bytes())?;
    store.push(Some(Value::Text(value)))?;
    go_on(store);
    Ok(End::Paused)
}

/// Pushes what a variable holds. The run is stuck where that was taken. The error is want of memory.
#[inline(always)]
pub fn load(slot: Slot, store: &mut Store<'_>) -> Result<End, AllocError>
    requires few { CanGoOn store.old }
    requires there { HasSlot (length store.old.core.globals) (length store.old.core.now.own) slot }
    ensures { (line : ℕ) → IfOk result (λ end. Works store.old line (Load (plain_slot (variables store.old.core) slot)) store.new end) }
{
    let value = match store.slot(slot) {
        Content::Taken => return Ok(End::Stuck),
        Content::Om => None,
        Content::Value(value) => Some(value.copy()?),
        Content::Based => return load_form(slot, store),
    };
    store.push(value)?;
    go_on(store);
    Ok(End::Paused)
}

/// Pushes what a variable holds, and leaves nothing there. The run is stuck where that was taken before. The error is want of
/// memory.
#[inline(always)]
pub fn take(slot: Slot, store: &mut Store<'_>) -> Result<End, AllocError>
    requires few { CanGoOn store.old }
    requires there { HasSlot (length store.old.core.globals) (length store.old.core.now.own) slot }
    ensures { (line : ℕ) → IfOk result (λ end. Works store.old line (Take (plain_slot (variables store.old.core) slot)) store.new end) }
{
    match store.slot(slot) {
        Content::Taken => return Ok(End::Stuck),
        Content::Om | Content::Value(_) | Content::Based => {}
    }
    let value = store.take_slot(slot)?;
    store.push(value)?;
    go_on(store);
    Ok(End::Paused)
}

/// Pops the top into a variable. A value that its declaration refuses leaves the variable as it was, and stops the run at
/// this line; without a value on top the run is stuck. The error is want of memory.
#[inline]
pub fn store_in(
    slot: Slot,
    line: u32,
    declarations: &Declarations<'_>,
    store: &mut Store<'_>,
) -> Result<End, AllocError>
    requires few { CanGoOn store.old }
    requires there { HasSlot (length store.old.core.globals) (length store.old.core.now.own) slot }
    requires serves { Serves declarations.now store.old }
    ensures did { IfOk result (λ end. WorksBy (modes_of declarations.now) store.old line (StoreIn (plain_slot (variables store.old.core) slot)) store.new end) }
    ensures gained { IfOk result (GainsStore (modes_of declarations.now) (plain_slot (variables store.old.core) slot) store.old store.new) }
{
    let declared = declarations.of_slot(slot, store);
    let Some(value) = pop_top(store)? else {
        return Ok(End::Stuck);
    };
    match refusal(declared, &value) {
        Some(place) => {
            go_on(store);
            Ok(End::Stopped(StopKind::Unfit(place), line))
        }
        None => {
            put(slot, declared, value, store)?;
            go_on(store);
            Ok(End::Paused)
        }
    }
}

/// Pops an integer or a truth value into a variable that surely takes it. Its answer is whether this was so, and else all is as
/// before. The error is want of memory.
#[inline(always)]
pub fn store_at_once(
    slot: Slot,
    declarations: &Declarations<'_>,
    store: &mut Store<'_>,
) -> Result<bool, AllocError>
    requires few { CanGoOn store.old }
    requires there { HasSlot (length store.old.core.globals) (length store.old.core.now.own) slot }
    requires serves { Serves declarations.now store.old }
    ensures did { (line : ℕ) → IfOk result (λ done. WorksOrLeaves (modes_of declarations.now) store.old line (StoreIn (plain_slot (variables store.old.core) slot)) store.new done) }
    ensures gained { OnOk result (store.new.bases ≡ store.old.bases) }
    ensures entered { (v : Option Datum) → IfOk result (λ done. done ≡ true → gained_by (declared_mode (modes_of declarations.now) (plain_slot (variables store.old.core) slot)) v store.old.bases ≡ store.old.bases) }
{
    let Some(value) = small_on_top(store) else {
        return Ok(false);
    };
    let declared = declarations.of_slot(slot, store);
    if !surely_takes(declared, &value) || enters(declared, store) {
        return Ok(false);
    }
    store.drop_top()?;
    store.set_slot(slot, Some(value))?;
    go_on(store);
    Ok(true)
}

/// The integer or truth value on top; None where something else or nothing is there.
#[inline(always)]
fn small_on_top(store: &Store<'_>) -> Option<Value>
    ensures { IfSome result (λ value. store.now.core.now.operands ≡ Holds (Some (datum value)) ∷ drop 1 store.now.core.now.operands) }
{
    match store.one() {
        Some(Value::Int(z)) => Some(Value::Int(*z)),
        Some(Value::Bool(truth)) => Some(Value::Bool(*truth)),
        _ => None,
    }
}
