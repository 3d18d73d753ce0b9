//! Calls and returns.

ghost use Rattle.std.specs.Prelude.{◌≡◌, ℕ, ◌<◌, List, length, map, slice_get, Some, None, IfSome, IfNone, IfOk};
ghost use Rattle.std.specs.Option.{option_map};
ghost use Rattle.setl_code.specs.Code.{CallBody, ReturnTop};
ghost use Rattle.setl_code.specs.CodeCore.{CodeCore};
ghost use Rattle.setl_code.specs.MayRun.{InstrFits};
ghost use Rattle.setl_code.specs.Plain.{plain_code, plain_instr};
ghost use Rattle.setl_store.specs.Standing.{variables, CanGoOn};
ghost use Rattle.setl_machine_control.specs.Control.{stood_for};
ghost use Rattle.setl_machine_control.specs.Declaring.{Modes, modes_of, Serves, AreOfMain, IsBare};
ghost use Rattle.setl_value.specs.code.DatumOf.{part};
ghost use Rattle.setl_machine_control.specs.Working.{Works, DoesBy};
ghost use Rattle.setl_machine.specs.Working.{HasParameters, TakesArguments, Begins};
ghost use Rattle.setl_machine.specs.Hearing.{ended, DoesTelling};
ghost use Rattle.setl_machine.specs.Families.{family_of};
ghost use Rattle.setl_machine.specs.Gaining.{Gains};
ghost use Rattle.setl_machine.specs.declared.families.Family.{Family};

use crate::telling::alone_telling;
use setl_code::{Body, Code, Instr};
use setl_code_events::call_events;
use setl_machine_control::{Control, End, pop_top};
use setl_machine_variables::Declarations;
use setl_store::Store;
use setl_value::{Value, copied_part};
use setl_watch::Event;
use std::alloc::{AllocError, Global};

/// Does a call or a return. The error is want of memory.
pub(crate) fn do_call(
    what: &Instr,
    line: u32,
    declarations: &Declarations<'_>,
    store: &mut Store<'_>,
    control: &mut Control,
) -> Result<End, AllocError>
    requires is { family_of what.now ≡ Family.Calls }
    requires few { CanGoOn store.old }
    requires serves { Serves declarations.now store.old }
    ensures did { IfOk result (λ end. DoesBy (modes_of declarations.now) store.old control.old line (plain_instr (variables store.old.core) what.now) store.new control.new end) }
    ensures gained { (k d : CodeCore) → IfOk result (λ end. Gains (modes_of declarations.now) (plain_code store.old.code) line (plain_instr (variables store.old.core) what.now) k d store.old.bases store.new.bases end) }
    ensures reader { control.new.reader ≡ control.old.reader }
{
    match what {
        Instr::Call(body) => call(*body, line, store, control),
        Instr::Return => leave_body(store),
        _ => unreachable!(),
    }
}

/// Does a call or a return, and gives its events.
pub(crate) fn calls_telling(
    what: &Instr,
    line: u32,
    declarations: &Declarations<'_>,
    store: &mut Store<'_>,
    control: &mut Control,
) -> Result<Vec<Event>, End>
    requires is { family_of what.now ≡ Family.Calls }
    requires few { CanGoOn store.old }
    requires fits { InstrFits (length store.old.core.globals) (length store.old.core.now.own) what.now }
    requires serves { Serves declarations.now store.old }
    ensures did { DoesTelling (modes_of declarations.now) store.old control.old line (plain_instr (variables store.old.core) what.now) store.new control.new result }
    ensures gained { (rest rest' : List ℕ) → Gains (modes_of declarations.now) (plain_code store.old.code) line (plain_instr (variables store.old.core) what.now) (stood_for store.old.core control.old rest) (stood_for store.new.core control.new rest') store.old.bases store.new.bases (ended result) }
    ensures reader { control.new.reader ≡ control.old.reader }
{
    match what {
        Instr::Call(body) => call_telling(*body, line, declarations, store, control),
        _ => alone_telling(what, line, declarations, store, control),
    }
}

/// Takes one turn and has the body of this number at work, with its arguments taken off the operands. No parameter is
/// declared, so each takes every value.
#[tactic(auto, using(crate::proofs::Entering::call_lacks))]
#[inline(never)]
pub(crate) fn call(
    body: u32,
    line: u32,
    store: &mut Store<'_>,
    control: &mut Control,
) -> Result<End, AllocError>
    requires { CanGoOn store.old }
    ensures did { (modes : Modes) → AreOfMain modes → IsBare (plain_code store.old.code) → IfOk result (λ end. DoesBy modes store.old control.old line (CallBody body) store.new control.new end) }
    ensures bases { IfOk result (λ _. store.new.bases ≡ store.old.bases) }
    ensures reader { control.new.reader ≡ control.old.reader }
{
    let Some(values) = arguments(body, store)? else {
        return Ok(End::Stuck);
    };
    begin(body, values, store, control)
}

/// Takes the arguments of the body of this number off the operands; None where there is no such body or there are too few.
#[inline]
fn arguments(body: u32, store: &mut Store<'_>) -> Result<Option<Vec<Option<Value>>>, AllocError>
    ensures taken { IfOk result (λ values. TakesArguments body store.old (option_map (λ all. map part all.items) values) store.new) }
    ensures there { IfOk result (λ values. IfSome values (λ all. body < length store.new.code.bodies)) }
    ensures each { IfOk result (λ values. IfSome values (λ all. IfSome (slice_get store.new.code.bodies body) (λ b. length all.items ≡ length b.parameters))) }
{
    let Some(count) = parameter_count(store.code(), body) else {
        return Ok(None);
    };
    store.pop_values(count)
}

/// Takes one turn and has the body of this number at work, with these values in its parameters.
#[inline]
fn begin(
    body: u32,
    values: Vec<Option<Value>>,
    store: &mut Store<'_>,
    control: &mut Control,
) -> Result<End, AllocError>
    requires there { body < length store.old.code.bodies }
    requires each { IfSome (slice_get store.old.code.bodies body) (λ b. length values.items ≡ length b.parameters) }
    requires few { CanGoOn store.old }
    ensures did { IfOk result (λ end. Begins body (map part values.items) store.old control.old store.new control.new end) }
    ensures reader { control.new.reader ≡ control.old.reader }
{
    if !control.turn() {
        return Ok(End::Spent);
    }
    store.enter(body, values)?;
    Ok(End::Paused)
}

/// How many parameters the body of this number has, if there is one.
fn parameter_count(code: &Code, body: u32) -> Option<usize>
    ensures there { IfSome result (λ count. body < length code.now.bodies) }
    ensures count { IfSome result (λ count. IfSome (slice_get code.now.bodies body) (λ b. length b.parameters ≡ count)) }
    ensures plain { HasParameters (slice_get (plain_code code.now).bodies body) result }
{
    match body_of(code, body) {
        Some(body) => Some(body.parameters.len()),
        None => None,
    }
}

/// The body of this number, if there is one.
fn body_of(code: &Code, body: u32) -> Option<&Body>
    ensures some { IfSome result (λ b. slice_get code.now.bodies body ≡ Some b.now) }
    ensures none { IfNone result (slice_get code.now.bodies body ≡ None) }
{
    code.bodies.as_slice().get(body as usize)
}

/// Ends the activation, and pushes the result and what the `wr` and `rw` parameters hold.
#[inline(never)]
pub(crate) fn leave_body(store: &mut Store<'_>) -> Result<End, AllocError>
    ensures { (line : ℕ) → IfOk result (λ end. Works store.old line ReturnTop store.new end) }
{
    let Some(value) = pop_top(store)? else {
        return Ok(End::Stuck);
    };
    if store.leave(value)? {
        Ok(End::Paused)
    } else {
        Ok(End::Stuck)
    }
}

/// Calls the body of this number, and gives its events.
fn call_telling(
    body: u32,
    line: u32,
    declarations: &Declarations<'_>,
    store: &mut Store<'_>,
    control: &mut Control,
) -> Result<Vec<Event>, End>
    requires few { CanGoOn store.old }
    requires serves { Serves declarations.now store.old }
    ensures did { DoesTelling (modes_of declarations.now) store.old control.old line (CallBody body) store.new control.new result }
    ensures gained { (k d : CodeCore) → Gains (modes_of declarations.now) (plain_code store.old.code) line (CallBody body) k d store.old.bases store.new.bases (ended result) }
    ensures reader { control.new.reader ≡ control.old.reader }
{
    let Some(values) = arguments(body, store)? else {
        return Err(End::Stuck);
    };
    let told = copies(control.alloc(), &values)?;
    match begin(body, values, store, control)? {
        End::Paused => Ok(call_events(control.alloc(), store.code(), body, line, told)?),
        end => Err(end),
    }
}

/// Equals of some values.
fn copies(alloc: Global, values: &[Option<Value>]) -> Result<Vec<Option<Value>>, AllocError>
    ensures { IfOk result (λ all. all.items ≡ values.now) }
{
    let mut all = Vec::with_capacity(alloc, values.len())?;
    for value in values {
        all.push(copied_part(value)?)?;
    }
    Ok(all)
}
