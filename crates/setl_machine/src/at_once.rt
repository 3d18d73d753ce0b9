//! The common instructions, which are tried first, in one `match`.

ghost use Rattle.std.specs.Prelude.{◌≡◌, ℕ, List, length, map};
ghost use Rattle.setl_code.specs.Code.{Operate, Alter, NextOr, CallBody, ReturnTop};
ghost use Rattle.setl_code.specs.CodeCore.{CodeCore};
ghost use Rattle.setl_code.specs.MayRun.{HasSlot, CanAlter, InstrFits};
ghost use Rattle.setl_code.specs.Plain.{plain_code, plain_instr, plain_slot, plain_bracket, plain_alteration};
ghost use Rattle.setl_operators_table.specs.Operators.{TakesOperands};
ghost use Rattle.setl_store.specs.Standing.{variables, CanGoOn};
ghost use Rattle.setl_machine_control.specs.Control.{ControlState, stood_for};
ghost use Rattle.setl_machine_control.specs.Declaring.{Modes, modes_of, Serves, AreOfMain, IsBare};
ghost use Rattle.setl_machine.specs.Gaining.{GainsOrLeaves, StayBases};
ghost use Rattle.setl_machine.specs.Working.{went_on, DoesOrLeaves};

use crate::calling::{call, leave_body};
use crate::conditions::{decide, discard, duplicate, jump, test, unless};
use crate::iterating::{add, begin_over, collect, leave, next, round};
use crate::operating::{operate_any, put_for_one, put_for_two};
use setl_code::{Alteration, Bracket, Instr, Slot};
use setl_machine_control::{Control, End};
use setl_machine_variables::{
    Declarations, freely_of_one, freely_of_top, load, push, push_integer, store_at_once, take,
    update,
};
use setl_operators::Operator;
use setl_store::Store;
use setl_value::Value;
use std::alloc::AllocError;

/// Does one of the common instructions. Its answer is whether it did so and the run goes on, and else all is as before. The
/// error is how the run ended, which is never `Paused`.
#[inline(always)]
pub(crate) fn at_once(
    what: &Instr,
    line: u32,
    declarations: &Declarations<'_>,
    store: &mut Store<'_>,
    control: &mut Control,
) -> Result<bool, End>
    requires few { CanGoOn store.old }
    requires fits { InstrFits (length store.old.core.globals) (length store.old.core.now.own) what.now }
    requires serves { Serves declarations.now store.old }
    ensures did { DoesOrLeaves (modes_of declarations.now) store.old control.old line (plain_instr (variables store.old.core) what.now) store.new control.new result }
    ensures gained { (rest rest' : List ℕ) → GainsOrLeaves (modes_of declarations.now) (plain_code store.old.code) line (plain_instr (variables store.old.core) what.now) (stood_for store.old.core control.old rest) (stood_for store.new.core control.new rest') store.old.bases store.new.bases result }
    ensures reader { control.new.reader ≡ control.old.reader }
{
    match what {
        Instr::Integer(n) => went_on(push_integer(n, store)),
        Instr::Load(slot) => went_on(load(*slot, store)),
        Instr::Take(slot) => went_on(take(*slot, store)),
        Instr::Store(slot) => Ok(store_at_once(*slot, declarations, store)?),
        Instr::Operate(operator, count) => operate_at_once(*operator, *count, line, store, control),
        Instr::Alter(what, slot, brackets) => alter_at_once(
            *what,
            *slot,
            brackets.get().as_slice(),
            line,
            declarations,
            store,
            control,
        ),
        Instr::Decide(connective, to) => went_on(decide(*connective, *to, line, store)),
        Instr::TestTruth => went_on(test(line, store)),
        Instr::Unless(to) => went_on(unless(*to, line, store)),
        Instr::Jump(to) => went_on(jump(*to, store)),
        Instr::Next(to) => next_at_once(*to, line, store, control),
        Instr::Round => went_on(round(store, control)),
        Instr::Call(body) => call_at_once(*body, line, store, control),
        Instr::Return => return_at_once(store),
        _ => others_at_once(what, line, store, control),
    }
}

/// The same of the instructions that push a constant, change the top, or build a collection.
#[inline(always)]
fn others_at_once(
    what: &Instr,
    line: u32,
    store: &mut Store<'_>,
    control: &Control,
) -> Result<bool, End>
    requires few { CanGoOn store.old }
    ensures did { (modes : Modes) → DoesOrLeaves modes store.old control.now line (plain_instr (variables store.old.core) what.now) store.new control.now result }
    ensures gained { (modes : Modes) (k d : CodeCore) → GainsOrLeaves modes (plain_code store.old.code) line (plain_instr (variables store.old.core) what.now) k d store.old.bases store.new.bases result }
{
    match what {
        Instr::Truth(truth) => went_on(push(Some(Value::Bool(*truth)), store)),
        Instr::Undefined => went_on(push(None, store)),
        Instr::Discard => went_on(discard(store)),
        Instr::Duplicate => went_on(duplicate(store)),
        Instr::Begin(how, count) => {
            went_on(begin_over(control.alloc(), *how, *count, line, store))
        }
        Instr::Collect(what) => went_on(collect(*what, store)),
        Instr::Add(count) => went_on(add(*count, line, store)),
        Instr::Leave(count) => went_on(leave(*count, store)),
        _ => Ok(false),
    }
}

/// Whether the run goes on after an instruction; the error is how it ended.
#[inline(always)]
fn went_on(done: Result<End, AllocError>) -> Result<bool, End>
    ensures { result ≡ went_on done }
{
    match done {
        Ok(End::Paused) => Ok(true),
        Ok(end) => Err(end),
        Err(_) => Err(End::NoMemory),
    }
}

/// Puts what an operator gives in the place of its operands, first of two integers where it charges nothing.
#[inline(always)]
fn operate_at_once(
    what: Operator,
    count: u32,
    line: u32,
    store: &mut Store<'_>,
    control: &mut Control,
) -> Result<bool, End>
    requires few { CanGoOn store.old }
    requires fits { TakesOperands what count }
    ensures did { (modes : Modes) → DoesOrLeaves modes store.old control.old line (Operate what count) store.new control.new result }
    ensures bases { StayBases store.old.bases store.new.bases result }
    ensures reader { control.new.reader ≡ control.old.reader }
{
    match freely_of_top(what, store) {
        Some(value) => went_on(put_for_two(Some(value), store)),
        None => operate_else(what, count, line, store, control),
    }
}

/// The same of other operands, first of one integer or truth value where it charges nothing.
#[inline(always)]
fn operate_else(
    what: Operator,
    count: u32,
    line: u32,
    store: &mut Store<'_>,
    control: &mut Control,
) -> Result<bool, End>
    requires few { CanGoOn store.old }
    requires fits { TakesOperands what count }
    ensures did { (modes : Modes) → DoesOrLeaves modes store.old control.old line (Operate what count) store.new control.new result }
    ensures bases { StayBases store.old.bases store.new.bases result }
    ensures reader { control.new.reader ≡ control.old.reader }
{
    match freely_of_one(what, store) {
        Some(value) => went_on(put_for_one(Some(value), store)),
        None => went_on(operate_any(what, count, line, store, control)),
    }
}

/// Does an update.
#[inline(always)]
fn alter_at_once(
    what: Alteration,
    slot: Slot,
    brackets: &[Bracket],
    line: u32,
    declarations: &Declarations<'_>,
    store: &mut Store<'_>,
    control: &mut Control,
) -> Result<bool, End>
    requires few { CanGoOn store.old }
    requires there { HasSlot (length store.old.core.globals) (length store.old.core.now.own) slot }
    requires can { CanAlter what }
    requires serves { Serves declarations.now store.old }
    ensures did { DoesOrLeaves (modes_of declarations.now) store.old control.old line (Alter (plain_alteration what) (plain_slot (variables store.old.core) slot) (map plain_bracket brackets.now)) store.new control.new result }
    ensures gained { (rest rest' : List ℕ) → GainsOrLeaves (modes_of declarations.now) (plain_code store.old.code) line (Alter (plain_alteration what) (plain_slot (variables store.old.core) slot) (map plain_bracket brackets.now)) (stood_for store.old.core control.old rest) (stood_for store.new.core control.new rest') store.old.bases store.new.bases result }
    ensures reader { control.new.reader ≡ control.old.reader }
{
    went_on(update(what, slot, brackets, line, declarations, store, control))
}

/// Does a call.
#[inline(always)]
fn call_at_once(
    body: u32,
    line: u32,
    store: &mut Store<'_>,
    control: &mut Control,
) -> Result<bool, End>
    requires { CanGoOn store.old }
    ensures did { (modes : Modes) → AreOfMain modes → IsBare (plain_code store.old.code) → DoesOrLeaves modes store.old control.old line (CallBody body) store.new control.new result }
    ensures bases { StayBases store.old.bases store.new.bases result }
    ensures reader { control.new.reader ≡ control.old.reader }
{
    went_on(call(body, line, store, control))
}

/// Does a return.
#[inline(always)]
fn return_at_once(store: &mut Store<'_>) -> Result<bool, End>
    ensures did { (modes : Modes) (control : ControlState) (line : ℕ) → DoesOrLeaves modes store.old control line ReturnTop store.new control result }
    ensures bases { StayBases store.old.bases store.new.bases result }
{
    went_on(leave_body(store))
}

/// Does the step of an iterator.
#[inline(always)]
fn next_at_once(
    to: u32,
    line: u32,
    store: &mut Store<'_>,
    control: &mut Control,
) -> Result<bool, End>
    requires few { CanGoOn store.old }
    ensures did { (modes : Modes) → DoesOrLeaves modes store.old control.old line (NextOr to) store.new control.new result }
    ensures bases { StayBases store.old.bases store.new.bases result }
    ensures reader { control.new.reader ≡ control.old.reader }
{
    went_on(next(to, store, control))
}
