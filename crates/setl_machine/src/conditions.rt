//! Conditions, jumps, what is done to the top operand, and the end of the run.

ghost use Rattle.std.specs.Prelude.{◌≡◌, ℕ, IfOk, IsOk};
ghost use Rattle.setl_code.specs.Plain.{plain_instr};
ghost use Rattle.setl_store.specs.Standing.{variables, CanGoOn};
ghost use Rattle.setl_code.specs.Code.{Decides, TestBool, Unless, Jump, DropTop, DupTop};
ghost use Rattle.setl_machine_control.specs.Working.{Works};
ghost use Rattle.setl_machine.specs.Working.{Judges, decided};
ghost use Rattle.setl_machine.specs.Families.{family_of};
ghost use Rattle.setl_machine.specs.declared.families.Family.{Family};

use setl_code::Instr;
use setl_machine_control::{End, StopKind, go_on, pop_top};
use setl_program::Connective;
use setl_store::{Store, Top};
use setl_value::{Value, copied_part};
use std::alloc::AllocError;

/// Does an instruction of conditions, jumps, the top operand, or the end of the run. The error is want of memory.
pub(crate) fn do_condition(
    what: &Instr,
    line: u32,
    store: &mut Store<'_>,
) -> Result<End, AllocError>
    requires is { family_of what.now ≡ Family.Conditions }
    requires few { CanGoOn store.old }
    ensures { IfOk result (λ end. Works store.old line (plain_instr (variables store.old.core) what.now) store.new end) }
{
    match what {
        Instr::Decide(connective, to) => decide(*connective, *to, line, store),
        Instr::TestTruth => test(line, store),
        Instr::Unless(to) => unless(*to, line, store),
        Instr::Jump(to) => jump(*to, store),
        Instr::Discard => discard(store),
        Instr::Duplicate => duplicate(store),
        Instr::Stop => Ok(End::Done),
        _ => unreachable!(),
    }
}

/// Goes to the target where the truth value on top decides, and leaves the answer there; else pops it.
#[inline(always)]
pub(crate) fn decide(
    what: Connective,
    to: u32,
    line: u32,
    store: &mut Store<'_>,
) -> Result<End, AllocError>
    requires { CanGoOn store.old }
    ensures { IfOk result (λ end. Works store.old line (Decides what to) store.new end) }
{
    let truth = match truth_on_top(store, line) {
        Ok(truth) => truth,
        Err(end) => return Ok(end),
    };
    let Some(answer) = answer(what, truth) else {
        store.drop_top()?;
        go_on(store);
        return Ok(End::Paused);
    };
    store.put_top(Some(Value::Bool(answer)))?;
    store.go_to(to as usize);
    Ok(End::Paused)
}

/// The answer of a connective, where the left part decides it.
#[inline(always)]
fn answer(what: Connective, left: bool) -> Option<bool>
    ensures { result ≡ decided what left }
{
    match (what, left) {
        (Connective::And, false) => Some(false),
        (Connective::Or, true) | (Connective::Implies, false) => Some(true),
        _ => None,
    }
}

/// Stops the run unless a truth value is on top.
#[inline(always)]
pub(crate) fn test(line: u32, store: &mut Store<'_>) -> Result<End, AllocError>
    requires { CanGoOn store.old }
    ensures did { IfOk result (λ end. Works store.old line TestBool store.new end) }
    ensures sure { IsOk result }
{
    match truth_on_top(store, line) {
        Ok(_) => {
            go_on(store);
            Ok(End::Paused)
        }
        Err(end) => Ok(end),
    }
}

/// Pops a truth value, and goes to the target if it is false.
#[inline(always)]
pub(crate) fn unless(to: u32, line: u32, store: &mut Store<'_>) -> Result<End, AllocError>
    requires { CanGoOn store.old }
    ensures { IfOk result (λ end. Works store.old line (Unless to) store.new end) }
{
    let truth = match truth_on_top(store, line) {
        Ok(truth) => truth,
        Err(end) => return Ok(end),
    };
    store.drop_top()?;
    if truth {
        go_on(store);
    } else {
        store.go_to(to as usize);
    }
    Ok(End::Paused)
}

/// Goes to the target.
#[inline(always)]
pub(crate) fn jump(to: u32, store: &mut Store<'_>) -> Result<End, AllocError>
    ensures did { (line : ℕ) → IfOk result (λ end. Works store.old line (Jump to) store.new end) }
    ensures sure { IsOk result }
{
    store.go_to(to as usize);
    Ok(End::Paused)
}

/// Pops the top.
#[inline(never)]
pub(crate) fn discard(store: &mut Store<'_>) -> Result<End, AllocError>
    requires { CanGoOn store.old }
    ensures { (line : ℕ) → IfOk result (λ end. Works store.old line DropTop store.new end) }
{
    let Some(_value) = pop_top(store)? else {
        return Ok(End::Stuck);
    };
    go_on(store);
    Ok(End::Paused)
}

/// Pushes the top again.
#[inline(never)]
pub(crate) fn duplicate(store: &mut Store<'_>) -> Result<End, AllocError>
    requires { CanGoOn store.old }
    ensures { (line : ℕ) → IfOk result (λ end. Works store.old line DupTop store.new end) }
{
    let Some(value) = store.one() else {
        return duplicate_any(store);
    };
    let other = value.copy()?;
    store.push(Some(other))?;
    go_on(store);
    Ok(End::Paused)
}

/// The same, whatever the top is.
fn duplicate_any(store: &mut Store<'_>) -> Result<End, AllocError>
    requires { CanGoOn store.old }
    ensures { (line : ℕ) → IfOk result (λ end. Works store.old line DupTop store.new end) }
{
    let Some(value) = pop_top(store)? else {
        return Ok(End::Stuck);
    };
    let other = copied_part(&value)?;
    store.push(value)?;
    store.push(other)?;
    go_on(store);
    Ok(End::Paused)
}

/// The truth value on top, or how the run ends at this line where none is there.
#[inline(always)]
fn truth_on_top(store: &Store<'_>, line: u32) -> Result<bool, End>
    ensures { Judges store.now.core.now.operands line result }
{
    match store.top() {
        Top::Value(Value::Bool(truth)) => Ok(*truth),
        Top::Value(_) | Top::Collection(_) | Top::Based => {
            Err(End::Stopped(StopKind::Kind, line))
        }
        Top::Om => Err(End::Stopped(StopKind::Om, line)),
        Top::Nothing | Top::Iterator => Err(End::Stuck),
    }
}
