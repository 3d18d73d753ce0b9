//! Iterators, collections that are being built, tuples that are taken apart, and rounds.

ghost use Rattle.std.specs.Prelude.{◌≡◌, ℕ, IfOk, IsOk, OnOk};
ghost use Rattle.setl_code.specs.Code.{PartsOf, BeginOver, NextOr, BeginOf, AddBelow, LeaveAll, PayRound};
ghost use Rattle.setl_code.specs.Machine.{first_parts};
ghost use Rattle.setl_code.specs.Plain.{plain_begin, plain_instr};
ghost use Rattle.setl_store.specs.Standing.{over, variables, CanGoOn};
ghost use Rattle.setl_value.specs.code.DatumOf.{part};
ghost use Rattle.setl_machine_control.specs.Working.{Works, Does};
ghost use Rattle.setl_machine.specs.Working.{component_of};
ghost use Rattle.setl_machine.specs.Families.{family_of};
ghost use Rattle.setl_machine.specs.declared.families.Family.{Family};

use setl_code::{Begin, Instr};
use setl_machine_control::{Control, End, StopKind, end_by, go_on, pop_top};
use setl_program::Collection;
use setl_store::{Ahead, Store};
use setl_store_iterator::begin;
use setl_value::{TupleBody, Value};
use std::alloc::{AllocError, Global};

/// Does an instruction of iterators, collections, components or rounds. The error is want of memory.
pub(crate) fn do_iteration(
    what: &Instr,
    line: u32,
    store: &mut Store<'_>,
    control: &mut Control,
) -> Result<End, AllocError>
    requires is { family_of what.now ≡ Family.Iteration }
    requires few { CanGoOn store.old }
    ensures did { IfOk result (λ end. Does store.old control.old line (plain_instr (variables store.old.core) what.now) store.new control.new end) }
    ensures reader { control.new.reader ≡ control.old.reader }
{
    match what {
        Instr::Parts(count) => take_apart(*count, line, store),
        Instr::Begin(how, count) => begin_over(control.alloc(), *how, *count, line, store),
        Instr::Next(to) => next(*to, store, control),
        Instr::Collect(what) => collect(*what, store),
        Instr::Add(count) => add(*count, line, store),
        Instr::Leave(count) => leave(*count, store),
        Instr::Round => round(store, control),
        _ => unreachable!(),
    }
}

/// Pops a tuple and pushes its first components, so many, the first one on top.
#[inline(never)]
fn take_apart(count: u32, line: u32, store: &mut Store<'_>) -> Result<End, AllocError>
    requires { CanGoOn store.old }
    ensures { IfOk result (λ end. Works store.old line (PartsOf count) store.new end) }
{
    match pop_top(store)? {
        Some(Some(Value::Tuple(tuple))) => {
            push_parts(&tuple, count as usize, store)?;
            go_on(store);
            Ok(End::Paused)
        }
        Some(Some(_)) => Ok(End::Stopped(StopKind::Kind, line)),
        Some(None) => Ok(End::Stopped(StopKind::Om, line)),
        None => Ok(End::Stuck),
    }
}

/// Pushes the first components of a tuple, so many, the first one on top.
fn push_parts(tuple: &TupleBody, count: usize, store: &mut Store<'_>) -> Result<(), AllocError>
    ensures { OnOk result (store.new ≡ record store.old { core = over (first_parts count tuple.now store.old.core.now.operands) store.old.core }) }
{
    for at in (0..count).rev() {
        store.push(component(tuple, at)?)?;
    }
    Ok(())
}

/// An equal of a component of a tuple, where `om` stands behind the last one.
fn component(tuple: &TupleBody, at: usize) -> Result<Option<Value>, AllocError>
    ensures { IfOk result (λ v. part v ≡ component_of tuple.now at) }
{
    match tuple.at(at) {
        Some(value) => Ok(Some(value.copy()?)),
        None => Ok(None),
    }
}

/// Pops the parts of a source, so many, and pushes the iterator over its items.
#[inline(never)]
pub(crate) fn begin_over(
    alloc: Global,
    how: Begin,
    count: u32,
    line: u32,
    store: &mut Store<'_>,
) -> Result<End, AllocError>
    requires { CanGoOn store.old }
    ensures { IfOk result (λ end. Works store.old line (BeginOver (plain_begin how) count) store.new end) }
{
    let Some(sources) = store.pop_values(count as usize)? else {
        return Ok(End::Stuck);
    };
    match begin(alloc, how, &sources) {
        Ok(iterator) => {
            store.push_iterator(iterator)?;
            go_on(store);
            Ok(End::Paused)
        }
        Err(fault) => end_by(fault, line),
    }
}

/// At the end of the iterator on top drops it and goes to the target; else takes one turn and pushes the next item.
#[inline(never)]
pub(crate) fn next(to: u32, store: &mut Store<'_>, control: &mut Control) -> Result<End, AllocError>
    requires { CanGoOn store.old }
    ensures did { (line : ℕ) → IfOk result (λ end. Does store.old control.old line (NextOr to) store.new control.new end) }
    ensures reader { control.new.reader ≡ control.old.reader }
{
    match store.ahead() {
        Ahead::NoIterator => Ok(End::Stuck),
        Ahead::AtEnd => {
            if store.drop_iterators(1)? {
                store.go_to(to as usize);
                Ok(End::Paused)
            } else {
                Ok(End::Stuck)
            }
        }
        Ahead::AtItem => {
            store.advance()?;
            if !control.turn() {
                return Ok(End::Spent);
            }
            go_on(store);
            Ok(End::Paused)
        }
    }
}

/// Pushes an empty collection.
#[inline(never)]
pub(crate) fn collect(what: Collection, store: &mut Store<'_>) -> Result<End, AllocError>
    requires { CanGoOn store.old }
    ensures { (line : ℕ) → IfOk result (λ end. Works store.old line (BeginOf what) store.new end) }
{
    store.push_collection(what)?;
    go_on(store);
    Ok(End::Paused)
}

/// Pops a value, and adds it to the collection below so many iterators.
#[inline(never)]
pub(crate) fn add(count: u32, line: u32, store: &mut Store<'_>) -> Result<End, AllocError>
    requires { CanGoOn store.old }
    ensures { IfOk result (λ end. Works store.old line (AddBelow count) store.new end) }
{
    let Some(value) = pop_top(store)? else {
        return Ok(End::Stuck);
    };
    match store.add_below(count as usize, value) {
        Ok(true) => {
            go_on(store);
            Ok(End::Paused)
        }
        Ok(false) => Ok(End::Stuck),
        Err(fault) => end_by(fault, line),
    }
}

/// Drops so many iterators.
#[inline(never)]
pub(crate) fn leave(count: u32, store: &mut Store<'_>) -> Result<End, AllocError>
    requires { CanGoOn store.old }
    ensures { (line : ℕ) → IfOk result (λ end. Works store.old line (LeaveAll count) store.new end) }
{
    if !store.drop_iterators(count as usize)? {
        return Ok(End::Stuck);
    }
    go_on(store);
    Ok(End::Paused)
}

/// Takes one turn.
#[inline(always)]
pub(crate) fn round(store: &mut Store<'_>, control: &mut Control) -> Result<End, AllocError>
    requires { CanGoOn store.old }
    ensures did { (line : ℕ) → IfOk result (λ end. Does store.old control.old line PayRound store.new control.new end) }
    ensures reader { control.new.reader ≡ control.old.reader }
    ensures sure { IsOk result }
{
    if !control.turn() {
        return Ok(End::Spent);
    }
    go_on(store);
    Ok(End::Paused)
}
