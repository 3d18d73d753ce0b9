//! Changes of the environment of a store, with the memory that they take.

ghost use Rattle.std.specs.Prelude.{◌≡◌, ◌<◌, ◌-◌, ◌+◌, ◌≤◌, length, slice_get, slice_set, take, true, Some, IfSome, IfOk, OnOk, OnErr};
ghost use Rattle.setl_store.specs.Flat.{with_operand, with_slot, cut_to};
ghost use Rattle.setl_store.specs.Small.{is_small, is_small_held};

use crate::cells::Contents;
use setl_store_operands::Operand;
use setl_store_slots::Held;
use setl_value::Value;
use std::alloc::AllocError;

/// Adds an operand.
#[inline(always)]
pub(crate) fn add_operand(environment: &mut Contents, operand: Operand) -> Result<(), AllocError>
    ensures now { OnOk result (environment.new.now ≡ with_operand environment.old.now operand) }
    ensures kept { environment.new.kept ≡ environment.old.kept }
    ensures refused { OnErr result (environment.new.now ≡ environment.old.now) }
{
    environment.reserve(1)?;
    environment.reserve_operands(1)?;
    environment.push_operand(operand);
    Ok(())
}

/// Takes off the last operand, and gives it.
#[inline(always)]
pub(crate) fn take_operand(environment: &mut Contents) -> Result<Operand, AllocError>
    requires { 0 < length environment.old.now.operands }
    ensures value { IfOk result (λ operand. Some operand ≡ slice_get environment.old.now.operands (length environment.old.now.operands - 1)) }
    ensures now { OnOk result (environment.new.now ≡ cut_to environment.old.now (length environment.old.now.operands - 1) (length environment.old.now.members)) }
    ensures kept { environment.new.kept ≡ environment.old.kept }
    ensures refused { OnErr result (environment.new.now ≡ environment.old.now) }
{
    match environment.pop_unnoted_operand() {
        Some(operand) => Ok(operand),
        None => take_noted_operand(environment),
    }
}

/// The same where the change is noted.
#[inline(never)]
fn take_noted_operand(environment: &mut Contents) -> Result<Operand, AllocError>
    requires { 0 < length environment.old.now.operands }
    ensures value { IfOk result (λ operand. Some operand ≡ slice_get environment.old.now.operands (length environment.old.now.operands - 1)) }
    ensures now { OnOk result (environment.new.now ≡ cut_to environment.old.now (length environment.old.now.operands - 1) (length environment.old.now.members)) }
    ensures kept { environment.new.kept ≡ environment.old.kept }
    ensures refused { OnErr result (environment.new.now ≡ environment.old.now) }
{
    environment.reserve(1)?;
    environment.pop_operand()
}

/// Drops the last operand and the members from this one on.
#[inline(always)]
pub(crate) fn drop_operand(environment: &mut Contents, lowest: usize) -> Result<(), AllocError>
    requires some { 0 < length environment.old.now.operands }
    requires fewer { lowest ≤ length environment.old.now.members }
    ensures now { OnOk result (environment.new.now ≡ cut_to environment.old.now (length environment.old.now.operands - 1) lowest) }
    ensures kept { environment.new.kept ≡ environment.old.kept }
    ensures refused { OnErr result (environment.new.now ≡ environment.old.now) }
{
    let last = environment.operands() - 1;
    if !is_small(environment.operand(last)) {
        return drop_any_operand(environment, lowest);
    }
    if lowest < environment.members() {
        return drop_any_operand(environment, lowest);
    }
    match environment.pop_unnoted_operand() {
        Some(operand) => {
            let_go(operand);
            Ok(())
        }
        None => drop_any_operand(environment, lowest),
    }
}

/// The same, whatever is dropped.
#[inline(never)]
fn drop_any_operand(environment: &mut Contents, lowest: usize) -> Result<(), AllocError>
    requires some { 0 < length environment.old.now.operands }
    requires fewer { lowest ≤ length environment.old.now.members }
    ensures now { OnOk result (environment.new.now ≡ cut_to environment.old.now (length environment.old.now.operands - 1) lowest) }
    ensures kept { environment.new.kept ≡ environment.old.kept }
    ensures refused { OnErr result (environment.new.now ≡ environment.old.now) }
{
    reserve_one_more(environment, environment.members() - lowest)?;
    environment.cut_members(lowest);
    environment.drop_operand();
    Ok(())
}

/// Puts an operand in the place of the last one.
#[inline(always)]
pub(crate) fn put_operand(environment: &mut Contents, operand: Operand) -> Result<(), AllocError>
    requires { 0 < length environment.old.now.operands }
    ensures now { OnOk result (environment.new.now ≡ record environment.old.now { operands = slice_set environment.old.now.operands (length environment.old.now.operands - 1) operand }) }
    ensures kept { environment.new.kept ≡ environment.old.kept }
    ensures refused { OnErr result (environment.new.now ≡ environment.old.now) }
{
    let last = environment.operands() - 1;
    if !is_small(environment.operand(last)) {
        return put_any_operand(environment, operand);
    }
    match environment.replace_unnoted_operand(last, operand) {
        Ok(before) => {
            let_go(before);
            Ok(())
        }
        Err(operand) => put_any_operand(environment, operand),
    }
}

/// The same, whatever is dropped.
#[inline(never)]
fn put_any_operand(environment: &mut Contents, operand: Operand) -> Result<(), AllocError>
    requires { 0 < length environment.old.now.operands }
    ensures now { OnOk result (environment.new.now ≡ record environment.old.now { operands = slice_set environment.old.now.operands (length environment.old.now.operands - 1) operand }) }
    ensures kept { environment.new.kept ≡ environment.old.kept }
    ensures refused { OnErr result (environment.new.now ≡ environment.old.now) }
{
    let last = environment.operands() - 1;
    environment.reserve(1)?;
    environment.set_operand(last, operand);
    Ok(())
}

/// Drops the last operand, and puts an operand in the place of the one below it.
pub(crate) fn put_for_two(environment: &mut Contents, operand: Operand) -> Result<(), AllocError>
    requires { 1 < length environment.old.now.operands }
    ensures now { OnOk result (environment.new.now ≡ record environment.old.now { operands = slice_set (take (length environment.old.now.operands - 1) environment.old.now.operands) (length environment.old.now.operands - 2) operand }) }
    ensures kept { environment.new.kept ≡ environment.old.kept }
    ensures refused { OnErr result (environment.new.now ≡ environment.old.now) }
{
    let lower = environment.operands() - 2;
    environment.reserve(2)?;
    environment.drop_operand();
    environment.set_operand(lower, operand);
    Ok(())
}

/// Makes so many changes and one more ready. The error is want of memory, or that these are 2^64, which no memory holds.
#[inline(always)]
pub(crate) fn reserve_one_more(environment: &mut Contents, count: usize) -> Result<(), AllocError>
    ensures now { environment.new.now ≡ environment.old.now }
    ensures kept { environment.new.kept ≡ environment.old.kept }
    ensures ready { OnOk result (count + 1 ≤ environment.new.ready) }
{
    let Some(all) = count.checked_add(1) else {
        return Err(AllocError);
    };
    environment.reserve(all)
}

/// Makes as many changes ready as these are together, and one more. The error is want of memory, or that these are 2^64 or
/// more, which no memory holds.
pub(crate) fn reserve_sum(
    environment: &mut Contents,
    slots: usize,
    operands: usize,
    members: usize,
    values: usize,
) -> Result<(), AllocError>
    ensures now { environment.new.now ≡ environment.old.now }
    ensures kept { environment.new.kept ≡ environment.old.kept }
    ensures ready { OnOk result (slots + operands + members + values + 1 ≤ environment.new.ready) }
{
    let Some(all) = sum(slots, operands, members, values) else {
        return Err(AllocError);
    };
    reserve_one_more(environment, all)
}

fn sum(a: usize, b: usize, c: usize, d: usize) -> Option<usize>
    ensures { IfSome result (λ all. all ≡ a + b + c + d) }
{
    a.checked_add(b)?.checked_add(c)?.checked_add(d)
}

/// Drops the operands above the lowest `operands`, and the members from the place `members` on.
pub(crate) fn cut_back(
    environment: &mut Contents,
    operands: usize,
    members: usize,
) -> Result<(), AllocError>
    requires operands { operands ≤ length environment.old.now.operands }
    requires members { members ≤ length environment.old.now.members }
    ensures now { OnOk result (environment.new.now ≡ cut_to environment.old.now operands members) }
    ensures kept { environment.new.kept ≡ environment.old.kept }
    ensures refused { OnErr result (environment.new.now ≡ environment.old.now) }
{
    reserve_sum(
        environment,
        0,
        environment.operands() - operands,
        environment.members() - members,
        0,
    )?;
    environment.cut_members(members);
    environment.cut_operands(operands);
    Ok(())
}

/// Puts this in the place of what a slot holds.
#[inline(always)]
pub(crate) fn write_slot(
    environment: &mut Contents,
    at: usize,
    value: Held,
) -> Result<(), AllocError>
    requires { at < length environment.old.now.slots }
    ensures now { OnOk result (environment.new.now ≡ with_slot environment.old.now at value) }
    ensures kept { environment.new.kept ≡ environment.old.kept }
    ensures refused { OnErr result (environment.new.now ≡ environment.old.now) }
{
    if !is_small_held(environment.slot(at)) {
        return write_any_slot(environment, at, value);
    }
    match environment.replace_unnoted_slot(at, value) {
        Ok(before) => {
            let_go_held(before);
            Ok(())
        }
        Err(value) => write_any_slot(environment, at, value),
    }
}

/// The same, whatever is dropped.
#[inline(never)]
fn write_any_slot(environment: &mut Contents, at: usize, value: Held) -> Result<(), AllocError>
    requires { at < length environment.old.now.slots }
    ensures now { OnOk result (environment.new.now ≡ with_slot environment.old.now at value) }
    ensures kept { environment.new.kept ≡ environment.old.kept }
    ensures refused { OnErr result (environment.new.now ≡ environment.old.now) }
{
    environment.reserve(1)?;
    environment.set_slot(at, value);
    Ok(())
}

/// Puts nothing in the place of what a slot holds, and gives that.
#[inline(always)]
pub(crate) fn take_slot(environment: &mut Contents, at: usize) -> Result<Held, AllocError>
    requires { at < length environment.old.now.slots }
    ensures value { IfOk result (λ value. Some value ≡ slice_get environment.old.now.slots at) }
    ensures now { OnOk result (environment.new.now ≡ with_slot environment.old.now at Held.Taken) }
    ensures kept { environment.new.kept ≡ environment.old.kept }
    ensures refused { OnErr result (environment.new.now ≡ environment.old.now) }
{
    match environment.replace_unnoted_slot(at, Held::Taken) {
        Ok(before) => Ok(before),
        Err(_) => take_noted_slot(environment, at),
    }
}

/// The same where the change is noted.
#[inline(never)]
fn take_noted_slot(environment: &mut Contents, at: usize) -> Result<Held, AllocError>
    requires { at < length environment.old.now.slots }
    ensures value { IfOk result (λ value. Some value ≡ slice_get environment.old.now.slots at) }
    ensures now { OnOk result (environment.new.now ≡ with_slot environment.old.now at Held.Taken) }
    ensures kept { environment.new.kept ≡ environment.old.kept }
    ensures refused { OnErr result (environment.new.now ≡ environment.old.now) }
{
    environment.reserve(1)?;
    environment.replace_slot(at, Held::Taken)
}

/// Puts an operand in the place of another, where one change is ready.
#[inline(always)]
pub(crate) fn put_back(environment: &mut Contents, at: usize, operand: Operand)
    requires there { at < length environment.old.now.operands }
    requires one { 1 ≤ environment.old.ready }
    ensures now { environment.new.now ≡ record environment.old.now { operands = slice_set environment.old.now.operands at operand } }
    ensures kept { environment.new.kept ≡ environment.old.kept }
    ensures ready { environment.old.ready ≤ environment.new.ready + 1 }
    ensures room { environment.new.room ≡ environment.old.room }
{
    if !is_small(environment.operand(at)) {
        return environment.set_operand(at, operand);
    }
    match environment.replace_unnoted_operand(at, operand) {
        Ok(before) => let_go(before),
        Err(operand) => environment.set_operand(at, operand),
    }
}

/// Whether an operand is `om`, an integer or a truth value, which is dropped without work.
#[inline(always)]
fn is_small(operand: &Operand) -> bool
    ensures { result ≡ is_small operand.now }
{
    matches!(
        operand,
        Operand::Om | Operand::Value(Value::Int(_) | Value::Bool(_))
    )
}

/// Drops a small operand.
#[inline(always)]
fn let_go(operand: Operand)
    requires { is_small operand ≡ true }
{
    match operand {
        Operand::Om | Operand::Value(Value::Int(_) | Value::Bool(_)) => {}
        _ => unreachable!(),
    }
}

/// Whether a slot holds nothing, `om`, an integer or a truth value, which is dropped without work.
#[inline(always)]
fn is_small_held(held: &Held) -> bool
    ensures { result ≡ is_small_held held.now }
{
    matches!(
        held,
        Held::Om | Held::Taken | Held::Value(Value::Int(_) | Value::Bool(_))
    )
}

/// Drops what a slot held that is small.
#[inline(always)]
fn let_go_held(held: Held)
    requires { is_small_held held ≡ true }
{
    match held {
        Held::Om | Held::Taken | Held::Value(Value::Int(_) | Value::Bool(_)) => {}
        _ => unreachable!(),
    }
}
