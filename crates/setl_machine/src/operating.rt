//! Operators on operands, and those without any: a new atom, and whether a read met the end of the input.

ghost use Rattle.std.specs.Prelude.{◌≡◌, ℕ, length, Some, IfOk};
ghost use Rattle.setl_code.specs.Code.{Operate, PushAtom, PushEof};
ghost use Rattle.setl_code.specs.MayRun.{InstrFits};
ghost use Rattle.setl_code.specs.Plain.{plain_instr};
ghost use Rattle.setl_operators_table.specs.Operators.{operand_count, TakesOperands};
ghost use Rattle.setl_value.specs.code.DatumOf.{part};
ghost use Rattle.setl_store.specs.Operands.{IsPlainTop};
ghost use Rattle.setl_store.specs.Standing.{variables, CanGoOn};
ghost use Rattle.setl_machine.specs.Operating.{AreTwo, PutsForTwo, PutsForOne};
ghost use Rattle.setl_machine_control.specs.Working.{Does};
ghost use Rattle.setl_machine.specs.Families.{family_of};
ghost use Rattle.setl_machine.specs.declared.families.Family.{Family};

use crate::held::{counted_in_form, tested_in_form};
use setl_code::Instr;
use setl_machine_control::{Control, End, end_by, go_on};
use setl_machine_variables::freely_of_top;
use setl_operators::{Operator, op, op_one, op_two};
use setl_store::Store;
use setl_value::Value;
use std::alloc::AllocError;

/// Does an operator. The error is want of memory.
pub(crate) fn do_operator(
    what: &Instr,
    line: u32,
    store: &mut Store<'_>,
    control: &mut Control,
) -> Result<End, AllocError>
    requires is { family_of what.now ≡ Family.Operators }
    requires few { CanGoOn store.old }
    requires fits { InstrFits (length store.old.core.globals) (length store.old.core.now.own) what.now }
    ensures did { IfOk result (λ end. Does store.old control.old line (plain_instr (variables store.old.core) what.now) store.new control.new end) }
    ensures reader { control.new.reader ≡ control.old.reader }
{
    match what {
        Instr::Operate(operator, count) => operate(*operator, *count, line, store, control),
        Instr::NewAtom => push_atom(store, control),
        Instr::Eof => push_eof(store, control),
        _ => unreachable!(),
    }
}

/// Pops so many operands, and pushes what the operator makes of them for its charge.
fn operate(
    what: Operator,
    count: u32,
    line: u32,
    store: &mut Store<'_>,
    control: &mut Control,
) -> Result<End, AllocError>
    requires few { CanGoOn store.old }
    requires fits { TakesOperands what count }
    ensures did { IfOk result (λ end. Does store.old control.old line (Operate what count) store.new control.new end) }
    ensures reader { control.new.reader ≡ control.old.reader }
{
    match freely_of_top(what, store) {
        Some(value) => put_for_two(Some(value), store),
        None => operate_any(what, count, line, store, control),
    }
}

/// Puts a value in the place of the two on top.
#[inline(always)]
pub(crate) fn put_for_two(value: Option<Value>, store: &mut Store<'_>) -> Result<End, AllocError>
    requires few { CanGoOn store.old }
    requires two { AreTwo store.old.core.now.operands }
    ensures { IfOk result (λ end. PutsForTwo store.old (part value) store.new end) }
{
    store.drop_top()?;
    store.put_top(value)?;
    go_on(store);
    Ok(End::Paused)
}

/// Puts a value in the place of the one on top.
#[inline(always)]
pub(crate) fn put_for_one(value: Option<Value>, store: &mut Store<'_>) -> Result<End, AllocError>
    requires few { CanGoOn store.old }
    requires one { IsPlainTop store.old.core.now.operands }
    ensures { IfOk result (λ end. PutsForOne store.old (part value) store.new end) }
{
    store.put_top(value)?;
    go_on(store);
    Ok(End::Paused)
}

/// The same, whatever the operands are.
#[inline(never)]
pub(crate) fn operate_any(
    what: Operator,
    count: u32,
    line: u32,
    store: &mut Store<'_>,
    control: &mut Control,
) -> Result<End, AllocError>
    requires few { CanGoOn store.old }
    requires fits { TakesOperands what count }
    ensures did { IfOk result (λ end. Does store.old control.old line (Operate what count) store.new control.new end) }
    ensures reader { control.new.reader ≡ control.old.reader }
{
    match what.operand_count() {
        Some(1) => operate_on_one(what, count, line, store, control),
        Some(2) if !uses_up(what) => operate_on_two(what, count, line, store, control),
        _ => operate_listed(what, count, line, store, control),
    }
}

/// Whether an operator with two operands changes one of them in place where it is handed over.
fn uses_up(what: Operator) -> bool {
    matches!(
        what,
        Operator::Add | Operator::Subtract | Operator::With | Operator::Less | Operator::Lessf
    )
}

/// The same of an operator with one operand, which it is lent where that is a value.
fn operate_on_one(
    what: Operator,
    count: u32,
    line: u32,
    store: &mut Store<'_>,
    control: &mut Control,
) -> Result<End, AllocError>
    requires few { CanGoOn store.old }
    requires fits { TakesOperands what count }
    requires one { operand_count what ≡ Some 1 }
    ensures did { IfOk result (λ end. Does store.old control.old line (Operate what count) store.new control.new end) }
    ensures reader { control.new.reader ≡ control.old.reader }
{
    let Some(a) = store.one() else {
        return operate_on_one_held(what, count, line, store, control);
    };
    match op_one(control.alloc(), what, Some(a), control.turns()) {
        Ok(answer) => {
            control.charge(answer.charged);
            put_for_one(answer.value, store)
        }
        Err(fault) => end_by(fault, line),
    }
}

/// The same of an operator with two operands, which it is lent where both are values or `om`.
fn operate_on_two(
    what: Operator,
    count: u32,
    line: u32,
    store: &mut Store<'_>,
    control: &mut Control,
) -> Result<End, AllocError>
    requires few { CanGoOn store.old }
    requires fits { TakesOperands what count }
    requires two { operand_count what ≡ Some 2 }
    ensures did { IfOk result (λ end. Does store.old control.old line (Operate what count) store.new control.new end) }
    ensures reader { control.new.reader ≡ control.old.reader }
{
    let Some((a, b)) = store.two_parts() else {
        return operate_on_two_held(what, count, line, store, control);
    };
    match op_two(control.alloc(), what, a, b, control.turns()) {
        Ok(answer) => {
            control.charge(answer.charged);
            put_for_two(answer.value, store)
        }
        Err(fault) => end_by(fault, line),
    }
}

/// The same of one operand that may be held in a form.
#[inline(never)]
fn operate_on_one_held(
    what: Operator,
    count: u32,
    line: u32,
    store: &mut Store<'_>,
    control: &mut Control,
) -> Result<End, AllocError>
    requires few { CanGoOn store.old }
    requires fits { TakesOperands what count }
    requires one { operand_count what ≡ Some 1 }
    ensures did { IfOk result (λ end. Does store.old control.old line (Operate what count) store.new control.new end) }
    ensures reader { control.new.reader ≡ control.old.reader }
{
    match counted_in_form(what, store) {
        Some(value) => {
            control.charge(0);
            put_for_one(Some(value), store)
        }
        None => operate_listed(what, count, line, store, control),
    }
}

/// The same of two operands that may be held in forms.
#[inline(never)]
fn operate_on_two_held(
    what: Operator,
    count: u32,
    line: u32,
    store: &mut Store<'_>,
    control: &mut Control,
) -> Result<End, AllocError>
    requires few { CanGoOn store.old }
    requires fits { TakesOperands what count }
    requires two { operand_count what ≡ Some 2 }
    ensures did { IfOk result (λ end. Does store.old control.old line (Operate what count) store.new control.new end) }
    ensures reader { control.new.reader ≡ control.old.reader }
{
    match tested_in_form(what, store)? {
        Some(truth) => {
            control.charge(0);
            put_for_two(Some(Value::Bool(truth)), store)
        }
        None => select_or_list(what, count, line, store, control),
    }
}

/// The same of two operands, where the lower one may be a map in a form.
fn select_or_list(
    what: Operator,
    count: u32,
    line: u32,
    store: &mut Store<'_>,
    control: &mut Control,
) -> Result<End, AllocError>
    requires few { CanGoOn store.old }
    requires fits { TakesOperands what count }
    requires two { operand_count what ≡ Some 2 }
    ensures did { IfOk result (λ end. Does store.old control.old line (Operate what count) store.new control.new end) }
    ensures reader { control.new.reader ≡ control.old.reader }
{
    if !store.select(what)? {
        return operate_listed(what, count, line, store, control);
    }
    control.charge(0);
    go_on(store);
    Ok(End::Paused)
}

/// The same with a list of the operands.
fn operate_listed(
    what: Operator,
    count: u32,
    line: u32,
    store: &mut Store<'_>,
    control: &mut Control,
) -> Result<End, AllocError>
    requires few { CanGoOn store.old }
    requires fits { TakesOperands what count }
    ensures did { IfOk result (λ end. Does store.old control.old line (Operate what count) store.new control.new end) }
    ensures reader { control.new.reader ≡ control.old.reader }
{
    let Some(values) = store.pop_values(count as usize)? else {
        return Ok(End::Stuck);
    };
    match op(control.alloc(), what, values, control.turns()) {
        Ok(answer) => {
            control.charge(answer.charged);
            store.push(answer.value)?;
            go_on(store);
            Ok(End::Paused)
        }
        Err(fault) => end_by(fault, line),
    }
}

/// Pushes the next atom, for one turn.
#[inline(never)]
fn push_atom(store: &mut Store<'_>, control: &mut Control) -> Result<End, AllocError>
    requires { CanGoOn store.old }
    ensures did { (line : ℕ) → IfOk result (λ end. Does store.old control.old line PushAtom store.new control.new end) }
    ensures reader { control.new.reader ≡ control.old.reader }
{
    let Some(atom) = control.new_atom() else {
        return Ok(End::Spent);
    };
    store.push(Some(Value::Atom(atom)))?;
    go_on(store);
    Ok(End::Paused)
}

/// Pushes whether a read met the end of the input.
#[inline(never)]
fn push_eof(store: &mut Store<'_>, control: &Control) -> Result<End, AllocError>
    requires { CanGoOn store.old }
    ensures { (line : ℕ) → IfOk result (λ end. Does store.old control.now line PushEof store.new control.now end) }
{
    store.push(Some(Value::Bool(control.eof())))?;
    go_on(store);
    Ok(End::Paused)
}
