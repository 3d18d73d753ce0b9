//! Instructions that neither read nor write, by their families.

ghost use Rattle.std.specs.Prelude.{◌≡◌, ℕ, List, length, IfOk};
ghost use Rattle.setl_code.specs.MayRun.{InstrFits};
ghost use Rattle.setl_code.specs.Plain.{plain_code, plain_instr};
ghost use Rattle.setl_store.specs.Standing.{variables, CanGoOn};
ghost use Rattle.setl_machine_control.specs.Control.{stood_for};
ghost use Rattle.setl_machine_control.specs.Answers.{next_of, Quiet};
ghost use Rattle.setl_machine_control.specs.Declaring.{modes_of, Serves};
ghost use Rattle.setl_machine_control.specs.declared.end.End.{End};
ghost use Rattle.setl_machine_control.specs.Working.{DoesBy};
ghost use Rattle.setl_machine.specs.Families.{family_of};
ghost use Rattle.setl_machine.specs.Gaining.{Gains};
ghost use Rattle.setl_machine.specs.declared.families.Family.{Family};

use crate::backtracking::do_backtracking;
use crate::calling::do_call;
use crate::conditions::do_condition;
use crate::families::{Family, family_of};
use crate::iterating::do_iteration;
use crate::operating::do_operator;
use crate::values::do_value;
use crate::variables::do_variable;
use setl_code::Instr;
use setl_machine_control::{Control, End};
use setl_machine_variables::Declarations;
use setl_store::Store;
use std::alloc::AllocError;

/// Does an instruction that neither reads nor writes, and says how the run stands then.
#[inline(never)]
pub(crate) fn quiet_step(
    what: &Instr,
    line: u32,
    declarations: &Declarations<'_>,
    store: &mut Store<'_>,
    control: &mut Control,
) -> End
    requires quiet { ¬ (family_of what.now ≡ Family.Outside) }
    requires few { CanGoOn store.old }
    requires fits { InstrFits (length store.old.core.globals) (length store.old.core.now.own) what.now }
    requires serves { Serves declarations.now store.old }
    ensures did { (rest : List ℕ) → Quiet (modes_of declarations.now) (next_of (modes_of declarations.now) (plain_code store.old.code) line (plain_instr (variables store.old.core) what.now) (stood_for store.old.core control.old rest)) (stood_for store.new.core control.new rest) result }
    ensures gained { (rest rest' : List ℕ) → Gains (modes_of declarations.now) (plain_code store.old.code) line (plain_instr (variables store.old.core) what.now) (stood_for store.old.core control.old rest) (stood_for store.new.core control.new rest') store.old.bases store.new.bases result }
    ensures code { result ≡ End.Paused → store.new.code ≡ store.old.code }
    ensures reader { control.new.reader ≡ control.old.reader }
{
    match do_quiet(what, line, declarations, store, control) {
        Ok(end) => end,
        Err(_) => End::NoMemory,
    }
}

/// Does an instruction that neither reads nor writes. The error is want of memory.
fn do_quiet(
    what: &Instr,
    line: u32,
    declarations: &Declarations<'_>,
    store: &mut Store<'_>,
    control: &mut Control,
) -> Result<End, AllocError>
    requires quiet { ¬ (family_of what.now ≡ Family.Outside) }
    requires few { CanGoOn store.old }
    requires fits { InstrFits (length store.old.core.globals) (length store.old.core.now.own) what.now }
    requires serves { Serves declarations.now store.old }
    ensures did { IfOk result (λ end. DoesBy (modes_of declarations.now) store.old control.old line (plain_instr (variables store.old.core) what.now) store.new control.new end) }
    ensures gained { (rest rest' : List ℕ) → IfOk result (λ end. Gains (modes_of declarations.now) (plain_code store.old.code) line (plain_instr (variables store.old.core) what.now) (stood_for store.old.core control.old rest) (stood_for store.new.core control.new rest') store.old.bases store.new.bases end) }
    ensures reader { control.new.reader ≡ control.old.reader }
{
    match family_of(what) {
        Family::Values => do_value(what, store, control.alloc()),
        Family::Variables => do_variable(what, line, declarations, store, control),
        Family::Operators => do_operator(what, line, store, control),
        Family::Conditions => do_condition(what, line, store),
        Family::Iteration => do_iteration(what, line, store, control),
        Family::Calls => do_call(what, line, declarations, store, control),
        Family::Backtracking => do_backtracking(what, line, store, control),
        Family::Outside => unreachable!(),
    }
}
