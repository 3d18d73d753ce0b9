//! Runs of instructions that neither read nor write.

ghost use Rattle.std.specs.Prelude.{◌≡◌, ◌≤◌, ℕ, List, length};
ghost use Rattle.setl_code.specs.MayRun.{InstrFits};
ghost use Rattle.setl_code.specs.Plain.{plain_code, plain_instr};
ghost use Rattle.setl_store.specs.Standing.{variables, CanGoOn};
ghost use Rattle.setl_model_runs.specs.Run.{run};
ghost use Rattle.setl_code.specs.Machine.{machine};
ghost use Rattle.setl_machine_control.specs.Answers.{start};
ghost use Rattle.setl_machine_control.specs.Control.{stood_for};
ghost use Rattle.setl_machine_control.specs.Declaring.{modes_of, tested, Serves};
ghost use Rattle.setl_machine.specs.Gaining.{GainsOrLeaves, HandGains, NextGains};
ghost use Rattle.setl_machine.specs.Outcome.{RanQuietly};
ghost use Rattle.setl_machine.specs.Working.{DoesOrLeaves, StepsOrLeaves};
ghost use Rattle.setl_machine_control.specs.declared.end.End.{End};

use crate::at_once::at_once;
use crate::dispatch::quiet_step;
use crate::families::{Family, family_of};
use setl_code::Instr;
use setl_code_declared::declared_variables_fit;
use setl_code_events::{ends_tell_nothing, events_are};
use setl_machine_control::{Control, End};
use setl_machine_variables::Declarations;
use setl_store::Store;

/// How many instructions were done, and how the run stands then.
#[derive(Clone, Copy)]
pub(crate) struct Progress {
    pub done: u64,
    pub end: End,
}

/// Does the next instructions that neither read nor write, at most `steps` of them. `Paused` comes where so many were done,
/// or one that reads or writes is the next.
#[inline(never)]
pub(crate) fn run_quietly(
    declarations: &Declarations<'_>,
    store: &mut Store<'_>,
    control: &mut Control,
    steps: u64,
) -> Progress
    requires serves { Serves declarations.now store.old }
    ensures ran { RanQuietly (modes_of declarations.now) (plain_code store.old.code) result.done store.old.core control.old store.new.core control.new result.end }
    ensures gained { (rest : List ℕ) → NextGains (modes_of declarations.now) (run (machine (plain_code store.old.code)) (tested (modes_of declarations.now)) result.done (start (stood_for store.old.core control.old rest))) store.old.bases store.new.bases result.end }
    ensures most { result.done ≤ steps }
    ensures code { result.end ≡ End.Paused → store.new.code ≡ store.old.code }
    ensures reader { control.new.reader ≡ control.old.reader }
{
    declared_variables_fit();
    events_are();
    ends_tell_nothing();
    let mut done = 0;
    while done < steps {
        match one_quietly(declarations, store, control) {
            Ok(true) => done += 1,
            Ok(false) => {
                return Progress {
                    done,
                    end: End::Paused,
                };
            }
            Err(end) => {
                return Progress {
                    done: done + 1,
                    end,
                };
            }
        }
    }
    Progress {
        done,
        end: End::Paused,
    }
}

/// Does the next instruction if it neither reads nor writes. Its answer is whether it did so and the run goes on, and else
/// all is as before. The error is how the run ended, which is never `Paused`.
#[inline(always)]
fn one_quietly(
    declarations: &Declarations<'_>,
    store: &mut Store<'_>,
    control: &mut Control,
) -> Result<bool, End>
    requires serves { Serves declarations.now store.old }
    ensures did { StepsOrLeaves (modes_of declarations.now) store.old control.old store.new control.new result }
    ensures gained { (rest rest' : List ℕ) → HandGains (modes_of declarations.now) (plain_code store.old.code) (stood_for store.old.core control.old rest) (stood_for store.new.core control.new rest') store.old.bases store.new.bases result }
    ensures reader { control.new.reader ≡ control.old.reader }
{
    let Some(step) = store.step() else {
        return Err(End::Stuck);
    };
    match at_once(&step.what, step.line, declarations, store, control) {
        Ok(true) => Ok(true),
        Ok(false) => else_quietly(&step.what, step.line, declarations, store, control),
        Err(end) => Err(end),
    }
}

/// The same without the common instructions first.
#[inline(always)]
fn else_quietly(
    what: &Instr,
    line: u32,
    declarations: &Declarations<'_>,
    store: &mut Store<'_>,
    control: &mut Control,
) -> Result<bool, End>
    requires few { CanGoOn store.old }
    requires fits { InstrFits (length store.old.core.globals) (length store.old.core.now.own) what.now }
    requires serves { Serves declarations.now store.old }
    ensures did { DoesOrLeaves (modes_of declarations.now) store.old control.old line (plain_instr (variables store.old.core) what.now) store.new control.new result }
    ensures gained { (rest rest' : List ℕ) → GainsOrLeaves (modes_of declarations.now) (plain_code store.old.code) line (plain_instr (variables store.old.core) what.now) (stood_for store.old.core control.old rest) (stood_for store.new.core control.new rest') store.old.bases store.new.bases result }
    ensures reader { control.new.reader ≡ control.old.reader }
{
    match family_of(what) {
        Family::Outside => Ok(false),
        _ => match quiet_step(what, line, declarations, store, control) {
            End::Paused => Ok(true),
            end => Err(end),
        },
    }
}
