//! Steps that give the events that they tell.

ghost use Rattle.std.specs.Prelude.{◌≡◌, ◌⊎◌, ◌∷◌, [], ℕ, List, None, length, IfOk, IfErr, OnOk};
ghost use Rattle.setl_model_runs.specs.Run.{step};
ghost use Rattle.setl_code.specs.CodeCore.{CodeCore};
ghost use Rattle.setl_code.specs.Machine.{machine};
ghost use Rattle.setl_code.specs.MayRun.{InstrFits};
ghost use Rattle.setl_code.specs.Plain.{Variables, plain_code, plain_instr};
ghost use Rattle.setl_text.specs.code.Reads.{ahead, StaysHonest, TakesOff};
ghost use Rattle.setl_store.specs.Standing.{variables, CanGoOn};
ghost use Rattle.setl_machine_control.specs.Control.{stood_for, IsRest};
ghost use Rattle.setl_machine_control.specs.Declaring.{modes_of, tested, Serves};
ghost use Rattle.setl_machine.specs.Writing.{NextWrites};
ghost use Rattle.setl_machine.specs.Gaining.{as_answer, Gains, HandGains};
ghost use Rattle.setl_machine.specs.Hearing.{ended, Tells, DoesTelling, TellsInHand};
ghost use Rattle.setl_machine_control.specs.Answers.{start};
ghost use Rattle.setl_machine.specs.Outcome.{seen, Steps, AtPrint, AtRead};
ghost use Rattle.setl_machine.specs.Families.{family_of, IsToldAlone};
ghost use Rattle.setl_machine.specs.declared.families.Family.{Family};
ghost use Rattle.setl_machine_control.specs.declared.end.End.{End};

use crate::backtracking::backtracking_events;
use crate::calling::calls_telling;
use crate::dispatch::quiet_step;
use crate::families::{Family, family_of};
use crate::outside::{print_telling, read};
use crate::variables::variable_telling;
use setl_code::{Code, Instr};
use setl_code_events::return_events;
use setl_io::{Sink, Source};
use setl_machine_control::{Control, End};
use setl_machine_variables::Declarations;
use setl_store::Store;
use setl_watch::Event;
use std::alloc::{AllocError, Global};

/// Does the next instruction, as `run` does, and gives the events that it tells. The error is how the run ends there, which
/// is never `Paused`.
pub fn step_telling<I: Source, O: Sink>(
    declarations: &Declarations<'_>,
    store: &mut Store<'_>,
    control: &mut Control,
    input: &mut I,
    out: &mut O,
) -> Result<Vec<Event>, End>
    requires no_fault { control.old.reader.fault ≡ None }
    requires serves { Serves declarations.now store.old }
    ensures did { (rest' : List ℕ) → IsRest (ahead control.new.reader.ended (I.left input.new)) rest' →
        (rest : List ℕ) × IsRest (ahead control.old.reader.ended (I.left input.old)) rest
        × Steps (modes_of declarations.now) (step (machine (plain_code store.old.code)) (tested (modes_of declarations.now)) (start (stood_for store.old.core control.old rest))) (seen (O.held out.old) (O.faults out.old) (I.faults input.old)) (seen (O.held out.new) (O.faults out.new) (I.faults input.new)) (stood_for store.new.core control.new rest') (ended result) }
    ensures gained { (rest rest' : List ℕ) → HandGains (modes_of declarations.now) (plain_code store.old.code) (stood_for store.old.core control.old rest) (stood_for store.new.core control.new rest') store.old.bases store.new.bases (as_answer (ended result)) }
    ensures wrote { (rest : List ℕ) → NextWrites (step (machine (plain_code store.old.code)) (tested (modes_of declarations.now)) (start (stood_for store.old.core control.old rest))) (O.pieces out.old) (O.pieces out.new) (ended result) }
    ensures tells { TellsInHand store.old control.old store.new control.new result }
    ensures prints { ended result ≡ End.WriteFault → AtPrint (plain_code store.old.code) store.old.core }
    ensures reads { ended result ≡ End.ReadFault → AtRead (plain_code store.old.code) store.old.core }
    ensures reads_only { (I.left input.new ≡ I.left input.old) ⊎ AtRead (plain_code store.old.code) store.old.core }
    ensures ends { IfErr result (λ e. ¬ (e ≡ End.Paused)) }
    ensures code { OnOk result (store.new.code ≡ store.old.code) }
    ensures goes_on { OnOk result (control.new.reader.fault ≡ None) }
    ensures took { TakesOff (I.left input.old) (I.left input.new) }
    ensures honest { StaysHonest control.old.reader.ended (I.left input.old) control.new.reader.ended (I.left input.new) }
{
    let Some(step) = store.step() else {
        return Err(End::Stuck);
    };
    match family_of(&step.what) {
        Family::Outside => match &step.what {
            Instr::Print(count) => print_telling(*count, store, control, out),
            Instr::Read => match read(step.line, store, control, input) {
                End::Paused => Ok(Vec::new(control.alloc())),
                end => Err(end),
            },
            _ => unreachable!(),
        },
        _ => quiet_telling(&step.what, step.line, declarations, store, control),
    }
}

/// Does an instruction that neither reads nor writes, and gives its events.
fn quiet_telling(
    what: &Instr,
    line: u32,
    declarations: &Declarations<'_>,
    store: &mut Store<'_>,
    control: &mut Control,
) -> Result<Vec<Event>, End>
    requires quiet { ¬ (family_of what.now ≡ Family.Outside) }
    requires few { CanGoOn store.old }
    requires fits { InstrFits (length store.old.core.globals) (length store.old.core.now.own) what.now }
    requires serves { Serves declarations.now store.old }
    ensures did { DoesTelling (modes_of declarations.now) store.old control.old line (plain_instr (variables store.old.core) what.now) store.new control.new result }
    ensures gained { (rest rest' : List ℕ) → Gains (modes_of declarations.now) (plain_code store.old.code) line (plain_instr (variables store.old.core) what.now) (stood_for store.old.core control.old rest) (stood_for store.new.core control.new rest') store.old.bases store.new.bases (ended result) }
    ensures reader { control.new.reader ≡ control.old.reader }
{
    match family_of(what) {
        Family::Variables => variable_telling(what, line, declarations, store, control),
        Family::Calls => calls_telling(what, line, declarations, store, control),
        _ => alone_telling(what, line, declarations, store, control),
    }
}

/// The same of one whose events rest neither on operands nor on slots.
pub(crate) fn alone_telling(
    what: &Instr,
    line: u32,
    declarations: &Declarations<'_>,
    store: &mut Store<'_>,
    control: &mut Control,
) -> Result<Vec<Event>, End>
    requires quiet { ¬ (family_of what.now ≡ Family.Outside) }
    requires alone { IsToldAlone what.now }
    requires few { CanGoOn store.old }
    requires fits { InstrFits (length store.old.core.globals) (length store.old.core.now.own) what.now }
    requires serves { Serves declarations.now store.old }
    ensures did { DoesTelling (modes_of declarations.now) store.old control.old line (plain_instr (variables store.old.core) what.now) store.new control.new result }
    ensures gained { (rest rest' : List ℕ) → Gains (modes_of declarations.now) (plain_code store.old.code) line (plain_instr (variables store.old.core) what.now) (stood_for store.old.core control.old rest) (stood_for store.new.core control.new rest') store.old.bases store.new.bases (ended result) }
    ensures reader { control.new.reader ≡ control.old.reader }
{
    let body = store.body();
    match quiet_step(what, line, declarations, store, control) {
        End::Paused => Ok(alone_events(what, body, store.code(), control.alloc())?),
        end => Err(end),
    }
}

/// The events of an instruction of a body, by its number, that rest neither on operands nor on slots.
fn alone_events(
    what: &Instr,
    body: u32,
    code: &Code,
    alloc: Global,
) -> Result<Vec<Event>, AllocError>
    requires { IsToldAlone what.now }
    ensures { (line : ℕ) (xs : Variables) (k d : CodeCore) → k.now.body ≡ body → IfOk result (λ es. Tells (plain_code code.now) line (plain_instr xs what.now) k d es.items) }
{
    match family_of(what) {
        Family::Calls => return_events(alloc, code, body),
        Family::Backtracking => backtracking_events(what, alloc),
        _ => Ok(Vec::new(alloc)),
    }
}

/// One event.
pub(crate) fn one(alloc: Global, event: Event) -> Result<Vec<Event>, AllocError>
    ensures { IfOk result (λ es. es.items ≡ event ∷ []) }
{
    let mut events = Vec::new(alloc);
    events.push(event)?;
    Ok(events)
}
