//! Runs of a code by steps.

ghost use Rattle.std.specs.Prelude.{◌≡◌, ◌⊎◌, List, ℕ, None};
ghost use Rattle.setl_model_runs.specs.Run.{step};
ghost use Rattle.setl_code.specs.Machine.{machine};
ghost use Rattle.setl_code.specs.Plain.{plain_code};
ghost use Rattle.setl_text.specs.code.Reads.{ahead, StaysHonest, TakesOff};
ghost use Rattle.setl_machine_control.specs.Control.{stood_for, IsRest};
ghost use Rattle.setl_machine_control.specs.Declaring.{modes_of, tested, Serves};
ghost use Rattle.setl_machine_control.specs.Answers.{start};
ghost use Rattle.setl_machine.specs.Gaining.{as_answer, HandGains, RunGains};
ghost use Rattle.setl_machine.specs.Writing.{NextWrites, RunWrites};
ghost use Rattle.setl_machine.specs.Outcome.{seen, Steps, AtPrint, AtRead, Ran, ReadsOnly};
ghost use Rattle.setl_machine_control.specs.declared.end.End.{End};

use crate::dispatch::quiet_step;
use crate::families::{Family, family_of};
use crate::outside::{print, read};
use crate::quiet::run_quietly;
use setl_code::Instr;
use setl_code_declared::declared_variables_fit;
use setl_code_events::{ends_tell_nothing, events_are};
use setl_io::{Sink, Source};
use setl_machine_control::{Control, End};
use setl_machine_variables::Declarations;
use setl_store::Store;

/// Does the next instructions, at most `steps` of them.
///
/// A store tests its value by the declaration of its variable: one that doesn't fit leaves the variable as it was, and
/// the run stops there. `Paused` comes where all were done without an end, and the next call goes on from there. The
/// bytes that the reader keeps and those of `input` together are what the code reads; each `print` is handed to `out` as
/// one piece.
/// `ReadFault` and `WriteFault` come only where the count of faults of `input` or `out` rose: at a `read`, and at a
/// `print`, of which a part was written; what the code has left to read is then what it had left at that `print`.
/// `NoMemory` comes where memory was refused. Bytes are taken of `input` only where the code comes to a `read`, and `out`
/// has then gained what was written before it.
#[inline(never)]
pub fn run<I: Source, O: Sink>(
    declarations: &Declarations<'_>,
    store: &mut Store<'_>,
    control: &mut Control,
    steps: u64,
    input: &mut I,
    out: &mut O,
) -> End
    requires no_fault { control.old.reader.fault ≡ None }
    requires serves { Serves declarations.now store.old }
    ensures ran { (rest' : List ℕ) → IsRest (ahead control.new.reader.ended (I.left input.new)) rest' →
        (rest : List ℕ) × IsRest (ahead control.old.reader.ended (I.left input.old)) rest
        × Ran (modes_of declarations.now) (plain_code store.old.code) steps (stood_for store.old.core control.old rest) (seen (O.held out.old) (O.faults out.old) (I.faults input.old)) (seen (O.held out.new) (O.faults out.new) (I.faults input.new)) (stood_for store.new.core control.new rest') result
        × ReadsOnly (modes_of declarations.now) (plain_code store.old.code) steps (stood_for store.old.core control.old rest) (O.held out.old) (O.held out.new) (I.left input.old) (I.left input.new)
        × RunGains (modes_of declarations.now) (plain_code store.old.code) steps (stood_for store.old.core control.old rest) store.old.bases store.new.bases result
        × RunWrites (modes_of declarations.now) (plain_code store.old.code) steps (stood_for store.old.core control.old rest) (O.pieces out.old) (O.pieces out.new) result }
    ensures code { result ≡ End.Paused → store.new.code ≡ store.old.code }
    ensures goes_on { result ≡ End.Paused → control.new.reader.fault ≡ None }
    ensures took { TakesOff (I.left input.old) (I.left input.new) }
    ensures honest { StaysHonest control.old.reader.ended (I.left input.old) control.new.reader.ended (I.left input.new) }
{
    declared_variables_fit();
    events_are();
    ends_tell_nothing();
    let mut done = 0;
    while done < steps {
        let quiet = run_quietly(declarations, store, control, steps - done - 1);
        done += quiet.done;
        match quiet.end {
            End::Paused => {}
            end => return end,
        }
        match step(declarations, store, control, input, out) {
            End::Paused => done += 1,
            end => return end,
        }
    }
    End::Paused
}

/// Does instructions up to the end of the run, in rounds of 1,000.
///
/// It is as `run`, but never answers `Paused`. A run that isn't at its end after 2^64 - 1 rounds is answered as
/// `NoMemory`, where none was refused. No clause rules that out; it takes more than 2^73 instructions.
pub fn run_whole<I: Source, O: Sink>(
    declarations: &Declarations<'_>,
    store: &mut Store<'_>,
    control: &mut Control,
    input: &mut I,
    out: &mut O,
) -> End
    requires no_fault { control.old.reader.fault ≡ None }
    requires serves { Serves declarations.now store.old }
    ensures ran { (rest' : List ℕ) → IsRest (ahead control.new.reader.ended (I.left input.new)) rest' →
        (rest : List ℕ) × IsRest (ahead control.old.reader.ended (I.left input.old)) rest
        × (n : ℕ) × Ran (modes_of declarations.now) (plain_code store.old.code) n (stood_for store.old.core control.old rest) (seen (O.held out.old) (O.faults out.old) (I.faults input.old)) (seen (O.held out.new) (O.faults out.new) (I.faults input.new)) (stood_for store.new.core control.new rest') result
        × ReadsOnly (modes_of declarations.now) (plain_code store.old.code) n (stood_for store.old.core control.old rest) (O.held out.old) (O.held out.new) (I.left input.old) (I.left input.new)
        × RunGains (modes_of declarations.now) (plain_code store.old.code) n (stood_for store.old.core control.old rest) store.old.bases store.new.bases result
        × RunWrites (modes_of declarations.now) (plain_code store.old.code) n (stood_for store.old.core control.old rest) (O.pieces out.old) (O.pieces out.new) result }
    ensures whole { ¬ (result ≡ End.Paused) }
    ensures took { TakesOff (I.left input.old) (I.left input.new) }
    ensures honest { StaysHonest control.old.reader.ended (I.left input.old) control.new.reader.ended (I.left input.new) }
{
    declared_variables_fit();
    for rounds in 0..u64::MAX {
        match run(declarations, store, control, 1000, input, out) {
            End::Paused => {}
            end => return end,
        }
    }
    End::NoMemory
}

/// One step.
fn step<I: Source, O: Sink>(
    declarations: &Declarations<'_>,
    store: &mut Store<'_>,
    control: &mut Control,
    input: &mut I,
    out: &mut O,
) -> End
    requires no_fault { control.old.reader.fault ≡ None }
    requires serves { Serves declarations.now store.old }
    ensures did { (rest' : List ℕ) → IsRest (ahead control.new.reader.ended (I.left input.new)) rest' →
        (rest : List ℕ) × IsRest (ahead control.old.reader.ended (I.left input.old)) rest
        × Steps (modes_of declarations.now) (step (machine (plain_code store.old.code)) (tested (modes_of declarations.now)) (start (stood_for store.old.core control.old rest))) (seen (O.held out.old) (O.faults out.old) (I.faults input.old)) (seen (O.held out.new) (O.faults out.new) (I.faults input.new)) (stood_for store.new.core control.new rest') result }
    ensures gained { (rest rest' : List ℕ) → HandGains (modes_of declarations.now) (plain_code store.old.code) (stood_for store.old.core control.old rest) (stood_for store.new.core control.new rest') store.old.bases store.new.bases (as_answer result) }
    ensures wrote { (rest : List ℕ) → NextWrites (step (machine (plain_code store.old.code)) (tested (modes_of declarations.now)) (start (stood_for store.old.core control.old rest))) (O.pieces out.old) (O.pieces out.new) result }
    ensures prints { result ≡ End.WriteFault → AtPrint (plain_code store.old.code) store.old.core }
    ensures reads { result ≡ End.ReadFault → AtRead (plain_code store.old.code) store.old.core }
    ensures reads_only { (I.left input.new ≡ I.left input.old) ⊎ AtRead (plain_code store.old.code) store.old.core }
    ensures code { result ≡ End.Paused → store.new.code ≡ store.old.code }
    ensures goes_on { result ≡ End.Paused → control.new.reader.fault ≡ None }
    ensures took { TakesOff (I.left input.old) (I.left input.new) }
    ensures honest { StaysHonest control.old.reader.ended (I.left input.old) control.new.reader.ended (I.left input.new) }
{
    let Some(step) = store.step() else {
        return End::Stuck;
    };
    match family_of(&step.what) {
        Family::Outside => match &step.what {
            Instr::Print(count) => print(*count, store, control, out),
            Instr::Read => read(step.line, store, control, input),
            _ => unreachable!(),
        },
        _ => quiet_step(&step.what, step.line, declarations, store, control),
    }
}
