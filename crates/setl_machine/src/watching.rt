//! Runs of a code that watchers are told of.

ghost use Rattle.std.specs.Prelude.{◌≡◌, ℕ, List, None, map};
ghost use Rattle.setl_code.specs.Plain.{plain_code};
ghost use Rattle.setl_text.specs.code.Reads.{ahead, StaysHonest, TakesOff};
ghost use Rattle.setl_watch.specs.Watches.{watched};
ghost use Rattle.setl_machine_control.specs.Control.{stood_for, IsRest};
ghost use Rattle.setl_machine_control.specs.Declaring.{modes_of, Serves};
ghost use Rattle.setl_machine.specs.Writing.{RunWrites};
ghost use Rattle.setl_machine.specs.Gaining.{RunGains};
ghost use Rattle.setl_machine.specs.Hearing.{Hears};
ghost use Rattle.setl_machine.specs.Outcome.{seen, Ran, ReadsOnly};
ghost use Rattle.setl_machine_control.specs.declared.end.End.{End};

use crate::machine::run_whole;
use crate::telling::step_telling;
use setl_code_declared::declared_variables_fit;
use setl_code_events::{ends_tell_nothing, events_are};
use setl_io::{Sink, Source};
use setl_machine_control::{Control, End};
use setl_machine_variables::Declarations;
use setl_store::Store;
use setl_watch::{Watcher, tell_each, told_in_parts};

/// Does instructions up to the end of the run, as `run_whole` does, and tells the watchers each event.
///
/// Each watcher is told the events in order, each once, up to the one where it has enough; then its report is added to the
/// reports, and it is taken out of the list and dropped. A run that isn't at its end after 2^64 - 1 steps is answered as
/// `NoMemory`, where none was refused, and so is want of memory of a watcher. After a fault and want of memory nothing is
/// known of the watchers.
pub fn run_watched<I: Source, O: Sink>(
    declarations: &Declarations<'_>,
    store: &mut Store<'_>,
    control: &mut Control,
    input: &mut I,
    out: &mut O,
    watchers: &mut Vec<Box<dyn Watcher>>,
    reports: &mut Vec<u8>,
) -> End
    requires no_fault { control.old.reader.fault ≡ None }
    requires serves { Serves declarations.now store.old }
    ensures ran { (rest' : List ℕ) → IsRest (ahead control.new.reader.ended (I.left input.new)) rest' →
        (rest : List ℕ) × IsRest (ahead control.old.reader.ended (I.left input.old)) rest
        × (n : ℕ) × Ran (modes_of declarations.now) (plain_code store.old.code) n (stood_for store.old.core control.old rest) (seen (O.held out.old) (O.faults out.old) (I.faults input.old)) (seen (O.held out.new) (O.faults out.new) (I.faults input.new)) (stood_for store.new.core control.new rest') result
        × ReadsOnly (modes_of declarations.now) (plain_code store.old.code) n (stood_for store.old.core control.old rest) (O.held out.old) (O.held out.new) (I.left input.old) (I.left input.new)
        × Hears (modes_of declarations.now) (plain_code store.old.code) n (stood_for store.old.core control.old rest) (watched (map (λ w. watch w) watchers.old.items) reports.old.items) (watched (map (λ w. watch w) watchers.new.items) reports.new.items) result
        × RunGains (modes_of declarations.now) (plain_code store.old.code) n (stood_for store.old.core control.old rest) store.old.bases store.new.bases result
        × RunWrites (modes_of declarations.now) (plain_code store.old.code) n (stood_for store.old.core control.old rest) (O.pieces out.old) (O.pieces out.new) result }
    ensures whole { ¬ (result ≡ End.Paused) }
    ensures took { TakesOff (I.left input.old) (I.left input.new) }
    ensures honest { StaysHonest control.old.reader.ended (I.left input.old) control.new.reader.ended (I.left input.new) }
{
    told_in_parts();
    events_are();
    ends_tell_nothing();
    declared_variables_fit();
    for steps in 0..u64::MAX {
        if watchers.is_empty() {
            return run_whole(declarations, store, control, input, out);
        }
        let events = match step_telling(declarations, store, control, input, out) {
            Ok(events) => events,
            Err(end) => return end,
        };
        let Ok(()) = tell_each(watchers, &events, reports) else {
            return End::NoMemory;
        };
    }
    End::NoMemory
}
