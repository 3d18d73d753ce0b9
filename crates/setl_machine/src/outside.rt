//! `print` and `read`.

ghost use Rattle.std.specs.Prelude.{◌≡◌, ◌<◌, ◌∷◌, [], List, ℕ, suc, None, length, map, IfOk, OnOk};
ghost use Rattle.std.specs.Option.{option_map};
ghost use Rattle.setl_io.specs.Faults.{one_more};
ghost use Rattle.setl_value.specs.code.DatumOf.{part};
ghost use Rattle.setl_code.specs.CodeCore.{CodeCore, Result as Holds};
ghost use Rattle.setl_store.specs.Standing.{at_place, over, CanGoOn};
ghost use Rattle.setl_code.specs.Code.{PrintTop, ReadOne};
ghost use Rattle.setl_code.specs.Plain.{plain_code};
ghost use Rattle.setl_model.specs.World.{World};
ghost use Rattle.setl_text.specs.code.Reads.{ahead, SourceCounts, StaysHonest, TakesOff};
ghost use Rattle.setl_machine_control.specs.Control.{world_of, in_world, stood_for, IsRest};
ghost use Rattle.setl_machine_control.specs.Declaring.{Modes};
ghost use Rattle.setl_machine_control.specs.Answers.{next_of};
ghost use Rattle.setl_watch.specs.Notices.{Printed as PrintNotice, without_last};
ghost use Rattle.setl_watch.specs.code.NoticeOf.{notice_of};
ghost use Rattle.setl_machine.specs.Gaining.{Gains};
ghost use Rattle.setl_machine.specs.Hearing.{ended, TellsOf};
ghost use Rattle.setl_machine.specs.Outcome.{seen, Steps};
ghost use Rattle.setl_machine_control.specs.Reading.{TakesIn};
ghost use Rattle.setl_machine.specs.Working.{TakesLine, WritesLine, EndsReading};
ghost use Rattle.setl_machine.specs.Writing.{NextWrites};
ghost use Rattle.setl_machine_control.specs.declared.end.End.{End};

use crate::telling::one;
use setl_io::{Sink, Source, WriteFault, write_all};
use setl_machine_control::{Control, End, StopKind, go_on};
use setl_store::Store;
use setl_text::{ReadFault, line};
use setl_value::Value;
use setl_watch::Event;
use std::alloc::{AllocError, Global};

/// Writes the line of so many operands as one piece, and takes them off.
pub(crate) fn print<O: Sink>(
    count: u32,
    store: &mut Store<'_>,
    control: &Control,
    out: &mut O,
) -> End
    requires { CanGoOn store.old }
    ensures did { (modes : Modes) (line : ℕ) (w : World) (n : ℕ) → Steps modes (next_of modes (plain_code store.old.code) line (PrintTop count) (in_world w store.old.core)) (seen (O.held out.old) (O.faults out.old) n) (seen (O.held out.new) (O.faults out.new) n) (in_world w store.new.core) result }
    ensures gained { (modes : Modes) (line : ℕ) (k d : CodeCore) → Gains modes (plain_code store.old.code) line (PrintTop count) k d store.old.bases store.new.bases result }
    ensures wrote { (modes : Modes) (line : ℕ) (w : World) → NextWrites (next_of modes (plain_code store.old.code) line (PrintTop count) (in_world w store.old.core)) (O.pieces out.old) (O.pieces out.new) result }
    ensures code { result ≡ End.Paused → store.new.code ≡ store.old.code }
    ensures no_read { result ≡ End.ReadFault → ⊥ }
{
    match take_line(count, store, control.alloc()) {
        Ok(line) => write_line(&line, store, out),
        Err(end) => end,
    }
}

/// Takes so many operands off, and gives their line; or how the run ends where there are too few.
#[inline]
fn take_line(count: u32, store: &mut Store<'_>, alloc: Global) -> Result<Vec<u8>, End>
    ensures { TakesLine count store.old result store.new }
{
    let Some(values) = store.pop_values(count as usize)? else {
        return Err(End::Stuck);
    };
    Ok(line(alloc, &values)?)
}

/// Writes a line as one piece, and goes on.
#[inline]
fn write_line<O: Sink>(line: &[u8], store: &mut Store<'_>, out: &mut O) -> End
    requires { CanGoOn store.old }
    ensures did { (n : ℕ) → WritesLine line.now store.old (seen (O.held out.old) (O.faults out.old) n) store.new (seen (O.held out.new) (O.faults out.new) n) result }
    ensures piece { 0 < length line.now → O.pieces out.new ≡ option_map one_more (O.pieces out.old) }
{
    match write_all(out, line) {
        Ok(()) => {
            go_on(store);
            End::Paused
        }
        Err(WriteFault::Failed) => End::WriteFault,
        Err(WriteFault::NoMemory) => End::NoMemory,
    }
}

/// Pushes the value that the next denotation of the input denotes, or `om`.
pub(crate) fn read<I: Source>(
    line: u32,
    store: &mut Store<'_>,
    control: &mut Control,
    input: &mut I,
) -> End
    requires few { CanGoOn store.old }
    requires no_fault { control.old.reader.fault ≡ None }
    ensures did { (modes : Modes) (held : _) (n : ℕ) (rest' : List ℕ) → IsRest (ahead control.new.reader.ended (I.left input.new)) rest' →
        (rest : List ℕ) × IsRest (ahead control.old.reader.ended (I.left input.old)) rest
        × Steps modes (next_of modes (plain_code store.old.code) line ReadOne (stood_for store.old.core control.old rest)) (seen held n (I.faults input.old)) (seen held n (I.faults input.new)) (stood_for store.new.core control.new rest') result }
    ensures gained { (modes : Modes) (line : ℕ) (k d : CodeCore) → Gains modes (plain_code store.old.code) line ReadOne k d store.old.bases store.new.bases result }
    ensures code { result ≡ End.Paused → store.new.code ≡ store.old.code }
    ensures no_write { result ≡ End.WriteFault → ⊥ }
    ensures goes_on { result ≡ End.Paused → control.new.reader.fault ≡ None }
    ensures took { TakesOff (I.left input.old) (I.left input.new) }
    ensures honest { StaysHonest control.old.reader.ended (I.left input.old) control.new.reader.ended (I.left input.new) }
{
    match control.take_denotation(input) {
        Ok(value) => match push_read(value, store) {
            Ok(()) => End::Paused,
            Err(_) => End::NoMemory,
        },
        Err(fault) => end_reading(fault, line),
    }
}

/// Pushes what was read, and goes on.
fn push_read(value: Option<Value>, store: &mut Store<'_>) -> Result<(), AllocError>
    requires { CanGoOn store.old }
    ensures { OnOk result (store.new ≡ record store.old { core = at_place (suc store.old.core.now.at) (over (Holds (part value) ∷ store.old.core.now.operands) store.old.core) }) }
{
    store.push(value)?;
    go_on(store);
    Ok(())
}

/// How a fault of a read ends the run at this line.
fn end_reading(fault: ReadFault, line: u32) -> End
    ensures { EndsReading fault line result }
{
    match fault {
        ReadFault::Form => End::Stopped(StopKind::Form, line),
        ReadFault::Wide => End::Stopped(StopKind::Wide, line),
        ReadFault::Deep => End::Stopped(StopKind::Deep, line),
        ReadFault::Source => End::ReadFault,
        ReadFault::NoMemory => End::NoMemory,
    }
}

/// Writes the line of so many operands as `print` does. Its event is made before, since the line can't be taken back.
pub(crate) fn print_telling<O: Sink>(
    count: u32,
    store: &mut Store<'_>,
    control: &Control,
    out: &mut O,
) -> Result<Vec<Event>, End>
    requires { CanGoOn store.old }
    ensures did { (modes : Modes) (line : ℕ) (w : World) (n : ℕ) → Steps modes (next_of modes (plain_code store.old.code) line (PrintTop count) (in_world w store.old.core)) (seen (O.held out.old) (O.faults out.old) n) (seen (O.held out.new) (O.faults out.new) n) (in_world w store.new.core) (ended result) }
    ensures tells { (line : ℕ) → TellsOf store.old control.now line (PrintTop count) store.new control.now result }
    ensures gained { (modes : Modes) (line : ℕ) (k d : CodeCore) → Gains modes (plain_code store.old.code) line (PrintTop count) k d store.old.bases store.new.bases (ended result) }
    ensures wrote { (modes : Modes) (line : ℕ) (w : World) → NextWrites (next_of modes (plain_code store.old.code) line (PrintTop count) (in_world w store.old.core)) (O.pieces out.old) (O.pieces out.new) (ended result) }
    ensures no_read { ended result ≡ End.ReadFault → ⊥ }
{
    let line = take_line(count, store, control.alloc())?;
    let events = print_events(control.alloc(), &line)?;
    match write_line(&line, store, out) {
        End::Paused => Ok(events),
        end => Err(end),
    }
}

/// The event of a line, which has it without byte 10.
fn print_events(alloc: Global, line: &[u8]) -> Result<Vec<Event>, AllocError>
    ensures { IfOk result (λ es. map notice_of es.items ≡ PrintNotice (without_last line.now) ∷ []) }
{
    let bytes = without_last(alloc, line)?;
    one(alloc, Event::Printed { bytes })
}

/// All bytes but the last one.
#[tactic(auto, using(crate::proofs::Told::without))]
fn without_last(alloc: Global, bytes: &[u8]) -> Result<Vec<u8>, AllocError>
    ensures { IfOk result (λ front. front.items ≡ without_last bytes.now) }
{
    match bytes.split_last() {
        Some((_, front)) => front.to_vec(alloc),
        None => Ok(Vec::new(alloc)),
    }
}
