//! What the error output gains at the end of a call.
ghost use Rattle.std.specs.Prelude.{◌≡◌, ◌++◌, List, ℕ, map, string_bytes, IfOk};
ghost use Rattle.setl_machine_control.specs.Answers.{kind_of};
ghost use Rattle.setl_program.specs.code.Plain.{plain_declared};
ghost use Rattle.setl_model_runs.specs.Events.{Stopped};
ghost use Rattle.setl_top_status.specs.Ends.{error_line};
ghost use Rattle.setl_top_status.specs.Seen.{seen};
ghost use Rattle.setl_top_status.specs.code.Tells.{Tells};
ghost use Rattle.setl_top.specs.code.Tells.{TellsEnd};
ghost use Rattle.setl_top.specs.Watching.{all_told};
ghost use Rattle.setl_watch.specs.Watches.{watched};
ghost use Rattle.setl_top_words.specs.Told.{TellsFaulty};

use crate::Status;
use crate::stop::stop_line;
use crate::watching::all_told;
use setl_io::Sink;
use setl_machine::{End, StopKind};
use setl_program::Declared;
use setl_top_status::{Fault, break_off, tell, tell_made};
use setl_top_words::fault_text;
use setl_watch::Watcher;
use std::alloc::{AllocError, Global};

/// Tells what the watchers of a run of the machine report, behind the reports of those that left, and how the run ended, in
/// which these variables were declared. It is neither paused nor stuck. Reports are told only where it ended as its
/// program does.
pub fn tell_end<E: Sink>(
    alloc: Global,
    err: &mut E,
    declared: &[Declared],
    end: End,
    watchers: &[Box<dyn Watcher>],
    reports: Vec<u8>,
) -> Status
    requires paused { ¬ (end ≡ End.Paused) }
    requires stuck { ¬ (end ≡ End.Stuck) }
    ensures told { TellsEnd (map plain_declared declared.now) (watched (map (λ w. watch w) watchers.now) reports.items) end (seen E.held E.pieces E.faults err.old) (seen E.held E.pieces E.faults err.new) result }
{
    match end {
        End::Done => tell_made(err, all_told(watchers, reports, b""), Status::Done),
        End::Stopped(kind, line) => tell_made(
            err,
            told_stop(alloc, declared, kind, line, watchers, reports),
            Status::Stopped,
        ),
        End::Spent => tell_made(
            err,
            all_told(watchers, reports, b"out of turns\n"),
            Status::Spent,
        ),
        End::ReadFault => break_off(err, Fault::Read),
        End::WriteFault => break_off(err, Fault::Write),
        End::NoMemory => break_off(err, Fault::NoMemory),
        End::Paused | End::Stuck => unreachable!(),
    }
}

/// All reports, and then the line that tells why a run stopped at a statement of this line, where these variables are
/// declared. The error is want of memory.
fn told_stop(
    alloc: Global,
    declared: &[Declared],
    kind: StopKind,
    line: u32,
    watchers: &[Box<dyn Watcher>],
    reports: Vec<u8>,
) -> Result<Vec<u8>, AllocError>
    ensures { IfOk result (λ text. text.items ≡ all_told (watched (map (λ w. watch w) watchers.now) reports.items) ++ error_line (Stopped (kind_of (map plain_declared declared.now) kind) line)) }
{
    let line = stop_line(alloc, declared, kind, line)?;
    all_told(watchers, reports, &line)
}

/// Tells what is to be told of words that are of no plain form.
pub fn tell_faulty<E: Sink>(alloc: Global, words: &[String], err: &mut E) -> Status
    ensures told { (text : List ℕ) × TellsFaulty (map string_bytes words.now) text × Tells Status.Words text (seen E.held E.pieces E.faults err.old) (seen E.held E.pieces E.faults err.new) result }
{
    match fault_text(alloc, words) {
        Ok(text) => tell(err, text.as_bytes(), Status::Words),
        Err(_) => break_off(err, Fault::NoMemory),
    }
}
