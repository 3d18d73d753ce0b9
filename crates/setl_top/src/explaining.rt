//! Explanations of refused sources, and of stops.
ghost use Rattle.std.specs.Prelude.{◌≡◌, ◌≤◌, ◌^◌, length, IfOk};
ghost use Rattle.setl_explain_words.specs.Texts.{stop_text};
ghost use Rattle.setl_top.specs.Explained.{IsExplained};
ghost use Rattle.setl_top.specs.code.Explains.{Explains, ExplainsText, WritesExplanation};
ghost use Rattle.setl_top.specs.code.Explains as spec;
ghost use Rattle.setl_top_status.specs.Seen.{seen, seen_files};
ghost use Rattle.setl_top_status.specs.code.Writes.{Written};

use crate::Status;
use crate::front::{Unread, read_program};
use setl_explain_words::{Stop, stop_text};
use setl_io::{Files, Sink};
use setl_top_explanation::explanation;
use setl_top_status::{Fault, Reason, break_off, load_text, reason_line, write_text};
use std::alloc::{AllocError, Global};

/// The line of a reason for which a source is refused, and its explanation. The error is want of memory.
fn explained(alloc: Global, source: &[u8], reason: Reason) -> Result<Vec<u8>, AllocError>
    requires { length source.now ≤ 2 ^ 24 }
    ensures { IfOk result (λ text. IsExplained source.now reason text.items) }
{
    let told = explanation(alloc, source, reason)?;
    let mut text = reason_line(alloc, reason)?;
    text.extend_from_slice(&told)?;
    Ok(text)
}

/// The status of a source that is refused, where what is told of it was written.
fn refused_if_done(status: Status) -> Status
    ensures { result ≡ spec.refused_if_done status }
{
    match status {
        Status::Done => Status::Refused,
        other => other,
    }
}

/// Writes why a source is refused. Where that fails, the fault's line was tried.
fn write_explanation<O: Sink, E: Sink>(
    alloc: Global,
    source: &[u8],
    reason: Reason,
    out: &mut O,
    err: &mut E,
) -> Status
    requires { length source.now ≤ 2 ^ 24 }
    ensures { WritesExplanation source.now reason (seen O.held O.pieces O.faults out.old) (seen O.held O.pieces O.faults out.new) (seen E.held E.pieces E.faults err.old) (seen E.held E.pieces E.faults err.new) result }
{
    let Ok(text) = explained(alloc, source, reason) else {
        return break_off(err, Fault::NoMemory);
    };
    refused_if_done(write_text(&text, out, err))
}

/// Explains why a source is refused: done where it is a program. Otherwise the explanation was written, or the fault's line
/// was tried.
fn explain_text<O: Sink, E: Sink>(alloc: Global, source: &[u8], out: &mut O, err: &mut E) -> Status
    requires { length source.now ≤ 2 ^ 24 }
    ensures { ExplainsText source.now (seen O.held O.pieces O.faults out.old) (seen O.held O.pieces O.faults out.new) (seen E.held E.pieces E.faults err.old) (seen E.held E.pieces E.faults err.new) result }
{
    match read_program(alloc, source) {
        Ok(_program) => Status::Done,
        Err(Unread::Refused(reason)) => write_explanation(alloc, source, reason, out, err),
        Err(Unread::NoMemory) => break_off(err, Fault::NoMemory),
    }
}

/// Explains why the source in a file is refused: done where it is a program. Otherwise the explanation was written, or the
/// fault's line was tried.
pub fn explain_file<F: Files, O: Sink, E: Sink>(
    alloc: Global,
    name: &str,
    files: &mut F,
    out: &mut O,
    err: &mut E,
) -> Status
    ensures { Explains name.now (seen_files F.texts F.asked F.faults files.old) (seen_files F.texts F.asked F.faults files.new) (seen O.held O.pieces O.faults out.old) (seen O.held O.pieces O.faults out.new) (seen E.held E.pieces E.faults err.old) (seen E.held E.pieces E.faults err.new) result }
{
    match load_text(alloc, name, 1 << 24, files, err) {
        Ok(Some(source)) => explain_text(alloc, &source, out, err),
        Ok(None) => write_explanation(alloc, &[], Reason::TooLong, out, err),
        Err(status) => status,
    }
}

/// Tells what a stop means. Where that fails, the fault's line was tried.
pub fn tell_stop<O: Sink, E: Sink>(stop: Stop, out: &mut O, err: &mut E) -> Status
    ensures { Written (stop_text stop) (seen O.held O.pieces O.faults out.old) (seen O.held O.pieces O.faults out.new) (seen E.held E.pieces E.faults err.old) (seen E.held E.pieces E.faults err.new) result }
{
    write_text(stop_text(stop), out, err)
}
