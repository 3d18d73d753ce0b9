//! The text of a source that is loaded, and a text that is written.
ghost use Rattle.std.specs.Prelude.{◌^◌, vec_items, IfOk, IfErr, OnOk};
ghost use Rattle.setl_top_status.specs.Seen.{seen, seen_files};
ghost use Rattle.setl_top_status.specs.code.Loads.{FoundText, HasText, IsStill, NotRead, NoText};
ghost use Rattle.setl_top_status.specs.code.Writes.{Written};

use crate::lines::break_off;
use crate::reason::Reason;
use crate::telling::refuse;
use crate::{Fault, Status};
use setl_io::{Files, Load, Sink, WriteFault, write_all};
use std::alloc::Global;

/// The greatest length of a source.
const MAX_SOURCE: u64 = 1 << 24;

/// Loads the text of a file. At `Err` the last line was told.
pub fn load_source<F: Files, E: Sink>(
    alloc: Global,
    name: &str,
    files: &mut F,
    err: &mut E,
) -> Result<Vec<u8>, Status>
    ensures loaded { IfOk result (λ source. HasText (2 ^ 24) (F.texts files.old) name.now source.items) }
    ensures still { OnOk result (IsStill name.now (seen_files F.texts F.asked F.faults files.old) (seen_files F.texts F.asked F.faults files.new) (seen E.held E.pieces E.faults err.old) (seen E.held E.pieces E.faults err.new)) }
    ensures not_loaded { IfErr result (NoText name.now (seen_files F.texts F.asked F.faults files.old) (seen_files F.texts F.asked F.faults files.new) (seen E.held E.pieces E.faults err.old) (seen E.held E.pieces E.faults err.new)) }
{
    let mut source = Vec::new(alloc);
    match files.load(name, MAX_SOURCE, &mut source) {
        Load::Loaded => Ok(source),
        Load::TooLong => Err(refuse(alloc, err, Reason::TooLong)),
        Load::Failed => Err(break_off(err, Fault::Read)),
        Load::NoMemory => Err(break_off(err, Fault::NoMemory)),
    }
}

/// Loads the text of a file with at most so many bytes; none where it is longer, which isn't told. At `Err` the fault's line
/// was tried.
pub fn load_text<F: Files, E: Sink>(
    alloc: Global,
    name: &str,
    most: u64,
    files: &mut F,
    err: &mut E,
) -> Result<Option<Vec<u8>>, Status>
    ensures loaded { IfOk result (λ text. FoundText vec_items most (F.texts files.old) name.now text) }
    ensures still { OnOk result (IsStill name.now (seen_files F.texts F.asked F.faults files.old) (seen_files F.texts F.asked F.faults files.new) (seen E.held E.pieces E.faults err.old) (seen E.held E.pieces E.faults err.new)) }
    ensures not_read { IfErr result (NotRead name.now (seen_files F.texts F.asked F.faults files.old) (seen_files F.texts F.asked F.faults files.new) (seen E.held E.pieces E.faults err.old) (seen E.held E.pieces E.faults err.new)) }
{
    let mut source = Vec::new(alloc);
    match files.load(name, most, &mut source) {
        Load::Loaded => Ok(Some(source)),
        Load::TooLong => Ok(None),
        Load::Failed => Err(break_off(err, Fault::Read)),
        Load::NoMemory => Err(break_off(err, Fault::NoMemory)),
    }
}

/// Writes a text to the output. Where that fails, the fault's line was tried.
pub fn write_text<O: Sink, E: Sink>(text: &[u8], out: &mut O, err: &mut E) -> Status
    ensures { Written text.now (seen O.held O.pieces O.faults out.old) (seen O.held O.pieces O.faults out.new) (seen E.held E.pieces E.faults err.old) (seen E.held E.pieces E.faults err.new) result }
{
    match write_all(out, text) {
        Ok(()) => Status::Done,
        Err(WriteFault::Failed) => break_off(err, Fault::Write),
        Err(WriteFault::NoMemory) => break_off(err, Fault::NoMemory),
    }
}
