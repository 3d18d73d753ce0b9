//! Sources and code files that are loaded and read.
ghost use Rattle.std.specs.Prelude.{◌++◌, ◌∷◌, [], IfOk, IfErr, OnOk};
ghost use Rattle.setl_top_status.specs.Seen.{seen, seen_files};
ghost use Rattle.setl_top_status.specs.code.Loads.{IsStill};
ghost use Rattle.setl_top_status.specs.code.Tells.{Tells};
ghost use Rattle.setl_top_images.specs.CodeFiles.{flaw_line};
ghost use Rattle.setl_top.specs.code.Loads.{Loaded, NotLoaded, Checks};
ghost use Rattle.setl_top.specs.code.Ready.{LoadedReady, NotCode, NotReady};
ghost use Rattle.setl_top_rules.specs.Rules.{AreModes};

use crate::Status;
use crate::front::{Checked, Unread, read_program};
use crate::ready::{Ready, ready_of_image, ready_of_source};
use setl_io::{Files, Sink};
use setl_top_images as images;
use setl_top_images::{Flaw, MOST_BYTES, flaw_line, read_image};
use setl_top_status::{Fault, break_off, load_source, load_text, refuse, tell};
use setl_top_words::FileKind;
use std::alloc::Global;

/// Loads the program of a file. At `Err` the last line was told.
pub fn load_program<F: Files, E: Sink>(
    alloc: Global,
    name: &str,
    files: &mut F,
    err: &mut E,
) -> Result<Checked, Status>
    ensures loaded { IfOk result (λ checked. Loaded (F.texts files.old) name.now checked.tree) }
    ensures modes { IfOk result (λ checked. AreModes checked.tree checked.modes) }
    ensures still { OnOk result (IsStill name.now (seen_files F.texts F.asked F.faults files.old) (seen_files F.texts F.asked F.faults files.new) (seen E.held E.pieces E.faults err.old) (seen E.held E.pieces E.faults err.new)) }
    ensures not_loaded { IfErr result (NotLoaded name.now (seen_files F.texts F.asked F.faults files.old) (seen_files F.texts F.asked F.faults files.new) (seen E.held E.pieces E.faults err.old) (seen E.held E.pieces E.faults err.new)) }
{
    let source = match load_source(alloc, name, files, err) {
        Ok(source) => source,
        Err(status) => return Err(status),
    };
    let checked = match read_program(alloc, &source) {
        Ok(checked) => checked,
        Err(Unread::Refused(reason)) => return Err(refuse(alloc, err, reason)),
        Err(Unread::NoMemory) => return Err(break_off(err, Fault::NoMemory)),
    };
    Ok(checked)
}

/// Loads what a file holds, a source or code, and makes it ready to run. At `Err` the last line was told.
pub fn load_ready<F: Files, E: Sink>(
    alloc: Global,
    kind: FileKind,
    name: &str,
    files: &mut F,
    err: &mut E,
) -> Result<Ready, Status>
    ensures ready { IfOk result (LoadedReady kind (F.texts files.old) name.now) }
    ensures still { OnOk result (IsStill name.now (seen_files F.texts F.asked F.faults files.old) (seen_files F.texts F.asked F.faults files.new) (seen E.held E.pieces E.faults err.old) (seen E.held E.pieces E.faults err.new)) }
    ensures not_ready { IfErr result (NotReady kind name.now (seen_files F.texts F.asked F.faults files.old) (seen_files F.texts F.asked F.faults files.new) (seen E.held E.pieces E.faults err.old) (seen E.held E.pieces E.faults err.new)) }
{
    match kind {
        FileKind::Source => ready_source(alloc, name, files, err),
        FileKind::CodeFile => ready_code(alloc, name, files, err),
    }
}

/// Loads the program of a file and makes it ready to run. At `Err` the last line was told.
fn ready_source<F: Files, E: Sink>(
    alloc: Global,
    name: &str,
    files: &mut F,
    err: &mut E,
) -> Result<Ready, Status>
    ensures ready { IfOk result (LoadedReady FileKind.Source (F.texts files.old) name.now) }
    ensures still { OnOk result (IsStill name.now (seen_files F.texts F.asked F.faults files.old) (seen_files F.texts F.asked F.faults files.new) (seen E.held E.pieces E.faults err.old) (seen E.held E.pieces E.faults err.new)) }
    ensures not_ready { IfErr result (NotLoaded name.now (seen_files F.texts F.asked F.faults files.old) (seen_files F.texts F.asked F.faults files.new) (seen E.held E.pieces E.faults err.old) (seen E.held E.pieces E.faults err.new)) }
{
    let source = match load_program(alloc, name, files, err) {
        Ok(source) => source,
        Err(status) => return Err(status),
    };
    match ready_of_source(alloc, source) {
        Ok(ready) => Ok(ready),
        Err(_) => Err(break_off(err, Fault::NoMemory)),
    }
}

/// Loads a code file and makes its code ready to run. At `Err` the last line was told.
fn ready_code<F: Files, E: Sink>(
    alloc: Global,
    name: &str,
    files: &mut F,
    err: &mut E,
) -> Result<Ready, Status>
    ensures ready { IfOk result (LoadedReady FileKind.CodeFile (F.texts files.old) name.now) }
    ensures still { OnOk result (IsStill name.now (seen_files F.texts F.asked F.faults files.old) (seen_files F.texts F.asked F.faults files.new) (seen E.held E.pieces E.faults err.old) (seen E.held E.pieces E.faults err.new)) }
    ensures not_ready { IfErr result (NotCode name.now (seen_files F.texts F.asked F.faults files.old) (seen_files F.texts F.asked F.faults files.new) (seen E.held E.pieces E.faults err.old) (seen E.held E.pieces E.faults err.new)) }
{
    let bytes = match load_text(alloc, name, MOST_BYTES, files, err) {
        Ok(Some(bytes)) => bytes,
        Ok(None) => return Err(refuse_code(err, Flaw::TooLong)),
        Err(status) => return Err(status),
    };
    let image = match read_image(alloc, &bytes) {
        Ok(image) => image,
        Err(images::Unread::Flawed(flaw)) => return Err(refuse_code(err, flaw)),
        Err(images::Unread::NoMemory) => return Err(break_off(err, Fault::NoMemory)),
    };
    match ready_of_image(alloc, image) {
        Ok(ready) => Ok(ready),
        Err(_) => Err(break_off(err, Fault::NoMemory)),
    }
}

/// Tells why a code file is refused.
fn refuse_code<E: Sink>(err: &mut E, flaw: Flaw) -> Status
    ensures { Tells Status.Refused (flaw_line flaw ++ 10 ∷ []) (seen E.held E.pieces E.faults err.old) (seen E.held E.pieces E.faults err.new) result }
{
    tell(err, flaw_line(flaw), Status::Refused)
}

/// Checks the source in a file: done where it is a program. Otherwise the last line was told.
pub fn check_file<F: Files, E: Sink>(
    alloc: Global,
    name: &str,
    files: &mut F,
    err: &mut E,
) -> Status
    ensures { Checks name.now (seen_files F.texts F.asked F.faults files.old) (seen_files F.texts F.asked F.faults files.new) (seen E.held E.pieces E.faults err.old) (seen E.held E.pieces E.faults err.new) result }
{
    let _source = match load_program(alloc, name, files, err) {
        Ok(source) => source,
        Err(status) => return status,
    };
    Status::Done
}
