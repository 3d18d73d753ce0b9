//! Code files of programs.
ghost use Rattle.std.specs.Prelude.{IfOk, MatchOption};
ghost use Rattle.setl_program_laws.specs.Claims.{IsAccepted};
ghost use Rattle.setl_top.specs.Built.{IsBuilt, IsLongCode};
ghost use Rattle.setl_top.specs.code.Builds.{WritesCode, Builds};
ghost use Rattle.setl_top_rules.specs.Rules.{AreModes};
ghost use Rattle.setl_top_status.specs.Seen.{seen, seen_files};

use crate::Status;
use crate::coding::{code_of_program, program_of_source};
use crate::front::Checked;
use crate::load::load_program;
use setl_image::Image;
use setl_io::{Files, Sink};
use setl_modes_declarations::mode_table;
use setl_top_images::{Flaw, flaw_line, image_text};
use setl_top_status::{Fault, break_off, tell, write_text};
use std::alloc::{AllocError, Global};

/// The bytes of the code file of the program of a source, or none where they would be too many. The error is want of memory,
/// or that the code is none that a code file may have.
fn built(alloc: Global, source: Checked) -> Result<Option<Vec<u8>>, AllocError>
    requires modes { AreModes source.tree source.modes }
    requires accepted { IsAccepted source.tree }
    ensures { IfOk result (λ text. MatchOption text (IsLongCode source.tree) (λ bytes. IsBuilt source.tree bytes.items)) }
{
    let modes = mode_table(alloc, source.tree.modes.as_slice())?;
    let program = program_of_source(alloc, source)?;
    let code = code_of_program(alloc, &program)?;
    image_text(alloc, &Image { code, modes })
}

/// Writes the code file of the program of a source, or tells that it is too long. Where that fails, the fault's line was
/// tried.
fn write_code_file<O: Sink, E: Sink>(
    alloc: Global,
    source: Checked,
    out: &mut O,
    err: &mut E,
) -> Status
    requires modes { AreModes source.tree source.modes }
    requires accepted { IsAccepted source.tree }
    ensures { WritesCode source.tree (seen O.held O.pieces O.faults out.old) (seen O.held O.pieces O.faults out.new) (seen E.held E.pieces E.faults err.old) (seen E.held E.pieces E.faults err.new) result }
{
    match built(alloc, source) {
        Ok(Some(bytes)) => write_text(&bytes, out, err),
        Ok(None) => tell(err, flaw_line(Flaw::TooLong), Status::Refused),
        Err(_) => break_off(err, Fault::NoMemory),
    }
}

/// Writes the code file of the program of a file: done where the source is a program whose code file isn't too long.
/// Otherwise the last line was told.
pub fn build_file<F: Files, O: Sink, E: Sink>(
    alloc: Global,
    name: &str,
    files: &mut F,
    out: &mut O,
    err: &mut E,
) -> Status
    ensures { Builds name.now (seen_files F.texts F.asked F.faults files.old) (seen_files F.texts F.asked F.faults files.new) (seen O.held O.pieces O.faults out.old) (seen O.held O.pieces O.faults out.new) (seen E.held E.pieces E.faults err.old) (seen E.held E.pieces E.faults err.new) result }
{
    let source = match load_program(alloc, name, files, err) {
        Ok(source) => source,
        Err(status) => return status,
    };
    write_code_file(alloc, source, out, err)
}
