//! Listings of programs.
ghost use Rattle.std.specs.Prelude.{IfOk};
ghost use Rattle.setl_program_laws.specs.Claims.{IsAccepted};
ghost use Rattle.setl_top.specs.Listings.{IsListing};
ghost use Rattle.setl_top_status.specs.Seen.{seen, seen_files};
ghost use Rattle.setl_top.specs.code.Lists.{WritesListing, Lists};
ghost use Rattle.setl_top_rules.specs.Rules.{AreModes};

use crate::Status;
use crate::coding::{code_of_program, program_of_source};
use crate::front::Checked;
use crate::load::load_program;
use setl_code_listing::listing;
use setl_io::{Files, Sink};
use setl_top_status::{Fault, break_off, write_text};
use std::alloc::{AllocError, Global};

/// The listing of the code of the program of a source. The error is want of memory.
fn listed(alloc: Global, source: Checked) -> Result<Vec<u8>, AllocError>
    requires modes { AreModes source.tree source.modes }
    requires accepted { IsAccepted source.tree }
    ensures { IfOk result (λ text. IsListing source.tree text.items) }
{
    let program = program_of_source(alloc, source)?;
    let code = code_of_program(alloc, &program)?;
    listing(alloc, &code)
}

/// Writes the listing of the code of the program of a source. Where that fails, the fault's line was tried.
fn write_listing<O: Sink, E: Sink>(
    alloc: Global,
    source: Checked,
    out: &mut O,
    err: &mut E,
) -> Status
    requires modes { AreModes source.tree source.modes }
    requires accepted { IsAccepted source.tree }
    ensures { WritesListing source.tree (seen O.held O.pieces O.faults out.old) (seen O.held O.pieces O.faults out.new) (seen E.held E.pieces E.faults err.old) (seen E.held E.pieces E.faults err.new) result }
{
    setl_code_marked::each_code_has_one_marked_code();
    let Ok(text) = listed(alloc, source) else {
        return break_off(err, Fault::NoMemory);
    };
    write_text(&text, out, err)
}

/// Writes the listing of the code of the program of a file: done where the source is a program. Otherwise the last line was told.
pub fn list_file<F: Files, O: Sink, E: Sink>(
    alloc: Global,
    name: &str,
    files: &mut F,
    out: &mut O,
    err: &mut E,
) -> Status
    ensures { Lists name.now (seen_files F.texts F.asked F.faults files.old) (seen_files F.texts F.asked F.faults files.new) (seen O.held O.pieces O.faults out.old) (seen O.held O.pieces O.faults out.new) (seen E.held E.pieces E.faults err.old) (seen E.held E.pieces E.faults err.new) result }
{
    let source = match load_program(alloc, name, files, err) {
        Ok(source) => source,
        Err(status) => return status,
    };
    write_listing(alloc, source, out, err)
}
