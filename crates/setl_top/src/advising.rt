//! Advice for programs without declarations.
ghost use Rattle.std.specs.Prelude.{◌≡◌, ◌≤◌, ◌^◌, [], length, IfOk};
ghost use Rattle.setl_top.specs.Accepted.{IsProgram};
ghost use Rattle.setl_top_advice.specs.Advised.{IsAdvised, first_line};
ghost use Rattle.setl_top.specs.code.Advises.{Advises, AdvisesText, WritesAdvice};
ghost use Rattle.setl_top_status.specs.Seen.{seen, seen_files};

use crate::Status;
use crate::front::{Unread, read_program};
use setl_io::{Files, Sink};
use setl_top_advice::{advice, first_line, has_repr};
use setl_top_status::{Fault, break_off, load_source, refuse, tell_made, write_text};
use setl_tree::Tree;
use std::alloc::{AllocError, Global};

/// The advice for a source without declarations. The error is want of memory.
fn advised(alloc: Global, source: &[u8], tree: &Tree) -> Result<Vec<u8>, AllocError>
    requires program { IsProgram source.now tree.now }
    requires bare { tree.now.modes ≡ [] }
    ensures { IfOk result (λ text. IsAdvised source.now tree.now text.items) }
{
    advice(alloc, source, tree)
}

/// Writes the advice for a source without declarations. Where that fails, the fault's line was tried.
fn write_advice<O: Sink, E: Sink>(
    alloc: Global,
    source: &[u8],
    tree: &Tree,
    out: &mut O,
    err: &mut E,
) -> Status
    requires program { IsProgram source.now tree.now }
    requires bare { tree.now.modes ≡ [] }
    ensures { WritesAdvice source.now tree.now (seen O.held O.pieces O.faults out.old) (seen O.held O.pieces O.faults out.new) (seen E.held E.pieces E.faults err.old) (seen E.held E.pieces E.faults err.new) result }
{
    let Ok(text) = advised(alloc, source, tree) else {
        return break_off(err, Fault::NoMemory);
    };
    write_text(&text, out, err)
}

/// The line of the source on which the first declaration of a program stands; `None` where it has none.
fn first_declaration(tree: &Tree) -> Option<u32>
    ensures { result ≡ first_line tree.now.modes }
{
    first_line(tree.modes.as_slice())
}

/// Advises declarations for a program: done where it has none. Otherwise the last line was told.
fn advise_program<O: Sink, E: Sink>(
    alloc: Global,
    source: &[u8],
    tree: &Tree,
    out: &mut O,
    err: &mut E,
) -> Status
    requires { IsProgram source.now tree.now }
    ensures { AdvisesText source.now (seen O.held O.pieces O.faults out.old) (seen O.held O.pieces O.faults out.new) (seen E.held E.pieces E.faults err.old) (seen E.held E.pieces E.faults err.new) result }
{
    match first_declaration(tree) {
        Some(line) => tell_made(err, has_repr(alloc, line), Status::Refused),
        None => write_advice(alloc, source, tree, out, err),
    }
}

/// Advises declarations for a source: done where it is a program that has none. Otherwise the last line was told.
fn advise_text<O: Sink, E: Sink>(alloc: Global, source: &[u8], out: &mut O, err: &mut E) -> Status
    requires { length source.now ≤ 2 ^ 24 }
    ensures { AdvisesText source.now (seen O.held O.pieces O.faults out.old) (seen O.held O.pieces O.faults out.new) (seen E.held E.pieces E.faults err.old) (seen E.held E.pieces E.faults err.new) result }
{
    match read_program(alloc, source) {
        Ok(checked) => advise_program(alloc, source, &checked.tree, out, err),
        Err(Unread::Refused(reason)) => refuse(alloc, err, reason),
        Err(Unread::NoMemory) => break_off(err, Fault::NoMemory),
    }
}

/// Advises declarations for the source in a file: done where it is a program that has none. Otherwise the last line was told.
pub fn advise_file<F: Files, O: Sink, E: Sink>(
    alloc: Global,
    name: &str,
    files: &mut F,
    out: &mut O,
    err: &mut E,
) -> Status
    ensures { Advises name.now (seen_files F.texts F.asked F.faults files.old) (seen_files F.texts F.asked F.faults files.new) (seen O.held O.pieces O.faults out.old) (seen O.held O.pieces O.faults out.new) (seen E.held E.pieces E.faults err.old) (seen E.held E.pieces E.faults err.new) result }
{
    match load_source(alloc, name, files, err) {
        Ok(source) => advise_text(alloc, &source, out, err),
        Err(status) => status,
    }
}
