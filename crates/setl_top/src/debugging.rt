//! Sessions of the debugger over the programs of sources.
ghost use Rattle.std.specs.Prelude.{◌≡◌, IfOk};
ghost use Rattle.setl_code.specs.CodeOf.{code_of};
ghost use Rattle.setl_code.specs.Plain.{plain_code};
ghost use Rattle.setl_program.specs.ProgramOf.{program_of};
ghost use Rattle.setl_program.specs.code.Plain.{plain_program};
ghost use Rattle.setl_program_laws.specs.Claims.{IsAccepted};
ghost use Rattle.setl_top.specs.code.Debugs.{Debugs, session_of};
ghost use Rattle.setl_top_rules.specs.Rules.{AreModes};
ghost use Rattle.setl_top_session.specs.code.Follows.{FollowsScript};
ghost use Rattle.setl_top_status.specs.Seen.{seen, seen_files};

use crate::Status;
use crate::coding::program_of_source;
use crate::front::Checked;
use crate::load::load_program;
use crate::run::bases_named;
use setl_code::Code;
use setl_debug_script::Script;
use setl_gen::emit;
use setl_io::{Files, Sink, Source};
use setl_program::Program;
use setl_top_session::{follow, load_script};
use setl_top_status::{Fault, break_off};
use std::alloc::{AllocError, Global};

/// The program of a source, and its code as it was generated, in which no use of a variable takes its value away.
#[derive(Drop)]
struct Coded {
    program: Program,
    code: Code,
}

/// The program of a source with its code. The error is want of memory.
fn code_of_source(alloc: Global, source: Checked) -> Result<Coded, AllocError>
    requires { AreModes source.tree source.modes }
    ensures program { IfOk result (λ coded. plain_program coded.program ≡ program_of source.tree) }
    ensures code { IfOk result (λ coded. plain_code coded.code ≡ code_of (plain_program coded.program)) }
{
    let program = program_of_source(alloc, source)?;
    let code = emit(alloc, &program)?;
    Ok(Coded { program, code })
}

/// Follows a script over the states of the program of a source, where its declarations count or not. Where that fails, the
/// fault's line was tried.
fn follow_source<O: Sink, E: Sink>(
    alloc: Global,
    source: Checked,
    based: bool,
    script: &Script,
    out: &mut O,
    err: &mut E,
) -> Status
    requires modes { AreModes source.tree source.modes }
    requires accepted { IsAccepted source.tree }
    ensures { FollowsScript (session_of source.tree based script.now) (seen O.held O.pieces O.faults out.old) (seen O.held O.pieces O.faults out.new) (seen E.held E.pieces E.faults err.old) (seen E.held E.pieces E.faults err.new) result }
{
    setl_program_laws::accepted_is_formed();
    setl_code_may_run::code_may_run();
    let Ok(coded) = code_of_source(alloc, source) else {
        return break_off(err, Fault::NoMemory);
    };
    let Some(bases) = bases_named(coded.program.declared.as_slice()) else {
        return break_off(err, Fault::NoMemory);
    };
    follow(
        alloc,
        &coded.program,
        &coded.code,
        based,
        bases,
        script,
        out,
        err,
    )
}

/// Follows the script that the input has over the states of the program of a file: done where the source is a program and
/// the input a script. Otherwise the last line was told.
pub fn debug_file<F: Files, I: Source, O: Sink, E: Sink>(
    alloc: Global,
    based: bool,
    name: &str,
    files: &mut F,
    input: &mut I,
    out: &mut O,
    err: &mut E,
) -> Status
    ensures { Debugs based name.now (seen_files F.texts F.asked F.faults files.old) (seen_files F.texts F.asked F.faults files.new) (seen I.left I.calls I.faults input.old) (seen I.left I.calls I.faults input.new) (seen O.held O.pieces O.faults out.old) (seen O.held O.pieces O.faults out.new) (seen E.held E.pieces E.faults err.old) (seen E.held E.pieces E.faults err.new) result }
{
    let source = match load_program(alloc, name, files, err) {
        Ok(source) => source,
        Err(status) => return status,
    };
    let script = match load_script(alloc, input, err) {
        Ok(script) => script,
        Err(status) => return status,
    };
    follow_source(alloc, source, based, &script, out, err)
}
