//! A script that is followed over the states of a program's run.
ghost use Rattle.std.specs.Prelude.{◌≡◌, IfOk, OnErr};
ghost use Rattle.setl_code.specs.CodeOf.{code_of};
ghost use Rattle.setl_code.specs.MayRun.{MayRun};
ghost use Rattle.setl_code.specs.Plain.{plain_code};
ghost use Rattle.setl_debug.specs.Ends.{Ends};
ghost use Rattle.setl_debug.specs.declared.sessions.Ended.TheVariants as ended;
ghost use Rattle.setl_debug_machine.specs.Runs.{run_of};
ghost use Rattle.setl_machine_control.specs.Declaring.{AreOfMain, IsBare};
ghost use Rattle.setl_program.specs.Formed.{Formed};
ghost use Rattle.setl_program.specs.code.Plain.{plain_program};
ghost use Rattle.setl_top_session.specs.Sessions.{run_in};
ghost use Rattle.setl_top_session.specs.code.Follows.{FollowsScript};
ghost use Rattle.setl_top_status.specs.Seen.{seen};

use setl_code::Code;
use setl_debug::{Ended, session};
use setl_debug_machine::ProgramRun;
use setl_debug_script::Script;
use setl_debug_target::Target;
use setl_io::Sink;
use setl_program::Program;
use setl_top_status::{Fault, Status, break_off};
use std::alloc::{AllocError, Global};

/// The run of a program, whose code this is, that reads the texts of the script's `input` lines. The error is want of
/// memory.
fn run_on_script<'p>(
    alloc: Global,
    program: &'p Program,
    code: &'p Code,
    based: bool,
    bases: u32,
    script: &Script,
) -> Result<ProgramRun<'p>, AllocError>
    requires may_run { MayRun code.now }
    requires bare { IsBare (plain_code code.now) }
    requires main { AreOfMain (plain_program program.now).modes }
    requires formed { Formed (plain_program program.now) }
    requires code { plain_code code.now ≡ code_of (plain_program program.now) }
    ensures { IfOk result (λ r. run_of r ≡ run_in (record { program = plain_program program.now; based = based; script = script.now })) }
{
    let input = script.input(alloc)?;
    ProgramRun::new(alloc, program, code, input, based, bases)
}

/// Follows a script over the states of a run, as `session` does, and lets the run go. Where memory for the run was refused,
/// nothing is added.
fn follow_run<T: Target + Drop, O: Sink>(
    alloc: Global,
    script: &Script,
    run: Result<T, AllocError>,
    out: &mut O,
) -> Ended
    ensures ends { IfOk run (λ r. Ends (T.shows (T.run r)) script.now (O.held out.old) (O.held out.new) (O.faults out.old) (O.faults out.new) result) }
    ensures none { OnErr run ((result ≡ ended.NoMemory) × (seen O.held O.pieces O.faults out.new ≡ seen O.held O.pieces O.faults out.old)) }
{
    let Ok(mut run) = run else {
        return Ended::NoMemory;
    };
    session(alloc, script, &mut run, out)
}

/// Follows a script over the states of the run of a program, whose code this is, where its declarations count or not; they
/// name so many bases. What the script tells is added to the output: all of it at `Done`, and otherwise the fault's line was
/// tried.
pub fn follow<O: Sink, E: Sink>(
    alloc: Global,
    program: &Program,
    code: &Code,
    based: bool,
    bases: u32,
    script: &Script,
    out: &mut O,
    err: &mut E,
) -> Status
    requires may_run { MayRun code.now }
    requires bare { IsBare (plain_code code.now) }
    requires main { AreOfMain (plain_program program.now).modes }
    requires formed { Formed (plain_program program.now) }
    requires code { plain_code code.now ≡ code_of (plain_program program.now) }
    ensures { FollowsScript (record { program = plain_program program.now; based = based; script = script.now }) (seen O.held O.pieces O.faults out.old) (seen O.held O.pieces O.faults out.new) (seen E.held E.pieces E.faults err.old) (seen E.held E.pieces E.faults err.new) result }
{
    let run = run_on_script(alloc, program, code, based, bases, script);
    match follow_run(alloc, script, run, out) {
        Ended::Done => Status::Done,
        Ended::WriteFault => break_off(err, Fault::Write),
        Ended::NoMemory => break_off(err, Fault::NoMemory),
    }
}
