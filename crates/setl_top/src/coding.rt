//! The program of a source, and its code.
ghost use Rattle.std.specs.Prelude.{◌≡◌, IfOk};
ghost use Rattle.setl_code.specs.MayRun.{MayRun};
ghost use Rattle.setl_code.specs.Plain.{plain_code};
ghost use Rattle.setl_program.specs.code.Plain.{plain_program};
ghost use Rattle.setl_program.specs.ProgramOf.{program_of};
ghost use Rattle.setl_top.specs.Listings.{IsMarked};
ghost use Rattle.setl_top.specs.code.Runs.{IsMeant};
ghost use Rattle.setl_top_rules.specs.Rules.{AreModes};

use crate::front::Checked;
use setl_code::Code;
use setl_gen::emit;
use setl_live::take_marks;
use setl_program::Program;
use setl_program_elaborate::elaborate;
use std::alloc::{AllocError, Global};

/// The program of a source. The error is want of memory.
pub fn program_of_source(alloc: Global, source: Checked) -> Result<Program, AllocError>
    requires { AreModes source.tree source.modes }
    ensures { IfOk result (λ program. plain_program program ≡ program_of source.tree) }
{
    let Checked { tree, modes } = source;
    elaborate(alloc, &tree, modes)
}

/// The code of the program of an accepted tree, in which the last uses of variables that aren't declared are takes. The
/// error is want of memory.
pub fn code_of_program(alloc: Global, program: &Program) -> Result<Code, AllocError>
    requires { IsMeant (plain_program program.now) }
    ensures may_run { IfOk result MayRun }
    ensures marked { IfOk result (λ code. IsMarked (plain_program program.now) (plain_code code)) }
{
    setl_program_laws::accepted_is_formed();
    setl_code_may_run::code_may_run();
    let code = emit(alloc, program)?;
    take_marks(alloc, code, program.declared.as_slice())
}
