//! The conditions of a program.

ghost use Rattle.std.specs.Prelude.{◌≡◌, ◌++◌, IfOk, OnOk, map};
ghost use Rattle.setl_program.specs.code.Plain.{plain_procedure, plain_program};
ghost use Rattle.setl_advise_conditions.specs.Parts.{conditions_of, procedures_conditions};
ghost use Rattle.setl_advise_gathering.specs.code.Plain.{listed};

use crate::condition::Condition;
use crate::stmts::block;
use setl_program::{Procedure, Program};
use std::alloc::{AllocError, Global};

/// Those of the bodies of procedures.
fn bodies<'p>(procedures: &'p [Procedure], all: &mut Vec<Condition<'p>>) -> Result<(), AllocError>
    ensures { OnOk result (listed all.new.items ≡ listed all.old.items ++ procedures_conditions (map plain_procedure procedures.now) 1 (map plain_procedure procedures.now)) }
{
    for k in 0..procedures.len() {
        block(procedures, k as u64 + 1, procedures[k].body.as_slice(), all)?;
    }
    Ok(())
}

/// The conditions of a program, in the order of its parts. An error is want of memory.
pub fn gathered<'p>(alloc: Global, p: &'p Program) -> Result<Vec<Condition<'p>>, AllocError>
    ensures { IfOk result (λ all. listed all.items ≡ conditions_of (plain_program p.now)) }
{
    let procedures = p.procedures.as_slice();
    let mut all = Vec::new(alloc);
    block(procedures, 0, p.main.as_slice(), &mut all)?;
    bodies(procedures, &mut all)?;
    Ok(all)
}
