//! What is looked at.

ghost use Rattle.std.specs.Prelude.{◌≡◌, ◌<◌, ◌^◌, [], map, if◌then◌else◌, IfOk};
ghost use Rattle.setl_code.specs.CodeMeans.{code_first};
ghost use Rattle.setl_code.specs.Plain.{plain_code};
ghost use Rattle.setl_program.specs.code.Plain.{plain_declared};
ghost use Rattle.setl_debug_machine.specs.code.Machines.{StandsAt};
ghost use Rattle.setl_debug_machine.specs.code.Walks.{IsReady};

use crate::machine::Machine;
use setl_code::Code;
use setl_code_declared::declared_variables_fit;
use setl_io::{SureSink, SureSource};
use setl_machine::{Control, Declarations};
use setl_program::{Declared, Program};
use setl_store::Store;
use std::alloc::{AllocError, Global};

/// A program with its code and an input, and whether its declarations count.
#[derive(Drop)]
pub(crate) struct Subject<'p> {
    pub alloc: Global,
    pub program: &'p Program,
    pub code: &'p Code,
    pub input: Vec<u8>,
    pub based: bool,
    pub bases: u32,
    pub declarations: Declarations<'p>,
}

/// The declarations of a program that count.
pub(crate) fn counted(program: &Program, based: bool) -> &[Declared]
    ensures { map plain_declared result.now ≡ (if based then map plain_declared program.now.declared else []) }
{
    if based {
        program.declared.as_slice()
    } else {
        &[]
    }
}

/// The machine at the first state of the run, with so many turns. The error is want of memory.
pub(crate) fn started<'p>(subject: &Subject<'p>, turns: u64) -> Result<Machine<'p>, AllocError>
    requires ready { IsReady subject.now }
    requires turns { turns < 2 ^ 63 }
    ensures { IfOk result (StandsAt subject.now.declarations (code_first (plain_code subject.now.declarations.code) subject.now.input.items turns)) }
{
    declared_variables_fit();
    let alloc = subject.alloc;
    let store = Store::start(alloc, subject.code, subject.bases, false)?;
    let control = Control::new(alloc, turns)?;
    let input = SureSource::new(subject.input.to_vec(alloc)?);
    let output = SureSink::new(alloc)?;
    Ok(Machine {
        store,
        control,
        input,
        output,
    })
}
