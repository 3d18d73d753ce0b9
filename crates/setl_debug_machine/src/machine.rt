//! The machine over an input and an output in memory.

ghost use Rattle.std.specs.Prelude.{◌≡◌, None, IfOk, OnOk};
ghost use Rattle.setl_model_runs.specs.Run.{State};
ghost use Rattle.setl_code.specs.CodeCore.{CodeCore};
ghost use Rattle.setl_machine_control.specs.Declaring.{Serves};
ghost use Rattle.setl_debug_machine.specs.code.Machines.{StandsAt, StepsTo, Writes, stepped_by};

use setl_code_declared::declared_variables_fit;
use setl_code_events::events_are;
use setl_io::{SureSink, SureSource};
use setl_machine::{Control, Declarations, End, step_telling, steps_add};
use setl_store::Store;
use setl_watch::Event;
use std::alloc::AllocError;

/// The machine with what it reads and writes.
#[derive(Drop)]
pub(crate) struct Machine<'p> {
    pub store: Store<'p>,
    pub control: Control,
    pub input: SureSource,
    pub output: SureSink,
}

/// What a step did.
#[derive(Drop)]
pub(crate) enum Stepped {
    /// It went on, and these are its events.
    Went(Vec<Event>),
    /// It ended the run so.
    Ended(End),
}

/// What a step did, by what it told. The error is want of memory.
fn stepped_by(told: Result<Vec<Event>, End>) -> Result<Stepped, AllocError>
    ensures { result ≡ stepped_by told }
{
    match told {
        Ok(events) => Ok(Stepped::Went(events)),
        Err(end) => match end {
            End::Done | End::Stopped(_, _) | End::Spent | End::Stuck => Ok(Stepped::Ended(end)),
            End::Paused | End::ReadFault | End::WriteFault | End::NoMemory => Err(AllocError),
        },
    }
}

/// Does the next step. The error is want of memory.
pub(crate) fn step(
    machine: &mut Machine<'_>,
    declarations: &Declarations<'_>,
) -> Result<Stepped, AllocError>
    requires no_fault { machine.old.control.reader.fault ≡ None }
    requires serves { Serves declarations.now machine.old.store }
    ensures steps { (s : State CodeCore) → StandsAt declarations.now s machine.old → IfOk result (StepsTo declarations.now s machine.new) }
    ensures writes { OnOk result (Writes machine.old.output machine.new.output) }
{
    events_are();
    declared_variables_fit();
    steps_add();
    stepped_by(step_telling(
        declarations,
        &mut machine.store,
        &mut machine.control,
        &mut machine.input,
        &mut machine.output,
    ))
}
