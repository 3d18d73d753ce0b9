//! What all instructions share.

ghost use Rattle.std.specs.Prelude.{◌≡◌, suc, IfOk};
ghost use Rattle.setl_store.specs.Standing.{at_place, CanGoOn};
ghost use Rattle.setl_machine_control.specs.Working.{PopsTop, EndsBy};

use crate::end::{End, StopKind};
use setl_operators_table::OpFault;
use setl_store::{Store, Top};
use setl_value::Value;
use std::alloc::AllocError;

/// Goes on at the next step.
#[inline]
pub fn go_on(store: &mut Store<'_>)
    requires { CanGoOn store.old }
    ensures { store.new ≡ record store.old { core = at_place (suc store.old.core.now.at) store.old.core } }
{
    store.go_to(store.at() + 1);
}

/// Takes the top off, if it serves as a value; None where it doesn't, and then all is as before. The error is want of
/// memory.
#[inline(always)]
pub fn pop_top(store: &mut Store<'_>) -> Result<Option<Option<Value>>, AllocError>
    ensures { IfOk result (λ value. PopsTop store.old value store.new) }
{
    match store.top() {
        Top::Nothing | Top::Iterator => Ok(None),
        Top::Collection(_) | Top::Om | Top::Value(_) | Top::Based => Ok(Some(store.pop()?)),
    }
}

/// How a fault of an operator at a line ends the run. The error is want of memory.
pub fn end_by(fault: OpFault, line: u32) -> Result<End, AllocError>
    ensures { IfOk result (λ end. EndsBy fault line end) }
{
    match fault {
        OpFault::Kind => Ok(End::Stopped(StopKind::Kind, line)),
        OpFault::Om => Ok(End::Stopped(StopKind::Om, line)),
        OpFault::Wide => Ok(End::Stopped(StopKind::Wide, line)),
        OpFault::Zero => Ok(End::Stopped(StopKind::Zero, line)),
        OpFault::Range => Ok(End::Stopped(StopKind::Range, line)),
        OpFault::Deep => Ok(End::Stopped(StopKind::Deep, line)),
        OpFault::Spent => Ok(End::Spent),
        OpFault::NoMemory => Err(AllocError),
    }
}
