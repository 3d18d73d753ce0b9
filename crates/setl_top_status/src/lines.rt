//! The line of what breaks a call off.
ghost use Rattle.std.specs.Prelude.{◌≤◌};
ghost use Rattle.setl_top_status.specs.Seen.{seen};
ghost use Rattle.setl_top_status.specs.code.Tells.{BreaksOff};

use crate::{Fault, Status};
use setl_io::{Sink, write_all};

/// Breaks a call off: tries the line of what broke it off, once, and gives its status.
pub fn break_off<E: Sink>(err: &mut E, fault: Fault) -> Status
    ensures tried { BreaksOff fault (seen E.held E.pieces E.faults err.old) (seen E.held E.pieces E.faults err.new) result }
    ensures later { E.faults err.old ≤ E.faults err.new }
{
    let _ = write_all(err, fault.line());
    fault.status()
}
