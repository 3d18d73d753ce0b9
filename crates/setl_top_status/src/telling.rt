//! The last line of a call.
ghost use Rattle.std.specs.Prelude.{◌≡◌, ◌∷◌, ◌++◌, List, ℕ, [], IfOk};
ghost use Rattle.setl_top_status.specs.Reasons.{reason_line};
ghost use Rattle.setl_top_status.specs.Seen.{seen};
ghost use Rattle.setl_top_status.specs.code.Tells.{Tells};

use crate::lines::break_off;
use crate::reason::{Reason, reason_line};
use crate::{Fault, Status};
use setl_io::{Sink, WriteFault, write_all};
use std::alloc::{AllocError, Global};

/// Writes the last line of an end. Where that fails, the fault's line was tried.
pub fn tell<E: Sink>(err: &mut E, line: &[u8], status: Status) -> Status
    ensures told { Tells status line.now (seen E.held E.pieces E.faults err.old) (seen E.held E.pieces E.faults err.new) result }
{
    match write_all(err, line) {
        Ok(()) => status,
        Err(WriteFault::Failed) => break_off(err, Fault::Write),
        Err(WriteFault::NoMemory) => break_off(err, Fault::NoMemory),
    }
}

/// Writes the last line of an end, for which memory may have been refused.
pub fn tell_made<E: Sink>(err: &mut E, line: Result<Vec<u8>, AllocError>, status: Status) -> Status
    ensures told { (bytes : List ℕ) → IfOk line (λ l. l.items ≡ bytes) → Tells status bytes (seen E.held E.pieces E.faults err.old) (seen E.held E.pieces E.faults err.new) result }
{
    match line {
        Ok(line) => tell(err, &line, status),
        Err(_) => break_off(err, Fault::NoMemory),
    }
}

/// Tells why a source is refused.
pub fn refuse<E: Sink>(alloc: Global, err: &mut E, reason: Reason) -> Status
    ensures told { Tells Status.Refused (reason_line reason ++ 10 ∷ []) (seen E.held E.pieces E.faults err.old) (seen E.held E.pieces E.faults err.new) result }
{
    tell_made(err, reason_line(alloc, reason), Status::Refused)
}
