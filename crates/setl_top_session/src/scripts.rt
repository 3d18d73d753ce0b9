//! The script of a session.
ghost use Rattle.std.specs.Prelude.{◌≡◌, ◌≤◌, ◌^◌, ◌++◌, ◌∷◌, [], length, codes, decimal, IfOk, IfErr, OnOk};
ghost use Rattle.setl_top_status.specs.Seen.{seen};
ghost use Rattle.setl_top_session.specs.Sessions.{IsScript};
ghost use Rattle.setl_top_session.specs.code.Scripts.{NoScript, NotSpelled, TookScript};

use setl_debug_input::{Whole, read_whole};
use setl_debug_script::{Script, ScriptFault, read_script};
use setl_io::{Sink, Source};
use setl_top_status::{Fault, Status, break_off, push_number, tell, tell_made};
use std::alloc::{AllocError, Global};

/// The greatest length of a script.
const MOST_BYTES: usize = 1 << 20;

/// The line that tells which line of a script is the first faulty one. The error is want of memory.
fn faulty_line(alloc: Global, n: u32) -> Result<Vec<u8>, AllocError>
    ensures { IfOk result (λ line. line.items ≡ (codes "script line " ++ decimal n) ++ 10 ∷ []) }
{
    let mut line = Vec::from_slice(alloc, b"script line ")?;
    push_number(&mut line, u64::from(n))?;
    line.push(b'\n')?;
    Ok(line)
}

/// Reads a script from its bytes. At `Err` the last line was told.
fn spelled<E: Sink>(alloc: Global, bytes: &[u8], err: &mut E) -> Result<Script, Status>
    requires { length bytes.now ≤ 2 ^ 20 }
    ensures script { IfOk result (IsScript bytes.now) }
    ensures still { OnOk result (seen E.held E.pieces E.faults err.new ≡ seen E.held E.pieces E.faults err.old) }
    ensures none { IfErr result (NotSpelled bytes.now (seen E.held E.pieces E.faults err.old) (seen E.held E.pieces E.faults err.new)) }
{
    match read_script(alloc, bytes) {
        Ok(script) => Ok(script),
        Err(ScriptFault::Line { n }) => {
            Err(tell_made(err, faulty_line(alloc, n), Status::Refused))
        }
        Err(ScriptFault::NoMemory) => Err(break_off(err, Fault::NoMemory)),
    }
}

/// Reads the script of a session from the input, up to its end. At `Err` the last line was told: that the input has more
/// than 2^20 bytes, which is the first line that is of no form, or what broke it off.
pub fn load_script<I: Source, E: Sink>(
    alloc: Global,
    input: &mut I,
    err: &mut E,
) -> Result<Script, Status>
    ensures script { IfOk result (TookScript (seen I.left I.calls I.faults input.old) (seen I.left I.calls I.faults input.new)) }
    ensures still { OnOk result (seen E.held E.pieces E.faults err.new ≡ seen E.held E.pieces E.faults err.old) }
    ensures none { IfErr result (NoScript (seen I.left I.calls I.faults input.old) (seen I.left I.calls I.faults input.new) (seen E.held E.pieces E.faults err.old) (seen E.held E.pieces E.faults err.new)) }
{
    match read_whole(alloc, input, MOST_BYTES) {
        Whole::Bytes(bytes) => spelled(alloc, &bytes, err),
        Whole::TooLong => Err(tell(err, b"script too long\n", Status::Refused)),
        Whole::Failed => Err(break_off(err, Fault::Read)),
        Whole::NoMemory => Err(break_off(err, Fault::NoMemory)),
    }
}
