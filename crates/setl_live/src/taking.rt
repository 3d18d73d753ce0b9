//! Whether takes are last uses.

ghost use Rattle.std.specs.Prelude.{◌≡◌, ◌+◌, ℕ, List, get_or, length, IfOk, true, false};
ghost use Rattle.setl_model_runs.specs.Variable.{Variable};
ghost use Rattle.setl_code.specs.MayRun.{StepsFit};
ghost use Rattle.setl_live.specs.Takes.{TellsTakes, is_right, AreRight, WrongTake};

use crate::marking::{are_few, is_true, refused_of};
use crate::nodes::{handed_back, nodes_of};
use setl_code::{Body, Instr, Slot, Step};
use setl_live_reads::last_reads;
use std::alloc::{AllocError, Global as Allocator};

/// Whether an instruction takes a slot only where that isn't refused and isn't read later.
fn is_right(what: &Instr, last: bool, refused: &[bool]) -> bool
    ensures { result ≡ is_right last refused.now what.now }
{
    match what {
        Instr::Take(Slot::Own(k)) => last && !is_true(refused, *k as usize),
        Instr::Take(Slot::Global(_)) => false,
        _ => true,
    }
}

/// The same of all steps.
fn are_right(steps: &[Step], marks: &[bool], refused: &[bool]) -> bool
    ensures right { result ≡ true → AreRight marks.now refused.now steps.now }
    ensures wrong { result ≡ false → WrongTake marks.now refused.now steps.now }
{
    'steps: for at in 0..steps.len() {
        if !is_right(&steps[at].what, is_true(marks, at), refused) {
            return false;
        }
    }
    true
}

/// Whether each `take` of a body is a last use: of a variable of the body that isn't declared, which no path from the next
/// step reads before a write of it. `n` is the body's number, and `table` tells which own slots of the main program, the
/// body 0, are declared.
///
/// The error is want of memory. It is also the answer where a body has 2^32 steps or more, or 2^31 parameters or names.
pub fn takes_are_last(
    alloc: Allocator,
    n: usize,
    body: &Body,
    table: &[bool],
) -> Result<bool, AllocError>
    requires fits { (g : ℕ) × StepsFit g (length body.now.parameters + length body.now.names) body.now.steps }
    ensures { (declared : List Variable) (vars : List (List ℕ)) → IfOk result (λ so. TellsTakes so declared vars n body.now table.now) }
{
    if !are_few(body.steps.len(), body.parameters.len(), body.names.len()) {
        return Err(AllocError);
    }
    let nodes = nodes_of(alloc, body.steps.as_slice())?;
    let back = handed_back(alloc, body.parameters.as_slice())?;
    let slots = (body.parameters.len() + body.names.len()) as u32;
    let marks = last_reads(alloc, &nodes, &back, slots)?;
    Ok(are_right(body.steps.as_slice(), &marks, refused_of(table, n)))
}
