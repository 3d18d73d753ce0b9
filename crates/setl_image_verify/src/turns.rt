//! Each way round takes a turn.

ghost use Rattle.std.specs.Prelude.{◌≡◌, ◌<◌, ◌^◌, ℕ, List, length, map, IfOk, MatchOption};
ghost use Rattle.setl_code.specs.Plain.{plain_step, Variables};
ghost use Rattle.setl_image_verify.specs.Turns.{free_way, free_way_of, HeightsFall};

use setl_code::{Instr, Step};
use setl_image_rounds::heights;
use setl_live_reads::Way;
use std::alloc::{AllocError, Global};

/// Heights of steps that fall at each step that takes no turn; or `None` where there are none, which is where some way
/// comes back to the step where it began and takes no turn. The error is want of memory.
pub fn falling_heights(alloc: Global, steps: &[Step]) -> Result<Option<Vec<u32>>, AllocError>
    requires few { length steps.now < 2 ^ 32 }
    ensures { (xs : Variables) → IfOk result (λ found. MatchOption found ((hs : List ℕ) → HeightsFall (map (plain_step xs) steps.now) hs → ⊥) (λ hs. HeightsFall (map (plain_step xs) steps.now) hs.items)) }
{
    let ways = free_ways(alloc, steps)?;
    heights(alloc, &ways)
}

// Where steps lead without a turn.
fn free_ways(alloc: Global, steps: &[Step]) -> Result<Vec<Way>, AllocError>
    ensures { IfOk result (λ ways. ways.items ≡ map free_way_of steps.now) }
{
    let mut ways = Vec::with_capacity(alloc, steps.len())?;
    for step in steps {
        ways.push(free_way(&step.what))?;
    }
    Ok(ways)
}

// Where an instruction leads without a turn.
fn free_way(what: &Instr) -> Way
    ensures { result ≡ free_way what.now }
{
    match what {
        Instr::Decide(_, to) | Instr::Unless(to) => Way::Either(*to),
        Instr::Next(to) | Instr::Jump(to) => Way::To(*to),
        Instr::NewAtom
        | Instr::Round
        | Instr::Call(_)
        | Instr::Return
        | Instr::Back
        | Instr::Stop => Way::Nowhere,
        _ => Way::On,
    }
}
