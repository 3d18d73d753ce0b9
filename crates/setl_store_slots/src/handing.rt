//! What a return hands back.

ghost use Rattle.std.specs.Prelude.{◌≡◌, ◌≤◌, ◌+◌, Some, length, drop, map, IfOk};
ghost use Rattle.std.specs.Option.{option_map};
ghost use Rattle.setl_value.specs.code.DatumOf.{part};
ghost use Rattle.setl_store_slots.specs.Handed.{and_held, and_handed, handed, Adds};
ghost use Rattle.setl_store_slots.specs.Slots.{AreStanding, IsStanding};

use crate::cells::{Held, content};
use setl_rep_bases::Bases;
use setl_store_environment::Environment;
use setl_tree::{Param, Passing};
use setl_value::Value;
use std::alloc::{AllocError, Global};

/// The result of a body, and behind it what its `wr` and `rw` parameters hold, the first one last; or None where one of
/// these was taken. The parameters have the slots from `lowest` on, and the forms of what these hold stand over the bases.
///
/// The error is want of memory.
pub fn handed_back<O: Drop, A: Drop, M: Drop, F: Drop, K: Drop>(
    alloc: Global,
    parameters: &[Param],
    environment: &Environment<Held, O, A, M, F, K>,
    bases: &Bases,
    lowest: usize,
    value: Option<Value>,
) -> Result<Option<Vec<Option<Value>>>, AllocError>
    requires slots { lowest + length parameters.now ≤ length environment.now.now.slots }
    requires standing { AreStanding bases.now environment.now.now.slots }
    ensures { IfOk result (λ all. handed bases.now parameters.now (drop lowest environment.now.now.slots) (part value) ≡ option_map (λ values. map part values.items) all) }
{
    let mut all = Vec::new(alloc);
    all.push(value)?;
    let _slots = environment.slots();
    let count = parameters.len();
    for i in 0..count {
        let at = count - 1 - i;
        if !add_handed(
            alloc,
            parameters[at].passing,
            environment.slot(lowest + at),
            bases,
            &mut all,
        )? {
            return Ok(None);
        }
    }
    Ok(Some(all))
}

// Adds what a parameter's slot holds, where it is handed back. Its answer is false where that was taken.
fn add_handed(
    alloc: Global,
    passing: Passing,
    slot: &Held,
    bases: &Bases,
    all: &mut Vec<Option<Value>>,
) -> Result<bool, AllocError>
    requires { IsStanding bases.now slot.now }
    ensures { IfOk result (λ done. Adds (and_handed bases.now passing slot.now (Some (map part all.old.items))) done (map part all.new.items)) }
{
    match passing {
        Passing::Rd => Ok(true),
        Passing::Wr | Passing::Rw => add_held(alloc, slot, bases, all),
    }
}

// Adds what a slot holds. Its answer is false where that was taken.
fn add_held(
    alloc: Global,
    slot: &Held,
    bases: &Bases,
    all: &mut Vec<Option<Value>>,
) -> Result<bool, AllocError>
    requires { IsStanding bases.now slot.now }
    ensures { IfOk result (λ done. Adds (and_held bases.now slot.now (Some (map part all.old.items))) done (map part all.new.items)) }
{
    let Some(value) = content(alloc, slot, bases)? else {
        return Ok(false);
    };
    all.push(value)?;
    Ok(true)
}
