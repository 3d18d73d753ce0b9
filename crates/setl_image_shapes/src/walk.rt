//! The walk over the steps.

ghost use Rattle.std.specs.Prelude.{◌≡◌, ◌<◌, ◌^◌, [], ◌∷◌, ◌++◌, get_or, length, replicate, None, IfOk, OnOk};
ghost use Rattle.setl_image_shapes.specs.Effects.{AreWays, outs_of};
ghost use Rattle.setl_image_shapes.specs.Tables.{AreThere, Came, Changed, Going, GoesOn, HasTable, table_of};

use crate::effect::{Effect, Place, Ways, leads};
use crate::stacks::Stacks;
use std::alloc::{AllocError, Global};

/// The number of the stack found for each step that is reached, and the steps from which the walk has to go on.
#[derive(Drop)]
pub struct Walk {
    pub stacks: Stacks,
    pub found: Vec<Option<usize>>,
    pub pending: Vec<usize>,
}

/// Whether there is a table of shapes that each step keeps. The error is want of memory.
///
/// A step is looked at once more each time that its shape becomes weaker, which it does once at most for each collection
/// that its shape says.
pub fn has_table(alloc: Global, effects: &[Effect]) -> Result<bool, AllocError>
    requires few { length effects.now < 2 ^ 32 }
    ensures { IfOk result (λ so. HasTable so effects.now) }
{
    let mut walk = Walk {
        stacks: Stacks::new(alloc),
        found: nothing_found(alloc, effects.len())?,
        pending: Vec::new(alloc),
    };
    let start = Place { step: 0, stack: 0 };
    if !arrive(alloc, &mut walk, start)? {
        return Ok(false);
    }
    'steps: while let Some(at) = walk.pending.pop() {
        if !step(alloc, &mut walk, effects, at)? {
            return Ok(false);
        }
    }
    Ok(true)
}

// No stack for any of so many steps. The error is want of memory.
fn nothing_found(alloc: Global, count: usize) -> Result<Vec<Option<usize>>, AllocError>
    ensures { IfOk result (λ found. found.items ≡ replicate count None) }
{
    let mut found = Vec::with_capacity(alloc, count)?;
    'steps: while found.len() < count {
        found.push(None)?;
    }
    Ok(found)
}

// One step of the walk, from this step. False where there is no table.
fn step(alloc: Global, walk: &mut Walk, effects: &[Effect], at: usize) -> Result<bool, AllocError>
    requires few { length effects.now < 2 ^ 32 }
    requires there { AreThere walk.old.stacks walk.old.found.items }
    requires going { Going effects.now (table_of walk.old.stacks walk.old.found.items) (walk.old.pending.items ++ at ∷ []) }
    ensures { IfOk result (λ so. GoesOn so effects.now walk.old walk.new) }
{
    let Some(number) = walk.found[at] else {
        return Ok(true);
    };
    match leads(&mut walk.stacks, effects[at], at + 1, number)? {
        None => Ok(false),
        Some(ways) => arrive_all(alloc, walk, ways),
    }
}

// Arrives where a step leads. False where no table says so.
fn arrive_all(alloc: Global, walk: &mut Walk, ways: Ways) -> Result<bool, AllocError>
    requires there { AreThere walk.old.stacks walk.old.found.items }
    requires stacks { AreWays walk.old.stacks ways }
    ensures { IfOk result (λ so. Came so walk.old (outs_of walk.old.stacks ways) walk.new) }
{
    match ways {
        Ways::Nowhere => Ok(true),
        Ways::One(place) => arrive(alloc, walk, place),
        Ways::Two(place, other) => {
            if !arrive(alloc, walk, place)? {
                return Ok(false);
            }
            arrive(alloc, walk, other)
        }
    }
}

// Arrives at a step with a stack. False where no table says so.
fn arrive(alloc: Global, walk: &mut Walk, place: Place) -> Result<bool, AllocError>
    requires there { AreThere walk.old.stacks walk.old.found.items }
    requires stack { place.stack < length walk.old.stacks }
    ensures { IfOk result (λ so. Came so walk.old ((place.step, get_or walk.old.stacks place.stack []) ∷ []) walk.new) }
{
    if place.step >= walk.found.len() {
        return Ok(false);
    }
    let Some(known) = walk.found[place.step] else {
        change(walk, place.step, place.stack)?;
        return Ok(true);
    };
    if walk.stacks.serves(place.stack, known)? {
        return Ok(true);
    }
    let Some(both) = walk.stacks.join(alloc, known, place.stack)? else {
        return Ok(false);
    };
    change(walk, place.step, both)?;
    Ok(true)
}

// Notes the stack of a step, from which the walk has to go on then.
fn change(walk: &mut Walk, to: usize, number: usize) -> Result<(), AllocError>
    requires { to < length walk.old.found.items }
    ensures { OnOk result (Changed walk.old to number walk.new) }
{
    walk.pending.push(to)?;
    walk.found[to] = Some(number);
    Ok(())
}
