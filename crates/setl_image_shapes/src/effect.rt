//! What steps do with operands.

ghost use Rattle.std.specs.Prelude.{◌≡◌, ◌<◌, [], ◌∷◌, get_or, length, IfOk};
ghost use Rattle.setl_code.specs.Shapes.{AResult, lead, next_outs, without_results};
ghost use Rattle.setl_image_shapes.specs.declared.effect.Effect.TheVariants.{Results, Puts, Calls, Begins, Adds, Leaves};
ghost use Rattle.setl_image_shapes.specs.Effects.{Led, leads};

use crate::stacks::{Kind, Stacks};
use std::alloc::AllocError;

/// What a step does with the operands, and where it leads.
#[derive(Clone, Copy)]
pub enum Effect {
    /// Pops so many results, pushes so many, and goes on.
    Results(u32, u32),
    /// Pops so many results and one more, and goes on.
    Puts(u32),
    /// Pops so many results, pushes one and so many more, and goes on.
    Calls(u32, u32),
    /// Pops so many results, pushes one of a kind, and goes on.
    Begins(u32, Kind),
    /// Goes to a step.
    Jumps(u32),
    /// Pops a result, and goes on or to a step.
    Tests(u32),
    /// Pops a result and goes on, or goes to a step and leaves a result.
    Decides(u32),
    /// Pushes what the iterator on top gives and goes on, or drops it and goes to a step.
    Next(u32),
    /// Pops a result, which goes to the collection below so many iterators, and goes on.
    Adds(u32),
    /// Drops so many iterators, and goes on.
    Leaves(u32),
    /// Pops so many results, and leads nowhere.
    Ends(u32),
    /// Lacks something in any case.
    Lacks,
}

/// A step, and the number of the stack with which it is reached.
#[derive(Clone, Copy)]
pub struct Place {
    pub step: usize,
    pub stack: usize,
}

/// Where a step leads.
#[derive(Clone, Copy)]
pub enum Ways {
    Nowhere,
    One(Place),
    Two(Place, Place),
}

/// Where a step leads from a stack, if it lacks nothing; `at` is the next step. The error is want of memory.
pub fn leads(
    stacks: &mut Stacks,
    effect: Effect,
    at: usize,
    number: usize,
) -> Result<Option<Ways>, AllocError>
    requires { number < length stacks.old }
    ensures { IfOk result (λ found. Led stacks.old stacks.new found (leads effect at (get_or stacks.old number []))) }
{
    match effect {
        Effect::Results(popped, pushed) => results(stacks, popped, pushed, at, number),
        Effect::Puts(selectors) => put(stacks, selectors, at, number),
        Effect::Calls(popped, back) => call(stacks, popped, back, at, number),
        Effect::Begins(popped, kind) => begin(stacks, popped, kind, at, number),
        Effect::Jumps(to) => Ok(Some(Ways::One(Place {
            step: to as usize,
            stack: number,
        }))),
        Effect::Tests(to) => test(stacks, to as usize, at, number),
        Effect::Decides(to) => decide(stacks, to as usize, at, number),
        Effect::Next(to) => next(stacks, to as usize, at, number),
        Effect::Adds(levels) => add(stacks, levels, at, number),
        Effect::Leaves(levels) => leave(stacks, levels, at, number),
        Effect::Ends(popped) => end(stacks, popped, number),
        Effect::Lacks => Ok(None),
    }
}

// Pops so many results, and pushes so many.
fn results(
    stacks: &mut Stacks,
    popped: u32,
    pushed: u32,
    at: usize,
    number: usize,
) -> Result<Option<Ways>, AllocError>
    requires { number < length stacks.old }
    ensures { IfOk result (λ found. Led stacks.old stacks.new found (leads (Results popped pushed) at (get_or stacks.old number []))) }
{
    let Some(rest) = stacks.without(false, popped, number)? else {
        return Ok(None);
    };
    let whole = stacks.push(Kind::Value, pushed, rest)?;
    Ok(Some(Ways::One(Place {
        step: at,
        stack: whole,
    })))
}

// Pops so many results and one more.
fn put(
    stacks: &mut Stacks,
    selectors: u32,
    at: usize,
    number: usize,
) -> Result<Option<Ways>, AllocError>
    requires { number < length stacks.old }
    ensures { IfOk result (λ found. Led stacks.old stacks.new found (leads (Puts selectors) at (get_or stacks.old number []))) }
{
    let Some(rest) = stacks.without(false, selectors, number)? else {
        return Ok(None);
    };
    let Some(below) = stacks.without(false, 1, rest)? else {
        return Ok(None);
    };
    Ok(Some(Ways::One(Place {
        step: at,
        stack: below,
    })))
}

// Pops so many results, and pushes one and so many more.
fn call(
    stacks: &mut Stacks,
    popped: u32,
    back: u32,
    at: usize,
    number: usize,
) -> Result<Option<Ways>, AllocError>
    requires { number < length stacks.old }
    ensures { IfOk result (λ found. Led stacks.old stacks.new found (leads (Calls popped back) at (get_or stacks.old number []))) }
{
    let Some(rest) = stacks.without(false, popped, number)? else {
        return Ok(None);
    };
    let below = stacks.push(Kind::Value, back, rest)?;
    let whole = stacks.push(Kind::Value, 1, below)?;
    Ok(Some(Ways::One(Place {
        step: at,
        stack: whole,
    })))
}

// Pops so many results, and pushes one of a kind.
fn begin(
    stacks: &mut Stacks,
    popped: u32,
    kind: Kind,
    at: usize,
    number: usize,
) -> Result<Option<Ways>, AllocError>
    requires { number < length stacks.old }
    ensures { IfOk result (λ found. Led stacks.old stacks.new found (leads (Begins popped kind) at (get_or stacks.old number []))) }
{
    let Some(rest) = stacks.without(false, popped, number)? else {
        return Ok(None);
    };
    let whole = stacks.push(kind, 1, rest)?;
    Ok(Some(Ways::One(Place {
        step: at,
        stack: whole,
    })))
}

// Pops a result, and goes on or to a step.
fn test(
    stacks: &mut Stacks,
    to: usize,
    at: usize,
    number: usize,
) -> Result<Option<Ways>, AllocError>
    requires { number < length stacks.old }
    ensures { IfOk result (λ found. Led stacks.old stacks.new found (lead (without_results 1 (get_or stacks.old number [])) (λ t. (at, t) ∷ (to, t) ∷ []))) }
{
    let Some(rest) = stacks.without(false, 1, number)? else {
        return Ok(None);
    };
    let next = Place {
        step: at,
        stack: rest,
    };
    let other = Place {
        step: to,
        stack: rest,
    };
    Ok(Some(Ways::Two(next, other)))
}

// Pops a result and goes on, or goes to a step with a result.
fn decide(
    stacks: &mut Stacks,
    to: usize,
    at: usize,
    number: usize,
) -> Result<Option<Ways>, AllocError>
    requires { number < length stacks.old }
    ensures { IfOk result (λ found. Led stacks.old stacks.new found (lead (without_results 1 (get_or stacks.old number [])) (λ t. (at, t) ∷ (to, AResult ∷ t) ∷ []))) }
{
    let Some(rest) = stacks.without(false, 1, number)? else {
        return Ok(None);
    };
    let whole = stacks.push(Kind::Value, 1, rest)?;
    let next = Place {
        step: at,
        stack: rest,
    };
    let other = Place {
        step: to,
        stack: whole,
    };
    Ok(Some(Ways::Two(next, other)))
}

// Pushes what the iterator on top gives and goes on, or drops it and goes to a step.
fn next(
    stacks: &mut Stacks,
    to: usize,
    at: usize,
    number: usize,
) -> Result<Option<Ways>, AllocError>
    requires { number < length stacks.old }
    ensures { IfOk result (λ found. Led stacks.old stacks.new found (next_outs at to (get_or stacks.old number []))) }
{
    let Some(top) = stacks.top(number) else {
        return Ok(None);
    };
    let given = match top.kind {
        Kind::Value | Kind::Collection => return Ok(None),
        Kind::Iterator => 1,
        Kind::PairIterator => 2,
    };
    let rest = stacks.push(top.kind, top.count - 1, top.below)?;
    let whole = stacks.push(Kind::Value, given, number)?;
    let next = Place {
        step: at,
        stack: whole,
    };
    let other = Place {
        step: to,
        stack: rest,
    };
    Ok(Some(Ways::Two(next, other)))
}

// Pops a result, where a collection stands below so many iterators.
fn add(
    stacks: &mut Stacks,
    levels: u32,
    at: usize,
    number: usize,
) -> Result<Option<Ways>, AllocError>
    requires { number < length stacks.old }
    ensures { IfOk result (λ found. Led stacks.old stacks.new found (leads (Adds levels) at (get_or stacks.old number []))) }
{
    let Some(rest) = stacks.without(false, 1, number)? else {
        return Ok(None);
    };
    let Some(below) = stacks.without(true, levels, rest)? else {
        return Ok(None);
    };
    if !stacks.is_collection(below) {
        return Ok(None);
    }
    Ok(Some(Ways::One(Place {
        step: at,
        stack: rest,
    })))
}

// Drops so many iterators.
fn leave(
    stacks: &mut Stacks,
    levels: u32,
    at: usize,
    number: usize,
) -> Result<Option<Ways>, AllocError>
    requires { number < length stacks.old }
    ensures { IfOk result (λ found. Led stacks.old stacks.new found (leads (Leaves levels) at (get_or stacks.old number []))) }
{
    let Some(rest) = stacks.without(true, levels, number)? else {
        return Ok(None);
    };
    Ok(Some(Ways::One(Place {
        step: at,
        stack: rest,
    })))
}

// Pops so many results.
fn end(stacks: &mut Stacks, popped: u32, number: usize) -> Result<Option<Ways>, AllocError>
    requires { number < length stacks.old }
    ensures { IfOk result (λ found. Led stacks.old stacks.new found (lead (without_results popped (get_or stacks.old number [])) (λ t. []))) }
{
    let Some(_) = stacks.without(false, popped, number)? else {
        return Ok(None);
    };
    Ok(Some(Ways::Nowhere))
}
