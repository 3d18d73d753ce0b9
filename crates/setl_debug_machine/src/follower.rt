//! A machine that follows a walk, and stands at the state itself that is shown.

ghost use Rattle.std.specs.Prelude.{◌≡◌, ◌≤◌, IsTrue, IfOk, IfSome, OnOk};
ghost use Rattle.setl_debug_machine.specs.code.Machines.{StandsAfter};
ghost use Rattle.setl_debug_machine.specs.code.Walks.{GoesSoFar, IsFollower, IsReady, IsStandingBefore, most_turns};
ghost use Rattle.setl_debug_machine.specs.declared.follower.Standing.TheVariants as standing;

use crate::machine::{Machine, Stepped, step};
use crate::subject::{Subject, started};
use crate::walk::MOST_TURNS;
use setl_machine::End;
use std::alloc::AllocError;

/// How a run ended, and the number of the body that was at work there.
#[derive(Clone, Copy)]
pub(crate) struct Ending {
    pub body: u32,
    pub end: End,
}

/// Where a follower stands.
#[derive(Clone, Copy)]
pub(crate) enum Standing {
    /// At the state after so many steps of the run with the most turns.
    After(u64),
    /// At this end of the run with so many turns.
    AtEnd(u64, Ending),
}

/// A machine that isn't a step ahead.
#[derive(Drop)]
pub(crate) struct Follower<'p> {
    pub machine: Machine<'p>,
    pub standing: Standing,
}

/// Does the steps of the run with the most turns from one state to a later one. The error is want of memory.
fn follow(
    machine: &mut Machine<'_>,
    subject: &Subject<'_>,
    from: u64,
    to: u64,
) -> Result<(), AllocError>
    requires order { from ≤ to }
    requires so_far { GoesSoFar subject.now.declarations subject.now.input.items to }
    requires stands { StandsAfter subject.now.declarations subject.now.input.items most_turns from machine.old }
    ensures { OnOk result (StandsAfter subject.now.declarations subject.now.input.items most_turns to machine.new) }
{
    for k in from..to {
        match step(machine, &subject.declarations)? {
            Stepped::Went(_) => {}
            Stepped::Ended(_) => unreachable!(),
        }
    }
    Ok(())
}

/// Whether the follower stands at the state after so many steps, or before it.
fn is_before(follower: &Follower<'_>, steps: u64) -> bool
    ensures { IsTrue result → IsStandingBefore steps follower.now.standing }
{
    match follower.standing {
        Standing::After(n) => n <= steps,
        Standing::AtEnd(_, _) => false,
    }
}

/// A follower that can go on to the state after so many steps: the one that is handed in, or a new one. The error is want
/// of memory.
fn follower_before<'p>(
    subject: &Subject<'p>,
    follower: Option<Follower<'p>>,
    steps: u64,
) -> Result<Follower<'p>, AllocError>
    requires ready { IsReady subject.now }
    requires follower { IfSome follower (IsFollower subject.now.declarations subject.now.input.items) }
    ensures follower { IfOk result (IsFollower subject.now.declarations subject.now.input.items) }
    ensures before { IfOk result (λ f. IsStandingBefore steps f.standing) }
{
    if let Some(follower) = follower {
        if is_before(&follower, steps) {
            return Ok(follower);
        }
    }
    Ok(Follower {
        machine: started(subject, MOST_TURNS)?,
        standing: Standing::After(0),
    })
}

/// A follower at the state after so many steps: one that is handed in goes on, where it stands there or before; else one
/// goes there from the start. The error is want of memory.
pub(crate) fn follower_at<'p>(
    subject: &Subject<'p>,
    follower: Option<Follower<'p>>,
    steps: u64,
) -> Result<Follower<'p>, AllocError>
    requires ready { IsReady subject.now }
    requires so_far { GoesSoFar subject.now.declarations subject.now.input.items steps }
    requires follower { IfSome follower (IsFollower subject.now.declarations subject.now.input.items) }
    ensures stands { IfOk result (λ f. StandsAfter subject.now.declarations subject.now.input.items most_turns steps f.machine) }
    ensures standing { IfOk result (λ f. f.standing ≡ standing.After steps) }
{
    let mut follower = follower_before(subject, follower, steps)?;
    match follower.standing {
        Standing::After(from) => follow(&mut follower.machine, subject, from, steps)?,
        Standing::AtEnd(_, _) => unreachable!(),
    }
    follower.standing = Standing::After(steps);
    Ok(follower)
}
