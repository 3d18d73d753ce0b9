//! The end of the run with so many turns.

ghost use Rattle.std.specs.Prelude.{◌<◌, ◌^◌, IfOk, IfSome};
ghost use Rattle.setl_debug_machine.specs.code.Machines.{EndsIn, StandsAfter};
ghost use Rattle.setl_debug_machine.specs.code.Walks.{EndsAhead, GoesOn, IsAtTurns, IsFollower, IsLast, IsReady, IsWalk, most_turns};

use crate::follower::{Ending, Follower, Standing, follower_at};
use crate::machine::{Stepped, step};
use crate::subject::Subject;
use crate::walk::{MOST_TURNS, Walk};
use setl_machine::End;
use std::alloc::AllocError;

/// A follower that has the slots of the last state of a run with so many turns, and how that run ends.
#[derive(Drop)]
pub(crate) struct Last<'p> {
    pub follower: Follower<'p>,
    pub ending: Ending,
}

/// How the run with so many turns ends, where that is known of the follower: it stands at the end of this run, or of one
/// with fewer turns that didn't end for want of them.
fn known_end(follower: &Follower<'_>, subject: &Subject<'_>, turns: u64) -> Option<Ending>
    requires { IsFollower subject.now.declarations subject.now.input.items follower.now }
    ensures { IfSome result (λ ending. EndsIn subject.now.declarations subject.now.input.items turns ending follower.now.machine.store.core) }
{
    setl_code_turns::fewer_turns_cut();
    let _ = subject;
    match follower.standing {
        Standing::After(_) => None,
        Standing::AtEnd(own, ending) => {
            if own == turns {
                return Some(ending);
            }
            if own < turns && !matches!(ending.end, End::Spent) {
                return Some(ending);
            }
            None
        }
    }
}

/// Where the walk stands on the way: its step ahead takes more turns than there are. The error is want of memory.
fn on_the_way<'p>(
    subject: &Subject<'p>,
    walk: &Walk<'p>,
    follower: Option<Follower<'p>>,
    turns: u64,
) -> Result<Last<'p>, AllocError>
    requires ready { IsReady subject.now }
    requires turns { turns < 2 ^ 63 }
    requires walk { IsWalk subject.now.declarations subject.now.input.items walk.now }
    requires there { IsAtTurns turns walk.now }
    requires goes { GoesOn walk.now.ahead }
    requires follower { IfSome follower (IsFollower subject.now.declarations subject.now.input.items) }
    ensures { IfOk result (IsLast subject.now.declarations subject.now.input.items turns) }
{
    setl_code_turns::fewer_turns_cut();
    let follower = follower_at(subject, follower, walk.steps)?;
    let body = follower.machine.store.body();
    Ok(Last {
        follower,
        ending: Ending {
            body,
            end: End::Spent,
        },
    })
}

/// Ends the run with so many turns: a follower at the state where the walk stands does the step behind it with as many turns
/// as that run has left. The error is want of memory.
fn end_run<'p>(
    subject: &Subject<'p>,
    walk: &Walk<'p>,
    follower: Follower<'p>,
    turns: u64,
) -> Result<Last<'p>, AllocError>
    requires ready { IsReady subject.now }
    requires turns { turns < 2 ^ 63 }
    requires walk { IsWalk subject.now.declarations subject.now.input.items walk.now }
    requires there { IsAtTurns turns walk.now }
    requires ends { EndsAhead walk.now.ahead }
    requires stands { StandsAfter subject.now.declarations subject.now.input.items most_turns walk.now.steps follower.machine }
    ensures { IfOk result (IsLast subject.now.declarations subject.now.input.items turns) }
{
    setl_code_turns::fewer_turns_cut();
    setl_machine::ends_change_nothing();
    let mut machine = follower.machine;
    machine.control.charge(MOST_TURNS - turns);
    let body = machine.store.body();
    match step(&mut machine, &subject.declarations)? {
        Stepped::Went(_) => unreachable!(),
        Stepped::Ended(end) => {
            let ending = Ending { body, end };
            let standing = Standing::AtEnd(turns, ending);
            Ok(Last {
                follower: Follower { machine, standing },
                ending,
            })
        }
    }
}

/// Where the walk stands at the end: its step ahead ends the run. The error is want of memory.
fn at_the_end<'p>(
    subject: &Subject<'p>,
    walk: &Walk<'p>,
    follower: Option<Follower<'p>>,
    turns: u64,
) -> Result<Last<'p>, AllocError>
    requires ready { IsReady subject.now }
    requires turns { turns < 2 ^ 63 }
    requires walk { IsWalk subject.now.declarations subject.now.input.items walk.now }
    requires there { IsAtTurns turns walk.now }
    requires ends { EndsAhead walk.now.ahead }
    requires follower { IfSome follower (IsFollower subject.now.declarations subject.now.input.items) }
    ensures { IfOk result (IsLast subject.now.declarations subject.now.input.items turns) }
{
    let known = match &follower {
        Some(follower) => known_end(follower, subject, turns),
        None => None,
    };
    match (follower, known) {
        (Some(follower), Some(ending)) => Ok(Last { follower, ending }),
        (follower, _) => {
            let follower = follower_at(subject, follower, walk.steps)?;
            end_run(subject, walk, follower, turns)
        }
    }
}

/// The last state of the run with so many turns, at which the walk stands. The follower goes there, where one is handed in
/// that stands there or before; else one goes there from the start. The error is want of memory.
pub(crate) fn last_state<'p>(
    subject: &Subject<'p>,
    walk: &Walk<'p>,
    follower: Option<Follower<'p>>,
    turns: u64,
) -> Result<Last<'p>, AllocError>
    requires ready { IsReady subject.now }
    requires turns { turns < 2 ^ 63 }
    requires walk { IsWalk subject.now.declarations subject.now.input.items walk.now }
    requires there { IsAtTurns turns walk.now }
    requires follower { IfSome follower (IsFollower subject.now.declarations subject.now.input.items) }
    ensures { IfOk result (IsLast subject.now.declarations subject.now.input.items turns) }
{
    match &walk.ahead {
        Stepped::Went(_) => on_the_way(subject, walk, follower, turns),
        Stepped::Ended(_) => at_the_end(subject, walk, follower, turns),
    }
}
