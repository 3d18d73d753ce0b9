//! What is shown of a state.

ghost use Rattle.std.specs.Prelude.{◌<◌, ◌^◌, IfOk, IfSome, IsSome, OnOk};
ghost use Rattle.setl_debug_machine.specs.code.Machines.{EndsIn};
ghost use Rattle.setl_debug_machine.specs.code.Walks.{AddsPart, IsAtTurns, IsFollower, IsReady, IsWalk, StandsThere, run_by};

use crate::body::name_of_body;
use crate::ending::last_state;
use crate::follower::{Ending, Follower};
use crate::seeing::walk_seeing;
use crate::subject::{Subject, counted};
use crate::walk::{Place, Walk};
use setl_debug_screen::{push_place, push_variables, slots_show_the_state};
use setl_store::Store;
use std::alloc::AllocError;

/// Adds where the program is after so many turns, and what its variables hold, where the run with so many turns ends so and
/// the store has the slots of its last state. The error is want of memory, and some may have been added then.
fn push_slots(
    subject: &Subject<'_>,
    store: &Store<'_>,
    ending: Ending,
    turns: u64,
    into: &mut Vec<u8>,
) -> Result<(), AllocError>
    requires ready { IsReady subject.now }
    requires ends { EndsIn subject.now.declarations subject.now.input.items turns ending store.now.core }
    ensures { OnOk result (AddsPart (run_by subject.now) turns (λ s. s.shown) into.old.items into.new.items) }
{
    setl_code_simulation::code_means_what_the_program_means();
    setl_code_simulation::code_ends_in_the_same_state();
    slots_show_the_state();
    let alloc = subject.alloc;
    let name = name_of_body(subject.code, ending.body);
    let declared = counted(subject.program, subject.based);
    push_place(alloc, turns, name, declared, ending.end, into)?;
    push_variables(alloc, store, into)
}

/// Adds where the program is after so many turns, and what its variables hold, where the walk stands at the last state with
/// so many turns. Gives the follower, which went there. The error is want of memory, and some may have been added then.
fn push_state<'p>(
    subject: &Subject<'p>,
    walk: &Walk<'p>,
    follower: Option<Follower<'p>>,
    turns: u64,
    into: &mut Vec<u8>,
) -> Result<Follower<'p>, AllocError>
    requires ready { IsReady subject.now }
    requires turns { turns < 2 ^ 63 }
    requires walk { IsWalk subject.now.declarations subject.now.input.items walk.now }
    requires there { IsAtTurns turns walk.now }
    requires follower { IfSome follower (IsFollower subject.now.declarations subject.now.input.items) }
    ensures follower { IfOk result (IsFollower subject.now.declarations subject.now.input.items) }
    ensures shown { OnOk result (AddsPart (run_by subject.now) turns (λ s. s.shown) into.old.items into.new.items) }
{
    let last = last_state(subject, walk, follower, turns)?;
    push_slots(
        subject,
        &last.follower.machine.store,
        last.ending,
        turns,
        into,
    )?;
    Ok(last.follower)
}

/// The same, with the follower in its place. The error is want of memory; then there is none, and some may have been added.
fn push_followed<'p>(
    subject: &Subject<'p>,
    walk: &Walk<'p>,
    follower: &mut Option<Follower<'p>>,
    turns: u64,
    into: &mut Vec<u8>,
) -> Result<(), AllocError>
    requires ready { IsReady subject.now }
    requires turns { turns < 2 ^ 63 }
    requires walk { IsWalk subject.now.declarations subject.now.input.items walk.now }
    requires there { IsAtTurns turns walk.now }
    requires follower { IfSome follower.old (IsFollower subject.now.declarations subject.now.input.items) }
    ensures follower { IfSome follower.new (IsFollower subject.now.declarations subject.now.input.items) }
    ensures shown { OnOk result (AddsPart (run_by subject.now) turns (λ s. s.shown) into.old.items into.new.items) }
{
    let held = follower.take();
    *follower = Some(push_state(subject, walk, held, turns, into)?);
    Ok(())
}

/// Goes on to the state at a place. The error is want of memory, and then there is no walk.
fn stand_at<'p>(
    subject: &Subject<'p>,
    walk: &mut Option<Walk<'p>>,
    place: Place,
) -> Result<(), AllocError>
    requires ready { IsReady subject.now }
    requires few { place.turns < 2 ^ 63 }
    requires walk { IfSome walk.old (IsWalk subject.now.declarations subject.now.input.items) }
    ensures walk { IfSome walk.new (IsWalk subject.now.declarations subject.now.input.items) }
    ensures there { StandsThere (run_by subject.now) walk.new place }
    ensures some { OnOk result (IsSome walk.new) }
    ensures at_turns { IfSome walk.new (IsAtTurns place.turns) }
{
    let held = walk.take();
    *walk = Some(walk_seeing(subject, held, place.turns, place.line)?);
    Ok(())
}

/// Adds where the program is at a place, and what its variables hold. The walk and the follower go there. The error is want of
/// memory, and some may have been added then.
pub(crate) fn push_shown<'p>(
    subject: &Subject<'p>,
    walk: &mut Option<Walk<'p>>,
    follower: &mut Option<Follower<'p>>,
    place: Place,
    into: &mut Vec<u8>,
) -> Result<(), AllocError>
    requires ready { IsReady subject.now }
    requires few { place.turns < 2 ^ 63 }
    requires walk { IfSome walk.old (IsWalk subject.now.declarations subject.now.input.items) }
    requires follower { IfSome follower.old (IsFollower subject.now.declarations subject.now.input.items) }
    ensures walk { IfSome walk.new (IsWalk subject.now.declarations subject.now.input.items) }
    ensures there { StandsThere (run_by subject.now) walk.new place }
    ensures follower { IfSome follower.new (IsFollower subject.now.declarations subject.now.input.items) }
    ensures shown { OnOk result (AddsPart (run_by subject.now) place.turns (λ s. s.shown) into.old.items into.new.items) }
{
    stand_at(subject, walk, place)?;
    match &*walk {
        Some(walk) => push_followed(subject, walk, follower, place.turns, into),
        None => unreachable!(),
    }
}
