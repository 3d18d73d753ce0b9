//! A walk over the states of a run, with what was counted up to the one at which it stands.

ghost use Rattle.std.specs.Prelude.{◌≡◌, ◌≤◌, ◌-◌, ◌^◌, map, false, IsTrue, IfOk, IfSome, OnOk};
ghost use Rattle.setl_watch.specs.HitCounts as watch;
ghost use Rattle.setl_watch.specs.Profiles as calls;
ghost use Rattle.setl_watch.specs.code.NoticeOf.{notice_of};
ghost use Rattle.setl_debug_machine.specs.Screens.{after_all};
ghost use Rattle.setl_debug_machine.specs.code.Walks.{NothingCounted, IsReady, IsWalk, GoesOn, GoesBeyond, IsAtTurns, stores_by, written_by};

use crate::machine::{Machine, Stepped, step};
use crate::subject::{Subject, started};
use crate::telling::tell_all;
use setl_watch::{Event, Hits, Profile, Watcher};
use std::alloc::{AllocError, Global};

/// The greatest number of turns.
pub(crate) const MOST_TURNS: u64 = (1 << 63) - 1;

/// What was counted up to a state: its turns, the bytes written, the calls, and the stores at a line.
#[derive(Drop)]
pub(crate) struct Tally {
    pub turns: u64,
    pub written: usize,
    pub profile: Profile,
    pub line: u32,
    pub hits: Hits,
}

/// A run with the most turns. The machine is a step ahead of the state at which the walk stands, so that it is known with
/// how many turns a run ends there.
#[derive(Drop)]
pub(crate) struct Walk<'p> {
    pub machine: Machine<'p>,
    /// How many steps led to the state at which the walk stands.
    pub steps: u64,
    /// What was counted up to the state at which the walk stands.
    pub tally: Tally,
    /// What the step ahead did.
    pub ahead: Stepped,
}

/// Where a run stands: after so many turns, with so many stores at a line.
#[derive(Clone, Copy)]
pub(crate) struct Place {
    pub turns: u64,
    pub line: u32,
    pub hits: u64,
}

/// Nothing is counted, and the stores will be at this line. The error is want of memory.
fn nothing_counted(alloc: Global, line: u32) -> Result<Tally, AllocError>
    ensures { IfOk result (NothingCounted line) }
{
    let mut hits = Hits::new();
    hits.aim(line);
    Ok(Tally {
        turns: 0,
        written: 0,
        profile: Profile::new(alloc)?,
        line,
        hits,
    })
}

/// Counts the events of one step. The error is want of memory, and then nothing is known of the tally.
fn count(tally: &mut Tally, events: &[Event]) -> Result<(), AllocError>
    ensures profile { OnOk result (calls.profile tally.new.profile ≡ after_all (calls.profile tally.old.profile) (map notice_of events.now)) }
    ensures hits { OnOk result (watch.hits tally.new.hits.line tally.new.hits.stores ≡ after_all (watch.hits tally.old.hits.line tally.old.hits.stores) (map notice_of events.now)) }
    ensures line { tally.new.line ≡ tally.old.line }
{
    tell_all(&mut tally.profile, events)?;
    tell_all(&mut tally.hits, events)
}

/// How many turns the machine has taken of the most.
fn turns_taken(machine: &Machine<'_>) -> u64
    ensures { result ≡ MOST_TURNS - machine.now.control.turns }
{
    MOST_TURNS.saturating_sub(machine.control.turns())
}

/// A walk at the first state, which counts the stores at this line. The error is want of memory.
fn walk_from_start<'p>(subject: &Subject<'p>, line: u32) -> Result<Walk<'p>, AllocError>
    requires { IsReady subject.now }
    ensures walk { IfOk result (IsWalk subject.now.declarations subject.now.input.items) }
    ensures start { IfOk result (λ w. w.tally.turns ≡ 0) }
    ensures line { IfOk result (λ w. w.tally.line ≡ line) }
{
    let tally = nothing_counted(subject.alloc, line)?;
    let mut machine = started(subject, MOST_TURNS)?;
    let ahead = step(&mut machine, &subject.declarations)?;
    Ok(Walk {
        machine,
        steps: 0,
        tally,
        ahead,
    })
}

/// Whether the walk can go on to the last state with so many turns and count the stores at this line: it counts there, and
/// that state doesn't lie behind it.
fn leads_to(walk: &Walk<'_>, turns: u64, line: u32) -> bool
    ensures within { IsTrue result → walk.now.tally.turns ≤ turns }
    ensures line { IsTrue result → walk.now.tally.line ≡ line }
{
    walk.tally.line == line && walk.tally.turns <= turns
}

/// Whether there is a state ahead, and it has so many turns, or fewer.
fn is_before(walk: &Walk<'_>, turns: u64) -> bool
    ensures some { IsTrue result → GoesOn walk.now.ahead }
    ensures within { IsTrue result → MOST_TURNS - walk.now.machine.control.turns ≤ turns }
    ensures last { result ≡ false → GoesBeyond turns walk.now.machine.control.turns walk.now.ahead }
{
    match &walk.ahead {
        Stepped::Went(_) => turns_taken(&walk.machine) <= turns,
        Stepped::Ended(_) => false,
    }
}

/// Goes on to the state ahead, and does the step behind it. The error is want of memory, and then nothing is known of the
/// walk; a state behind 2^64 - 1 steps is answered so, too.
fn advance<'p>(walk: &mut Walk<'p>, subject: &Subject<'p>) -> Result<(), AllocError>
    requires some { GoesOn walk.old.ahead }
    requires walk { IsWalk subject.now.declarations subject.now.input.items walk.old }
    ensures walk { OnOk result (IsWalk subject.now.declarations subject.now.input.items walk.new) }
    ensures turns { OnOk result (walk.new.tally.turns ≡ MOST_TURNS - walk.old.machine.control.turns) }
    ensures line { walk.new.tally.line ≡ walk.old.tally.line }
{
    if walk.steps == u64::MAX {
        return Err(AllocError);
    }
    match &walk.ahead {
        Stepped::Went(events) => count(&mut walk.tally, events)?,
        Stepped::Ended(_) => unreachable!(),
    }
    walk.steps += 1;
    walk.tally.turns = turns_taken(&walk.machine);
    walk.tally.written = walk.machine.output.held().len();
    walk.ahead = step(&mut walk.machine, &subject.declarations)?;
    Ok(())
}

/// Goes on to the last state with so many turns. The error is want of memory, and then nothing is known of the walk; a
/// walk that isn't there after 2^64 - 1 steps is answered so, too.
fn go_on<'p>(walk: &mut Walk<'p>, subject: &Subject<'p>, turns: u64) -> Result<(), AllocError>
    requires walk { IsWalk subject.now.declarations subject.now.input.items walk.old }
    requires within { walk.old.tally.turns ≤ turns }
    ensures walk { OnOk result (IsWalk subject.now.declarations subject.now.input.items walk.new) }
    ensures at_turns { OnOk result (IsAtTurns turns walk.new) }
    ensures line { walk.new.tally.line ≡ walk.old.tally.line }
{
    for steps in 0..u64::MAX {
        if !is_before(walk, turns) {
            return Ok(());
        }
        advance(walk, subject)?;
    }
    Err(AllocError)
}

/// A walk that can go on to the last state with so many turns: the one that is handed in, or a new one. The error is want
/// of memory.
fn walk_before<'p>(
    subject: &Subject<'p>,
    walk: Option<Walk<'p>>,
    turns: u64,
    line: u32,
) -> Result<Walk<'p>, AllocError>
    requires ready { IsReady subject.now }
    requires walk { IfSome walk (IsWalk subject.now.declarations subject.now.input.items) }
    ensures walk { IfOk result (IsWalk subject.now.declarations subject.now.input.items) }
    ensures within { IfOk result (λ w. w.tally.turns ≤ turns) }
    ensures line { IfOk result (λ w. w.tally.line ≡ line) }
{
    if let Some(walk) = walk {
        if leads_to(&walk, turns, line) {
            return Ok(walk);
        }
    }
    walk_from_start(subject, line)
}

/// A walk at the last state with so many turns, with the stores at this line counted: one that is handed in goes on, where
/// it counts at that line and the state doesn't lie behind it; else one goes there from the start. The error is want of
/// memory.
pub(crate) fn walk_to<'p>(
    subject: &Subject<'p>,
    walk: Option<Walk<'p>>,
    turns: u64,
    line: u32,
) -> Result<Walk<'p>, AllocError>
    requires ready { IsReady subject.now }
    requires walk { IfSome walk (IsWalk subject.now.declarations subject.now.input.items) }
    ensures walk { IfOk result (IsWalk subject.now.declarations subject.now.input.items) }
    ensures at_turns { IfOk result (IsAtTurns turns) }
    ensures line { IfOk result (λ w. w.tally.line ≡ line) }
{
    let mut walk = walk_before(subject, walk, turns, line)?;
    go_on(&mut walk, subject, turns)?;
    Ok(walk)
}

/// What was written up to the state at which the walk stands.
pub(crate) fn written<'a>(walk: &'a Walk<'_>) -> &'a [u8]
    ensures { result.now ≡ written_by walk.now }
{
    let held = walk.machine.output.held();
    &held[..walk.tally.written.min(held.len())]
}

/// Where a walk stands, after so many turns.
pub(crate) fn place_of(walk: &Walk<'_>, turns: u64) -> Place
    ensures { result ≡ record { turns = turns; line = walk.now.tally.line; hits = stores_by walk.now } }
{
    Place {
        turns,
        line: walk.tally.line,
        hits: walk.tally.hits.count(),
    }
}
