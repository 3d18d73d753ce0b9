//! Trials: a fixed program on an input that is drawn, with its declarations and without.
ghost use Rattle.std.specs.Prelude.{◌≡◌, ◌≤◌, ◌↔◌, true, ℕ, List, IsTrue, IfOk};
ghost use Rattle.setl_program.specs.Program.{Program};
ghost use Rattle.setl_top.specs.Trials.{trial_source, trial_input, trial_line};
ghost use Rattle.setl_top_status.specs.Seen.{seen};
ghost use Rattle.setl_top_status.specs.code.Writes.{Written};
ghost use Rattle.setl_top.specs.Runnable.{OfProgram};
ghost use Rattle.setl_top.specs.code.Ready.{IsReady};
ghost use Rattle.setl_top.specs.code.Tries.{IsTrial, RunEnds, Tries};

use crate::Status;
use crate::front::{Unread, read_program};
use crate::generated::{trial_input, trial_line, trial_source};
use crate::ready::{Ready, ready_of_source};
use crate::run::run_ready;
use crate::tell::tell_end;
use setl_io::{Sink, SureSink, SureSource};
use setl_machine::End;
use setl_top_status::{Fault, break_off, refuse, write_text};
use setl_top_words::Options;
use std::alloc::{AllocError, Global};

/// The bound on the turns of each run.
const MOST_TURNS: u64 = (1 << 63) - 1;

/// How a run of the program of a trial ended, and what it printed.
#[derive(Drop)]
struct TrialRun {
    end: End,
    printed: SureSink,
}

/// Whether a run was broken off for want of memory.
fn is_starved(end: End) -> bool
    ensures { IsTrue result ↔ (end ≡ End.NoMemory) }
{
    matches!(end, End::NoMemory)
}

/// Whether a run came to its program's end.
fn is_done(end: End) -> bool
    ensures { IsTrue result ↔ (end ≡ End.Done) }
{
    matches!(end, End::Done)
}

/// Runs the program of a trial on its input, with its declarations or without. The error is want of memory.
fn run_on_input(
    alloc: Global,
    ready: &Ready,
    seed: u64,
    nodes: u64,
    based: bool,
) -> Result<TrialRun, AllocError>
    requires trial { IsTrial ready.now }
    requires some { 1 ≤ nodes }
    requires few { nodes ≤ 2000 }
    ensures { IfOk result (λ run. (names : List (List ℕ)) (p : Program) → IsReady (OfProgram names p) ready.now → RunEnds p (trial_input seed nodes) based run.printed run.end) }
{
    let mut input = SureSource::new(trial_input(alloc, seed, nodes)?);
    let mut printed = SureSink::new(alloc)?;
    let mut watchers = Vec::new(alloc);
    let mut reports = Vec::new(alloc);
    let asked = Options {
        turns: MOST_TURNS,
        based,
        dump: false,
        watch: None,
    };
    let end = run_ready(
        alloc,
        ready,
        asked,
        &mut input,
        &mut printed,
        &mut watchers,
        &mut reports,
    )?;
    if is_starved(end) {
        return Err(AllocError);
    }
    Ok(TrialRun { end, printed })
}

/// Runs the program of a trial on its input with its declarations, and again without. The answer is that of the run with
/// them; the other ends in the same way as long as each value fits. The error is want of memory.
fn run_twice(alloc: Global, ready: &Ready, seed: u64, nodes: u64) -> Result<TrialRun, AllocError>
    requires trial { IsTrial ready.now }
    requires some { 1 ≤ nodes }
    requires few { nodes ≤ 2000 }
    ensures { IfOk result (λ run. (names : List (List ℕ)) (p : Program) → IsReady (OfProgram names p) ready.now → RunEnds p (trial_input seed nodes) true run.printed run.end) }
{
    let based = run_on_input(alloc, ready, seed, nodes, true)?;
    let _unbased = run_on_input(alloc, ready, seed, nodes, false)?;
    Ok(based)
}

/// Writes the line of a trial whose program printed this. Where that fails, the fault's line was tried.
fn write_trial<O: Sink, E: Sink>(
    alloc: Global,
    seed: u64,
    nodes: u64,
    printed: &[u8],
    out: &mut O,
    err: &mut E,
) -> Status
    ensures { Written (trial_line seed nodes printed.now) (seen O.held O.pieces O.faults out.old) (seen O.held O.pieces O.faults out.new) (seen E.held E.pieces E.faults err.old) (seen E.held E.pieces E.faults err.new) result }
{
    let Ok(line) = trial_line(alloc, seed, nodes, printed) else {
        return break_off(err, Fault::NoMemory);
    };
    write_text(&line, out, err)
}

/// Tells how a run of the program of a trial ended, in which its declarations counted.
fn tell_trial<O: Sink, E: Sink>(
    alloc: Global,
    ready: &Ready,
    seed: u64,
    nodes: u64,
    run: TrialRun,
    out: &mut O,
    err: &mut E,
) -> Status
    requires trial { IsTrial ready.now }
    requires ran { (names : List (List ℕ)) (p : Program) → IsReady (OfProgram names p) ready.now → RunEnds p (trial_input seed nodes) true run.printed run.end }
    ensures { Tries seed nodes (seen O.held O.pieces O.faults out.old) (seen O.held O.pieces O.faults out.new) (seen E.held E.pieces E.faults err.old) (seen E.held E.pieces E.faults err.new) result }
{
    if is_done(run.end) {
        return write_trial(alloc, seed, nodes, run.printed.held(), out, err);
    }
    let declared = ready.declared.as_slice();
    tell_end(alloc, err, declared, run.end, &[], Vec::new(alloc))
}

/// Runs the program of a trial twice, and tells how the run with its declarations ended.
fn try_program<O: Sink, E: Sink>(
    alloc: Global,
    ready: &Ready,
    seed: u64,
    nodes: u64,
    out: &mut O,
    err: &mut E,
) -> Status
    requires trial { IsTrial ready.now }
    requires some { 1 ≤ nodes }
    requires few { nodes ≤ 2000 }
    ensures { Tries seed nodes (seen O.held O.pieces O.faults out.old) (seen O.held O.pieces O.faults out.new) (seen E.held E.pieces E.faults err.old) (seen E.held E.pieces E.faults err.new) result }
{
    match run_twice(alloc, ready, seed, nodes) {
        Ok(run) => tell_trial(alloc, ready, seed, nodes, run, out, err),
        Err(_) => break_off(err, Fault::NoMemory),
    }
}

/// Makes a trial: runs its program on the input that is drawn from a seed, with so many nodes, and writes the line of what
/// the run with its declarations printed, where that run is done. Otherwise the last line was told.
pub fn run_trial<O: Sink, E: Sink>(
    alloc: Global,
    seed: u64,
    nodes: u64,
    out: &mut O,
    err: &mut E,
) -> Status
    requires some { 1 ≤ nodes }
    requires few { nodes ≤ 2000 }
    ensures { Tries seed nodes (seen O.held O.pieces O.faults out.old) (seen O.held O.pieces O.faults out.new) (seen E.held E.pieces E.faults err.old) (seen E.held E.pieces E.faults err.new) result }
{
    let source = match read_program(alloc, trial_source()) {
        Ok(source) => source,
        Err(Unread::Refused(reason)) => return refuse(alloc, err, reason),
        Err(Unread::NoMemory) => return break_off(err, Fault::NoMemory),
    };
    match ready_of_source(alloc, source) {
        Ok(ready) => try_program(alloc, &ready, seed, nodes, out, err),
        Err(_) => break_off(err, Fault::NoMemory),
    }
}
