//! Runs of programs and of code files.
ghost use Rattle.std.specs.Prelude.{◌≡◌, ◌<◌, ◌≤◌, ◌^◌, ◌++◌, true, length, map, IfOk, IfSome, OnErr, OnOk};
ghost use Rattle.setl_code.specs.MayRun.{MayRun};
ghost use Rattle.setl_code.specs.Plain.{plain_code};
ghost use Rattle.setl_code_layout.specs.Layout.{NamesWithin};
ghost use Rattle.setl_machine_control.specs.Declaring.{IsBare, AreOfMain};
ghost use Rattle.setl_machine_layout.specs.Claims.{AllNameWithin};
ghost use Rattle.setl_modes.specs.Modes.{mode_of};
ghost use Rattle.setl_program.specs.code.Plain.{plain_declared};
ghost use Rattle.setl_store_layout.specs.Layout.{layout, AreShown};
ghost use Rattle.setl_top.specs.Runnable.{Runnable, declared_by};
ghost use Rattle.setl_top.specs.code.CodeRuns.{is_own, DumpsCode, PutsDump};
ghost use Rattle.setl_top.specs.code.Ready.{IsReady};
ghost use Rattle.setl_top.specs.code.Runs.{Runs, TakesInput, counted, streams};
ghost use Rattle.setl_top_status.specs.Seen.{seen};
ghost use Rattle.setl_watch.specs.Watches.{watched};
ghost use Rattle.setl_top_words.specs.Words.{dumps};
ghost use Rattle.setl_top_words.specs.code.Commands.{options_now};

use crate::ready::Ready;
use setl_code_declared::declared_variables_fit;
use setl_io::{Sink, Source};
use setl_machine::{Control, Declarations, End, run_watched};
use setl_machine_layout::{bases_are_entered, runs_lay_out};
use setl_modes::{Mode, NamedMode};
use setl_program::Declared;
use setl_store::Store;
use setl_store_layout::layout;
use setl_top_words::Options;
use setl_watch::Watcher;
use std::alloc::{AllocError, Global};

/// The declarations that count in a run of this.
pub fn counted(asked: Options, ready: &Ready) -> &[Declared]
    ensures { (r : Runnable) → map plain_declared ready.now.declared ≡ declared_by r → map plain_declared result.now ≡ counted (options_now asked) r }
{
    asked.counted(ready.declared.as_slice())
}

/// Runs what is ready to run from its first step, where these variables are declared, and tells the watchers its events: those
/// that had enough leave, and their reports are added. Where the dump is asked for and the run ended as its program does, the dump
/// is put before the reports; the answer is `NoMemory` where memory was refused for that. The error is want of memory, and then
/// nothing was done.
fn run_code<I: Source, O: Sink>(
    alloc: Global,
    ready: &Ready,
    declared: &[Declared],
    asked: Options,
    input: &mut I,
    out: &mut O,
    watchers: &mut Vec<Box<dyn Watcher>>,
    reports: &mut Vec<u8>,
) -> Result<End, AllocError>
    requires may_run { MayRun ready.now.code }
    requires bare { IsBare (plain_code ready.now.code) }
    requires main { AreOfMain (map plain_declared declared.now) }
    requires turns { asked.turns < 2 ^ 63 }
    ensures ran { IfOk result (DumpsCode (map (λ b. b.name) ready.now.bases) (plain_code ready.now.code) (map plain_declared declared.now) asked.turns (dumps (options_now asked)) (streams (seen I.left I.calls I.faults input.old) (seen O.held O.pieces O.faults out.old) (watched (map (λ w. watch w) watchers.old.items) reports.old.items)) (streams (seen I.left I.calls I.faults input.new) (seen O.held O.pieces O.faults out.new) (watched (map (λ w. watch w) watchers.new.items) reports.new.items))) }
    ensures input { OnErr result (seen I.left I.calls I.faults input.new ≡ seen I.left I.calls I.faults input.old) }
    ensures out { OnErr result (seen O.held O.pieces O.faults out.new ≡ seen O.held O.pieces O.faults out.old) }
{
    declared_variables_fit();
    runs_lay_out();
    bases_are_entered();
    let declarations = Declarations::new(alloc, &ready.code, declared)?;
    let Some(bases) = bases_named(declared) else {
        return Err(AllocError);
    };
    let told = asked.dumps();
    let mut store = Store::start(alloc, &ready.code, bases, told)?;
    let mut control = Control::new(alloc, asked.turns)?;
    let end = run_watched(
        &declarations,
        &mut store,
        &mut control,
        input,
        out,
        watchers,
        reports,
    );
    if !told {
        return Ok(end);
    }
    let names = ready.bases.as_slice();
    Ok(put_dump(alloc, names, declared, &store, end, reports))
}

/// Puts the dump of a store before the reports, where a run ended as its program does. The answer is the end, or `NoMemory` where
/// memory was refused for the dump.
fn put_dump(
    alloc: Global,
    bases: &[NamedMode],
    declared: &[Declared],
    store: &Store<'_>,
    end: End,
    reports: &mut Vec<u8>,
) -> End
    requires { is_own end ≡ true → AreShown (length store.now.bases) (map plain_declared declared.now) }
    ensures { PutsDump (layout (map (λ b. b.name) bases.now) (map plain_declared declared.now) store.now) end reports.old.items reports.new.items result }
{
    if !is_own(end) {
        return end;
    }
    match dump_before(alloc, bases, declared, store, reports) {
        Ok(()) => end,
        Err(_) => End::NoMemory,
    }
}

/// Whether a run ended as its program does.
fn is_own(end: End) -> bool
    ensures { result ≡ is_own end }
{
    match end {
        End::Done | End::Stopped(_, _) | End::Spent => true,
        End::ReadFault | End::WriteFault | End::NoMemory | End::Paused | End::Stuck => false,
    }
}

/// Puts the dump of a store before the reports. The error is want of memory, and then the reports are as before.
fn dump_before(
    alloc: Global,
    bases: &[NamedMode],
    declared: &[Declared],
    store: &Store<'_>,
    reports: &mut Vec<u8>,
) -> Result<(), AllocError>
    requires { AreShown (length store.now.bases) (map plain_declared declared.now) }
    ensures put { OnOk result (reports.new.items ≡ layout (map (λ b. b.name) bases.now) (map plain_declared declared.now) store.now ++ reports.old.items) }
    ensures refused { OnErr result (reports.new.items ≡ reports.old.items) }
{
    let mut text = layout(alloc, bases, declared, store)?;
    text.extend_from_slice(reports)?;
    *reports = text;
    Ok(())
}

/// How many bases there are where these variables are declared: one more than the greatest number of one that is named. `None`
/// comes where that is 2^32.
pub fn bases_named(declared: &[Declared]) -> Option<u32>
    ensures { IfSome result (λ count. AllNameWithin count (map plain_declared declared.now)) }
{
    let mut count = 0;
    for variable in declared {
        count = greater(count, bases_of(&variable.mode)?);
    }
    Some(count)
}

/// The greater of two counts.
fn greater(a: u32, b: u32) -> u32
    ensures first { a ≤ result }
    ensures second { b ≤ result }
{
    if a < b { b } else { a }
}

/// The same of the bases that a mode names.
fn bases_of(mode: &Mode) -> Option<u32>
    ensures { IfSome result (λ count. NamesWithin count (mode_of mode.now)) }
{
    match mode {
        Mode::Elmt(base, _) => base.checked_add(1),
        Mode::Set(_, m) | Mode::Tuple(m) => bases_of(m.get()),
        Mode::Smap(_, d, r) | Mode::Mmap(_, d, r) => {
            Some(bases_of(d.get())?.max(bases_of(r.get())?))
        }
        _ => Some(0),
    }
}

/// Runs what is ready to run, and tells the watchers its events. The error is want of memory, and then nothing was done.
pub fn run_ready<I: Source, O: Sink>(
    alloc: Global,
    ready: &Ready,
    asked: Options,
    input: &mut I,
    out: &mut O,
    watchers: &mut Vec<Box<dyn Watcher>>,
    reports: &mut Vec<u8>,
) -> Result<End, AllocError>
    requires is { (r : Runnable) × IsReady r ready.now }
    requires turns { asked.turns < 2 ^ 63 }
    ensures ran { (r : Runnable) → IsReady r ready.now → IfOk result (Runs r (options_now asked) (streams (seen I.left I.calls I.faults input.old) (seen O.held O.pieces O.faults out.old) (watched (map (λ w. watch w) watchers.old.items) reports.old.items)) (streams (seen I.left I.calls I.faults input.new) (seen O.held O.pieces O.faults out.new) (watched (map (λ w. watch w) watchers.new.items) reports.new.items))) }
    ensures input { (r : Runnable) → IsReady r ready.now → TakesInput r (options_now asked) (streams (seen I.left I.calls I.faults input.old) (seen O.held O.pieces O.faults out.old) (watched (map (λ w. watch w) watchers.old.items) reports.old.items)) (streams (seen I.left I.calls I.faults input.new) (seen O.held O.pieces O.faults out.new) (watched (map (λ w. watch w) watchers.new.items) reports.new.items)) }
    ensures unread { OnErr result (seen I.left I.calls I.faults input.new ≡ seen I.left I.calls I.faults input.old) }
    ensures out { OnErr result (seen O.held O.pieces O.faults out.new ≡ seen O.held O.pieces O.faults out.old) }
{
    setl_program_laws::accepted_is_formed();
    setl_code_marked_simulation::marked_code_means_what_the_program_means();
    setl_code_marked_simulation::marked_code_reaches_the_same_states();
    setl_code_simulation::every_run_ends();
    setl_image_sound::sound_images_run();
    setl_machine::ends_write_nothing();
    setl_code_layout::code_lays_out_what_is_meant();
    run_code(
        alloc,
        ready,
        counted(asked, ready),
        asked,
        input,
        out,
        watchers,
        reports,
    )
}
