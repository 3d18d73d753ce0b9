//! The program as one call.
ghost use Rattle.std.specs.Prelude.{◌≡◌, ℕ, ◌<◌, ◌^◌, List, map, string_bytes};
ghost use Rattle.setl_top.specs.Headline.{Headline, InputLeft, CheckLeavesRest, ListingLeavesInput, BuildLeavesInput, AdviceLeavesInput, ExplanationLeavesInput, TrialLeavesFilesAndInput};
ghost use Rattle.setl_top.specs.Outside.{outside};
ghost use Rattle.setl_top.specs.Watching.{asked_for, IsThere};
ghost use Rattle.setl_top_status.specs.Seen.{seen, seen_files};
ghost use Rattle.setl_watch.specs.Watches.{Watch};
ghost use Rattle.setl_top_words.specs.code.Commands.{options_now};
ghost use Rattle.setl_top_words.specs.Words.{Run, Spells};

use crate::Status;
use crate::advising::advise_file;
use crate::building::build_file;
use crate::debugging::debug_file;
use crate::explaining::{explain_file, tell_stop};
use crate::listing::list_file;
use crate::load::{check_file, load_ready};
use crate::run::{counted, run_ready};
use crate::tell::{tell_end, tell_faulty};
use crate::trial::run_trial;
use crate::watching::keep_asked;
use setl_io::{Files, Sink, Source};
use setl_machine::End;
use setl_top_status::tell;
use setl_top_words::{Command, FileKind, Options, read_words};
use setl_watch::Watcher;
use std::alloc::Global;

/// Does what the words of the command line ask for, and tells how that ended.
///
/// `words` are those after the program's own name: `run [--unbased] [--dump] [--turns N] [--watch NAME] FILE`, `exec` with the same
/// options, `check FILE`, `code FILE`, `build FILE`, `advise FILE`, `explain FILE`, `explain --stop NAME`, `debug [--unbased]
/// FILE` or `trial SEED N`. `run` runs the program of a source and `exec` the code of a code file. With `--unbased` its
/// declarations don't count, and N from 0 to 2^63 - 1 bounds its turns, which are 2^63 - 1 otherwise. `--watch trace` asks for
/// the watchers with the name 1, `--watch cover` for those with the name 2 and `--watch profile` for those with the name 3; the
/// others are dropped, and where none has that name the words are refused before the file is read. `files` has the sources and
/// the code files by name, and `input` is what a run reads.
///
/// A build of a file writes to `out` a code file of its program, which `exec` runs as `run` runs the source; one with more
/// than 2^26 bytes is refused. So is a code file with more, one that spells no image, and one whose code isn't sound, in this
/// order, with a line that tells which; such code is never run.
///
/// Advice for a file writes to `out` a `repr` section with which no run of its program ends for a value that doesn't fit. A
/// program that has declarations is refused.
///
/// An explanation of a file writes to `out` the line that a check tells, and below it the place and what it means, and
/// ends refused; of a program it writes nothing. `explain --stop NAME` writes what a stop means.
///
/// A session of the debugger over the program of a file reads `input` up to its end, as a script. One with more than 2^20
/// bytes is refused, and then one with a line that is of no form, with the number of the first. `out` gains what its commands
/// tell, by the states of the program's meaning, on an input that the script has.
///
/// A trial draws an input from SEED, which is from 0 to 2^63 - 1, with N nodes, which are from 1 to 2000, and runs one fixed
/// program on it twice, each time with 2^63 - 1 turns: with its declarations, and without. `out` gains one line with what
/// the run with declarations printed, where that is done, and otherwise nothing; the call ends as that run.
///
/// For `run FILE` and `code FILE`, `out` gains what the program prints, each line at its `print` as one write, or the
/// listing of its code. Where a run ended as its program does, `err` gains first, with `--dump` and without `--unbased`, the
/// dump of its last state: the members of the bases, and what the declared variables hold. It gains then the reports of the
/// watchers, first of those that had enough, in the order in which they had, and then of the others in their order. It gains
/// then the last line of a call that wasn't done, if it has one, or what is told of words that are of no such form. Bytes
/// are taken off the front of `input` only by a session over an accepted program, and by a run that comes to a `read`, and
/// `out` has then gained what the run had printed there. Where a `print` failed, `input` has what the run had left at it,
/// but for bytes that were taken ahead. A check leaves `input` and `out` as they were, however it ends, a listing, a build,
/// advice and an explanation leave `input` as it was, and a trial `files` and `input`.
///
/// Where the words name a file, `files` are asked for it once, and for no other; where they name none, for none. `ReadFault`
/// comes only where this load failed, or a read of `input` at a `read` or in a script, and `WriteFault` only where a write to
/// `out` or `err` failed: one fault was counted then, and nothing is tried again. `NoMemory` is the answer to want of memory
/// and to a count that passes the greatest number that it has room for; no clause says when it comes. After these the error
/// line is tried once, as one piece.
pub fn setl<F: Files, I: Source, O: Sink, E: Sink>(
    alloc: Global,
    words: &[String],
    watchers: Vec<Box<dyn Watcher>>,
    files: &mut F,
    input: &mut I,
    out: &mut O,
    err: &mut E,
) -> Status
    ensures headline { let before = outside (map (λ w. watch w) watchers.items) (seen_files F.texts F.asked F.faults files.old) (seen I.left I.calls I.faults input.old) (seen O.held O.pieces O.faults out.old) (seen E.held E.pieces E.faults err.old) in
        let after = outside (map (λ w. watch w) watchers.items) (seen_files F.texts F.asked F.faults files.new) (seen I.left I.calls I.faults input.new) (seen O.held O.pieces O.faults out.new) (seen E.held E.pieces E.faults err.new) in
        Headline (map string_bytes words.now) before after result }
    ensures input { let before = outside (map (λ w. watch w) watchers.items) (seen_files F.texts F.asked F.faults files.old) (seen I.left I.calls I.faults input.old) (seen O.held O.pieces O.faults out.old) (seen E.held E.pieces E.faults err.old) in
        let after = outside (map (λ w. watch w) watchers.items) (seen_files F.texts F.asked F.faults files.new) (seen I.left I.calls I.faults input.new) (seen O.held O.pieces O.faults out.new) (seen E.held E.pieces E.faults err.new) in
        InputLeft (map string_bytes words.now) before after }
    ensures rest { let before = outside (map (λ w. watch w) watchers.items) (seen_files F.texts F.asked F.faults files.old) (seen I.left I.calls I.faults input.old) (seen O.held O.pieces O.faults out.old) (seen E.held E.pieces E.faults err.old) in
        let after = outside (map (λ w. watch w) watchers.items) (seen_files F.texts F.asked F.faults files.new) (seen I.left I.calls I.faults input.new) (seen O.held O.pieces O.faults out.new) (seen E.held E.pieces E.faults err.new) in
        CheckLeavesRest (map string_bytes words.now) before after }
    ensures listing { let before = outside (map (λ w. watch w) watchers.items) (seen_files F.texts F.asked F.faults files.old) (seen I.left I.calls I.faults input.old) (seen O.held O.pieces O.faults out.old) (seen E.held E.pieces E.faults err.old) in
        let after = outside (map (λ w. watch w) watchers.items) (seen_files F.texts F.asked F.faults files.new) (seen I.left I.calls I.faults input.new) (seen O.held O.pieces O.faults out.new) (seen E.held E.pieces E.faults err.new) in
        ListingLeavesInput (map string_bytes words.now) before after }
    ensures build { let before = outside (map (λ w. watch w) watchers.items) (seen_files F.texts F.asked F.faults files.old) (seen I.left I.calls I.faults input.old) (seen O.held O.pieces O.faults out.old) (seen E.held E.pieces E.faults err.old) in
        let after = outside (map (λ w. watch w) watchers.items) (seen_files F.texts F.asked F.faults files.new) (seen I.left I.calls I.faults input.new) (seen O.held O.pieces O.faults out.new) (seen E.held E.pieces E.faults err.new) in
        BuildLeavesInput (map string_bytes words.now) before after }
    ensures advice { let before = outside (map (λ w. watch w) watchers.items) (seen_files F.texts F.asked F.faults files.old) (seen I.left I.calls I.faults input.old) (seen O.held O.pieces O.faults out.old) (seen E.held E.pieces E.faults err.old) in
        let after = outside (map (λ w. watch w) watchers.items) (seen_files F.texts F.asked F.faults files.new) (seen I.left I.calls I.faults input.new) (seen O.held O.pieces O.faults out.new) (seen E.held E.pieces E.faults err.new) in
        AdviceLeavesInput (map string_bytes words.now) before after }
    ensures explanation { let before = outside (map (λ w. watch w) watchers.items) (seen_files F.texts F.asked F.faults files.old) (seen I.left I.calls I.faults input.old) (seen O.held O.pieces O.faults out.old) (seen E.held E.pieces E.faults err.old) in
        let after = outside (map (λ w. watch w) watchers.items) (seen_files F.texts F.asked F.faults files.new) (seen I.left I.calls I.faults input.new) (seen O.held O.pieces O.faults out.new) (seen E.held E.pieces E.faults err.new) in
        ExplanationLeavesInput (map string_bytes words.now) before after }
    ensures trial { let before = outside (map (λ w. watch w) watchers.items) (seen_files F.texts F.asked F.faults files.old) (seen I.left I.calls I.faults input.old) (seen O.held O.pieces O.faults out.old) (seen E.held E.pieces E.faults err.old) in
        let after = outside (map (λ w. watch w) watchers.items) (seen_files F.texts F.asked F.faults files.new) (seen I.left I.calls I.faults input.new) (seen O.held O.pieces O.faults out.new) (seen E.held E.pieces E.faults err.new) in
        TrialLeavesFilesAndInput (map string_bytes words.now) before after }
{
    setl_top_words::one_command();
    match read_words(words) {
        Some(Command::Run(kind, asked, name)) => {
            run_asked(alloc, kind, asked, name, watchers, files, input, out, err)
        }
        Some(Command::Check(name)) => check_file(alloc, name, files, err),
        Some(Command::Code(name)) => list_file(alloc, name, files, out, err),
        Some(Command::Build(name)) => build_file(alloc, name, files, out, err),
        Some(Command::Advise(name)) => advise_file(alloc, name, files, out, err),
        Some(Command::Explain(name)) => explain_file(alloc, name, files, out, err),
        Some(Command::TellStop(stop)) => tell_stop(stop, out, err),
        Some(Command::Debug(based, name)) => debug_file(alloc, based, name, files, input, out, err),
        Some(Command::Trial(seed, nodes)) => run_trial(alloc, seed, nodes, out, err),
        None => tell_faulty(alloc, words, err),
    }
}

/// Runs what a file holds and tells its events those of the watchers that are asked for.
fn run_asked<F: Files, I: Source, O: Sink, E: Sink>(
    alloc: Global,
    kind: FileKind,
    asked: Options,
    name: &str,
    watchers: Vec<Box<dyn Watcher>>,
    files: &mut F,
    input: &mut I,
    out: &mut O,
    err: &mut E,
) -> Status
    requires { asked.turns < 2 ^ 63 }
    ensures headline { let before = outside (map (λ w. watch w) watchers.items) (seen_files F.texts F.asked F.faults files.old) (seen I.left I.calls I.faults input.old) (seen O.held O.pieces O.faults out.old) (seen E.held E.pieces E.faults err.old) in
        let after = outside (map (λ w. watch w) watchers.items) (seen_files F.texts F.asked F.faults files.new) (seen I.left I.calls I.faults input.new) (seen O.held O.pieces O.faults out.new) (seen E.held E.pieces E.faults err.new) in
        (words : List (List ℕ)) → Spells words (Run kind (options_now asked) name.now) → Headline words before after result }
    ensures input { let before = outside (map (λ w. watch w) watchers.items) (seen_files F.texts F.asked F.faults files.old) (seen I.left I.calls I.faults input.old) (seen O.held O.pieces O.faults out.old) (seen E.held E.pieces E.faults err.old) in
        let after = outside (map (λ w. watch w) watchers.items) (seen_files F.texts F.asked F.faults files.new) (seen I.left I.calls I.faults input.new) (seen O.held O.pieces O.faults out.new) (seen E.held E.pieces E.faults err.new) in
        (words : List (List ℕ)) → Spells words (Run kind (options_now asked) name.now) → InputLeft words before after }
{
    setl_top_words::one_command();
    let mut watchers = watchers;
    if !keep_asked(&mut watchers, asked.watch) {
        return tell(err, b"no such watcher\n", Status::Words);
    }
    run_file(
        alloc,
        kind,
        asked,
        name,
        &mut watchers,
        files,
        input,
        out,
        err,
    )
}

/// Runs what a file holds and tells its events the watchers, which are those that are asked for.
fn run_file<F: Files, I: Source, O: Sink, E: Sink>(
    alloc: Global,
    kind: FileKind,
    asked: Options,
    name: &str,
    watchers: &mut Vec<Box<dyn Watcher>>,
    files: &mut F,
    input: &mut I,
    out: &mut O,
    err: &mut E,
) -> Status
    requires { asked.turns < 2 ^ 63 }
    ensures headline { (words : List (List ℕ)) (handed : List Watch) → let before = outside handed (seen_files F.texts F.asked F.faults files.old) (seen I.left I.calls I.faults input.old) (seen O.held O.pieces O.faults out.old) (seen E.held E.pieces E.faults err.old) in
        let after = outside handed (seen_files F.texts F.asked F.faults files.new) (seen I.left I.calls I.faults input.new) (seen O.held O.pieces O.faults out.new) (seen E.held E.pieces E.faults err.new) in
        Spells words (Run kind (options_now asked) name.now) → IsThere asked.watch handed → map (λ w. watch w) watchers.old.items ≡ asked_for asked.watch handed → Headline words before after result }
    ensures input { (words : List (List ℕ)) (handed : List Watch) → let before = outside handed (seen_files F.texts F.asked F.faults files.old) (seen I.left I.calls I.faults input.old) (seen O.held O.pieces O.faults out.old) (seen E.held E.pieces E.faults err.old) in
        let after = outside handed (seen_files F.texts F.asked F.faults files.new) (seen I.left I.calls I.faults input.new) (seen O.held O.pieces O.faults out.new) (seen E.held E.pieces E.faults err.new) in
        Spells words (Run kind (options_now asked) name.now) → IsThere asked.watch handed → map (λ w. watch w) watchers.old.items ≡ asked_for asked.watch handed → InputLeft words before after }
{
    let ready = match load_ready(alloc, kind, name, files, err) {
        Ok(ready) => ready,
        Err(status) => return status,
    };
    let mut reports = Vec::new(alloc);
    let end = run_ready(alloc, &ready, asked, input, out, watchers, &mut reports).unwrap_or(
        End::NoMemory,
    );
    tell_end(alloc, err, counted(asked, &ready), end, watchers, reports)
}
