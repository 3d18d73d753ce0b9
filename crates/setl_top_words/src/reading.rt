//! What the words ask for.
ghost use Rattle.std.specs.Prelude.{◌≡◌, ◌≢◌, ◌∷◌, ◌++◌, [], List, ℕ, map, string_bytes, IfSome, IfNone};
ghost use Rattle.setl_top_words.specs.code.Commands.{command_of};
ghost use Rattle.setl_top_words.specs.Words.{Spells, IsFaulty, IsFile, run_word};

use crate::debug::read_debug;
use crate::explain::read_explain;
use crate::given::read_options;
use crate::single::{
    is_advise, is_build, is_check, is_code, is_debug, is_exec, is_explain, is_file, is_run,
    is_trial,
};
use crate::trial::read_trial;
use setl_explain_words::Stop;
use setl_top_options::{Given, Options};

/// What a file holds that is run.
#[derive(Clone, Copy, Debug, PartialEq, Eq)]
pub enum FileKind {
    /// A source, as `run` asks for.
    Source,
    /// Code, as `exec` asks for.
    CodeFile,
}

/// What the words ask for, with the name of the file, with a stop, or with the numbers of a trial.
#[derive(Clone, Copy, Debug, PartialEq, Eq)]
pub enum Command<'a> {
    /// What the file holds is to be run.
    Run(FileKind, Options, &'a str),
    /// The source in the file is to be checked.
    Check(&'a str),
    /// The code of the program of the file is to be listed.
    Code(&'a str),
    /// The code of the program of the file is to be written as a code file.
    Build(&'a str),
    /// Declarations are to be advised for the program of the file.
    Advise(&'a str),
    /// Why the source in the file is refused is to be explained.
    Explain(&'a str),
    /// What a stop means is to be told.
    TellStop(Stop),
    /// A script is to be followed over the states of the program of the file, where its declarations count or not.
    Debug(bool, &'a str),
    /// The program of a trial is to be run on an input that is drawn from a seed below 2^63, with 1 to 2000 nodes.
    Trial(u64, u64),
}

/// The first word, those between, and the last. `None` comes exactly where there are fewer than two words.
fn parts(words: &[String]) -> Option<(&str, &[String], &str)>
    ensures parts { IfSome result (λ p. map string_bytes words.now ≡ p.0.now ∷ map string_bytes p.1.now ++ p.2.now ∷ []) }
    ensures none { IfNone result ((word : List ℕ) (between : List (List ℕ)) (name : List ℕ) → map string_bytes words.now ≢ word ∷ between ++ name ∷ []) }
{
    let (word, rest) = words.split_first()?;
    let (name, between) = rest.split_last()?;
    Some((word.as_str(), between, name.as_str()))
}

/// Reads the words of a run behind the first. `None` comes exactly where they are of no plain form.
fn read_run<'a>(kind: FileKind, between: &[String], name: &'a str) -> Option<Command<'a>>
    requires file { IsFile name.now }
    ensures plain { IfSome result (λ command. Spells (run_word kind ∷ map string_bytes between.now ++ name.now ∷ []) (command_of command)) }
    ensures faulty { IfNone result (IsFaulty (run_word kind ∷ map string_bytes between.now ++ name.now ∷ [])) }
{
    let given = read_options(between, Given::none())?;
    Some(Command::Run(kind, given.options(), name))
}

/// Reads the words, which are those after the program's own name. `None` comes exactly where they are of no plain form.
pub fn read_words(words: &[String]) -> Option<Command<'_>>
    ensures plain { IfSome result (λ command. Spells (map string_bytes words.now) (command_of command)) }
    ensures faulty { IfNone result (IsFaulty (map string_bytes words.now)) }
{
    let (word, between, name) = parts(words)?;
    if is_trial(word) {
        let (seed, nodes) = read_trial(between, name)?;
        return Some(Command::Trial(seed, nodes));
    }
    if is_explain(word) {
        return read_explain(between, name);
    }
    if !is_file(name) {
        return None;
    }
    if is_run(word) {
        return read_run(FileKind::Source, between, name);
    }
    if is_exec(word) {
        return read_run(FileKind::CodeFile, between, name);
    }
    if is_debug(word) {
        return read_debug(between, name);
    }
    if !between.is_empty() {
        return None;
    }
    if is_check(word) {
        Some(Command::Check(name))
    } else if is_code(word) {
        Some(Command::Code(name))
    } else if is_build(word) {
        Some(Command::Build(name))
    } else if is_advise(word) {
        Some(Command::Advise(name))
    } else {
        None
    }
}
