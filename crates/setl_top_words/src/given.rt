//! The options of a run.
ghost use Rattle.std.specs.Prelude.{◌≡◌, ◌≢◌, ◌<◌, ◌∷◌, [], ◌++◌, List, ℕ, length, map, string_bytes, IfSome, IfNone};
ghost use Rattle.setl_top_options.specs.declared.given.RunOption.{RunOption};
ghost use Rattle.setl_top_words.specs.Words.{IsInRange, option_words};
ghost use Rattle.setl_top_words.specs.code.Reading.{Leads, LeadsNowhere};

use crate::number::read_number;
use crate::single::{is_dump, is_turns, is_unbased, is_watch};
use crate::watching::read_watcher;
use setl_top_options::{Given, RunOption};

/// Reads the option that the words begin with, and gives the words behind it. `None` comes exactly where they begin with
/// none.
fn read_option(words: &[String]) -> Option<(RunOption, &[String])>
    ensures option { IfSome result (λ read. map string_bytes words.now ≡ option_words read.0 ++ map string_bytes read.1.now) }
    ensures in_range { IfSome result (λ read. IsInRange read.0) }
    ensures shorter { IfSome result (λ read. length read.1.now < length words.now) }
    ensures none { IfNone result ((option : RunOption) (rest : List (List ℕ)) → IsInRange option → map string_bytes words.now ≡ option_words option ++ rest → ⊥) }
{
    let (word, rest) = words.split_first()?;
    if is_unbased(word.as_str()) {
        return Some((RunOption::Unbased, rest));
    }
    if is_dump(word.as_str()) {
        return Some((RunOption::Dump, rest));
    }
    let (value, rest) = rest.split_first()?;
    let option = read_valued(word.as_str(), value.as_str())?;
    Some((option, rest))
}

/// The option that a word and its value are. `None` comes exactly where they are none.
fn read_valued(word: &str, value: &str) -> Option<RunOption>
    ensures option { IfSome result (λ option. word.now ∷ value.now ∷ [] ≡ option_words option) }
    ensures in_range { IfSome result (λ option. IsInRange option) }
    ensures none { IfNone result ((option : RunOption) → IsInRange option → word.now ∷ value.now ∷ [] ≢ option_words option) }
{
    if is_turns(word) {
        Some(RunOption::Turns(read_number(value)?))
    } else if is_watch(word) {
        Some(RunOption::Watch(read_watcher(value)?))
    } else {
        None
    }
}

/// Reads the options that the words are, beside those that were given before. `None` comes exactly where the words
/// aren't options, or an option is of a kind that was given before. There is a level for each kind of option at most.
pub(crate) fn read_options(words: &[String], given: Given) -> Option<Given>
    ensures read { IfSome result (Leads given (map string_bytes words.now)) }
    ensures none { IfNone result (LeadsNowhere given (map string_bytes words.now)) }
{
    if words.is_empty() {
        return Some(given);
    }
    let (option, rest) = read_option(words)?;
    let given = given.with(option)?;
    read_options(rest, given)
}
