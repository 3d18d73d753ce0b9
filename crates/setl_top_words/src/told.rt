//! What is told of faulty words.
ghost use Rattle.std.specs.Prelude.{◌≡◌, ◌≢◌, [], IfOk, map, string_bytes};
ghost use Rattle.clap.specs.Words.{kind_of};
ghost use Rattle.clap.specs.declared.error.ErrorKind.TheVariants.{OutOfMemory};
ghost use Rattle.setl_top_words.specs.Told.{TellsFaulty};

use crate::line::commands;
use clap::Error;
use clap::error::ErrorKind;
use std::alloc::{AllocError, Global};

/// What is told of words of no plain form that `clap` takes.
const NOT_PLAIN: &str = "not of the plain form\n";

/// The text that is told of words of no plain form, which are those after the program's own name: that of `clap` where
/// it refuses them, also where they ask for help, and otherwise the line `not of the plain form`. The error is want of
/// memory.
pub fn fault_text(alloc: Global, words: &[String]) -> Result<String, AllocError>
    ensures { IfOk result (λ text. TellsFaulty (map string_bytes words.now) (string_bytes text)) }
{
    let parsed = commands(alloc)?.try_get_matches_from(words);
    match parsed {
        Ok(_matches) => String::from_str(alloc, NOT_PLAIN),
        Err(error) => text_of(alloc, &error),
    }
}

/// The text of an error of `clap`, or the line where that is empty. The error is want of memory, here or in `clap`.
fn text_of(alloc: Global, error: &Error) -> Result<String, AllocError>
    ensures some { IfOk result (λ text. string_bytes text ≢ []) }
    ensures refused { IfOk result (λ text. kind_of error.now ≢ OutOfMemory) }
{
    if error.kind() == ErrorKind::OutOfMemory {
        return Err(AllocError);
    }
    let text = format!(in alloc; "{error}")?;
    if text.is_empty() {
        return String::from_str(alloc, NOT_PLAIN);
    }
    Ok(text)
}
