//! The words of an explanation.
ghost use Rattle.std.specs.Prelude.{◌∷◌, ◌++◌, [], codes, map, string_bytes, IfSome, IfNone};
ghost use Rattle.setl_top_words.specs.code.Commands.{command_of};
ghost use Rattle.setl_top_words.specs.Words.{Spells, IsFaulty};

use crate::reading::Command;
use crate::single::{is_file, is_stop};
use setl_explain_words::stop_named;

/// Reads what stands behind the word of an explanation, of which the last is apart: a file, or `--stop` and a stop. `None`
/// comes exactly where it is neither.
pub(crate) fn read_explain<'a>(between: &[String], last: &'a str) -> Option<Command<'a>>
    ensures plain { IfSome result (λ command. Spells (codes "explain" ∷ map string_bytes between.now ++ last.now ∷ []) (command_of command)) }
    ensures faulty { IfNone result (IsFaulty (codes "explain" ∷ map string_bytes between.now ++ last.now ∷ [])) }
{
    let Some((option, others)) = between.split_first() else {
        return if is_file(last) {
            Some(Command::Explain(last))
        } else {
            None
        };
    };
    if !others.is_empty() || !is_stop(option.as_str()) {
        return None;
    }
    Some(Command::TellStop(stop_named(last)?))
}
