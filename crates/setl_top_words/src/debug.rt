//! The words of a session of the debugger.
ghost use Rattle.std.specs.Prelude.{◌∷◌, ◌++◌, [], codes, map, string_bytes, IfSome, IfNone};
ghost use Rattle.setl_top_words.specs.code.Commands.{command_of};
ghost use Rattle.setl_top_words.specs.Words.{Spells, IsFaulty, IsFile};

use crate::reading::Command;
use crate::single::is_unbased;

/// Reads what stands between the word of a session and its file: nothing, or `--unbased`. `None` comes exactly where it is
/// neither.
pub(crate) fn read_debug<'a>(between: &[String], name: &'a str) -> Option<Command<'a>>
    requires file { IsFile name.now }
    ensures plain { IfSome result (λ command. Spells (codes "debug" ∷ map string_bytes between.now ++ name.now ∷ []) (command_of command)) }
    ensures faulty { IfNone result (IsFaulty (codes "debug" ∷ map string_bytes between.now ++ name.now ∷ [])) }
{
    let Some((option, others)) = between.split_first() else {
        return Some(Command::Debug(true, name));
    };
    if !others.is_empty() || !is_unbased(option.as_str()) {
        return None;
    }
    Some(Command::Debug(false, name))
}
