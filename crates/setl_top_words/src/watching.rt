//! The words by which watchers are asked for.
ghost use Rattle.std.specs.Prelude.{◌≡◌, ◌≢◌, IfSome, IfNone};
ghost use Rattle.setl_top_options.specs.declared.watching.Asked.{Asked};
ghost use Rattle.setl_top_words.specs.Words.{watcher_word};

use crate::single::{is_cover, is_profile, is_trace};
use setl_top_options::Asked;

/// The watcher that a word asks for. `None` comes exactly where it asks for none.
pub(crate) fn read_watcher(word: &str) -> Option<Asked>
    ensures asked { IfSome result (λ asked. word.now ≡ watcher_word asked) }
    ensures none { IfNone result ((asked : Asked) → word.now ≢ watcher_word asked) }
{
    if is_trace(word) {
        Some(Asked::Trace)
    } else if is_cover(word) {
        Some(Asked::Cover)
    } else if is_profile(word) {
        Some(Asked::Profile)
    } else {
        None
    }
}
