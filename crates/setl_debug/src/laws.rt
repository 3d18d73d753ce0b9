//! A law of sessions.

ghost use Rattle.std.specs.Prelude.{◌≡◌, ◌≤◌, ◌+◌, ◌∷◌, [], List, ℕ};
ghost use Rattle.setl_debug.specs.Sessions.{Follows, most_turns};
ghost use Rattle.setl_debug_script.specs.declared.command.Command.TheVariants as command;

use setl_debug_target::Target;

/// Has no effect: it hands a proof the law that `back N` undoes `on N`, which tell nothing, where `on` doesn't meet the
/// greatest number of turns.
pub fn back_undoes_on<T: Target>(target: &T)
    ensures { (k n next : ℕ) (told : List ℕ) → k + n ≤ most_turns → Follows (T.shows (T.run target.now)) (command.On n ∷ command.Back n ∷ []) k told next → (told ≡ []) × (next ≡ k) }
{
    let _ = target;
}
