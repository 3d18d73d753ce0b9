//! Targets.

ghost use Rattle.std.specs.Prelude.{◌≡◌, ◌≤◌, ◌<◌, ◌^◌, ◌++◌, ℕ, Option, Some, IsSome, OnOk, OnErr};
ghost use Rattle.setl_debug_target.specs.Screens.{Screen, Stand, Sees};

use std::alloc::AllocError;

/// The states of one run, of which one at a time is looked at. Contracts see the run, which screens it shows after so many
/// turns, and where the target stands.
pub trait Target {
    /// What is known of the run.
    ghost Run: { Type 0 };

    ghost run: { Self → Run };

    /// Which screens a run shows after so many turns.
    ghost shows: { Run → ℕ → Screen → Type 0 };

    /// Where the target stands: at the place of the last `go` that succeeded.
    ghost stand: { Self → Option Stand };

    /// Goes to the state after so many turns, or to the last one where the run ends before, and counts the stores at a
    /// line up to there. The error is want of memory, and then the target stands where it stood.
    fn go(&mut self, turns: u64, line: u32) -> Result<(), AllocError>
        requires { turns < 2 ^ 63 }
        ensures ok { OnOk result (stand self.new ≡ Some (record { turns = turns; line = line })) }
        ensures err { OnErr result (stand self.new ≡ stand self.old) }
        ensures run { run self.new ≡ run self.old };

    /// How often the line was stored at, up to 2^64 - 1.
    fn hits(&self) -> u64
        requires { IsSome (stand self.now) }
        ensures { Sees (shows (run self.now)) (stand self.now) (λ place s. result ≡ s.hits place.line) };

    /// Adds where the program is and what its variables hold. The error is want of memory, and then `into` is as before.
    fn show(&mut self, into: &mut Vec<u8>) -> Result<(), AllocError>
        requires { IsSome (stand self.old) }
        ensures ok { OnOk result (Sees (shows (run self.old)) (stand self.old) (λ _ s. into.new.items ≡ into.old.items ++ s.shown)) }
        ensures err { OnErr result (into.new.items ≡ into.old.items) }
        ensures run { run self.new ≡ run self.old }
        ensures stand { stand self.new ≡ stand self.old };

    /// Adds what the program has written. The error is want of memory, and then `into` is as before.
    fn output(&self, into: &mut Vec<u8>) -> Result<(), AllocError>
        requires { IsSome (stand self.now) }
        ensures ok { OnOk result (Sees (shows (run self.now)) (stand self.now) (λ _ s. into.new.items ≡ into.old.items ++ s.written)) }
        ensures err { OnErr result (into.new.items ≡ into.old.items) };

    /// Adds how often each procedure was called. The error is want of memory, and then `into` is as before.
    fn profile(&self, into: &mut Vec<u8>) -> Result<(), AllocError>
        requires { IsSome (stand self.now) }
        ensures ok { OnOk result (Sees (shows (run self.now)) (stand self.now) (λ _ s. into.new.items ≡ into.old.items ++ s.profile)) }
        ensures err { OnErr result (into.new.items ≡ into.old.items) };

    /// With more turns a line was stored at as often, or more often.
    ghost hits_grow: { (r : Run) (line j k : ℕ) (a b : Screen) → j ≤ k → shows r j a → shows r k b → a.hits line ≤ b.hits line };
}
