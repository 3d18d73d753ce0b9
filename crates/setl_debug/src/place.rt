//! Where a session stands.
ghost use Rattle.std.specs.Prelude.{◌≡◌};

/// Where a session stands: after so many turns, and the line whose stores were counted last, so that the target needn't
/// count those of another line.
#[derive(Clone, Copy, Debug)]
pub(crate) struct Place {
    pub turns: u64,
    pub line: u32,
}

impl Place {
    /// After so many turns, with the same line.
    pub(crate) fn after(self, turns: u64) -> Place
        ensures { result.turns ≡ turns }
    {
        Place {
            turns,
            line: self.line,
        }
    }
}
