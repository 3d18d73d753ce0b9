//! The options of a run.
ghost use Rattle.std.specs.Prelude.{◌≡◌, ◌&&◌, [], if◌then◌else◌};

use crate::watching::Asked;

/// The options of a run.
#[derive(Clone, Copy, Debug, PartialEq, Eq)]
pub struct Options {
    /// The bound on the turns of the run, at most 2^63 - 1.
    pub turns: u64,
    /// Whether the program's declarations count.
    pub based: bool,
    /// Whether the dump is asked for, which is told where declarations count.
    pub dump: bool,
    /// The watcher that is told the events of the run.
    pub watch: Option<Asked>,
}

impl Options {
    /// Those of a program's declarations that count in a run: all or none.
    pub fn counted<T>(self, declared: &[T]) -> &[T]
        ensures { result.now ≡ (if self.based then declared.now else []) }
    {
        if self.based { declared } else { &[] }
    }

    /// Whether the run tells its dump.
    pub fn dumps(self) -> bool
        ensures { result ≡ (self.dump && self.based) }
    {
        self.dump && self.based
    }
}
