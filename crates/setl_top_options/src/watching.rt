//! The watchers that words may ask for.

/// A watcher of a run that words may ask for.
#[derive(Clone, Copy, Debug, PartialEq, Eq)]
pub enum Asked {
    /// It keeps the first events of the run.
    Trace,
    /// It counts the stores at each line.
    Cover,
    /// It counts the calls of each procedure.
    Profile,
}

impl Asked {
    ghost use Rattle.std.specs.Prelude.{◌≡◌};
    ghost use Rattle.setl_top_options.specs.Watchers.{watcher_name};

    /// The number that such a watcher has for a name.
    pub fn name(self) -> u8
        ensures { result ≡ watcher_name self }
    {
        match self {
            Asked::Trace => 1,
            Asked::Cover => 2,
            Asked::Profile => 3,
        }
    }
}
