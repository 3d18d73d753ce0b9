//! The options that were given so far.
ghost use Rattle.std.specs.Prelude.{◌≡◌, ◌-◌, ◌^◌, IfSome, IfNone, not, unwrap_or};
ghost use Rattle.setl_top_options.specs.code.Given.{IsFree, is_nothing, with_given};

use crate::options::Options;
use crate::watching::Asked;

/// The greatest bound on turns, which a run has where its words give none.
const MOST_TURNS: u64 = (1 << 63) - 1;

/// An option of a run.
#[derive(Clone, Copy)]
pub enum RunOption {
    /// Declarations of bases don't count.
    Unbased,
    /// The dump is told.
    Dump,
    /// The bound on the turns of the run.
    Turns(u64),
    /// The watcher that is told its events.
    Watch(Asked),
}

/// The options that were given so far.
#[derive(Clone, Copy)]
pub struct Given {
    /// The bound on the turns of the run, if one was given.
    pub turns: Option<u64>,
    /// Whether it was given that declarations don't count.
    pub unbased: bool,
    /// Whether it was given that the dump is told.
    pub dump: bool,
    /// The watcher that is told its events, if one was given.
    pub watch: Option<Asked>,
}

impl Given {
    /// No option.
    pub fn none() -> Given
        ensures { result ≡ is_nothing }
    {
        Given {
            turns: None,
            unbased: false,
            dump: false,
            watch: None,
        }
    }

    /// These and one more. `None` comes exactly where one of its kind was given before.
    pub fn with(self, option: RunOption) -> Option<Given>
        ensures given { IfSome result (λ given. (given ≡ with_given self option) × IsFree self option) }
        ensures again { IfNone result (IsFree self option → ⊥) }
    {
        match option {
            RunOption::Unbased if !self.unbased => Some(Given {
                unbased: true,
                ..self
            }),
            RunOption::Dump if !self.dump => Some(Given { dump: true, ..self }),
            RunOption::Turns(turns) if self.turns.is_none() => Some(Given {
                turns: Some(turns),
                ..self
            }),
            RunOption::Watch(asked) if self.watch.is_none() => Some(Given {
                watch: Some(asked),
                ..self
            }),
            _ => None,
        }
    }

    /// What they come to.
    pub fn options(self) -> Options
        ensures turns { result.turns ≡ unwrap_or self.turns (2 ^ 63 - 1) }
        ensures based { result.based ≡ not self.unbased }
        ensures dump { result.dump ≡ self.dump }
        ensures watch { result.watch ≡ self.watch }
    {
        Options {
            turns: self.turns.unwrap_or(MOST_TURNS),
            based: !self.unbased,
            dump: self.dump,
            watch: self.watch,
        }
    }
}
