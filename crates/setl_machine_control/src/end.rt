//! How a call of the machine ends.

use std::alloc::AllocError;

/// Why a run stops: an operator's fault, an input without a denotation (`Form`), `fail` or `succeed` with nothing kept, or
/// a value that doesn't fit the declaration of its variable.
#[derive(Clone, Copy, Debug, PartialEq, Eq)]
pub enum StopKind {
    Om,
    Kind,
    Zero,
    Range,
    Wide,
    Deep,
    Form,
    Nothing,
    /// The declaration by its place among those of the program, from 0.
    Unfit(u32),
}

/// How a call of the machine, or one step of it, ended.
#[derive(Clone, Copy, Debug, PartialEq, Eq)]
pub enum End {
    Done,
    /// The run stops at a statement of this line.
    Stopped(StopKind, u32),
    /// No turn is left.
    Spent,
    /// All steps were done, and the run isn't at its end.
    Paused,
    /// The input failed and counted it.
    ReadFault,
    /// The output failed and counted it.
    WriteFault,
    /// Memory was refused; or the run has gone on for 2^64 - 1 rounds, or a watcher's count came to its greatest number.
    NoMemory,
    /// The code lacks an operand or reads a taken variable. No code of an accepted program does.
    Stuck,
}

impl From<AllocError> for End {
    ghost use Rattle.std.specs.Prelude.{◌≡◌};
    ghost use Rattle.setl_machine_control.specs.declared.end.End.TheVariants.{NoMemory};

    ghost from_gives = { λ _ e. e ≡ NoMemory };

    fn from(_e: AllocError) -> End {
        End::NoMemory
    }
}
