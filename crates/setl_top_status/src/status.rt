//! How a call ends.

/// How a call ends. The order of the variants is that of their numbers.
#[derive(Clone, Copy, Debug, PartialEq, Eq)]
pub enum Status {
    /// The command did all of its work.
    Done,
    /// The source is too long or isn't a program, or a code file is too long or isn't one.
    Refused,
    /// The words aren't of the plain form of a command.
    Words,
    /// The program stopped at an error of its own.
    Stopped,
    /// The bound on turns was reached.
    Spent,
    /// The source or the input couldn't be read, and a fault was counted.
    ReadFault,
    /// The output or the error output couldn't be written, and a fault was counted.
    WriteFault,
    /// Memory was refused.
    NoMemory,
}

impl Status {
    ghost use Rattle.std.specs.Prelude.{◌≡◌};
    ghost use Rattle.setl_top_status.specs.Status.{status_number};

    /// The number with which the program ends, from 0 to 7.
    pub fn number(self) -> u8
        ensures { result ≡ status_number self }
    {
        self as u8
    }
}
