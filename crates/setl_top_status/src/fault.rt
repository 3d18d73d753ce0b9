//! What breaks a call off.

use crate::Status;

/// What breaks a call off.
#[derive(Clone, Copy, Debug, PartialEq, Eq)]
pub enum Fault {
    /// The source or the input couldn't be read.
    Read,
    /// The output or the error output couldn't be written.
    Write,
    /// Memory was refused.
    NoMemory,
}

impl Fault {
    ghost use Rattle.std.specs.Prelude.{◌≡◌};
    ghost use Rattle.setl_top_status.specs.Lines.{fault_line};
    ghost use Rattle.setl_top_status.specs.Status.{fault_status};

    /// Its line on the error output, with its line feed.
    pub fn line(self) -> &'static [u8]
        ensures { result.now ≡ fault_line self }
    {
        match self {
            Fault::Read => b"read fault\n",
            Fault::Write => b"write fault\n",
            Fault::NoMemory => b"no memory\n",
        }
    }

    /// The status of the call that it breaks off.
    pub fn status(self) -> Status
        ensures { result ≡ fault_status self }
    {
        match self {
            Fault::Read => Status::ReadFault,
            Fault::Write => Status::WriteFault,
            Fault::NoMemory => Status::NoMemory,
        }
    }
}
