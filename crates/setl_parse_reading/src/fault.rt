//! Why tokens could not be read.

use std::alloc::AllocError;

/// The outcome of reading where there is no tree. A place is given by how many tokens are left there.
#[derive(Clone, Copy, Debug, PartialEq, Eq)]
pub enum Fault {
    Memory,
    /// The next token does not go on here.
    Syntax(usize),
    /// The next token goes on and opens one nesting too many.
    Nesting(usize),
}

impl From<AllocError> for Fault {
    ghost use Rattle.std.specs.Prelude.{◌≡◌};
    ghost use Rattle.setl_parse_reading.specs.declared.fault.Fault.TheVariants.{Memory};

    ghost from_gives = { λ _ e. e ≡ Memory };

    fn from(_e: AllocError) -> Fault {
        Fault::Memory
    }
}
