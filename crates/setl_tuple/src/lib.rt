//! Tuples of values: components, slices, one tuple behind another, and copies of one.
#![tactic(auto)]

mod components;
mod lists;

pub use components::{get, put, with};
pub use lists::{cat, repeat, slice};
use std::alloc::AllocError;

/// Why an operator gave no tuple.
#[derive(Clone, Copy, Debug, PartialEq, Eq)]
pub enum TupleFault {
    /// A place is below 1, a count is below 0, or places lie outside a tuple.
    Range,
    /// The tuple would be more than 500 deep.
    Deep,
    /// Memory was refused.
    NoMemory,
}

impl From<AllocError> for TupleFault {
    ghost use Rattle.std.specs.Prelude.{◌≡◌};
    ghost use Rattle.setl_tuple.specs.declared.TupleFault.TheVariants.{NoMemory};

    ghost from_gives = { λ _ e. e ≡ NoMemory };

    fn from(_e: AllocError) -> TupleFault {
        TupleFault::NoMemory
    }
}
