//! What the operators make of integers of 128 bits and of strings.
#![tactic(auto)]

mod integers;
mod texts;

pub use integers::{abs, add, div, modulo, mul, neg, power, sub};
use std::alloc::AllocError;
pub use texts::{cat, repeat, slice};

/// Why an operator gave no value.
#[derive(Clone, Copy, Debug, PartialEq, Eq)]
pub enum ScalarFault {
    /// The integer result doesn't fit 128 bits.
    Wide,
    /// The divisor is 0.
    Zero,
    /// An exponent or a count is below 0, or places lie outside a string.
    Range,
    /// Memory was refused.
    NoMemory,
}

impl From<AllocError> for ScalarFault {
    ghost use Rattle.std.specs.Prelude.{◌≡◌};
    ghost use Rattle.setl_scalar.specs.declared.ScalarFault.TheVariants.{NoMemory};

    ghost from_gives = { λ _ e. e ≡ NoMemory };

    fn from(_e: AllocError) -> ScalarFault {
        ScalarFault::NoMemory
    }
}
