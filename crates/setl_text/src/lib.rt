//! The texts of values, the line of a `print`, and the reader of denotations from an input.
//!
//! Texts are those of `inner_text` and `print_line`. A denotation is what `Denoted` says, a relation between the bytes
//! of an input, a value or `om`, and the bytes behind it; `ReadFails` says which fault stands first where there is none.
//! `read_denotation` computes both, as the module `laws` says, and the reader answers it for every cutting of the input.
#![tactic(auto)]

pub mod laws;
mod place;
mod read;
mod scan;
mod texts;

pub use read::Reader;
use setl_value::Value;
use std::alloc::AllocError;
pub use texts::{line, push_decimal, push_integer, push_quoted, text};

/// What was read: a value, `om`, or only blanks up to the end of the input.
#[derive(Drop)]
pub enum Got {
    Value(Value),
    Om,
    End,
}

/// Why nothing was read.
#[derive(Clone, Copy, Debug, PartialEq, Eq)]
pub enum ReadFault {
    /// The bytes begin no denotation, or end inside one.
    Form,
    /// An integer is outside of 128 bits.
    Wide,
    /// A value would be more than 500 deep.
    Deep,
    /// The input failed.
    Source,
    /// Memory was refused.
    NoMemory,
}

impl From<AllocError> for ReadFault {
    ghost use Rattle.std.specs.Prelude.{◌≡◌};
    ghost use Rattle.setl_text.specs.declared.ReadFault.TheVariants.{NoMemory};

    ghost from_gives = { λ _ e. e ≡ NoMemory };

    fn from(_e: AllocError) -> ReadFault {
        ReadFault::NoMemory
    }
}
