//! The operators that enumerate: sets and tuples of some operands, ranges of integers, and sets of subsets.
#![tactic(auto)]

mod counts;
mod enumerations;
mod integers;
mod ranges;
mod subsets;

pub use enumerations::{enumerate_set, enumerate_tuple};
pub use ranges::{set_range, set_step, tuple_range, tuple_step};
pub use subsets::{npow, pow};
