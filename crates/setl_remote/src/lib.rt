//! Vectors by block number: a set of numbers, a bit each, and a map from numbers, a slot each.
//!
//! Contracts see `Bits` as a finite set. They see `Slots` as the list of its slots, that of number 0 first, and read it by
//! `slot_at` and `slots_len`. Both take memory in proportion to the greatest number that was put in.
#![tactic(auto)]

mod bits;
mod combine;
mod numbers;
mod slots;
mod words;

pub use bits::Bits;
pub use slots::Slots;
