//! The plain values that forms stand for.
#![tactic(auto)]

mod pairs;
mod values;

pub use values::plain;
