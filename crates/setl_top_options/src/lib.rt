//! The options of a run: those that words give, each kind at most once, and what they come to.
#![tactic(auto)]

mod given;
mod options;
mod watching;

pub use given::{Given, RunOption};
pub use options::Options;
pub use watching::Asked;
