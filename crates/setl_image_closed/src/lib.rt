//! Whether what the instructions of code name is there, and each body ends.
#![tactic(auto)]

mod closed;

pub use closed::{can_alter, is_closed};
