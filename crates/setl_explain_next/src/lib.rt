//! Which kinds of tokens can stand at a place of a source, by trying each.
#![tactic(auto)]

mod candidates;
mod kinds;
mod laws;
mod trying;

pub use kinds::next_kinds;
pub use laws::next_kinds_are_one_list;
