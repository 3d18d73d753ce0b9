//! The names that a source spells, and names of bases that are free among them.
#![tactic(auto)]

mod free;
mod spelled;

pub use free::first_free;
pub use spelled::spelled_names;
