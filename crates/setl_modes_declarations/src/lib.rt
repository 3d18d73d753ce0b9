//! The declarations of a `repr` section: the rules that they keep, and the bases and modes that they give.
//!
//! `modes` tests the rules 19 to 28 of a program on its syntax tree, and gives its bases and declared variables with their
//! modes. `breaking_name` gives the name by which one of these rules is broken.
#![tactic(auto)]

mod bases;
mod breaking;
mod copies;
mod listed;
mod names;
mod program;
mod rules;
mod table;
mod taken;

pub use breaking::breaking_name;
pub use program::modes;
pub use table::mode_table;
