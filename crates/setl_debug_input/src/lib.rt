//! The script of a session, read from an input up to its end, if it isn't too long.
#![tactic(auto)]

mod whole;

pub use whole::{Whole, read_whole};
