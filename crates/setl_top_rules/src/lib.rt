//! Whether a tree keeps all rules of a program: those of names, and those of declarations.
//!
//! `sound` gives the declared variables of a tree that keeps them, or the first rule that is broken, and `breaking_name` the
//! name by which one is broken.
#![tactic(auto)]

mod rules;

pub use rules::{breaking_name, sound};
