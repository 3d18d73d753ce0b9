//! Whether the modes of bases and declared variables keep the rules of a `repr` section.
#![tactic(auto)]

mod rules;

pub use rules::{bases_are_told, is_of_base, modes_are_sound};
