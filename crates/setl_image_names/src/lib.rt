//! Names of code that stand once: those in `var`, those of a body's own, and those that are declared.
#![tactic(auto)]

mod declared;
mod differing;

pub use declared::{own_declared, stand_once};
pub use differing::{different_modes, different_names, own_names_differ};
