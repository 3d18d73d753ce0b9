//! Whether the declared variables of a program have the modes that are advised for its flows, so that no run of it ends for a
//! value that doesn't fit.
#![tactic(auto)]

mod based;
mod plain;
mod programs;

pub use programs::has_advised_modes;
