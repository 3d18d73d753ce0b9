//! The debugger's target over the machine: the states of one run of a program in memory, by the number of their turns.
//!
//! `IsScreen run turns screen` says that the screen is that of the last state of the program's meaning with so many turns.
#![tactic(auto)]

mod body;
mod ending;
mod follower;
mod machine;
mod parts;
mod run;
mod seeing;
mod showing;
mod subject;
mod telling;
mod walk;

pub use run::ProgramRun;
