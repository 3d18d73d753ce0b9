//! The half of the parser that reads statements, modes, procedures and programs.
#![tactic(auto)]

mod made;
mod modes;
mod nested;
mod programs;
mod statements;

pub use programs::program;
