//! What the debugger steps over: the states of one run, by the number of their turns.
#![tactic(auto)]

mod target;

pub use target::Target;
