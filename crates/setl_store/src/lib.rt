//! The store of a run, which is all that `fail` brings back: variables, operands, calls and backtracking.
#![tactic(auto)]

mod activations;
mod backtracking;
mod calls;
mod cells;
mod changes;
mod forms;
mod iterating;
mod lent;
mod main_program;
mod operands;
mod putting;
mod returning;
mod selecting;
mod store;

pub use iterating::Ahead;
pub use main_program::Stored;
pub use setl_operators_table::OpFault;
pub use store::{Content, Store, Top};
