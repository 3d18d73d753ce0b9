//! What a program asks of its flows, as a list of conditions whose terms refer into the program.
#![tactic(auto)]

mod bindings;
mod condition;
mod exprs;
mod list;
mod stmts;
mod whole;

pub use condition::{Condition, Name, Target, Term, name_of};
pub use whole::gathered;
