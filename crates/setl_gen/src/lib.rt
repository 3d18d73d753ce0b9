//! The code generator: `emit` makes the code of a program, body by body.
//!
//! What stands in a body is looked through first, so that each of its variables has a slot. A second walk puts down its
//! steps, and fills in the targets of jumps once they are known.
#![tactic(auto)]

mod bodies;
mod exprs;
mod found;
mod places;
mod steps;
mod stmts;

pub use bodies::emit;
