//! Operators on sets in their forms, where these need no plain set.
//!
//! A kernel answers None where the forms of its operands have none, and its contract says for which forms that is. What it
//! gives stands for what the operator's table gives of the values that the operands stand for.
#![tactic(auto)]

mod changes;
mod membership;
mod operations;
mod parts;
mod walk;

pub use changes::change;
pub use membership::{is_in, size};
pub use operations::{SetOperation, combined};
pub use walk::next;
