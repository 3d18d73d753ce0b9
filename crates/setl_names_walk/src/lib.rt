//! Name resolution: a walk over a tree that tests the rules of names and gives the variables of each body.
//!
//! `resolve_all` tests the rules 1 to 18 of a program on its syntax tree, and gives the variables of each body. A walk over
//! the statements of a body finds what stands there.
#![tactic(auto)]

mod bodies;
mod bound;
mod breaking;
mod expressions;
mod head;
mod program;
mod scope;
mod simple;
mod statements;
mod walk;

pub use breaking::{again_at, breaking_name};
pub use program::{Resolution, resolve, resolve_all};
