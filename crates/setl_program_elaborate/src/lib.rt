//! A syntax tree becomes its program: each name in it becomes its variable.
#![tactic(auto)]

mod chain;
mod elaborator;
mod expressions;
mod iterators;
mod makers;
mod operators;
mod ranges;
mod selections;
mod statements;
mod tree;

pub use tree::elaborate;
