//! The half of the parser that reads expressions: levels of operators, the rules of expressions, and the recursion
//! over nestings.
//!
//! Each call reads exactly as its reader in `setl_parse_reading`: what was read, with the cursor behind it, or a fault, as
//! `setl_parse_cursor` says it.
#![tactic(auto)]

mod chain;
mod grammar;
mod inner;
mod iterators;
mod made;
mod parse;
mod primary;

pub use parse::{Condition, NestedExpr, braces, expr, iters, nested_expr};
