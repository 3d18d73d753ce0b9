//! Programs in which each name stands for its variable: what a syntax tree means before it runs.
//!
//! Contracts see a program as plain data: `plain_program p` is what the program `p` stands for.
#![tactic(auto)]

mod expr;
mod kinds;
mod program;
mod stmt;
mod worked;

pub use expr::{Argument, Binding, Expr, Iterator, Link, Variable};
pub use kinds::{Collection, Connective, Quantifier, Source, Taking};
pub use program::{Declared, Procedure, Program};
pub use stmt::{Branch, Place, Selector, Stmt, StmtKind};
pub use worked::worked_trees;
