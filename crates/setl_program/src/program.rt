//! Programs.

use crate::expr::Variable;
use crate::stmt::Stmt;
use setl_modes::Mode;
use setl_tree::{Items, Param, Text};

/// A procedure, with the line of its `end`.
#[derive(Drop)]
pub struct Procedure {
    pub name: Text,
    pub parameters: Items<Param>,
    pub body: Items<Stmt>,
    pub end_line: u32,
}

/// A declared variable with its mode.
#[derive(Drop)]
pub struct Declared {
    pub variable: Variable,
    pub mode: Mode,
}

/// A program: its name, the names in `var`, the statements of its main body, the line of its `end`, its procedures in
/// their order, and the declared variables with their modes.
#[derive(Drop)]
pub struct Program {
    pub name: Text,
    pub vars: Items<Text>,
    pub main: Items<Stmt>,
    pub end_line: u32,
    pub procedures: Items<Procedure>,
    pub declared: Items<Declared>,
}
