//! Programs.

use crate::items::Items;
use crate::mode::ReprLine;
use crate::stmt::Stmt;
use crate::text::Text;

/// A name that a declaration lists, with its line.
#[derive(Debug, Drop)]
pub struct Declared {
    pub line: u32,
    pub name: Text,
}

/// How a parameter is passed. `Rd` also stands for no word.
#[derive(Clone, Copy, Debug, PartialEq, Eq)]
pub enum Passing {
    Rd,
    Wr,
    Rw,
}

/// A parameter with the line of its first token.
#[derive(Debug, Drop)]
pub struct Param {
    pub passing: Passing,
    pub name: Text,
    pub line: u32,
}

/// A procedure. `line` is that of `proc`, `end_line` that of its `end`, and `end_name` the name behind `end proc`.
#[derive(Drop)]
pub struct Proc {
    pub line: u32,
    pub name: Text,
    pub params: Items<Param>,
    pub body: Items<Stmt>,
    pub end_name: Option<Text>,
    pub end_line: u32,
}

/// A program. `end_line` is the line of its `end`, and `end_name` the name behind `end program`.
#[derive(Drop)]
pub struct Tree {
    pub name: Text,
    pub vars: Items<Declared>,
    pub modes: Items<ReprLine>,
    pub body: Items<Stmt>,
    pub procs: Items<Proc>,
    pub end_name: Option<Text>,
    pub end_line: u32,
}
