//! Statements of a program.

use crate::expr::{Expr, Iterator, Variable};
use crate::kinds::Taking;
use setl_operators_table::Operator;
use setl_tree::Items;

/// A selector of a place: `(x)` or `{x}`. Several expressions in one are their tuple.
#[derive(Drop)]
pub enum Selector {
    Round(Expr),
    Brace(Expr),
}

/// What an update changes: a variable, or the part of its value at some selectors.
#[derive(Drop)]
pub struct Place {
    pub variable: Variable,
    pub selectors: Items<Selector>,
}

/// A statement with the line of its first token.
#[cycle(stmt)]
#[derive(Drop)]
pub struct Stmt {
    pub line: u32,
    pub kind: StmtKind,
}

/// An `elseif` with the statements that its condition guards, and the line that it has: that of its `if`.
#[cycle(stmt)]
#[derive(Drop)]
pub struct Branch {
    pub line: u32,
    pub condition: Expr,
    pub body: Items<Stmt>,
}

/// What a statement is.
#[cycle(stmt)]
#[derive(Drop)]
pub enum StmtKind {
    /// `place := value`
    Assign(Place, Expr),
    /// `place op:= value`
    Update(Operator, Place, Expr),
    /// `[x, -, y] := value`; `None` skips a component.
    AssignParts(Items<Option<Variable>>, Expr),
    /// `x from place` and the like.
    TakeFrom(Taking, Variable, Place),
    /// A call whose result is dropped.
    Perform(Expr),
    /// The condition and the statements that it guards, the `elseif` branches, and the statements behind `else`. A branch
    /// means an `if` that alone stands behind the `else` of what comes before it.
    If(Expr, Items<Stmt>, Items<Branch>, Items<Stmt>),
    For(Items<Iterator>, Option<Expr>, Items<Stmt>),
    While(Expr, Items<Stmt>),
    Quit,
    Continue,
    Fail,
    Succeed,
    Stop,
    Pass,
    /// `return`; without an expression it returns `om`.
    Return(Expr),
    Print(Items<Expr>),
    Read(Items<Variable>),
}
