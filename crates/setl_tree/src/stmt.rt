//! Statements.

use crate::expr::{BinaryOp, Expr, Iter, Selector, Slot};
use crate::items::Items;
use crate::text::Text;

/// A name with selectors, which is stored to. Its selectors are round ones with at least one expression, and braces.
#[derive(Drop)]
pub struct Place {
    pub name: Text,
    pub selectors: Items<Selector>,
}

/// Which member is taken out.
#[derive(Clone, Copy, Debug, PartialEq, Eq)]
pub enum FromEnd {
    From,
    Fromb,
    Frome,
}

/// A statement with the line of its first token.
#[cycle(stmt)]
#[derive(Drop)]
pub struct Stmt {
    pub line: u32,
    pub kind: StmtKind,
}

/// A condition with the statements that it guards.
#[cycle(stmt)]
#[derive(Drop)]
pub struct Branch {
    pub condition: Expr,
    pub body: Items<Stmt>,
}

/// What a statement is.
#[cycle(stmt)]
#[derive(Drop)]
pub enum StmtKind {
    /// `place := value;`
    Assign(Place, Expr),
    /// `place op := value;`, the operator being one of `with`, `less`, `lessf`, `npow`, `+`, `-`, `max`, `min`, `*`, `div`, `mod` and `**`.
    Update(Place, BinaryOp, Expr),
    /// `[slot, ..] := value;`
    TupleAssign(Items<Slot>, Expr),
    /// `name from place;` and the like.
    Take(Text, FromEnd, Place),
    /// `name(x, ..);`
    Call(Text, Items<Expr>),
    /// The `if` branch, the `elseif` branches, and what stands behind `else`.
    If(Branch, Items<Branch>, Option<Items<Stmt>>),
    /// `(for iters | condition) body end for;`
    For(Items<Iter>, Option<Expr>, Items<Stmt>),
    /// `(while condition) body end while;`
    While(Expr, Items<Stmt>),
    Quit,
    Continue,
    Fail,
    Succeed,
    Stop,
    Pass,
    Return(Option<Expr>),
    Print(Items<Expr>),
    Read(Items<Text>),
}
