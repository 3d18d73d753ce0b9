//! The syntax trees of SETL, its tokens as plain data, and its grammar.
//!
//! The grammar stands in `specs/`: `Derives tokens tree` says which tokens spell which program.
#![tactic(auto)]

mod boxed;
mod copied;
mod expr;
mod items;
mod kind;
mod mode;
mod stmt;
mod text;
mod tree;

pub use boxed::Boxed;
pub use copied::{Copied, copied_items};
pub use expr::{
    BinaryOp, Bound, Expr, Fold, Inner, Iter, Prefix, Quantifier, Relation, Selector, Slot,
};
pub use items::Items;
pub use kind::Kind;
pub use mode::{Attribute, Core, ReprLine, WrittenMode};
pub use stmt::{Branch, FromEnd, Place, Stmt, StmtKind};
pub use text::Text;
pub use tree::{Declared, Param, Passing, Proc, Tree};
