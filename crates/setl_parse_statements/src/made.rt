//! Statements made of their parts. An error is want of memory.
//!
//! They are boxed here, in functions that aren't inlined: so no call that reads inside a nesting has room for one on the stack.

ghost use Rattle.std.specs.Prelude.{◌≡◌, IfOk, IfErr};
ghost use Rattle.setl_parse_statements.specs.code.Parts as parts;

use setl_parse_reading::Fault;
use setl_tree::{Boxed, Branch, Expr, Items, Iter, Stmt, StmtKind};
use std::alloc::Global;

/// A statement with its line.
#[inline(never)]
pub fn stmt(alloc: Global, line: u32, kind: Boxed<StmtKind>) -> Result<Boxed<Stmt>, Fault>
    ensures ok { IfOk result (λ s. s ≡ parts.stmt_of line kind) }
    ensures err { IfErr result (λ e. e ≡ Fault.Memory) }
{
    let kind = kind.into_inner();
    Ok(Boxed::new(alloc, Stmt { line, kind })?)
}

/// A condition with the statements that it guards.
#[inline(never)]
pub fn branch(
    alloc: Global,
    condition: Boxed<Expr>,
    body: Items<Stmt>,
) -> Result<Boxed<Branch>, Fault>
    ensures ok { IfOk result (λ b. b ≡ parts.branch_of condition body) }
    ensures err { IfErr result (λ e. e ≡ Fault.Memory) }
{
    let condition = condition.into_inner();
    Ok(Boxed::new(alloc, Branch { condition, body })?)
}

/// A conditional statement.
#[inline(never)]
pub fn conditional(
    alloc: Global,
    first: Boxed<Branch>,
    others: Items<Branch>,
    last: Option<Items<Stmt>>,
) -> Result<Boxed<StmtKind>, Fault>
    ensures ok { IfOk result (λ k. k ≡ StmtKind.If first others last) }
    ensures err { IfErr result (λ e. e ≡ Fault.Memory) }
{
    Ok(Boxed::new(alloc, StmtKind::If(first.into_inner(), others, last))?)
}

/// A condition, if there is one, taken out of its box.
fn unboxed(condition: Option<Boxed<Expr>>) -> Option<Expr>
    ensures { result ≡ condition }
{
    match condition {
        Some(condition) => Some(condition.into_inner()),
        None => None,
    }
}

/// A loop over iterators.
#[inline(never)]
pub fn for_loop(
    alloc: Global,
    over: Items<Iter>,
    condition: Option<Boxed<Expr>>,
    body: Items<Stmt>,
) -> Result<Boxed<StmtKind>, Fault>
    ensures ok { IfOk result (λ k. k ≡ StmtKind.For over condition body) }
    ensures err { IfErr result (λ e. e ≡ Fault.Memory) }
{
    let condition = unboxed(condition);
    Ok(Boxed::new(alloc, StmtKind::For(over, condition, body))?)
}

/// A loop under a condition.
#[inline(never)]
pub fn while_loop(
    alloc: Global,
    condition: Boxed<Expr>,
    body: Items<Stmt>,
) -> Result<Boxed<StmtKind>, Fault>
    ensures ok { IfOk result (λ k. k ≡ StmtKind.While condition body) }
    ensures err { IfErr result (λ e. e ≡ Fault.Memory) }
{
    Ok(Boxed::new(alloc, StmtKind::While(condition.into_inner(), body))?)
}
