//! What stands in statements.

ghost use Rattle.std.specs.Prelude.{◌≡◌, map, OnOk, OnErr};
ghost use Rattle.setl_names.specs.Statements as spec;
ghost use Rattle.setl_names.specs.Statements.{stmt_told, kind_told, branch_told};
ghost use Rattle.setl_names.specs.Occurrences.{turn};
ghost use Rattle.setl_names_walk.specs.Scopes.{no_scope};
ghost use Rattle.setl_names_walk.specs.Walks.{here, after};

use crate::expressions::{expr, exprs};
use crate::simple::{assign, call, loop_head, optional_expression, take, texts, tuple_assign};
use crate::walk::Walk;
use setl_names::{Around, What};
use setl_tree::{Branch, Expr, Iter, Stmt, StmtKind};
use std::alloc::AllocError;

/// What stands in statements.
#[cycle(statements)]
pub fn stmts<'t>(xs: &'t [Stmt], around: Around, walk: &mut Walk<'t>) -> Result<(), AllocError>
    requires { walk.now.scope ≡ no_scope }
    ensures { OnOk result (walk.new ≡ after (spec.told xs.now around) walk.old) }
{
    for x in xs {
        stmt(x, around, walk)?;
    }
    Ok(())
}

/// What stands in a statement.
#[cycle(statements)]
fn stmt<'t>(x: &'t Stmt, around: Around, walk: &mut Walk<'t>) -> Result<(), AllocError>
    requires { walk.now.scope ≡ no_scope }
    ensures { OnOk result (walk.new ≡ after (stmt_told x.now around) walk.old) }
{
    kind(&x.kind, x.line, around, walk)
}

/// What stands in a statement of this line.
#[cycle(statements)]
fn kind<'t>(
    x: &'t StmtKind,
    line: u32,
    around: Around,
    walk: &mut Walk<'t>,
) -> Result<(), AllocError>
    requires { walk.now.scope ≡ no_scope }
    ensures { OnOk result (walk.new ≡ after (kind_told x.now (here line walk.old) around) walk.old) }
{
    match x {
        StmtKind::Assign(p, e) => assign(p, e, line, walk),
        StmtKind::Update(p, _, e) => assign(p, e, line, walk),
        StmtKind::TupleAssign(slots, e) => tuple_assign(slots.as_slice(), e, line, walk),
        StmtKind::Take(name, _, p) => take(name, p, line, walk),
        StmtKind::Call(name, xs) => call(name, xs.as_slice(), line, walk),
        StmtKind::If(first, others, last) => {
            branch(first, line, around, walk)?;
            branches(others.as_slice(), line, around, walk)?;
            match last {
                None => Ok(()),
                Some(body) => stmts(body.as_slice(), around, walk),
            }
        }
        StmtKind::For(turns, condition, body) => {
            for_loop(
                body.as_slice(),
                turns.as_slice(),
                condition,
                line,
                around,
                walk,
            )
        }
        StmtKind::While(condition, body) => {
            while_loop(body.as_slice(), condition, line, around, walk)
        }
        StmtKind::Quit => quit(line, around, walk),
        StmtKind::Continue => quit(line, around, walk),
        StmtKind::Fail => Ok(()),
        StmtKind::Succeed => Ok(()),
        StmtKind::Stop => Ok(()),
        StmtKind::Pass => Ok(()),
        StmtKind::Return(x) => return_(x, line, around, walk),
        StmtKind::Print(xs) => exprs(xs.as_slice(), line, walk),
        StmtKind::Read(names) => texts(names.as_slice(), line, walk),
    }
}

/// Notes `quit` or `continue`.
fn quit(line: u32, around: Around, walk: &mut Walk<'_>) -> Result<(), AllocError>
    ensures ok { OnOk result (walk.new ≡ after (spec.quit around (here line walk.old)) walk.old) }
    ensures err { OnErr result (walk.new ≡ walk.old) }
{
    walk.note(line, What::Quit(around.in_loop))
}

/// What stands in a `return`.
fn return_<'t>(
    x: &'t Option<Expr>,
    line: u32,
    around: Around,
    walk: &mut Walk<'t>,
) -> Result<(), AllocError>
    ensures { OnOk result (walk.new ≡ after (spec.return_ around x.now (here line walk.old)) walk.old) }
{
    walk.note(line, What::Return(around.in_procedure))?;
    optional_expression(x, line, walk)
}

/// What stands in a `for` loop.
#[cycle(statements)]
fn for_loop<'t>(
    body: &'t [Stmt],
    turns: &'t [Iter],
    condition: &'t Option<Expr>,
    line: u32,
    around: Around,
    walk: &mut Walk<'t>,
) -> Result<(), AllocError>
    requires { walk.now.scope ≡ no_scope }
    ensures { OnOk result (walk.new ≡ after (spec.for_loop (map turn turns.now) condition.now (map stmt_told body.now) (here line walk.old) around) walk.old) }
{
    loop_head(turns, condition, line, walk)?;
    stmts(body, around.in_a_loop(), walk)
}

/// What stands in a `while` loop.
#[cycle(statements)]
fn while_loop<'t>(
    body: &'t [Stmt],
    condition: &'t Expr,
    line: u32,
    around: Around,
    walk: &mut Walk<'t>,
) -> Result<(), AllocError>
    requires { walk.now.scope ≡ no_scope }
    ensures { OnOk result (walk.new ≡ after (spec.while_loop condition.now (map stmt_told body.now) (here line walk.old) around) walk.old) }
{
    expr(condition, line, walk)?;
    stmts(body, around.in_a_loop(), walk)
}

/// A condition with the statements that it guards.
#[cycle(statements)]
fn branch<'t>(
    x: &'t Branch,
    line: u32,
    around: Around,
    walk: &mut Walk<'t>,
) -> Result<(), AllocError>
    requires { walk.now.scope ≡ no_scope }
    ensures { OnOk result (walk.new ≡ after (branch_told x.now (here line walk.old) around) walk.old) }
{
    expr(&x.condition, line, walk)?;
    stmts(x.body.as_slice(), around, walk)
}

/// What stands in `elseif` branches.
#[cycle(statements)]
fn branches<'t>(
    xs: &'t [Branch],
    line: u32,
    around: Around,
    walk: &mut Walk<'t>,
) -> Result<(), AllocError>
    requires { walk.now.scope ≡ no_scope }
    ensures { OnOk result (walk.new ≡ after (spec.all_branches (map branch_told xs.now) (here line walk.old) around) walk.old) }
{
    for x in xs {
        branch(x, line, around, walk)?;
    }
    Ok(())
}
