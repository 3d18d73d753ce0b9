//! Statements.

ghost use Rattle.std.specs.Prelude.{◌≡◌, ℕ, ◌∷◌, ◌++◌, OnOk, map};
ghost use Rattle.setl_tree.specs.Canonical as spec;
ghost use Rattle.setl_tree.specs.Canonical.{sign, stmt_tokens};
ghost use Rattle.setl_token.specs.Spellings.{IsSpelled};
ghost use Rattle.setl_show.specs.Text.{with_tokens};
ghost use Rattle.setl_show.specs.Parts.{kind_tokens, branch_tokens};

use crate::expressions::between;
use crate::simple::{
    arguments, assign, ending, for_head, names, return_result, take, tuple_assign, update,
    while_head, word,
};
use crate::writer::Writer;
use setl_tree::{Branch, Kind, Stmt, StmtKind};
use std::alloc::AllocError;

/// Statements.
#[cycle(statements)]
pub fn stmts(xs: &[Stmt], to: &mut Writer) -> Result<(), AllocError>
    ensures { OnOk result (to.new ≡ with_tokens to.old (spec.all_of (map stmt_tokens xs.now))) }
{
    for x in xs {
        stmt(x, to)?;
    }
    Ok(())
}

/// A statement.
#[cycle(statements)]
fn stmt(x: &Stmt, to: &mut Writer) -> Result<(), AllocError>
    ensures { OnOk result (to.new ≡ with_tokens to.old (stmt_tokens x.now)) }
{
    stmt_kind(&x.kind, to)
}

/// What a statement is. Its line changes nothing.
#[cycle(statements)]
fn stmt_kind(x: &StmtKind, to: &mut Writer) -> Result<(), AllocError>
    ensures { (line : ℕ) → OnOk result (to.new ≡ with_tokens to.old (kind_tokens x.now line)) }
{
    match x {
        StmtKind::Assign(p, x) => assign(p, x, to),
        StmtKind::Update(p, op, x) => update(p, *op, x, to),
        StmtKind::TupleAssign(slots, x) => tuple_assign(slots.as_slice(), x, to),
        StmtKind::Take(name, end, p) => take(name, *end, p, to),
        StmtKind::Call(name, xs) => {
            to.name(name)?;
            arguments(xs.as_slice(), to)
        }
        StmtKind::If(first, others, last) => {
            branch(Kind::If, first, to)?;
            branches(others.as_slice(), to)?;
            match last {
                None => ending(Kind::If, to),
                Some(body) => {
                    to.sign(Kind::Else)?;
                    block(body.as_slice(), Kind::If, to)
                }
            }
        }
        StmtKind::For(over, c, body) => {
            for_head(over.as_slice(), c, to)?;
            block(body.as_slice(), Kind::For, to)
        }
        StmtKind::While(c, body) => {
            while_head(c, to)?;
            block(body.as_slice(), Kind::While, to)
        }
        StmtKind::Quit => word(Kind::Quit, to),
        StmtKind::Continue => word(Kind::Continue, to),
        StmtKind::Fail => word(Kind::Fail, to),
        StmtKind::Succeed => word(Kind::Succeed, to),
        StmtKind::Stop => word(Kind::Stop, to),
        StmtKind::Pass => word(Kind::Pass, to),
        StmtKind::Return(x) => return_result(x, to),
        StmtKind::Print(xs) => {
            to.sign(Kind::Print)?;
            arguments(xs.as_slice(), to)
        }
        StmtKind::Read(xs) => {
            to.sign(Kind::Read)?;
            names(xs.as_slice(), to)
        }
    }
}

/// Statements and the end of what they stand in.
#[cycle(statements)]
fn block(xs: &[Stmt], word: Kind, to: &mut Writer) -> Result<(), AllocError>
    requires { IsSpelled word }
    ensures { OnOk result (to.new ≡ with_tokens to.old (spec.all_of (map stmt_tokens xs.now) ++ spec.ending_tokens word)) }
{
    stmts(xs, to)?;
    ending(word, to)
}

/// A condition behind a word, with the statements that it guards.
#[cycle(statements)]
fn branch(word: Kind, x: &Branch, to: &mut Writer) -> Result<(), AllocError>
    requires { IsSpelled word }
    ensures { OnOk result (to.new ≡ with_tokens to.old (sign word ∷ branch_tokens x.now)) }
{
    between(word, &x.condition, Kind::Then, to)?;
    stmts(x.body.as_slice(), to)
}

/// The `elseif` branches.
#[cycle(statements)]
fn branches(xs: &[Branch], to: &mut Writer) -> Result<(), AllocError>
    ensures { OnOk result (to.new ≡ with_tokens to.old (spec.elseif_tokens (map branch_tokens xs.now))) }
{
    for x in xs {
        branch(Kind::Elseif, x, to)?;
    }
    Ok(())
}
