//! The conditions of statements.

ghost use Rattle.std.specs.Prelude.{◌≡◌, ◌++◌, ◌∷◌, List, OnOk, map};
ghost use Rattle.std.specs.Option.{option_map};
ghost use Rattle.setl_program.specs.Program as plain;
ghost use Rattle.setl_program.specs.code.Plain.{plain_variable, plain_expr, plain_place, plain_kind, plain_stmt, plain_block, selectors_of, condition_of, plain_procedure};
ghost use Rattle.setl_advise_conditions.specs.Parts as parts;
ghost use Rattle.setl_advise_gathering.specs.Walked.{all_read, selector_conditions, branch_conditions};
ghost use Rattle.setl_advise_gathering.specs.code.Plain.{listed, plain_term};

use crate::bindings::slots;
use crate::condition::{Condition, Target, Term, name_of};
use crate::exprs::{expr, exprs, iterators};
use crate::list::{push, store};
use setl_operators_table::Operator;
use setl_program::{Branch, Expr, Place, Procedure, Selector, Stmt, StmtKind, Variable};
use std::alloc::AllocError;

/// Those of the expressions of selectors.
fn selectors<'p>(
    procedures: &'p [Procedure],
    ss: &'p [Selector],
    all: &mut Vec<Condition<'p>>,
) -> Result<(), AllocError>
    ensures { OnOk result (listed all.new.items ≡ listed all.old.items ++ parts.selectors_conditions (map plain_procedure procedures.now) (selectors_of ss.now)) }
{
    for s in ss {
        selector(procedures, s, all)?;
    }
    Ok(())
}

/// Those of the expression of a selector.
fn selector<'p>(
    procedures: &'p [Procedure],
    s: &'p Selector,
    all: &mut Vec<Condition<'p>>,
) -> Result<(), AllocError>
    ensures { OnOk result (listed all.new.items ≡ listed all.old.items ++ selector_conditions (map plain_procedure procedures.now) s.now) }
{
    match s {
        Selector::Round(e) => expr(procedures, e, all),
        Selector::Brace(e) => expr(procedures, e, all),
    }
}

/// Those of what is stored in a place.
fn stored<'p>(
    procedures: &'p [Procedure],
    p: &'p Place,
    term: Term<'p>,
    all: &mut Vec<Condition<'p>>,
) -> Result<(), AllocError>
    ensures { OnOk result (listed all.new.items ≡ listed all.old.items ++ parts.stored (plain_place p.now).variable (plain_term term.entry) ∷ parts.selectors_conditions (map plain_procedure procedures.now) (plain_place p.now).selectors) }
{
    store(all, name_of(&p.variable), term)?;
    selectors(procedures, p.selectors.as_slice(), all)
}

/// Those of what a body returns; the main program, of number 0, returns nothing.
fn returned<'p>(body: u64, e: &'p Expr, all: &mut Vec<Condition<'p>>) -> Result<(), AllocError>
    ensures { OnOk result ((procedures : List plain.Procedure) → listed all.new.items ≡ listed all.old.items ++ parts.return_conditions procedures body (plain_expr e.now)) }
{
    if body == 0 {
        return Ok(());
    }
    push(
        all,
        Condition {
            target: Target::ResultOf(body - 1),
            term: Term::Value(e),
        },
    )
}

/// Those of what is read.
fn reads<'p>(xs: &'p [Variable], all: &mut Vec<Condition<'p>>) -> Result<(), AllocError>
    ensures { OnOk result (listed all.new.items ≡ listed all.old.items ++ all_read (map plain_variable xs.now)) }
{
    for x in xs {
        store(all, name_of(x), Term::Anything)?;
    }
    Ok(())
}

/// Those of a condition, if there is one.
fn test<'p>(
    procedures: &'p [Procedure],
    t: &'p Option<Expr>,
    all: &mut Vec<Condition<'p>>,
) -> Result<(), AllocError>
    ensures { OnOk result (listed all.new.items ≡ listed all.old.items ++ parts.test_conditions (map plain_procedure procedures.now) (condition_of (option_map plain_expr t.now))) }
{
    match t {
        None => Ok(()),
        Some(c) => expr(procedures, c, all),
    }
}

/// Those of the statements of a body.
#[cycle(stmts)]
pub fn block<'p>(
    procedures: &'p [Procedure],
    body: u64,
    ss: &'p [Stmt],
    all: &mut Vec<Condition<'p>>,
) -> Result<(), AllocError>
    ensures { OnOk result (listed all.new.items ≡ listed all.old.items ++ parts.block_conditions (map plain_procedure procedures.now) body (plain_block ss.now)) }
{
    for s in ss {
        stmt(procedures, body, s, all)?;
    }
    Ok(())
}

/// Those of a statement.
#[cycle(stmts)]
fn stmt<'p>(
    procedures: &'p [Procedure],
    body: u64,
    s: &'p Stmt,
    all: &mut Vec<Condition<'p>>,
) -> Result<(), AllocError>
    ensures { OnOk result (listed all.new.items ≡ listed all.old.items ++ parts.stmt_conditions (map plain_procedure procedures.now) body (plain_stmt s.now).1) }
{
    kind(procedures, body, &s.kind, all)
}

/// Those of what a statement is.
#[cycle(stmts)]
fn kind<'p>(
    procedures: &'p [Procedure],
    body: u64,
    k: &'p StmtKind,
    all: &mut Vec<Condition<'p>>,
) -> Result<(), AllocError>
    ensures { OnOk result (listed all.new.items ≡ listed all.old.items ++ parts.stmt_conditions (map plain_procedure procedures.now) body (plain_kind k.now)) }
{
    match k {
        StmtKind::Assign(p, e) => {
            stored(procedures, p, Term::Assigned(p, e), all)?;
            expr(procedures, e, all)
        }
        StmtKind::Update(o, p, e) => {
            stored(procedures, p, Term::Updated(*o, p, e), all)?;
            expr(procedures, e, all)
        }
        StmtKind::AssignParts(xs, e) => {
            slots(Term::Component(e), xs.as_slice(), all)?;
            expr(procedures, e, all)
        }
        StmtKind::TakeFrom(_, x, p) => {
            store(all, name_of(x), Term::Taken(p))?;
            stored(procedures, p, Term::Remaining(p), all)
        }
        StmtKind::Perform(e) => expr(procedures, e, all),
        StmtKind::If(c, x, bs, y) => {
            expr(procedures, c, all)?;
            block(procedures, body, x.as_slice(), all)?;
            branches(procedures, body, bs.as_slice(), all)?;
            block(procedures, body, y.as_slice(), all)?;
            Ok(())
        }
        StmtKind::For(is, t, b) => {
            iterators(procedures, is.as_slice(), all)?;
            test(procedures, t, all)?;
            block(procedures, body, b.as_slice(), all)?;
            Ok(())
        }
        StmtKind::While(c, b) => {
            expr(procedures, c, all)?;
            block(procedures, body, b.as_slice(), all)?;
            Ok(())
        }
        StmtKind::Quit => Ok(()),
        StmtKind::Continue => Ok(()),
        StmtKind::Fail => Ok(()),
        StmtKind::Succeed => Ok(()),
        StmtKind::Stop => Ok(()),
        StmtKind::Pass => Ok(()),
        StmtKind::Return(e) => {
            returned(body, e, all)?;
            expr(procedures, e, all)
        }
        StmtKind::Print(es) => exprs(procedures, es.as_slice(), all),
        StmtKind::Read(xs) => reads(xs.as_slice(), all),
    }
}

/// Those of further branches.
#[cycle(stmts)]
fn branches<'p>(
    procedures: &'p [Procedure],
    body: u64,
    bs: &'p [Branch],
    all: &mut Vec<Condition<'p>>,
) -> Result<(), AllocError>
    ensures { OnOk result (listed all.new.items ≡ listed all.old.items ++ branch_conditions (map plain_procedure procedures.now) body bs.now) }
{
    for b in bs {
        expr(procedures, &b.condition, all)?;
        block(procedures, body, b.body.as_slice(), all)?;
    }
    Ok(())
}
