//! Which flows the terms of conditions need.

use crate::readers::{Reader, Readers};
use setl_advise_gathering::{Target, Term, name_of};
use setl_program::{Expr, Link, Place, Selector, Variable};
use std::alloc::AllocError;

/// Notes what the flow of a variable is needed for. An error is want of memory.
fn variable<'p>(x: &'p Variable, by: Reader, all: &mut Readers<'p>) -> Result<(), AllocError> {
    all.note(Target::Into(name_of(x)), by)
}

/// Notes what the shape of an expression needs. An error is want of memory.
#[cycle(expr)]
fn expr<'p>(e: &'p Expr, by: Reader, all: &mut Readers<'p>) -> Result<(), AllocError> {
    match e {
        Expr::Name(x) => variable(x, by, all),
        Expr::Apply(_, es) => exprs(es.as_slice(), by, all),
        Expr::Chain(first, ls) => {
            expr(first.get(), by, all)?;
            links(ls.as_slice(), by, all)
        }
        Expr::Choose(_, a, b) => {
            expr(a.get(), by, all)?;
            expr(b.get(), by, all)
        }
        Expr::Former(_, e, _, _) => expr(e.get(), by, all),
        Expr::Selection(_, _, es, _) => exprs(es.as_slice(), by, all),
        Expr::Call(f, _) => all.note(Target::ResultOf(*f as u64), by),
        _ => Ok(()),
    }
}

/// Notes what the shapes of expressions need. An error is want of memory.
#[cycle(expr)]
fn exprs<'p>(es: &'p [Expr], by: Reader, all: &mut Readers<'p>) -> Result<(), AllocError> {
    for e in es {
        expr(e, by, all)?;
    }
    Ok(())
}

/// Notes what links need. An error is want of memory.
#[cycle(expr)]
fn links<'p>(ls: &'p [Link], by: Reader, all: &mut Readers<'p>) -> Result<(), AllocError> {
    for l in ls {
        link(l, by, all)?;
    }
    Ok(())
}

/// Notes what a link needs. An error is want of memory.
#[cycle(expr)]
fn link<'p>(l: &'p Link, by: Reader, all: &mut Readers<'p>) -> Result<(), AllocError> {
    match l {
        Link::Unary(_) => Ok(()),
        Link::Binary(_, x) => expr(x, by, all),
        Link::Ternary(_, x, y) => {
            expr(x.get(), by, all)?;
            expr(y.get(), by, all)
        }
        Link::Connect(_, _) => Ok(()),
    }
}

/// Notes what a selector needs. An error is want of memory.
fn selector<'p>(s: &'p Selector, by: Reader, all: &mut Readers<'p>) -> Result<(), AllocError> {
    match s {
        Selector::Round(e) => expr(e, by, all),
        Selector::Brace(e) => expr(e, by, all),
    }
}

/// Notes what a place needs. An error is want of memory.
fn place<'p>(p: &'p Place, by: Reader, all: &mut Readers<'p>) -> Result<(), AllocError> {
    variable(&p.variable, by, all)?;
    for s in p.selectors.as_slice() {
        selector(s, by, all)?;
    }
    Ok(())
}

/// Notes what is stored in a place needs. An error is want of memory.
fn stored<'p>(
    p: &'p Place,
    e: &'p Expr,
    by: Reader,
    all: &mut Readers<'p>,
) -> Result<(), AllocError> {
    place(p, by, all)?;
    expr(e, by, all)
}

/// Notes what the flow of a term needs. An error is want of memory.
pub(crate) fn note_term<'p>(
    t: Term<'p>,
    by: Reader,
    all: &mut Readers<'p>,
) -> Result<(), AllocError> {
    match t {
        Term::Anything | Term::Unset => Ok(()),
        Term::Held(x) => all.note(Target::Into(x), by),
        Term::Value(e) | Term::Component(e) => expr(e, by, all),
        Term::Member(_, es) | Term::MemberComponent(_, es) => exprs(es, by, all),
        Term::Argument(_, es) | Term::Image(_, es) => exprs(es, by, all),
        Term::Assigned(p, e) | Term::Updated(_, p, e) => stored(p, e, by, all),
        Term::Taken(p) | Term::Remaining(p) => place(p, by, all),
    }
}
