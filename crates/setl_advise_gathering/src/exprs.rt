//! The conditions of expressions.

ghost use Rattle.std.specs.Prelude.{◌≡◌, ◌++◌, OnOk, map};
ghost use Rattle.std.specs.Option.{option_map};
ghost use Rattle.setl_program.specs.Program.{Undefined, no_argument};
ghost use Rattle.setl_program.specs.Lists.{chained};
ghost use Rattle.setl_program.specs.code.Plain.{plain_expr, plain_link, plain_exprs, plain_iterator, plain_iterators, plain_argument, plain_arguments, condition_of, plain_procedure};
ghost use Rattle.setl_advise_conditions.specs.Parts as parts;
ghost use Rattle.setl_advise_gathering.specs.Walked.{iterator_conditions};
ghost use Rattle.setl_advise_gathering.specs.code.Plain.{listed};

use crate::bindings::{binding, call};
use crate::condition::Condition;
use setl_program::{Argument, Expr, Iterator, Link, Procedure};
use setl_tree::Boxed;
use std::alloc::AllocError;

/// Those of an expression.
#[cycle(expr)]
pub fn expr<'p>(
    procedures: &'p [Procedure],
    e: &'p Expr,
    all: &mut Vec<Condition<'p>>,
) -> Result<(), AllocError>
    ensures { OnOk result (listed all.new.items ≡ listed all.old.items ++ parts.expr_conditions (map plain_procedure procedures.now) (plain_expr e.now)) }
{
    match e {
        Expr::Integer(_) => Ok(()),
        Expr::Text(_) => Ok(()),
        Expr::Truth(_) => Ok(()),
        Expr::Undefined => Ok(()),
        Expr::Name(_) => Ok(()),
        Expr::Apply(_, es) => exprs(procedures, es.as_slice(), all),
        Expr::Chain(first, ls) => {
            expr(procedures, first.get(), all)?;
            links(procedures, ls.as_slice(), all)?;
            Ok(())
        }
        Expr::Choose(t, a, b) => {
            expr(procedures, t.get(), all)?;
            expr(procedures, a.get(), all)?;
            expr(procedures, b.get(), all)
        }
        Expr::Former(_, e, is, t) => {
            expr(procedures, e.get(), all)?;
            iterators(procedures, is.as_slice(), all)?;
            test(procedures, t, all)
        }
        Expr::Selection(_, b, es, c) => {
            binding(b, es.as_slice(), all)?;
            exprs(procedures, es.as_slice(), all)?;
            expr(procedures, c.get(), all)
        }
        Expr::Quantified(_, is, c) => {
            iterators(procedures, is.as_slice(), all)?;
            expr(procedures, c.get(), all)
        }
        Expr::Call(f, xs) => {
            call(procedures, *f, xs.as_slice(), all)?;
            arguments(procedures, xs.as_slice(), all)
        }
        Expr::Newat => Ok(()),
        Expr::Eof => Ok(()),
        Expr::Ok => Ok(()),
    }
}

/// Those of expressions.
#[cycle(expr)]
pub fn exprs<'p>(
    procedures: &'p [Procedure],
    es: &'p [Expr],
    all: &mut Vec<Condition<'p>>,
) -> Result<(), AllocError>
    ensures { OnOk result (listed all.new.items ≡ listed all.old.items ++ parts.exprs_conditions (map plain_procedure procedures.now) (plain_exprs es.now)) }
{
    for e in es {
        expr(procedures, e, all)?;
    }
    Ok(())
}

/// Those of links: those of what they make of `om`.
#[cycle(expr)]
fn links<'p>(
    procedures: &'p [Procedure],
    ls: &'p [Link],
    all: &mut Vec<Condition<'p>>,
) -> Result<(), AllocError>
    ensures { OnOk result (listed all.new.items ≡ listed all.old.items ++ parts.expr_conditions (map plain_procedure procedures.now) (chained Undefined (map plain_link ls.now))) }
{
    for l in ls {
        link(procedures, l, all)?;
    }
    Ok(())
}

/// Those of a link: those of what it makes of `om`.
#[cycle(expr)]
fn link<'p>(
    procedures: &'p [Procedure],
    l: &'p Link,
    all: &mut Vec<Condition<'p>>,
) -> Result<(), AllocError>
    ensures { OnOk result (listed all.new.items ≡ listed all.old.items ++ parts.expr_conditions (map plain_procedure procedures.now) (plain_link l.now Undefined)) }
{
    match l {
        Link::Unary(_) => Ok(()),
        Link::Binary(_, x) => expr(procedures, x, all),
        Link::Ternary(_, x, y) => {
            expr(procedures, x.get(), all)?;
            expr(procedures, y.get(), all)
        }
        Link::Connect(_, x) => expr(procedures, x.get(), all),
    }
}

/// Those of iterators.
#[cycle(expr)]
pub fn iterators<'p>(
    procedures: &'p [Procedure],
    is: &'p [Iterator],
    all: &mut Vec<Condition<'p>>,
) -> Result<(), AllocError>
    ensures { OnOk result (listed all.new.items ≡ listed all.old.items ++ parts.iterators_conditions (map plain_procedure procedures.now) (plain_iterators is.now)) }
{
    for i in is {
        iterator(procedures, i, all)?;
    }
    Ok(())
}

/// Those of an iterator.
#[cycle(expr)]
fn iterator<'p>(
    procedures: &'p [Procedure],
    i: &'p Iterator,
    all: &mut Vec<Condition<'p>>,
) -> Result<(), AllocError>
    ensures { OnOk result (listed all.new.items ≡ listed all.old.items ++ iterator_conditions (map plain_procedure procedures.now) (plain_iterator i.now)) }
{
    binding(&i.binding, i.sources.as_slice(), all)?;
    exprs(procedures, i.sources.as_slice(), all)
}

/// Those of a condition behind iterators.
#[cycle(expr)]
fn test<'p>(
    procedures: &'p [Procedure],
    t: &'p Option<Boxed<Expr>>,
    all: &mut Vec<Condition<'p>>,
) -> Result<(), AllocError>
    ensures { OnOk result (listed all.new.items ≡ listed all.old.items ++ parts.test_conditions (map plain_procedure procedures.now) (condition_of (option_map plain_expr t.now))) }
{
    match t {
        None => Ok(()),
        Some(c) => expr(procedures, c.get(), all),
    }
}

/// Those of the expressions of arguments.
#[cycle(expr)]
fn arguments<'p>(
    procedures: &'p [Procedure],
    xs: &'p [Argument],
    all: &mut Vec<Condition<'p>>,
) -> Result<(), AllocError>
    ensures { OnOk result (listed all.new.items ≡ listed all.old.items ++ parts.arguments_conditions (map plain_procedure procedures.now) (plain_arguments xs.now)) }
{
    for x in xs {
        argument(procedures, x, all)?;
    }
    Ok(())
}

/// Those of the expression of an argument.
#[cycle(expr)]
fn argument<'p>(
    procedures: &'p [Procedure],
    x: &'p Argument,
    all: &mut Vec<Condition<'p>>,
) -> Result<(), AllocError>
    ensures { OnOk result (listed all.new.items ≡ listed all.old.items ++ parts.arguments_conditions (map plain_procedure procedures.now) (plain_argument x.now no_argument)) }
{
    match x {
        Argument::Rd(e) => expr(procedures, e, all),
        Argument::Wr(_) => Ok(()),
        Argument::Rw(_) => Ok(()),
    }
}
