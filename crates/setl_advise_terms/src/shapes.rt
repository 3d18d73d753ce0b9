//! The shapes of expressions by a table of flows.

ghost use Rattle.std.specs.Prelude.{◌≡◌, IfOk, map};
ghost use Rattle.setl_program.specs.Program.{Expr as PlainExpr, Apply, begin_of};
ghost use Rattle.setl_program.specs.Lists.{chained};
ghost use Rattle.setl_program.specs.code.Plain.{plain_expr, plain_link, plain_exprs, plain_binding};
ghost use Rattle.setl_advise_flows.specs.Operators as operators;
ghost use Rattle.setl_advise_flows.specs.Expressions as expressions;
ghost use Rattle.setl_advise_lattice.specs.code.Levels.{flow_of, shape_of, shapes_of};
ghost use Rattle.setl_advise_terms.specs.code.Plain.{flows_of};

use crate::iterators::{member_shape, of_members, source_flow};
use crate::table::Table;
use setl_advise_gathering::{Target, name_of};
use setl_advise_lattice::{Flow, Kind, Level, Shape, join, op_shape};
use setl_operators_table::Operator;
use setl_program::{Binding, Collection, Expr, Link};
use std::alloc::{AllocError, Global};

/// The shape of an expression. An error is want of memory.
#[cycle(shape)]
pub(crate) fn shape<'p>(alloc: Global, table: &Table<'p>, e: &'p Expr) -> Result<Shape, AllocError>
    ensures { IfOk result (λ w. shape_of w ≡ expressions.shape_of (flows_of table.now) (plain_expr e.now)) }
{
    match e {
        Expr::Integer(_) => Ok(Shape::Constant(Level::Scalar(Kind::Whole))),
        Expr::Text(_) => Ok(Shape::Constant(Level::Scalar(Kind::Letters))),
        Expr::Truth(_) => Ok(Shape::Constant(Level::Scalar(Kind::Truth))),
        Expr::Undefined => Ok(Shape::Plain(Level::Nothing)),
        Expr::Name(x) => Ok(Shape::Plain(table.get(Target::Into(name_of(x))))),
        Expr::Apply(o, es) => apply(alloc, table, *o, es.as_slice()),
        Expr::Chain(first, ls) => {
            let w = shape(alloc, table, first.get())?;
            links(alloc, table, ls.as_slice(), w)
        }
        Expr::Choose(_, a, b) => {
            let v = shape(alloc, table, a.get())?;
            let w = shape(alloc, table, b.get())?;
            Ok(Shape::Plain(join(v.flow(), w.flow())))
        }
        Expr::Former(k, e, _, _) => former(alloc, table, *k, e.get()),
        Expr::Selection(k, b, es, _) => selection(alloc, table, *k, b, es.as_slice()),
        Expr::Quantified(_, _, _) => Ok(Shape::Plain(Level::Scalar(Kind::Truth))),
        Expr::Call(f, _) => Ok(Shape::Plain(table.get(Target::ResultOf(*f as u64)))),
        Expr::Newat => Ok(Shape::Plain(Level::Scalar(Kind::Token))),
        Expr::Eof => Ok(Shape::Plain(Level::Scalar(Kind::Truth))),
        Expr::Ok => Ok(Shape::Plain(Level::Scalar(Kind::Truth))),
    }
}

/// The shapes of expressions, in their order. An error is want of memory.
#[cycle(shape)]
pub(crate) fn shapes<'p>(
    alloc: Global,
    table: &Table<'p>,
    es: &'p [Expr],
) -> Result<Vec<Shape>, AllocError>
    ensures { IfOk result (λ ws. shapes_of ws.items ≡ expressions.shapes_of (flows_of table.now) (plain_exprs es.now)) }
{
    let mut all = Vec::new(alloc);
    for e in es {
        let w = shape(alloc, table, e)?;
        all.push(w)?;
    }
    Ok(all)
}

/// The shape of an operator over its operands. An error is want of memory.
#[cycle(shape)]
fn apply<'p>(
    alloc: Global,
    table: &Table<'p>,
    o: Operator,
    es: &'p [Expr],
) -> Result<Shape, AllocError>
    ensures { IfOk result (λ w. shape_of w ≡ expressions.shape_of (flows_of table.now) (Apply o (plain_exprs es.now))) }
{
    let ws = shapes(alloc, table, es)?;
    Ok(op_shape(o, ws.as_slice()))
}

/// The shape of links behind an expression of a shape. An error is want of memory.
#[cycle(shape)]
fn links<'p>(
    alloc: Global,
    table: &Table<'p>,
    ls: &'p [Link],
    w: Shape,
) -> Result<Shape, AllocError>
    ensures { IfOk result (λ v. (e : PlainExpr) → expressions.shape_of (flows_of table.now) e ≡ shape_of w → expressions.shape_of (flows_of table.now) (chained e (map plain_link ls.now)) ≡ shape_of v) }
{
    let mut all = w;
    for l in ls {
        all = link(alloc, table, l, all)?;
    }
    Ok(all)
}

/// The shape of a link behind an expression of a shape. An error is want of memory.
#[cycle(shape)]
fn link<'p>(alloc: Global, table: &Table<'p>, l: &'p Link, w: Shape) -> Result<Shape, AllocError>
    ensures { IfOk result (λ v. (e : PlainExpr) → expressions.shape_of (flows_of table.now) e ≡ shape_of w → expressions.shape_of (flows_of table.now) (plain_link l.now e) ≡ shape_of v) }
{
    match l {
        Link::Unary(o) => Ok(op_shape(*o, &[w])),
        Link::Binary(o, x) => {
            let v = shape(alloc, table, x)?;
            Ok(op_shape(*o, &[w, v]))
        }
        Link::Ternary(o, x, y) => {
            let v = shape(alloc, table, x.get())?;
            let u = shape(alloc, table, y.get())?;
            Ok(op_shape(*o, &[w, v, u]))
        }
        Link::Connect(_, _) => Ok(Shape::Plain(Level::Scalar(Kind::Truth))),
    }
}

/// The shape of a former that collects an expression. An error is want of memory.
#[cycle(shape)]
fn former<'p>(
    alloc: Global,
    table: &Table<'p>,
    k: Collection,
    e: &'p Expr,
) -> Result<Shape, AllocError>
    ensures { IfOk result (λ w. shape_of w ≡ operators.Plain (expressions.of_members k (operators.Plain (expressions.flow_at (flows_of table.now) (plain_expr e.now))))) }
{
    let w = shape(alloc, table, e)?;
    Ok(Shape::Plain(of_members(k, Shape::Plain(w.flow()))))
}

/// The shape of a former that collects its members. An error is want of memory.
#[cycle(shape)]
fn selection<'p>(
    alloc: Global,
    table: &Table<'p>,
    k: Collection,
    b: &'p Binding,
    es: &'p [Expr],
) -> Result<Shape, AllocError>
    ensures { IfOk result (λ w. shape_of w ≡ operators.Plain (expressions.of_members k (expressions.member_shape (expressions.source_flow (begin_of (plain_binding b.now)) (operators.flows (expressions.shapes_of (flows_of table.now) (plain_exprs es.now))))))) }
{
    let ws = shapes(alloc, table, es)?;
    let f = source_flow(b, ws.as_slice());
    Ok(Shape::Plain(of_members(k, member_shape(f))))
}

/// The flow of an expression. An error is want of memory.
pub(crate) fn flow_at<'p>(alloc: Global, table: &Table<'p>, e: &'p Expr) -> Result<Flow, AllocError>
    ensures { IfOk result (λ f. flow_of f ≡ expressions.flow_at (flows_of table.now) (plain_expr e.now)) }
{
    Ok(shape(alloc, table, e)?.flow())
}
