//! The flows of terms.

ghost use Rattle.std.specs.Prelude.{◌≡◌, IfOk};
ghost use Rattle.setl_program.specs.Program.{begin_of};
ghost use Rattle.setl_program.specs.code.Plain.{plain_binding, plain_expr, plain_exprs, plain_place};
ghost use Rattle.setl_advise_flows.specs.Operators.{flows};
ghost use Rattle.setl_advise_flows.specs.Expressions as expressions;
ghost use Rattle.setl_advise_lattice.specs.code.Levels.{flow_of};
ghost use Rattle.setl_advise_conditions.specs.Conditions.{Assigned, Updated, Remaining, term_flow};
ghost use Rattle.setl_advise_gathering.specs.code.Plain.{plain_term};
ghost use Rattle.setl_advise_terms.specs.code.Plain.{flows_of};

use crate::iterators::source_flow;
use crate::places::{after, place};
use crate::shapes::{flow_at, shape, shapes};
use crate::table::Table;
use setl_advise_gathering::{Target, Term};
use setl_advise_lattice::{Flow, Level, Shape, argument_flow, el, get_flow, op_shape, part};
use setl_operators_table::Operator;
use setl_program::{Binding, Expr, Place};
use std::alloc::{AllocError, Global};

/// The flow of what an iterator runs over. An error is want of memory.
fn source<'p>(
    alloc: Global,
    table: &Table<'p>,
    b: &'p Binding,
    es: &'p [Expr],
) -> Result<Flow, AllocError>
    ensures { IfOk result (λ f. flow_of f ≡ expressions.source_flow (begin_of (plain_binding b.now)) (flows (expressions.shapes_of (flows_of table.now) (plain_exprs es.now)))) }
{
    let ws = shapes(alloc, table, es)?;
    Ok(source_flow(b, ws.as_slice()))
}

/// What a place's variable holds after the value of an expression is put there. An error is want of memory.
fn assigned<'p>(
    alloc: Global,
    table: &Table<'p>,
    p: &'p Place,
    e: &'p Expr,
) -> Result<Flow, AllocError>
    ensures { IfOk result (λ f. flow_of f ≡ term_flow (flows_of table.now) (Assigned (plain_place p.now) (plain_expr e.now))) }
{
    let y = flow_at(alloc, table, e)?;
    after(alloc, table, p, y)
}

/// What a place's variable holds after the place is combined with the value of an expression. An error is want of memory.
fn updated<'p>(
    alloc: Global,
    table: &Table<'p>,
    o: Operator,
    p: &'p Place,
    e: &'p Expr,
) -> Result<Flow, AllocError>
    ensures { IfOk result (λ f. flow_of f ≡ term_flow (flows_of table.now) (Updated o (plain_place p.now) (plain_expr e.now))) }
{
    let w = shape(alloc, table, e)?;
    let y = op_shape(o, &[Shape::Plain(place(table, p)), w]);
    after(alloc, table, p, y.flow())
}

/// What a place's variable holds once something was taken from the place. An error is want of memory.
fn remaining<'p>(alloc: Global, table: &Table<'p>, p: &'p Place) -> Result<Flow, AllocError>
    ensures { IfOk result (λ f. flow_of f ≡ term_flow (flows_of table.now) (Remaining (plain_place p.now))) }
{
    after(alloc, table, p, place(table, p))
}

/// The flow of a term, by the flows of variables and results. An error is want of memory.
pub fn term<'p>(alloc: Global, table: &Table<'p>, t: Term<'p>) -> Result<Flow, AllocError>
    ensures { IfOk result (λ f. flow_of f ≡ term_flow (flows_of table.now) (plain_term t.entry)) }
{
    match t {
        Term::Anything => Ok(Level::Any),
        Term::Unset => Ok(Level::Nothing),
        Term::Held(x) => Ok(table.get(Target::Into(x))),
        Term::Value(e) => flow_at(alloc, table, e),
        Term::Component(e) => Ok(part(flow_at(alloc, table, e)?)),
        Term::Member(b, es) => Ok(el(source(alloc, table, b, es)?)),
        Term::MemberComponent(b, es) => Ok(part(el(source(alloc, table, b, es)?))),
        Term::Argument(b, es) => Ok(argument_flow(source(alloc, table, b, es)?)),
        Term::Image(b, es) => Ok(get_flow(source(alloc, table, b, es)?)),
        Term::Assigned(p, e) => assigned(alloc, table, p, e),
        Term::Updated(o, p, e) => updated(alloc, table, o, p, e),
        Term::Taken(p) => Ok(el(place(table, p))),
        Term::Remaining(p) => remaining(alloc, table, p),
    }
}
