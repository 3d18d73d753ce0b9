//! Ranges.

ghost use Rattle.std.specs.Prelude.{◌≡◌, ◌∷◌, [], map, option_map, IfOk};
ghost use Rattle.setl_program.specs.Expressions as spec;
ghost use Rattle.setl_program.specs.code.Plain.{plain_expr};
ghost use Rattle.setl_program_elaborate.specs.Elaborators.{plain_range};

use crate::makers;
use setl_operators_table::Operator;
use setl_program::{Collection, Expr, Source};
use setl_tree::{Boxed, Items};
use std::alloc::{AllocError, Global};

/// The bounds of a range, of which the second may not be there.
pub type Bounds = ((Boxed<Expr>, Option<Boxed<Expr>>), Boxed<Expr>);

/// The one expression as a source. An error is want of memory.
#[inline(never)]
pub fn values(alloc: Global, value: Boxed<Expr>) -> Result<(Source, Items<Expr>), AllocError>
    ensures { IfOk result (λ r. plain_range r ≡ (Source.Values, plain_expr value ∷ [])) }
{
    let all = makers::alone(alloc, value.into_inner())?;
    Ok((Source::Values, all))
}

/// The bounds of a range in their order, without the second where it isn't there. An error is want of memory.
fn in_order(
    alloc: Global,
    first: Boxed<Expr>,
    second: Option<Boxed<Expr>>,
    last: Boxed<Expr>,
) -> Result<Items<Expr>, AllocError>
    ensures { IfOk result (λ es. map plain_expr es ≡ spec.bounds (plain_expr first) (option_map plain_expr second) (plain_expr last)) }
{
    let mut all = Items::new(alloc);
    all.push(first.into_inner())?;
    if let Some(second) = second {
        all.push(second.into_inner())?;
    }
    all.push(last.into_inner())?;
    Ok(all)
}

/// The operator of a range, by whether it has a second bound.
fn bounded_operator(collection: Collection, second: &Option<Boxed<Expr>>) -> Operator
    ensures { result ≡ spec.bounded_operator collection (option_map plain_expr second.now) }
{
    match (collection, second) {
        (Collection::OfSet, None) => Operator::SetRange,
        (Collection::OfTuple, None) => Operator::TupleRange,
        (Collection::OfSet, Some(_)) => Operator::SetStep,
        (Collection::OfTuple, Some(_)) => Operator::TupleStep,
    }
}

/// How the members of a range come, by whether it has a second bound.
fn bounded_source(collection: Collection, second: &Option<Boxed<Expr>>) -> Source
    ensures { result ≡ spec.bounded_source collection (option_map plain_expr second.now) }
{
    match (collection, second) {
        (_, None) => Source::Between,
        (Collection::OfSet, Some(_)) => Source::SetSteps,
        (Collection::OfTuple, Some(_)) => Source::TupleSteps,
    }
}

/// A range by its bounds. An error is want of memory.
#[inline(never)]
pub fn range(
    alloc: Global,
    collection: Collection,
    bounds: Bounds,
) -> Result<Boxed<Expr>, AllocError>
    ensures { IfOk result (λ e. plain_expr e ≡ spec.range_of collection (plain_expr bounds.0.0) (option_map plain_expr bounds.0.1) (plain_expr bounds.1)) }
{
    let ((first, second), last) = bounds;
    let operator = bounded_operator(collection, &second);
    let all = in_order(alloc, first, second, last)?;
    Boxed::new(alloc, Expr::Apply(operator, all))
}

/// A range that is written directly as a source, by its bounds. An error is want of memory.
#[inline(never)]
pub fn range_source(
    alloc: Global,
    collection: Collection,
    bounds: Bounds,
) -> Result<(Source, Items<Expr>), AllocError>
    ensures { IfOk result (λ r. plain_range r ≡ spec.range_source collection (plain_expr bounds.0.0) (option_map plain_expr bounds.0.1) (plain_expr bounds.1)) }
{
    let ((first, second), last) = bounds;
    let source = bounded_source(collection, &second);
    let all = in_order(alloc, first, second, last)?;
    Ok((source, all))
}

/// One expression alone, or the tuple of several. An error is want of memory.
#[inline(never)]
pub fn tuple_of_several(alloc: Global, all: Items<Expr>) -> Result<Boxed<Expr>, AllocError>
    ensures { IfOk result (λ e. plain_expr e ≡ spec.tuple_of_several (map plain_expr all)) }
{
    let mut all = all;
    if all.len() == 1 {
        if let Some(only) = all.pop() {
            return Boxed::new(alloc, only);
        }
    }
    Boxed::new(alloc, Expr::Apply(Operator::TupleOf, all))
}
