//! What stands in expressions.

ghost use Rattle.std.specs.Prelude.{◌≡◌, ◌++◌, map, option_map, OnOk, OnErr, IfOk, IfSome};
ghost use Rattle.setl_names.specs.Occurrences as spec;
ghost use Rattle.setl_names.specs.Occurrences.{part, turn, behind, standing_in, inner_standing, names_of_turns, names_of_bound};
ghost use Rattle.setl_names_walk.specs.Scopes.{place};
ghost use Rattle.setl_names_walk.specs.Walks.{here, after, with_own};

use crate::bound::{
    bind_bound, bind_turns, bound, bound_name, enter_filter, enter_former, named, put_bound,
    put_turn, quantify_turns,
};
use crate::scope::Scope;
use crate::walk::Walk;
use setl_names::{Argument, Name, What};
use setl_tree::{BinaryOp, Bound, Boxed, Expr, Inner, Items, Iter, Selector, Text};
use std::alloc::{AllocError, Global};

/// The name that an expression is, if it is a name alone.
fn name_of<'t>(x: &'t Expr) -> Option<Name<'t>>
    ensures name { result ≡ (part x.now).name }
    ensures standing { IfSome result (λ name. (part x.now).standing ≡ spec.named name) }
{
    match x {
        Expr::Name(name) => Some(Name::new(name)),
        Expr::Number(_) => None,
        Expr::Text(_) => None,
        Expr::Om => None,
        Expr::True => None,
        Expr::False => None,
        Expr::Newat => None,
        Expr::Eof => None,
        Expr::Ok => None,
        Expr::If(_, _, _) => None,
        Expr::Set(_) => None,
        Expr::Tuple(_) => None,
        Expr::Chain(_, _) => None,
        Expr::Compare(_, _, _) => None,
        Expr::Prefixed(_, _) => None,
        Expr::Selected(_, _) => None,
        Expr::Quantified(_, _, _) => None,
    }
}

/// An argument, as far as the rules ask for it.
fn argument<'t>(x: &'t Expr, line: u32, scope: &Scope) -> Argument<'t>
    ensures { result ≡ spec.argument_named (part x.now).name (place line scope.now) }
{
    match name_of(x) {
        None => Argument::Other,
        Some(name) => {
            let own = scope.own.has(name.text().bytes());
            let inside = scope.inside.has(name.text().bytes());
            Argument::Name(name, own, inside)
        }
    }
}

/// Arguments in their order.
fn arguments<'t>(
    alloc: Global,
    xs: &'t [Expr],
    line: u32,
    scope: &Scope,
) -> Result<Items<Argument<'t>>, AllocError>
    ensures { IfOk result (λ all. all ≡ spec.arguments (map part xs.now) (place line scope.now)) }
{
    let mut all = Items::new(alloc);
    for x in xs {
        all.push(argument(x, line, scope))?;
    }
    Ok(all)
}

/// Notes a name before a list in round brackets.
pub fn apply<'t>(
    name: &'t Text,
    xs: &'t [Expr],
    line: u32,
    walk: &mut Walk<'t>,
) -> Result<(), AllocError>
    ensures ok { OnOk result (walk.new ≡ after (spec.application name.now (map part xs.now) (here line walk.old)) walk.old) }
    ensures err { OnErr result (walk.new ≡ walk.old) }
{
    let own = walk.scope.own.has(name.bytes());
    let arguments = arguments(walk.alloc, xs, line, &walk.scope)?;
    walk.note(line, What::Applied(Name::new(name), own, arguments))
}

/// What stands in an expression.
#[cycle(standing)]
pub fn expr<'t>(x: &'t Expr, line: u32, walk: &mut Walk<'t>) -> Result<(), AllocError>
    ensures { OnOk result (walk.new ≡ after (standing_in x.now (here line walk.old)) walk.old) }
{
    match x {
        Expr::Number(_) => Ok(()),
        Expr::Text(_) => Ok(()),
        Expr::Om => Ok(()),
        Expr::True => Ok(()),
        Expr::False => Ok(()),
        Expr::Newat => Ok(()),
        Expr::Eof => Ok(()),
        Expr::Ok => Ok(()),
        Expr::Name(name) => named(name, line, walk),
        Expr::If(a, b, c) => choice(a.get(), b.get(), c.get(), line, walk),
        Expr::Set(x) => inner(x, line, walk),
        Expr::Tuple(x) => inner(x, line, walk),
        Expr::Chain(first, others) => chain(others.as_slice(), first.get(), line, walk),
        Expr::Compare(a, _, b) => comparison(a.get(), b.get(), line, walk),
        Expr::Prefixed(_, x) => expr(x.get(), line, walk),
        Expr::Selected(x, ss) => selection(ss.as_slice(), x.get(), line, walk),
        Expr::Quantified(_, turns, x) => quantified(turns.as_slice(), x.get(), line, walk),
    }
}

/// What stands in an `if` expression.
#[cycle(standing)]
fn choice<'t>(
    a: &'t Expr,
    b: &'t Expr,
    c: &'t Expr,
    line: u32,
    walk: &mut Walk<'t>,
) -> Result<(), AllocError>
    ensures { OnOk result (walk.new ≡ after (standing_in a.now (here line walk.old) ++ (standing_in b.now (here line walk.old) ++ standing_in c.now (here line walk.old))) walk.old) }
{
    expr(a, line, walk)?;
    comparison(b, c, line, walk)
}

/// What stands in two expressions.
#[cycle(standing)]
fn comparison<'t>(
    a: &'t Expr,
    b: &'t Expr,
    line: u32,
    walk: &mut Walk<'t>,
) -> Result<(), AllocError>
    ensures { OnOk result (walk.new ≡ after (standing_in a.now (here line walk.old) ++ standing_in b.now (here line walk.old)) walk.old) }
{
    expr(a, line, walk)?;
    expr(b, line, walk)
}

/// What stands in a chain of operators.
#[cycle(standing)]
fn chain<'t>(
    others: &'t [(BinaryOp, Expr)],
    first: &'t Expr,
    line: u32,
    walk: &mut Walk<'t>,
) -> Result<(), AllocError>
    ensures { OnOk result (walk.new ≡ after (standing_in first.now (here line walk.old) ++ spec.operands (map (λ x. (x.0, part x.1)) others.now) (here line walk.old)) walk.old) }
{
    expr(first, line, walk)?;
    operands(others, line, walk)
}

/// What stands in a selection.
#[cycle(standing)]
fn selection<'t>(
    ss: &'t [Selector],
    x: &'t Expr,
    line: u32,
    walk: &mut Walk<'t>,
) -> Result<(), AllocError>
    ensures { OnOk result (walk.new ≡ after (spec.selected (part x.now) (map behind ss.now) (here line walk.old)) walk.old) }
{
    match name_of(x) {
        None => {
            expr(x, line, walk)?;
            selectors(ss, line, walk)
        }
        Some(name) => name_selected(ss, name.text(), line, walk),
    }
}

/// What stands in a quantified expression.
#[cycle(standing)]
fn quantified<'t>(
    turns: &'t [Iter],
    x: &'t Expr,
    line: u32,
    walk: &mut Walk<'t>,
) -> Result<(), AllocError>
    ensures { OnOk result (walk.new ≡ after (spec.quantified_turns (map turn turns.now) (here line walk.old) ++ standing_in x.now (here line walk.old)) walk.old) }
{
    quantified_turns(turns, line, walk)?;
    expr(x, line, walk)
}

/// What stands in expressions.
#[cycle(standing)]
pub fn exprs<'t>(xs: &'t [Expr], line: u32, walk: &mut Walk<'t>) -> Result<(), AllocError>
    ensures { OnOk result (walk.new ≡ after (spec.all_parts (map part xs.now) (here line walk.old)) walk.old) }
{
    for x in xs {
        expr(x, line, walk)?;
    }
    Ok(())
}

/// What stands in the right operands of a chain.
#[cycle(standing)]
fn operands<'t>(
    others: &'t [(BinaryOp, Expr)],
    line: u32,
    walk: &mut Walk<'t>,
) -> Result<(), AllocError>
    ensures { OnOk result (walk.new ≡ after (spec.operands (map (λ x. (x.0, part x.1)) others.now) (here line walk.old)) walk.old) }
{
    for (_, x) in others {
        expr(x, line, walk)?;
    }
    Ok(())
}

/// What stands in an expression, if there is one.
#[cycle(standing)]
fn optional<'t>(
    x: &'t Option<Boxed<Expr>>,
    line: u32,
    walk: &mut Walk<'t>,
) -> Result<(), AllocError>
    ensures { OnOk result (walk.new ≡ after (spec.optional_part (option_map part x.now) (here line walk.old)) walk.old) }
{
    match x {
        None => Ok(()),
        Some(x) => expr(x.get(), line, walk),
    }
}

/// What stands in a name with selectors.
#[cycle(standing)]
fn name_selected<'t>(
    ss: &'t [Selector],
    name: &'t Text,
    line: u32,
    walk: &mut Walk<'t>,
) -> Result<(), AllocError>
    ensures { OnOk result (walk.new ≡ after (spec.name_selected name.now (map behind ss.now) (here line walk.old)) walk.old) }
{
    match ss {
        [] => named(name, line, walk),
        [Selector::Round(xs), others @ ..] => {
            applied(name, xs.as_slice(), line, walk)?;
            selectors(others, line, walk)
        }
        [Selector::Slice(_, _), ..] => {
            named(name, line, walk)?;
            selectors(ss, line, walk)
        }
        [Selector::Braces(_), ..] => {
            named(name, line, walk)?;
            selectors(ss, line, walk)
        }
    }
}

/// What stands in a name before a list in round brackets, and in the list.
#[cycle(standing)]
pub fn applied<'t>(
    name: &'t Text,
    xs: &'t [Expr],
    line: u32,
    walk: &mut Walk<'t>,
) -> Result<(), AllocError>
    ensures { OnOk result (walk.new ≡ after (spec.applied name.now (map part xs.now) (here line walk.old)) walk.old) }
{
    apply(name, xs, line, walk)?;
    exprs(xs, line, walk)
}

/// What stands in the iterators of a quantified expression.
#[cycle(standing)]
fn quantified_turns<'t>(turns: &'t [Iter], line: u32, walk: &mut Walk<'t>) -> Result<(), AllocError>
    ensures { OnOk result (walk.new ≡ after (spec.quantified_turns (map turn turns.now) (here line walk.old)) walk.old) }
{
    quantify_turns(turns, line, walk)?;
    ordinary_turns(turns, line, walk)
}

/// What stands in the iterators of a loop or a quantified expression, as they bind variables.
#[cycle(standing)]
pub fn ordinary_turns<'t>(
    turns: &'t [Iter],
    line: u32,
    walk: &mut Walk<'t>,
) -> Result<(), AllocError>
    ensures { OnOk result (walk.new ≡ after (spec.ordinary_turns (map turn turns.now) (here line walk.old)) walk.old) }
{
    variable_turns(turns, line, walk)?;
    bind_turns(turns, line, walk)
}

/// What stands in iterators that bind variables.
#[cycle(standing)]
fn variable_turns<'t>(turns: &'t [Iter], line: u32, walk: &mut Walk<'t>) -> Result<(), AllocError>
    ensures { OnOk result (walk.new ≡ after (spec.variable_turns (map turn turns.now) (here line walk.old)) walk.old) }
{
    for x in turns {
        iterator(x, false, line, walk)?;
    }
    Ok(())
}

/// What stands in an iterator.
#[cycle(standing)]
fn iterator<'t>(x: &'t Iter, own: bool, line: u32, walk: &mut Walk<'t>) -> Result<(), AllocError>
    ensures { OnOk result (walk.new ≡ after ((turn x.now).standing own (here line walk.old)) walk.old) }
{
    match x {
        Iter::Over(b, source) => {
            bound(b, own, line, walk)?;
            expr(source, line, walk)
        }
        Iter::Image(value, map, argument) => {
            bound_name(value, own, line, walk)?;
            named(map, line, walk)?;
            bound_name(argument, own, line, walk)
        }
    }
}

/// What stands in iterators that bind a former's own names. These are then put into the scope.
#[cycle(standing)]
fn own_turns<'t>(turns: &'t [Iter], line: u32, walk: &mut Walk<'t>) -> Result<(), AllocError>
    ensures { OnOk result (walk.new ≡ after (spec.own_turns (map turn turns.now) (here line walk.old)) (with_own (names_of_turns (map turn turns.now)) walk.old)) }
{
    for x in turns {
        iterator(x, true, line, walk)?;
        put_turn(x, walk)?;
    }
    Ok(())
}

/// What stands inside braces or brackets.
#[cycle(standing)]
fn inner<'t>(x: &'t Inner, line: u32, walk: &mut Walk<'t>) -> Result<(), AllocError>
    ensures { OnOk result (walk.new ≡ after (inner_standing x.now (here line walk.old)) walk.old) }
{
    match x {
        Inner::List(xs) => exprs(xs.as_slice(), line, walk),
        Inner::Range(a, b, c) => range(a.get(), b, c.get(), line, walk),
        Inner::Former(value, turns, condition) => {
            former(value.get(), turns.as_slice(), condition, line, walk)
        }
        Inner::Filter(names, source, condition) => {
            filter(source.get(), names, condition.get(), line, walk)
        }
    }
}

/// What stands in a range.
#[cycle(standing)]
fn range<'t>(
    a: &'t Expr,
    b: &'t Option<Boxed<Expr>>,
    c: &'t Expr,
    line: u32,
    walk: &mut Walk<'t>,
) -> Result<(), AllocError>
    ensures { OnOk result (walk.new ≡ after (standing_in a.now (here line walk.old) ++ (spec.optional_part (option_map part b.now) (here line walk.old) ++ standing_in c.now (here line walk.old))) walk.old) }
{
    expr(a, line, walk)?;
    optional(b, line, walk)?;
    expr(c, line, walk)
}

/// What stands in a former.
#[cycle(standing)]
fn former<'t>(
    value: &'t Expr,
    turns: &'t [Iter],
    condition: &'t Option<Boxed<Expr>>,
    line: u32,
    walk: &mut Walk<'t>,
) -> Result<(), AllocError>
    ensures { OnOk result (walk.new ≡ after (spec.former (part value.now) (map turn turns.now) (option_map part condition.now) (here line walk.old)) walk.old) }
{
    let mark = enter_former(turns, walk)?;
    expr(value, line, walk)?;
    walk.scope.own.truncate(mark.own);
    own_turns(turns, line, walk)?;
    optional(condition, line, walk)?;
    walk.scope.leave(mark);
    bind_turns(turns, line, walk)?;
    Ok(())
}

/// What stands in a former that collects what it binds.
#[cycle(standing)]
fn filter<'t>(
    source: &'t Expr,
    names: &'t Bound,
    condition: &'t Expr,
    line: u32,
    walk: &mut Walk<'t>,
) -> Result<(), AllocError>
    ensures { OnOk result (walk.new ≡ after (spec.filter (names_of_bound names.now) (part source.now) (part condition.now) (here line walk.old)) walk.old) }
{
    let mark = enter_filter(names, line, walk)?;
    expr(source, line, walk)?;
    put_bound(names, walk)?;
    expr(condition, line, walk)?;
    walk.scope.leave(mark);
    bind_bound(names, line, walk)?;
    Ok(())
}

/// What stands in selectors.
#[cycle(standing)]
pub fn selectors<'t>(ss: &'t [Selector], line: u32, walk: &mut Walk<'t>) -> Result<(), AllocError>
    ensures { OnOk result (walk.new ≡ after (spec.all_behind (map behind ss.now) (here line walk.old)) walk.old) }
{
    for x in ss {
        selector(x, line, walk)?;
    }
    Ok(())
}

/// What stands in a selector that isn't the list of a call.
#[cycle(standing)]
fn selector<'t>(x: &'t Selector, line: u32, walk: &mut Walk<'t>) -> Result<(), AllocError>
    ensures { OnOk result (walk.new ≡ after ((behind x.now).standing (here line walk.old)) walk.old) }
{
    match x {
        Selector::Round(xs) => loose_list(xs.as_slice(), line, walk),
        Selector::Slice(a, b) => {
            expr(a.get(), line, walk)?;
            optional(b, line, walk)
        }
        Selector::Braces(xs) => exprs(xs.as_slice(), line, walk),
    }
}

/// What stands in a list in round brackets that doesn't stand behind a name.
#[cycle(standing)]
fn loose_list<'t>(xs: &'t [Expr], line: u32, walk: &mut Walk<'t>) -> Result<(), AllocError>
    ensures { OnOk result (walk.new ≡ after (spec.loose_list (map part xs.now) (here line walk.old)) walk.old) }
{
    if xs.is_empty() {
        return walk.note(line, What::EmptyList);
    }
    exprs(xs, line, walk)
}
