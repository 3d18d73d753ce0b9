//! Expressions.

ghost use Rattle.std.specs.Prelude.{◌≡◌, [], ◌∷◌, ◌++◌, OnOk, map, option_map};
ghost use Rattle.setl_tree.specs.declared.kind.Kind.TheVariants as k;
ghost use Rattle.setl_tree.specs.Canonical as spec;
ghost use Rattle.setl_tree.specs.Canonical.{sign, name_token, bracketed, expr_tokens, inner_tokens, iter_tokens, selector_tokens, shown, tokens_of};
ghost use Rattle.setl_token.specs.Spellings.{IsSpelled};
ghost use Rattle.setl_show.specs.Text.{with_tokens};

use crate::lists::with_commas;
use crate::operators::prefixes;
use crate::writer::Writer;
use setl_show_notation::{is_operation, is_selection, op_kind, quantifier_kind, relation_kind};
use setl_tree::{BinaryOp, Bound, Boxed, Expr, Inner, Iter, Kind, Selector, Slot, Text};
use std::alloc::AllocError;

/// Names in brackets.
pub fn pattern(slots: &[Slot], to: &mut Writer) -> Result<(), AllocError>
    ensures { OnOk result (to.new ≡ with_tokens to.old (spec.pattern_tokens slots.now)) }
{
    to.sign(Kind::LeftBracket)?;
    with_commas(slots, to)?;
    to.sign(Kind::RightBracket)
}

/// What an iterator binds.
fn bound(b: &Bound, to: &mut Writer) -> Result<(), AllocError>
    ensures { OnOk result (to.new ≡ with_tokens to.old (spec.bound_tokens b.now)) }
{
    match b {
        Bound::Name(name) => to.name(name),
        Bound::Pattern(slots) => pattern(slots.as_slice(), to),
    }
}

/// The image of a map at an argument, and what it is bound to.
fn image(value: &Text, name: &Text, argument: &Text, to: &mut Writer) -> Result<(), AllocError>
    ensures { OnOk result (to.new ≡ with_tokens to.old (name_token value.now ∷ sign k.Equal ∷ name_token name.now ∷ sign k.LeftParen ∷ name_token argument.now ∷ sign k.RightParen ∷ [])) }
{
    to.name_before(value, Kind::Equal)?;
    to.name_before(name, Kind::LeftParen)?;
    to.name_before(argument, Kind::RightParen)
}

/// An expression.
#[cycle(showing)]
pub fn expr(x: &Expr, to: &mut Writer) -> Result<(), AllocError>
    ensures { OnOk result (to.new ≡ with_tokens to.old (expr_tokens x.now)) }
{
    match x {
        Expr::Number(n) => to.number(*n),
        Expr::Text(text) => to.string(text),
        Expr::Om => to.sign(Kind::Om),
        Expr::True => to.sign(Kind::True),
        Expr::False => to.sign(Kind::False),
        Expr::Newat => to.sign(Kind::Newat),
        Expr::Eof => to.sign(Kind::Eof),
        Expr::Ok => to.sign(Kind::Ok),
        Expr::Name(name) => to.name(name),
        Expr::If(a, b, c) => {
            between(Kind::If, a.get(), Kind::Then, to)?;
            expr(b.get(), to)?;
            between(Kind::Else, c.get(), Kind::End, to)
        }
        Expr::Set(x) => inner_between(Kind::LeftBrace, x, Kind::RightBrace, to),
        Expr::Tuple(x) => inner_between(Kind::LeftBracket, x, Kind::RightBracket, to),
        Expr::Chain(first, others) => {
            operand(first.get(), to)?;
            operands(others.as_slice(), to)
        }
        Expr::Compare(a, relation, b) => {
            operand(a.get(), to)?;
            operand_behind(relation_kind(*relation), b.get(), to)
        }
        Expr::Prefixed(ps, x) => {
            prefixes(ps.as_slice(), to)?;
            operand(x.get(), to)
        }
        Expr::Selected(primary, ss) => {
            selected(primary.get(), to)?;
            selectors(ss.as_slice(), to)
        }
        Expr::Quantified(quantifier, over, x) => {
            iters_behind(quantifier_kind(*quantifier), over.as_slice(), to)?;
            expr_behind(Kind::Bar, x.get(), to)
        }
    }
}

/// An expression between two tokens.
#[cycle(showing)]
pub fn between(left: Kind, x: &Expr, right: Kind, to: &mut Writer) -> Result<(), AllocError>
    requires left { IsSpelled left }
    requires right { IsSpelled right }
    ensures { OnOk result (to.new ≡ with_tokens to.old (bracketed left (expr_tokens x.now) right)) }
{
    to.sign(left)?;
    expr(x, to)?;
    to.sign(right)
}

/// An expression behind a token.
#[cycle(showing)]
pub fn expr_behind(kind: Kind, x: &Expr, to: &mut Writer) -> Result<(), AllocError>
    requires { IsSpelled kind }
    ensures { OnOk result (to.new ≡ with_tokens to.old (sign kind ∷ expr_tokens x.now)) }
{
    to.sign(kind)?;
    expr(x, to)
}

/// An expression as an operand.
#[cycle(showing)]
fn operand(x: &Expr, to: &mut Writer) -> Result<(), AllocError>
    ensures { OnOk result (to.new ≡ with_tokens to.old (spec.as_operand (shown x.now))) }
{
    if is_operation(x) {
        between(Kind::LeftParen, x, Kind::RightParen, to)
    } else {
        expr(x, to)
    }
}

/// An expression before selectors.
#[cycle(showing)]
fn selected(x: &Expr, to: &mut Writer) -> Result<(), AllocError>
    ensures { OnOk result (to.new ≡ with_tokens to.old (spec.as_primary (shown x.now))) }
{
    if is_selection(x) {
        between(Kind::LeftParen, x, Kind::RightParen, to)
    } else {
        operand(x, to)
    }
}

/// An expression as an operand behind a token.
#[cycle(showing)]
fn operand_behind(kind: Kind, x: &Expr, to: &mut Writer) -> Result<(), AllocError>
    requires { IsSpelled kind }
    ensures { OnOk result (to.new ≡ with_tokens to.old (sign kind ∷ spec.as_operand (shown x.now))) }
{
    to.sign(kind)?;
    operand(x, to)
}

/// Operators with their right operands.
#[cycle(showing)]
fn operands(others: &[(BinaryOp, Expr)], to: &mut Writer) -> Result<(), AllocError>
    ensures { OnOk result (to.new ≡ with_tokens to.old (spec.operand_tokens (map (λ x. (x.0, shown x.1)) others.now))) }
{
    for (op, x) in others {
        operand_behind(op_kind(*op), x, to)?;
    }
    Ok(())
}

/// Expressions with commas between.
#[cycle(showing)]
pub fn exprs(xs: &[Expr], to: &mut Writer) -> Result<(), AllocError>
    ensures { OnOk result (to.new ≡ with_tokens to.old (spec.with_commas (tokens_of (map shown xs.now)))) }
{
    if xs.is_empty() {
        return Ok(());
    }
    expr(&xs[0], to)?;
    for i in 1..xs.len() {
        expr_behind(Kind::Comma, &xs[i], to)?;
    }
    Ok(())
}

/// An expression behind a token, if there is one.
#[cycle(showing)]
fn behind(kind: Kind, x: &Option<Boxed<Expr>>, to: &mut Writer) -> Result<(), AllocError>
    requires { IsSpelled kind }
    ensures { OnOk result (to.new ≡ with_tokens to.old (spec.behind kind (option_map shown x.now))) }
{
    match x {
        None => Ok(()),
        Some(x) => expr_behind(kind, x.get(), to),
    }
}

/// What stands inside braces or brackets.
#[cycle(showing)]
fn inner(x: &Inner, to: &mut Writer) -> Result<(), AllocError>
    ensures { OnOk result (to.new ≡ with_tokens to.old (inner_tokens x.now)) }
{
    match x {
        Inner::List(xs) => exprs(xs.as_slice(), to),
        Inner::Range(a, b, c) => {
            expr(a.get(), to)?;
            behind(Kind::Comma, b, to)?;
            expr_behind(Kind::Dots, c.get(), to)
        }
        Inner::Former(x, over, c) => {
            expr(x.get(), to)?;
            iters_behind(Kind::Colon, over.as_slice(), to)?;
            behind(Kind::Bar, c, to)
        }
        Inner::Filter(b, source, c) => {
            members(b, source.get(), to)?;
            expr_behind(Kind::Bar, c.get(), to)
        }
    }
}

/// What stands inside braces or brackets, with these.
#[cycle(showing)]
fn inner_between(left: Kind, x: &Inner, right: Kind, to: &mut Writer) -> Result<(), AllocError>
    requires left { IsSpelled left }
    requires right { IsSpelled right }
    ensures { OnOk result (to.new ≡ with_tokens to.old (bracketed left (inner_tokens x.now) right)) }
{
    to.sign(left)?;
    inner(x, to)?;
    to.sign(right)
}

/// What is bound to the members of an expression.
#[cycle(showing)]
fn members(b: &Bound, source: &Expr, to: &mut Writer) -> Result<(), AllocError>
    ensures { OnOk result (to.new ≡ with_tokens to.old (spec.bound_tokens b.now ++ sign k.In ∷ spec.as_operand (shown source.now))) }
{
    bound(b, to)?;
    operand_behind(Kind::In, source, to)
}

/// What a former, a loop or a quantifier runs over.
#[cycle(showing)]
fn iter(x: &Iter, to: &mut Writer) -> Result<(), AllocError>
    ensures { OnOk result (to.new ≡ with_tokens to.old (iter_tokens x.now)) }
{
    match x {
        Iter::Over(b, source) => members(b, source, to),
        Iter::Image(value, map, argument) => image(value, map, argument, to),
    }
}

/// Iterators with commas between, behind a token.
#[cycle(showing)]
pub fn iters_behind(kind: Kind, xs: &[Iter], to: &mut Writer) -> Result<(), AllocError>
    requires { IsSpelled kind }
    ensures { OnOk result (to.new ≡ with_tokens to.old (sign kind ∷ spec.with_commas (map iter_tokens xs.now))) }
{
    to.sign(kind)?;
    if xs.is_empty() {
        return Ok(());
    }
    iter(&xs[0], to)?;
    for i in 1..xs.len() {
        to.sign(Kind::Comma)?;
        iter(&xs[i], to)?;
    }
    Ok(())
}

/// A selector.
#[cycle(showing)]
fn selector(x: &Selector, to: &mut Writer) -> Result<(), AllocError>
    ensures { OnOk result (to.new ≡ with_tokens to.old (selector_tokens x.now)) }
{
    match x {
        Selector::Round(xs) => exprs_between(Kind::LeftParen, xs.as_slice(), Kind::RightParen, to),
        Selector::Slice(a, b) => {
            between(Kind::LeftParen, a.get(), Kind::Dots, to)?;
            if let Some(b) = b {
                expr(b.get(), to)?;
            }
            to.sign(Kind::RightParen)
        }
        Selector::Braces(xs) => exprs_between(Kind::LeftBrace, xs.as_slice(), Kind::RightBrace, to),
    }
}

/// Expressions with commas between, in brackets of some kind.
#[cycle(showing)]
fn exprs_between(left: Kind, xs: &[Expr], right: Kind, to: &mut Writer) -> Result<(), AllocError>
    requires left { IsSpelled left }
    requires right { IsSpelled right }
    ensures { OnOk result (to.new ≡ with_tokens to.old (bracketed left (spec.with_commas (tokens_of (map shown xs.now))) right)) }
{
    to.sign(left)?;
    exprs(xs, to)?;
    to.sign(right)
}

/// Selectors.
#[cycle(showing)]
pub fn selectors(xs: &[Selector], to: &mut Writer) -> Result<(), AllocError>
    ensures { OnOk result (to.new ≡ with_tokens to.old (spec.all_of (map selector_tokens xs.now))) }
{
    for x in xs {
        selector(x, to)?;
    }
    Ok(())
}
