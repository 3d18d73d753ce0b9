//! The parts of statements that hold no statement.

ghost use Rattle.std.specs.Prelude.{◌≡◌, [], ◌∷◌, ◌++◌, OnOk, map};
ghost use Rattle.setl_tree.specs.declared.kind.Kind.TheVariants as k;
ghost use Rattle.setl_tree.specs.Canonical as spec;
ghost use Rattle.setl_tree.specs.Canonical.{sign, name_token, bracketed, expr_tokens, iter_tokens};
ghost use Rattle.setl_token.specs.Spellings.{IsSpelled};
ghost use Rattle.setl_show.specs.Text.{with_tokens};

use crate::expressions::{between, expr_behind, exprs, iters_behind, pattern, selectors};
use crate::lists::with_commas;
use crate::writer::Writer;
use setl_show_notation::{from_kind, op_kind};
use setl_tree::{BinaryOp, Expr, FromEnd, Iter, Kind, Place, Slot, Text};
use std::alloc::AllocError;

/// `end`, a word and `;`.
pub fn ending(word: Kind, to: &mut Writer) -> Result<(), AllocError>
    requires { IsSpelled word }
    ensures { OnOk result (to.new ≡ with_tokens to.old (spec.ending_tokens word)) }
{
    to.sign(Kind::End)?;
    to.signs(word, Kind::Semicolon)
}

/// A name with selectors.
fn place(p: &Place, to: &mut Writer) -> Result<(), AllocError>
    ensures { OnOk result (to.new ≡ with_tokens to.old (spec.place_tokens 0 p.now)) }
{
    to.name(&p.name)?;
    selectors(p.selectors.as_slice(), to)
}

/// `:=`, an expression and `;`.
fn value(x: &Expr, to: &mut Writer) -> Result<(), AllocError>
    ensures { OnOk result (to.new ≡ with_tokens to.old (sign k.Assign ∷ (expr_tokens x.now ++ sign k.Semicolon ∷ []))) }
{
    between(Kind::Assign, x, Kind::Semicolon, to)
}

/// An assignment to a place.
pub fn assign(p: &Place, x: &Expr, to: &mut Writer) -> Result<(), AllocError>
    ensures { OnOk result (to.new ≡ with_tokens to.old (spec.place_tokens 0 p.now ++ sign k.Assign ∷ (expr_tokens x.now ++ sign k.Semicolon ∷ []))) }
{
    place(p, to)?;
    value(x, to)
}

/// An assignment by an operator.
pub fn update(p: &Place, op: BinaryOp, x: &Expr, to: &mut Writer) -> Result<(), AllocError>
    ensures { OnOk result (to.new ≡ with_tokens to.old (spec.place_tokens 0 p.now ++ sign (spec.op_kind op) ∷ sign k.Assign ∷ (expr_tokens x.now ++ sign k.Semicolon ∷ []))) }
{
    place(p, to)?;
    to.sign(op_kind(op))?;
    value(x, to)
}

/// An assignment to the names of a pattern.
pub fn tuple_assign(slots: &[Slot], x: &Expr, to: &mut Writer) -> Result<(), AllocError>
    ensures { OnOk result (to.new ≡ with_tokens to.old (spec.pattern_tokens slots.now ++ sign k.Assign ∷ (expr_tokens x.now ++ sign k.Semicolon ∷ []))) }
{
    pattern(slots, to)?;
    value(x, to)
}

/// A statement that takes a member out of a place.
pub fn take(name: &Text, end: FromEnd, p: &Place, to: &mut Writer) -> Result<(), AllocError>
    ensures { OnOk result (to.new ≡ with_tokens to.old (name_token name.now ∷ sign (spec.from_kind end) ∷ (spec.place_tokens 0 p.now ++ sign k.Semicolon ∷ []))) }
{
    to.name_before(name, from_kind(end))?;
    place(p, to)?;
    to.sign(Kind::Semicolon)
}

/// Expressions with commas between.
fn expr_list(xs: &[Expr], to: &mut Writer) -> Result<(), AllocError>
    ensures { OnOk result (to.new ≡ with_tokens to.old (spec.with_commas (map expr_tokens xs.now))) }
{
    exprs(xs, to)
}

/// Expressions in parentheses, and `;`.
pub fn arguments(xs: &[Expr], to: &mut Writer) -> Result<(), AllocError>
    ensures { OnOk result (to.new ≡ with_tokens to.old (spec.in_round (map expr_tokens xs.now))) }
{
    to.sign(Kind::LeftParen)?;
    expr_list(xs, to)?;
    to.signs(Kind::RightParen, Kind::Semicolon)
}

/// Names in parentheses, and `;`.
pub fn names(xs: &[Text], to: &mut Writer) -> Result<(), AllocError>
    ensures { OnOk result (to.new ≡ with_tokens to.old (spec.in_round (map spec.single xs.now))) }
{
    to.sign(Kind::LeftParen)?;
    with_commas(xs, to)?;
    to.signs(Kind::RightParen, Kind::Semicolon)
}

/// A condition behind a bar, if there is one.
fn condition(x: &Option<Expr>, to: &mut Writer) -> Result<(), AllocError>
    ensures { OnOk result (to.new ≡ with_tokens to.old (spec.bar_tokens x.now)) }
{
    match x {
        None => Ok(()),
        Some(x) => expr_behind(Kind::Bar, x, to),
    }
}

/// The head of a `for` loop.
pub fn for_head(over: &[Iter], c: &Option<Expr>, to: &mut Writer) -> Result<(), AllocError>
    ensures { OnOk result (to.new ≡ with_tokens to.old (sign k.LeftParen ∷ sign k.For ∷ (spec.with_commas (map iter_tokens over.now) ++ (spec.bar_tokens c.now ++ sign k.RightParen ∷ [])))) }
{
    to.sign(Kind::LeftParen)?;
    iters_behind(Kind::For, over, to)?;
    condition(c, to)?;
    to.sign(Kind::RightParen)
}

/// The head of a `while` loop.
pub fn while_head(c: &Expr, to: &mut Writer) -> Result<(), AllocError>
    ensures { OnOk result (to.new ≡ with_tokens to.old (sign k.LeftParen ∷ bracketed k.While (expr_tokens c.now) k.RightParen)) }
{
    to.sign(Kind::LeftParen)?;
    between(Kind::While, c, Kind::RightParen, to)
}

/// A `return`, with its expression if there is one.
pub fn return_result(x: &Option<Expr>, to: &mut Writer) -> Result<(), AllocError>
    ensures { OnOk result (to.new ≡ with_tokens to.old (sign k.Return ∷ (spec.result_tokens x.now ++ sign k.Semicolon ∷ []))) }
{
    match x {
        None => to.signs(Kind::Return, Kind::Semicolon),
        Some(x) => between(Kind::Return, x, Kind::Semicolon, to),
    }
}

/// A statement of one word.
pub fn word(kind: Kind, to: &mut Writer) -> Result<(), AllocError>
    requires { IsSpelled kind }
    ensures { OnOk result (to.new ≡ with_tokens to.old (sign kind ∷ sign k.Semicolon ∷ [])) }
{
    to.signs(kind, Kind::Semicolon)
}
