//! Expressions with at most so many nestings.

ghost use Rattle.std.specs.Prelude.{◌-◌, suc};
ghost use Rattle.setl_parse_reading.specs.code.Reading.{Reads, refuse};
ghost use Rattle.setl_parse_reading.specs.code.ReadExpressions as spec;
ghost use Rattle.setl_parse_expressions.specs.code.Nests.{Nests, reader_of};

use crate::grammar::{Grammar, Part};
use setl_parse_cursor::{Cursor, Repeated, Rule, same_kind};
use setl_parse_reading::Fault;
use setl_tree::{Boxed, Expr, Items, Iter, Kind, Selector};

/// The fault of what may not be read, which is let go.
#[inline(never)]
fn refused<T: Drop>(_part: T, tokens: &mut Cursor<'_>) -> Result<Boxed<Expr>, Fault>
    ensures { Reads (refuse tokens.old) result tokens.new }
{
    Err(tokens.refuse())
}

/// A part of expressions, by what reads the parts one nesting deeper.
fn part_with<F: Fn(&mut Cursor<'_>, usize, Part) -> Result<Boxed<Expr>, Fault>>(
    room: usize,
    inside: F,
    part: Part,
    tokens: &mut Cursor<'_>,
) -> Result<Boxed<Expr>, Fault>
    requires { Nests room (F.pre inside) (F.post inside) }
    ensures { Reads (reader_of (spec.nested (suc room)) part tokens.old) result tokens.new }
{
    Grammar { room, inside }.part(part, tokens)
}

/// A part of expressions where so many nestings may still open around it.
fn nested(tokens: &mut Cursor<'_>, room: usize, part: Part) -> Result<Boxed<Expr>, Fault>
    ensures { Reads (reader_of (spec.nested room) part tokens.old) result tokens.new }
{
    if room == 0 {
        return refused(part, tokens);
    }
    part_with(room - 1, nested, part, tokens)
}

/// Reads an expression with at most so many nestings inside one another.
#[tactic(auto, unfolding(setl_parse_reading::specs::code::ReadExpressions::expr))]
pub fn expr(room: usize, tokens: &mut Cursor<'_>) -> Result<Expr, Fault>
    ensures { Reads (spec.expr room tokens.old) result tokens.new }
{
    let grammar = Grammar {
        room,
        inside: nested,
    };
    Ok(grammar.whole(tokens)?.into_inner())
}

/// Reads an expression inside a nesting that `room` still counts; at 0 always a syntax fault.
pub fn nested_expr(room: usize, tokens: &mut Cursor<'_>) -> Result<Boxed<Expr>, Fault>
    ensures { Reads ((spec.nested room).expr tokens.old) result tokens.new }
{
    nested(tokens, room, Part::Whole)
}

/// `nested_expr` as a rule.
#[derive(Drop)]
pub struct NestedExpr {
    pub room: usize,
}

impl Rule for NestedExpr {
    type Out = Expr;

    ghost use Rattle.setl_parse_reading.specs.code.ReadExpressions.{nested};

    ghost can_read = { λ s. Unit {0} };

    ghost reader = { λ s. (nested s.room).expr };

    fn read(&self, tokens: &mut Cursor<'_>) -> Result<Expr, Fault> {
        Ok(nested_expr(self.room, tokens)?.into_inner())
    }
}

/// A bar and a condition behind it, inside a nesting that is counted in `room`, as a rule.
#[derive(Drop)]
pub struct Condition {
    pub room: usize,
}

impl Rule for Condition {
    type Out = Boxed<Expr>;

    ghost use Rattle.setl_parse_reading.specs.code.ReadExpressions.{nested, condition};

    ghost can_read = { λ s. Unit {0} };

    ghost reader = { λ s. condition s.room (nested s.room) };

    #[tactic(auto, unfolding(setl_parse_reading::specs::code::ReadExpressions::condition))]
    fn read(&self, tokens: &mut Cursor<'_>) -> Result<Boxed<Expr>, Fault> {
        tokens.expect(Kind::Bar)?;
        nested_expr(self.room, tokens)
    }
}

impl Repeated for Condition {
    ghost use Rattle.setl_tree.specs.declared.kind.Kind.TheVariants as k;
    ghost use Rattle.setl_parse_reading.specs.code.Reading.{is};

    ghost begins_with = { λ s. is k.Bar };

    fn begins(&self, kind: Kind) -> bool {
        same_kind(kind, Kind::Bar)
    }
}

/// Reads iterators with commas between, inside a nesting that is counted in `room`.
pub fn iters(room: usize, tokens: &mut Cursor<'_>) -> Result<Items<Iter>, Fault>
    ensures { Reads (spec.iters (room - 1) (spec.nested room).source tokens.old) result tokens.new }
{
    Grammar {
        room,
        inside: nested,
    }
    .iters(tokens)
}

/// Reads one or more expressions in braces, where so many nestings may still open.
pub fn braces(room: usize, tokens: &mut Cursor<'_>) -> Result<Selector, Fault>
    ensures { Reads (spec.braces room (spec.nested room) tokens.old) result tokens.new }
{
    let grammar = Grammar {
        room,
        inside: nested,
    };
    Ok(grammar.braces(tokens)?.into_inner())
}
