//! Levels of operators.

ghost use Rattle.std.specs.Prelude.{◌≡◌};
ghost use Rattle.setl_parse_reading.specs.code.Reading.{Reads};
ghost use Rattle.setl_parse_reading.specs.code.ReadExpressions as spec;

use crate::made::chain_of;
use setl_parse_cursor::{Cursor, Repeated, Rule, op_at, with_many};
use setl_parse_reading::Fault;
use setl_tree::{BinaryOp, Boxed, Expr, Kind};

/// An operator of a level and its right operand.
#[derive(Drop)]
struct Operand<'r, R> {
    level: u8,
    item: &'r R,
}

impl<'r, R: Rule<Out = Boxed<Expr>>> Rule for Operand<'r, R> {
    type Out = (BinaryOp, Boxed<Expr>);

    ghost use Rattle.setl_parse_reading.specs.code.ReadExpressions.{operand};

    ghost can_read = { λ s. R.can_read s.item.now };

    ghost reader = { λ s. operand s.level (R.reader s.item.now) };

    #[tactic(auto, unfolding(setl_parse_reading::specs::code::Reading::one_of))]
    fn read(&self, tokens: &mut Cursor<'_>) -> Result<(BinaryOp, Boxed<Expr>), Fault> {
        let Some(op) = op_at(self.level, tokens.kind()) else {
            return Err(tokens.refuse());
        };
        tokens.pass();
        let right = self.item.read(tokens)?;
        Ok((op, right))
    }
}

impl<'r, R: Rule<Out = Boxed<Expr>>> Repeated for Operand<'r, R> {
    ghost use Rattle.setl_tree.specs.Operators.{op_at};
    ghost use Rattle.setl_parse_reading.specs.code.Reading.{begins_as};

    ghost begins_with = { λ s. begins_as (op_at s.level) };

    fn begins(&self, kind: Kind) -> bool {
        op_at(self.level, kind).is_some()
    }
}

/// What goes on from the first operand of a level.
#[inline(never)]
#[tactic(auto, using(crate::proofs::Many::none_begins), unfolding(setl_parse_reading::specs::code::ReadExpressions::operands))]
pub fn chain_from<R: Rule<Out = Boxed<Expr>>>(
    level: u8,
    item: &R,
    first: Boxed<Expr>,
    tokens: &mut Cursor<'_>,
) -> Result<Boxed<Expr>, Fault>
    requires { R.can_read item.now }
    ensures { Reads (spec.chain_from level (R.reader item.now) first tokens.old) result tokens.new }
{
    let operand = Operand { level, item };
    if !operand.begins(tokens.kind()) {
        return Ok(first);
    }
    let (first, others) = with_many(first, &operand, tokens)?;
    chain_of(tokens.alloc(), first, others)
}

/// A level of operators that group to the left.
#[derive(Drop)]
pub struct Chain<R> {
    pub level: u8,
    pub item: R,
}

impl<R: Rule<Out = Boxed<Expr>>> Rule for Chain<R> {
    type Out = Boxed<Expr>;

    ghost use Rattle.setl_parse_reading.specs.code.ReadExpressions.{chain};

    ghost can_read = { λ s. R.can_read s.item };

    ghost reader = { λ s. chain s.level (R.reader s.item) };

    fn read(&self, tokens: &mut Cursor<'_>) -> Result<Boxed<Expr>, Fault> {
        let first = self.item.read(tokens)?;
        chain_from(self.level, &self.item, first, tokens)
    }
}
