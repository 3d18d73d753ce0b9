//! The grammar of expressions at a number of nestings.

ghost use Rattle.std.specs.Prelude.{◌≡◌};
ghost use Rattle.setl_tree.specs.declared.kind.Kind.TheVariants as k;
ghost use Rattle.setl_parse_reading.specs.code.Reading.{Reads};
ghost use Rattle.setl_parse_reading.specs.code.ReadExpressions.{nested};
ghost use Rattle.setl_parse_cursor.specs.code.Behind as behind;
ghost use Rattle.setl_parse_expressions.specs.code.Nests.{Nests};

use setl_parse_cursor::{Cursor, followed, held};
use setl_parse_reading::Fault;
use setl_tree::{Boxed, Expr, Kind};

/// What is read one nesting deeper.
#[derive(Drop)]
pub enum Part {
    /// An expression.
    Whole,
    /// The source of an iterator.
    Source,
    /// What goes on from a finished comparison.
    After(Boxed<Expr>),
}

/// The rules of expressions where so many nestings may still open. Each takes what stands one nesting deeper from
/// `inside`, and is so proved by itself.
#[derive(Drop)]
pub struct Grammar<F> {
    pub room: usize,
    pub inside: F,
}

impl<F: Fn(&mut Cursor<'_>, usize, Part) -> Result<Boxed<Expr>, Fault>> Grammar<F> {
    /// An expression one nesting deeper, in a box.
    pub fn boxed(&self, tokens: &mut Cursor<'_>) -> Result<Boxed<Expr>, Fault>
        requires { Nests self.now.room (F.pre self.now.inside) (F.post self.now.inside) }
        ensures { Reads ((nested self.now.room).expr tokens.old) result tokens.new }
    {
        (self.inside)(tokens, self.room, Part::Whole)
    }

    /// An expression one nesting deeper, in a box, behind which a token of this kind stands.
    pub fn boxed_before(&self, kind: Kind, tokens: &mut Cursor<'_>) -> Result<Boxed<Expr>, Fault>
        requires { Nests self.now.room (F.pre self.now.inside) (F.post self.now.inside) }
        ensures { Reads (behind.before (nested self.now.room).expr kind tokens.old) result tokens.new }
    {
        let x = self.boxed(tokens)?;
        followed(x, kind, tokens)
    }

    /// What was read, and behind a token of this kind an expression one nesting deeper, in a box.
    pub fn boxed_behind<T: Drop>(
        &self,
        head: T,
        kind: Kind,
        tokens: &mut Cursor<'_>,
    ) -> Result<(T, Boxed<Expr>), Fault>
        requires { Nests self.now.room (F.pre self.now.inside) (F.post self.now.inside) }
        ensures { Reads (behind.behind head kind (nested self.now.room).expr tokens.old) result tokens.new }
    {
        let head = followed(head, kind, tokens)?;
        Ok(held(head, self.boxed(tokens))?)
    }

    /// The source of an iterator one nesting deeper.
    pub fn source(&self, tokens: &mut Cursor<'_>) -> Result<Boxed<Expr>, Fault>
        requires { Nests self.now.room (F.pre self.now.inside) (F.post self.now.inside) }
        ensures { Reads ((nested self.now.room).source tokens.old) result tokens.new }
    {
        (self.inside)(tokens, self.room, Part::Source)
    }

    /// What an iterator binds, and behind `in` its source one nesting deeper.
    pub fn over<T: Drop>(
        &self,
        bound: T,
        tokens: &mut Cursor<'_>,
    ) -> Result<(T, Boxed<Expr>), Fault>
        requires { Nests self.now.room (F.pre self.now.inside) (F.post self.now.inside) }
        ensures { Reads (behind.behind bound k.In (nested self.now.room).source tokens.old) result tokens.new }
    {
        let bound = followed(bound, Kind::In, tokens)?;
        Ok(held(bound, self.source(tokens))?)
    }

    /// What goes on from a comparison one nesting deeper.
    pub fn after(&self, a: Boxed<Expr>, tokens: &mut Cursor<'_>) -> Result<Boxed<Expr>, Fault>
        requires { Nests self.now.room (F.pre self.now.inside) (F.post self.now.inside) }
        ensures { Reads ((nested self.now.room).after a tokens.old) result tokens.new }
    {
        (self.inside)(tokens, self.room, Part::After(a))
    }
}
