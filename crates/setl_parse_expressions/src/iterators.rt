//! Iterators.

ghost use Rattle.std.specs.Prelude.{◌≡◌, ◌-◌};
ghost use Rattle.setl_parse_reading.specs.code.Reading.{Reads};
ghost use Rattle.setl_parse_reading.specs.code.ReadExpressions as spec;
ghost use Rattle.setl_parse_reading.specs.code.ReadExpressions.{nested};
ghost use Rattle.setl_parse_expressions.specs.code.Nests.{Nests};

use crate::grammar::{Grammar, Part};
use crate::made::over;
use setl_parse_cursor::{Cursor, Rule, argument, pattern, same_kind, separated_boxed};
use setl_parse_reading::Fault;
use setl_tree::{Bound, Boxed, Expr, Items, Iter, Kind, Text};

/// The map and its argument behind `value =`.
#[inline(never)]
#[tactic(auto, unfolding(setl_parse_reading::specs::code::ReadExpressions::image))]
fn image(room: usize, value: Text, tokens: &mut Cursor<'_>) -> Result<Boxed<Iter>, Fault>
    ensures { Reads (spec.image room value tokens.old) result tokens.new }
{
    let map = tokens.name()?;
    let argument = argument(room, tokens)?;
    Ok(Boxed::new(tokens.alloc(), Iter::Image(value, map, argument))?)
}

/// An iterator.
#[derive(Drop)]
struct IterRule<'g, F> {
    grammar: &'g Grammar<F>,
}

impl<'g, F: Fn(&mut Cursor<'_>, usize, Part) -> Result<Boxed<Expr>, Fault>> Rule
    for IterRule<'g, F> {
    type Out = Boxed<Iter>;

    ghost use Rattle.std.specs.Prelude.{◌-◌};
    ghost use Rattle.setl_parse_reading.specs.code.ReadExpressions.{nested, iter};
    ghost use Rattle.setl_parse_expressions.specs.code.Nests.{Nests};

    ghost can_read = { λ s. Nests s.grammar.now.room (F.pre s.grammar.now.inside) (F.post s.grammar.now.inside) };

    ghost reader = { λ s. iter (s.grammar.now.room - 1) (nested s.grammar.now.room).source };

    #[tactic(auto, unfolding(setl_parse_reading::specs::code::ReadExpressions::iter))]
    fn read(&self, tokens: &mut Cursor<'_>) -> Result<Boxed<Iter>, Fault> {
        if same_kind(tokens.kind(), Kind::Name) {
            let name = tokens.name()?;
            return self.grammar.named_iter(name, tokens);
        }
        self.grammar.pattern_iter(tokens)
    }
}

impl<F: Fn(&mut Cursor<'_>, usize, Part) -> Result<Boxed<Expr>, Fault>> Grammar<F> {
    /// An iterator behind its name.
    #[tactic(auto, unfolding(setl_parse_reading::specs::code::ReadExpressions::named_iter))]
    fn named_iter(&self, name: Text, tokens: &mut Cursor<'_>) -> Result<Boxed<Iter>, Fault>
        requires { Nests self.now.room (F.pre self.now.inside) (F.post self.now.inside) }
        ensures { Reads (spec.named_iter (self.now.room - 1) (nested self.now.room).source name tokens.old) result tokens.new }
    {
        if same_kind(tokens.kind(), Kind::Equal) {
            tokens.expect(Kind::Equal)?;
            return image(self.room.saturating_sub(1), name, tokens);
        }
        let (name, source) = self.over(name, tokens)?;
        over(tokens.alloc(), Bound::Name(name), source)
    }

    /// An iterator that binds the components of a pattern.
    #[tactic(auto, unfolding(setl_parse_reading::specs::code::ReadExpressions::pattern_iter))]
    fn pattern_iter(&self, tokens: &mut Cursor<'_>) -> Result<Boxed<Iter>, Fault>
        requires { Nests self.now.room (F.pre self.now.inside) (F.post self.now.inside) }
        ensures { Reads (spec.pattern_iter (self.now.room - 1) (nested self.now.room).source tokens.old) result tokens.new }
    {
        let slots = pattern(self.room.saturating_sub(1), tokens)?;
        let (slots, source) = self.over(slots, tokens)?;
        over(tokens.alloc(), Bound::Pattern(slots), source)
    }

    /// Iterators one nesting deeper, with commas between.
    #[inline(never)]
    #[tactic(auto, unfolding(setl_parse_reading::specs::code::ReadExpressions::iters))]
    pub fn iters(&self, tokens: &mut Cursor<'_>) -> Result<Items<Iter>, Fault>
        requires { Nests self.now.room (F.pre self.now.inside) (F.post self.now.inside) }
        ensures { Reads (spec.iters (self.now.room - 1) (nested self.now.room).source tokens.old) result tokens.new }
    {
        separated_boxed(&IterRule { grammar: self }, tokens)
    }
}
