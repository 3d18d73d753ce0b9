//! What stands inside braces and brackets.

ghost use Rattle.std.specs.Prelude.{◌≡◌, ◌-◌};
ghost use Rattle.setl_parse_reading.specs.code.Reading.{Reads};
ghost use Rattle.setl_parse_reading.specs.code.ReadExpressions as spec;
ghost use Rattle.setl_parse_reading.specs.code.ReadExpressions.{nested};
ghost use Rattle.setl_parse_expressions.specs.code.Nests.{Nests};
ghost use Rattle.setl_parse_expressions.specs.code.Parts as parts;

use crate::grammar::{Grammar, Part};
use crate::made::{self, membership, one_expr, two_exprs};
use setl_parse_cursor::{
    Cursor, Repeated, Rule, ahead, bound, closes, followed, held, more_boxed_onto, same_kind,
    with_optional,
};
use setl_parse_reading::{Ahead, Fault};
use setl_tree::{Bound, Boxed, Expr, Inner, Items, Iter, Kind};

/// An expression one nesting deeper, in a box.
#[derive(Drop)]
pub struct BoxedRule<'g, F> {
    pub grammar: &'g Grammar<F>,
}

impl<'g, F: Fn(&mut Cursor<'_>, usize, Part) -> Result<Boxed<Expr>, Fault>> Rule
    for BoxedRule<'g, F> {
    type Out = Boxed<Expr>;

    ghost use Rattle.std.specs.Prelude.{◌-◌};
    ghost use Rattle.setl_parse_reading.specs.code.ReadExpressions.{nested};
    ghost use Rattle.setl_parse_expressions.specs.code.Nests.{Nests};

    ghost can_read = { λ s. Nests s.grammar.now.room (F.pre s.grammar.now.inside) (F.post s.grammar.now.inside) };

    ghost reader = { λ s. (nested s.grammar.now.room).expr };

    fn read(&self, tokens: &mut Cursor<'_>) -> Result<Boxed<Expr>, Fault> {
        self.grammar.boxed(tokens)
    }
}

/// A condition behind a bar.
#[derive(Drop)]
pub struct ConditionRule<'g, F> {
    pub grammar: &'g Grammar<F>,
}

impl<'g, F: Fn(&mut Cursor<'_>, usize, Part) -> Result<Boxed<Expr>, Fault>> Rule
    for ConditionRule<'g, F> {
    type Out = Boxed<Expr>;

    ghost use Rattle.std.specs.Prelude.{◌-◌};
    ghost use Rattle.setl_parse_reading.specs.code.ReadExpressions.{nested, condition};
    ghost use Rattle.setl_parse_expressions.specs.code.Nests.{Nests};

    ghost can_read = { λ s. Nests s.grammar.now.room (F.pre s.grammar.now.inside) (F.post s.grammar.now.inside) };

    ghost reader = { λ s. condition (s.grammar.now.room - 1) (nested s.grammar.now.room) };

    #[tactic(auto, unfolding(setl_parse_reading::specs::code::ReadExpressions::condition))]
    fn read(&self, tokens: &mut Cursor<'_>) -> Result<Boxed<Expr>, Fault> {
        tokens.expect(Kind::Bar)?;
        self.grammar.boxed(tokens)
    }
}

impl<'g, F: Fn(&mut Cursor<'_>, usize, Part) -> Result<Boxed<Expr>, Fault>> Repeated
    for ConditionRule<'g, F> {
    ghost use Rattle.setl_tree.specs.declared.kind.Kind.TheVariants as k;
    ghost use Rattle.setl_parse_reading.specs.code.Reading.{is};

    ghost begins_with = { λ s. is k.Bar };

    fn begins(&self, kind: Kind) -> bool {
        same_kind(kind, Kind::Bar)
    }
}

impl<F: Fn(&mut Cursor<'_>, usize, Part) -> Result<Boxed<Expr>, Fault>> Grammar<F> {
    /// The iterators of a former, and its condition.
    fn clauses(&self, tokens: &mut Cursor<'_>) -> Result<(Items<Iter>, Option<Boxed<Expr>>), Fault>
        requires { Nests self.now.room (F.pre self.now.inside) (F.post self.now.inside) }
        ensures { Reads (parts.clauses (self.now.room - 1) (nested self.now.room) tokens.old) result tokens.new }
    {
        let over = self.iters(tokens)?;
        with_optional(over, &ConditionRule { grammar: self }, tokens)
    }

    /// A former behind `value :`.
    #[inline(never)]
    #[tactic(auto, unfolding(setl_parse_reading::specs::code::ReadExpressions::former))]
    fn former(&self, value: Boxed<Expr>, tokens: &mut Cursor<'_>) -> Result<Boxed<Inner>, Fault>
        requires { Nests self.now.room (F.pre self.now.inside) (F.post self.now.inside) }
        ensures { Reads (spec.former (self.now.room - 1) (nested self.now.room) value tokens.old) result tokens.new }
    {
        let (value, (over, condition)) = held(value, self.clauses(tokens))?;
        made::former(tokens.alloc(), value, over, condition)
    }

    /// What stands behind `a, b`, where no `..` does.
    fn two_and_more(
        &self,
        a: Boxed<Expr>,
        b: Boxed<Expr>,
        tokens: &mut Cursor<'_>,
    ) -> Result<Items<Expr>, Fault>
        requires { Nests self.now.room (F.pre self.now.inside) (F.post self.now.inside) }
        ensures { Reads (parts.two_and_more a b (nested self.now.room).expr tokens.old) result tokens.new }
    {
        let front = two_exprs(tokens.alloc(), a, b)?;
        more_boxed_onto(front, &BoxedRule { grammar: self }, tokens)
    }

    /// What stands behind `a, b`.
    #[tactic(auto, unfolding(setl_parse_reading::specs::code::ReadExpressions::third))]
    fn third(
        &self,
        a: Boxed<Expr>,
        b: Boxed<Expr>,
        tokens: &mut Cursor<'_>,
    ) -> Result<Boxed<Inner>, Fault>
        requires { Nests self.now.room (F.pre self.now.inside) (F.post self.now.inside) }
        ensures { Reads (spec.third (self.now.room - 1) (nested self.now.room) a b tokens.old) result tokens.new }
    {
        if same_kind(tokens.kind(), Kind::Dots) {
            let (between, last) = self.boxed_behind((a, b), Kind::Dots, tokens)?;
            return made::range(tokens.alloc(), between.0, Some(between.1), last);
        }
        let all = self.two_and_more(a, b, tokens)?;
        made::list(tokens.alloc(), all)
    }

    /// What stands behind `a`, where no `:` or `..` does.
    #[tactic(auto, unfolding(setl_parse_reading::specs::code::ReadExpressions::second))]
    fn second(&self, a: Boxed<Expr>, tokens: &mut Cursor<'_>) -> Result<Boxed<Inner>, Fault>
        requires { Nests self.now.room (F.pre self.now.inside) (F.post self.now.inside) }
        ensures { Reads (spec.second (self.now.room - 1) (nested self.now.room) a tokens.old) result tokens.new }
    {
        if same_kind(tokens.kind(), Kind::Comma) {
            let (a, b) = self.boxed_behind(a, Kind::Comma, tokens)?;
            return self.third(a, b, tokens);
        }
        let all = one_expr(tokens.alloc(), a)?;
        made::list(tokens.alloc(), all)
    }

    /// What stands behind the first expression, where no `..` does.
    #[tactic(auto, unfolding(setl_parse_reading::specs::code::ReadExpressions::unranged))]
    fn unranged(&self, a: Boxed<Expr>, tokens: &mut Cursor<'_>) -> Result<Boxed<Inner>, Fault>
        requires { Nests self.now.room (F.pre self.now.inside) (F.post self.now.inside) }
        ensures { Reads (spec.unranged (self.now.room - 1) (nested self.now.room) a tokens.old) result tokens.new }
    {
        if same_kind(tokens.kind(), Kind::Colon) {
            let a = followed(a, Kind::Colon, tokens)?;
            return self.former(a, tokens);
        }
        self.second(a, tokens)
    }

    /// What stands behind the first expression.
    #[inline(never)]
    #[tactic(auto, unfolding(setl_parse_reading::specs::code::ReadExpressions::rest_of_inner))]
    fn rest_of_inner(&self, a: Boxed<Expr>, tokens: &mut Cursor<'_>) -> Result<Boxed<Inner>, Fault>
        requires { Nests self.now.room (F.pre self.now.inside) (F.post self.now.inside) }
        ensures { Reads (spec.rest_of_inner (self.now.room - 1) (nested self.now.room) a tokens.old) result tokens.new }
    {
        if same_kind(tokens.kind(), Kind::Dots) {
            let (a, last) = self.boxed_behind(a, Kind::Dots, tokens)?;
            return made::range(tokens.alloc(), a, None, last);
        }
        self.unranged(a, tokens)
    }

    /// An expression in front, or nothing.
    #[tactic(auto, unfolding(setl_parse_reading::specs::code::ReadExpressions::plain))]
    fn plain(&self, tokens: &mut Cursor<'_>) -> Result<Boxed<Inner>, Fault>
        requires { Nests self.now.room (F.pre self.now.inside) (F.post self.now.inside) }
        ensures { Reads (spec.plain (self.now.room - 1) (nested self.now.room) tokens.old) result tokens.new }
    {
        if closes(tokens.kind()) {
            return made::list(tokens.alloc(), Items::new(tokens.alloc()));
        }
        let a = self.boxed(tokens)?;
        self.rest_of_inner(a, tokens)
    }

    /// A filter behind `bound in source`.
    #[inline(never)]
    #[tactic(auto, unfolding(setl_parse_reading::specs::code::ReadExpressions::filter, setl_parse_reading::specs::code::ReadExpressions::condition))]
    fn filter(
        &self,
        bound: Bound,
        source: Boxed<Expr>,
        tokens: &mut Cursor<'_>,
    ) -> Result<Boxed<Inner>, Fault>
        requires { Nests self.now.room (F.pre self.now.inside) (F.post self.now.inside) }
        ensures { Reads (spec.filter (self.now.room - 1) (nested self.now.room) bound source tokens.old) result tokens.new }
    {
        let (head, condition) = self.boxed_behind((bound, source), Kind::Bar, tokens)?;
        made::filter(tokens.alloc(), head.0, head.1, condition)
    }

    /// What stands behind `bound in source`, which may be the left side of an expression.
    #[inline(never)]
    #[tactic(auto, unfolding(setl_parse_reading::specs::code::ReadExpressions::filter_or_plain))]
    fn filter_or_plain(
        &self,
        bound: Bound,
        source: Boxed<Expr>,
        tokens: &mut Cursor<'_>,
    ) -> Result<Boxed<Inner>, Fault>
        requires { Nests self.now.room (F.pre self.now.inside) (F.post self.now.inside) }
        ensures { Reads (spec.filter_or_plain (self.now.room - 1) (nested self.now.room) bound source tokens.old) result tokens.new }
    {
        if same_kind(tokens.kind(), Kind::Bar) {
            return self.filter(bound, source, tokens);
        }
        let compared = membership(tokens.alloc(), bound, source)?;
        let a = self.after(compared, tokens)?;
        self.rest_of_inner(a, tokens)
    }

    /// `bound in source`, the source in a box.
    fn bound_in(&self, tokens: &mut Cursor<'_>) -> Result<(Bound, Boxed<Expr>), Fault>
        requires { Nests self.now.room (F.pre self.now.inside) (F.post self.now.inside) }
        ensures { Reads (parts.bound_in (self.now.room - 1) (nested self.now.room).source tokens.old) result tokens.new }
    {
        let bound = bound(self.room.saturating_sub(1), tokens)?;
        self.over(bound, tokens)
    }

    /// `bound in source`, and what goes on from them, where the bound may be an expression.
    #[inline(never)]
    #[tactic(auto, unfolding(setl_parse_reading::specs::code::ReadExpressions::bound_first))]
    fn either(&self, tokens: &mut Cursor<'_>) -> Result<Boxed<Inner>, Fault>
        requires { Nests self.now.room (F.pre self.now.inside) (F.post self.now.inside) }
        ensures { Reads (spec.bound_first (self.now.room - 1) (nested self.now.room) (spec.filter_or_plain (self.now.room - 1) (nested self.now.room)) tokens.old) result tokens.new }
    {
        let (bound, source) = self.bound_in(tokens)?;
        self.filter_or_plain(bound, source, tokens)
    }

    /// A filter whose bound is no expression.
    #[inline(never)]
    #[tactic(auto, unfolding(setl_parse_reading::specs::code::ReadExpressions::bound_first))]
    fn pattern_filter(&self, tokens: &mut Cursor<'_>) -> Result<Boxed<Inner>, Fault>
        requires { Nests self.now.room (F.pre self.now.inside) (F.post self.now.inside) }
        ensures { Reads (spec.bound_first (self.now.room - 1) (nested self.now.room) (spec.filter (self.now.room - 1) (nested self.now.room)) tokens.old) result tokens.new }
    {
        let (bound, source) = self.bound_in(tokens)?;
        self.filter(bound, source, tokens)
    }
}

/// What stands inside braces or brackets.
#[derive(Drop)]
pub struct InnerRule<'g, F> {
    pub grammar: &'g Grammar<F>,
}

impl<'g, F: Fn(&mut Cursor<'_>, usize, Part) -> Result<Boxed<Expr>, Fault>> Rule
    for InnerRule<'g, F> {
    type Out = Boxed<Inner>;

    ghost use Rattle.std.specs.Prelude.{◌-◌};
    ghost use Rattle.setl_parse_reading.specs.code.ReadExpressions.{nested, inner};
    ghost use Rattle.setl_parse_expressions.specs.code.Nests.{Nests};

    ghost can_read = { λ s. Nests s.grammar.now.room (F.pre s.grammar.now.inside) (F.post s.grammar.now.inside) };

    ghost reader = { λ s. inner (s.grammar.now.room - 1) (nested s.grammar.now.room) };

    #[tactic(auto, unfolding(setl_parse_reading::specs::code::ReadExpressions::inner))]
    fn read(&self, tokens: &mut Cursor<'_>) -> Result<Boxed<Inner>, Fault> {
        match ahead(tokens) {
            Ahead::Expression => self.grammar.plain(tokens),
            Ahead::Either => self.grammar.either(tokens),
            Ahead::Pattern => self.grammar.pattern_filter(tokens),
        }
    }
}
