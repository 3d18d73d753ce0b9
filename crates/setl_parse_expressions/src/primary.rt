//! Selectors, primary expressions and whole expressions.
//!
//! Nestings stand in primary expressions. While one that stands in front is read, only what stands before it is kept on the
//! stack: what goes on from it is read behind it, in functions that aren't inlined.

ghost use Rattle.std.specs.Prelude.{◌≡◌, ◌-◌, [], suc};
ghost use Rattle.setl_tree.specs.declared.kind.Kind.TheVariants as k;
ghost use Rattle.setl_tree.specs.Operators as table;
ghost use Rattle.setl_parse_reading.specs.code.Reading.{Reads, one_of};
ghost use Rattle.setl_parse_reading.specs.code.ReadExpressions as spec;
ghost use Rattle.setl_parse_reading.specs.code.ReadExpressions.{nested};
ghost use Rattle.setl_parse_expressions.specs.code.Nests.{Nests, reader_of};
ghost use Rattle.setl_parse_expressions.specs.code.Parts as parts;

use crate::chain::{Chain, chain_from};
use crate::grammar::{Grammar, Part};
use crate::inner::{BoxedRule, InnerRule};
use crate::made::{self, constant, one_expr, prefixed, selected};
use setl_parse_cursor::{
    Cursor, NotRule, PrefixRule, Repeated, Rule, begins_selector, enclosed, followed, held, many,
    more_boxed_onto, open_quantifier, quantifier, relation_op, same_kind, separated_boxed,
    with_many_boxed,
};
use setl_parse_reading::Fault;
use setl_tree::{Boxed, Expr, Items, Kind, Prefix, Selector};

/// A selector.
#[derive(Drop)]
struct SelectorRule<'g, F> {
    grammar: &'g Grammar<F>,
}

impl<'g, F: Fn(&mut Cursor<'_>, usize, Part) -> Result<Boxed<Expr>, Fault>> Rule
    for SelectorRule<'g, F> {
    type Out = Boxed<Selector>;

    ghost use Rattle.std.specs.Prelude.{◌-◌};
    ghost use Rattle.setl_parse_reading.specs.code.ReadExpressions.{nested, selector};
    ghost use Rattle.setl_parse_expressions.specs.code.Nests.{Nests};

    ghost can_read = { λ s. Nests s.grammar.now.room (F.pre s.grammar.now.inside) (F.post s.grammar.now.inside) };

    ghost reader = { λ s. selector s.grammar.now.room (nested s.grammar.now.room) };

    #[tactic(auto, unfolding(setl_parse_reading::specs::code::ReadExpressions::selector))]
    fn read(&self, tokens: &mut Cursor<'_>) -> Result<Boxed<Selector>, Fault> {
        if same_kind(tokens.kind(), Kind::LeftParen) {
            tokens.open(self.grammar.room, Kind::LeftParen)?;
            return self.grammar.round(tokens);
        }
        self.grammar.braces(tokens)
    }
}

impl<'g, F: Fn(&mut Cursor<'_>, usize, Part) -> Result<Boxed<Expr>, Fault>> Repeated
    for SelectorRule<'g, F> {
    ghost use Rattle.setl_parse_reading.specs.code.ReadExpressions.{begins_selector};

    ghost begins_with = { λ s. begins_selector };

    fn begins(&self, kind: Kind) -> bool {
        begins_selector(kind)
    }
}

/// The prefixes of an operand.
#[inline(never)]
#[tactic(auto, unfolding(setl_parse_reading::specs::code::ReadExpressions::prefixes))]
fn read_prefixes(tokens: &mut Cursor<'_>) -> Result<Items<Prefix>, Fault>
    ensures { Reads (spec.prefixes tokens.old) result tokens.new }
{
    many(&PrefixRule, tokens)
}

/// A word that is an expression by itself.
#[inline(never)]
#[tactic(auto, unfolding(setl_parse_reading::specs::code::Reading::one_of))]
fn word(tokens: &mut Cursor<'_>) -> Result<Boxed<Expr>, Fault>
    ensures { Reads (one_of table.constant tokens.old) result tokens.new }
{
    let Some(word) = constant(tokens.kind()) else {
        return Err(tokens.refuse());
    };
    tokens.pass();
    Ok(Boxed::new(tokens.alloc(), word)?)
}

/// An operand with its prefixes.
#[derive(Drop)]
struct PrefixedRule<'g, F> {
    grammar: &'g Grammar<F>,
}

impl<'g, F: Fn(&mut Cursor<'_>, usize, Part) -> Result<Boxed<Expr>, Fault>> Rule
    for PrefixedRule<'g, F> {
    type Out = Boxed<Expr>;

    ghost use Rattle.std.specs.Prelude.{◌-◌};
    ghost use Rattle.setl_parse_reading.specs.code.ReadExpressions.{nested, e11};
    ghost use Rattle.setl_parse_expressions.specs.code.Nests.{Nests};

    ghost can_read = { λ s. Nests s.grammar.now.room (F.pre s.grammar.now.inside) (F.post s.grammar.now.inside) };

    ghost reader = { λ s. e11 s.grammar.now.room (nested s.grammar.now.room) };

    #[tactic(auto, unfolding(setl_parse_reading::specs::code::ReadExpressions::e11, setl_parse_reading::specs::code::ReadExpressions::e12))]
    fn read(&self, tokens: &mut Cursor<'_>) -> Result<Boxed<Expr>, Fault> {
        let prefixes = read_prefixes(tokens)?;
        let primary = self.grammar.primary(tokens)?;
        self.grammar.operand_from(prefixes, primary, tokens)
    }
}

/// What stands before a primary expression.
#[derive(Drop)]
pub struct Before {
    pub nots: Items<Prefix>,
    pub prefixes: Items<Prefix>,
}

/// A comparison with its prefixes `not`.
#[derive(Drop)]
struct ComparedRule<'g, F> {
    grammar: &'g Grammar<F>,
}

impl<'g, F: Fn(&mut Cursor<'_>, usize, Part) -> Result<Boxed<Expr>, Fault>> Rule
    for ComparedRule<'g, F> {
    type Out = Boxed<Expr>;

    ghost use Rattle.std.specs.Prelude.{◌-◌};
    ghost use Rattle.setl_parse_reading.specs.code.ReadExpressions.{nested, e5};
    ghost use Rattle.setl_parse_expressions.specs.code.Nests.{Nests};

    ghost can_read = { λ s. Nests s.grammar.now.room (F.pre s.grammar.now.inside) (F.post s.grammar.now.inside) };

    ghost reader = { λ s. e5 s.grammar.now.room (nested s.grammar.now.room) };

    #[tactic(auto, unfolding(setl_parse_reading::specs::code::ReadExpressions::e5, setl_parse_reading::specs::code::ReadExpressions::nots))]
    fn read(&self, tokens: &mut Cursor<'_>) -> Result<Boxed<Expr>, Fault> {
        let nots = many(&NotRule, tokens)?;
        let operand = self.grammar.e6(tokens)?;
        prefixed(tokens.alloc(), nots, operand)
    }
}

impl<F: Fn(&mut Cursor<'_>, usize, Part) -> Result<Boxed<Expr>, Fault>> Grammar<F> {
    /// A slice behind `( expr ..`.
    #[tactic(auto, unfolding(setl_parse_reading::specs::code::ReadExpressions::slice))]
    fn slice(&self, from: Boxed<Expr>, tokens: &mut Cursor<'_>) -> Result<Boxed<Selector>, Fault>
        requires { Nests self.now.room (F.pre self.now.inside) (F.post self.now.inside) }
        ensures { Reads (spec.slice self.now.room (nested self.now.room) from tokens.old) result tokens.new }
    {
        if same_kind(tokens.kind(), Kind::RightParen) {
            let from = followed(from, Kind::RightParen, tokens)?;
            return made::slice(tokens.alloc(), from, None);
        }
        let (from, to) = held(from, self.boxed_before(Kind::RightParen, tokens))?;
        made::slice(tokens.alloc(), from, Some(to))
    }

    /// What stands behind `( expr`.
    #[tactic(auto, unfolding(setl_parse_reading::specs::code::ReadExpressions::arguments))]
    fn arguments(
        &self,
        first: Boxed<Expr>,
        tokens: &mut Cursor<'_>,
    ) -> Result<Boxed<Selector>, Fault>
        requires { Nests self.now.room (F.pre self.now.inside) (F.post self.now.inside) }
        ensures { Reads (spec.arguments self.now.room (nested self.now.room) first tokens.old) result tokens.new }
    {
        if same_kind(tokens.kind(), Kind::Dots) {
            let first = followed(first, Kind::Dots, tokens)?;
            return self.slice(first, tokens);
        }
        let first = one_expr(tokens.alloc(), first)?;
        let all = more_boxed_onto(first, &BoxedRule { grammar: self }, tokens)?;
        let all = followed(all, Kind::RightParen, tokens)?;
        made::round(tokens.alloc(), all)
    }

    /// What stands behind `(`.
    #[tactic(auto, unfolding(setl_parse_reading::specs::code::ReadExpressions::round))]
    fn round(&self, tokens: &mut Cursor<'_>) -> Result<Boxed<Selector>, Fault>
        requires { Nests self.now.room (F.pre self.now.inside) (F.post self.now.inside) }
        ensures { Reads (spec.round self.now.room (nested self.now.room) tokens.old) result tokens.new }
    {
        if same_kind(tokens.kind(), Kind::RightParen) {
            tokens.expect(Kind::RightParen)?;
            return made::round(tokens.alloc(), Items::new(tokens.alloc()));
        }
        let first = self.boxed(tokens)?;
        self.arguments(first, tokens)
    }

    /// `{x, ..}` behind a primary expression.
    #[tactic(auto, unfolding(setl_parse_reading::specs::code::ReadExpressions::braces))]
    pub fn braces(&self, tokens: &mut Cursor<'_>) -> Result<Boxed<Selector>, Fault>
        requires { Nests self.now.room (F.pre self.now.inside) (F.post self.now.inside) }
        ensures { Reads (spec.braces self.now.room (nested self.now.room) tokens.old) result tokens.new }
    {
        tokens.open(self.room, Kind::LeftBrace)?;
        let all = separated_boxed(&BoxedRule { grammar: self }, tokens)?;
        let all = followed(all, Kind::RightBrace, tokens)?;
        made::braces(tokens.alloc(), all)
    }

    /// An expression in round brackets.
    #[tactic(auto, unfolding(setl_parse_reading::specs::code::ReadExpressions::parenthesized))]
    fn parenthesized(&self, tokens: &mut Cursor<'_>) -> Result<Boxed<Expr>, Fault>
        requires { Nests self.now.room (F.pre self.now.inside) (F.post self.now.inside) }
        ensures { Reads (spec.parenthesized self.now.room (nested self.now.room) tokens.old) result tokens.new }
    {
        let inside = BoxedRule { grammar: self };
        enclosed(
            self.room,
            Kind::LeftParen,
            &inside,
            Kind::RightParen,
            tokens,
        )
    }

    /// The two values of a conditional expression, behind `then`.
    fn branches(&self, tokens: &mut Cursor<'_>) -> Result<(Boxed<Expr>, Boxed<Expr>), Fault>
        requires { Nests self.now.room (F.pre self.now.inside) (F.post self.now.inside) }
        ensures { Reads (parts.branches (nested self.now.room).expr tokens.old) result tokens.new }
    {
        let value = self.boxed_before(Kind::Else, tokens)?;
        Ok(held(value, self.boxed_before(Kind::End, tokens))?)
    }

    /// `if condition then value else other end`
    #[tactic(auto, unfolding(setl_parse_reading::specs::code::ReadExpressions::if_expr))]
    fn if_expr(&self, tokens: &mut Cursor<'_>) -> Result<Boxed<Expr>, Fault>
        requires { Nests self.now.room (F.pre self.now.inside) (F.post self.now.inside) }
        ensures { Reads (spec.if_expr self.now.room (nested self.now.room) tokens.old) result tokens.new }
    {
        tokens.open(self.room, Kind::If)?;
        let condition = self.boxed_before(Kind::Then, tokens)?;
        let (condition, (value, other)) = held(condition, self.branches(tokens))?;
        made::choice(tokens.alloc(), condition, value, other)
    }

    /// A set in its brackets.
    #[tactic(auto, unfolding(setl_parse_reading::specs::code::ReadExpressions::set))]
    fn set(&self, tokens: &mut Cursor<'_>) -> Result<Boxed<Expr>, Fault>
        requires { Nests self.now.room (F.pre self.now.inside) (F.post self.now.inside) }
        ensures { Reads (spec.set self.now.room (nested self.now.room) tokens.old) result tokens.new }
    {
        let inner = InnerRule { grammar: self };
        let inner = enclosed(self.room, Kind::LeftBrace, &inner, Kind::RightBrace, tokens)?;
        made::set(tokens.alloc(), inner)
    }

    /// A tuple in its brackets.
    #[tactic(auto, unfolding(setl_parse_reading::specs::code::ReadExpressions::tuple))]
    fn tuple(&self, tokens: &mut Cursor<'_>) -> Result<Boxed<Expr>, Fault>
        requires { Nests self.now.room (F.pre self.now.inside) (F.post self.now.inside) }
        ensures { Reads (spec.tuple self.now.room (nested self.now.room) tokens.old) result tokens.new }
    {
        let inner = InnerRule { grammar: self };
        let inner = enclosed(
            self.room,
            Kind::LeftBracket,
            &inner,
            Kind::RightBracket,
            tokens,
        )?;
        made::tuple(tokens.alloc(), inner)
    }

    /// A number.
    #[inline(never)]
    fn number(&self, tokens: &mut Cursor<'_>) -> Result<Boxed<Expr>, Fault>
        requires { Nests self.now.room (F.pre self.now.inside) (F.post self.now.inside) }
        ensures { Reads (spec.primary_by self.now.room (nested self.now.room) k.Number tokens.old) result tokens.new }
    {
        let value = tokens.value();
        tokens.expect(Kind::Number)?;
        Ok(Boxed::new(tokens.alloc(), Expr::Number(value))?)
    }

    /// A string.
    #[inline(never)]
    fn string(&self, tokens: &mut Cursor<'_>) -> Result<Boxed<Expr>, Fault>
        requires { Nests self.now.room (F.pre self.now.inside) (F.post self.now.inside) }
        ensures { Reads (spec.primary_by self.now.room (nested self.now.room) k.StringLiteral tokens.old) result tokens.new }
    {
        let text = tokens.text()?;
        tokens.expect(Kind::StringLiteral)?;
        Ok(Boxed::new(tokens.alloc(), Expr::Text(text))?)
    }

    /// A name.
    #[inline(never)]
    fn name(&self, tokens: &mut Cursor<'_>) -> Result<Boxed<Expr>, Fault>
        requires { Nests self.now.room (F.pre self.now.inside) (F.post self.now.inside) }
        ensures { Reads (spec.primary_by self.now.room (nested self.now.room) k.Name tokens.old) result tokens.new }
    {
        let name = tokens.name()?;
        Ok(Boxed::new(tokens.alloc(), Expr::Name(name))?)
    }

    /// A primary expression.
    #[tactic(auto, unfolding(setl_parse_reading::specs::code::ReadExpressions::primary))]
    fn primary(&self, tokens: &mut Cursor<'_>) -> Result<Boxed<Expr>, Fault>
        requires { Nests self.now.room (F.pre self.now.inside) (F.post self.now.inside) }
        ensures { Reads (spec.primary self.now.room (nested self.now.room) tokens.old) result tokens.new }
    {
        match tokens.kind() {
            Kind::Number => self.number(tokens),
            Kind::StringLiteral => self.string(tokens),
            Kind::Name => self.name(tokens),
            Kind::LeftParen => self.parenthesized(tokens),
            Kind::If => self.if_expr(tokens),
            Kind::LeftBrace => self.set(tokens),
            Kind::LeftBracket => self.tuple(tokens),
            _ => word(tokens),
        }
    }

    /// A primary expression, from which the selectors behind it select.
    #[inline(never)]
    #[tactic(auto, using(crate::proofs::Many::none_begins), unfolding(setl_parse_reading::specs::code::ReadExpressions::selectors))]
    fn selection(&self, primary: Boxed<Expr>, tokens: &mut Cursor<'_>) -> Result<Boxed<Expr>, Fault>
        requires { Nests self.now.room (F.pre self.now.inside) (F.post self.now.inside) }
        ensures { Reads (parts.selection self.now.room (nested self.now.room) primary tokens.old) result tokens.new }
    {
        if !begins_selector(tokens.kind()) {
            return Ok(primary);
        }
        let selector = SelectorRule { grammar: self };
        let (primary, selectors) = with_many_boxed(primary, &selector, tokens)?;
        selected(tokens.alloc(), primary, selectors)
    }

    /// An operand from its primary expression on.
    #[inline(never)]
    fn operand_from(
        &self,
        prefixes: Items<Prefix>,
        primary: Boxed<Expr>,
        tokens: &mut Cursor<'_>,
    ) -> Result<Boxed<Expr>, Fault>
        requires { Nests self.now.room (F.pre self.now.inside) (F.post self.now.inside) }
        ensures { Reads (parts.operand_from self.now.room (nested self.now.room) prefixes primary tokens.old) result tokens.new }
    {
        let operand = self.selection(primary, tokens)?;
        prefixed(tokens.alloc(), prefixes, operand)
    }

    /// What comparisons compare.
    #[tactic(auto, unfolding(setl_parse_reading::specs::code::ReadExpressions::e7, setl_parse_reading::specs::code::ReadExpressions::e11, setl_parse_reading::specs::code::ReadExpressions::e12))]
    pub fn e7(&self, tokens: &mut Cursor<'_>) -> Result<Boxed<Expr>, Fault>
        requires { Nests self.now.room (F.pre self.now.inside) (F.post self.now.inside) }
        ensures { Reads (spec.e7 self.now.room (nested self.now.room) tokens.old) result tokens.new }
    {
        let prefixes = read_prefixes(tokens)?;
        let primary = self.primary(tokens)?;
        self.sum_from(prefixes, primary, tokens)
    }

    /// What comparisons compare, from the primary expression on.
    #[inline(never)]
    fn sum_from(
        &self,
        prefixes: Items<Prefix>,
        primary: Boxed<Expr>,
        tokens: &mut Cursor<'_>,
    ) -> Result<Boxed<Expr>, Fault>
        requires { Nests self.now.room (F.pre self.now.inside) (F.post self.now.inside) }
        ensures { Reads (parts.sum_from self.now.room (nested self.now.room) prefixes primary tokens.old) result tokens.new }
    {
        let a = self.operand_from(prefixes, primary, tokens)?;
        self.after_operand(a, tokens)
    }

    /// What goes on from an operand of `**` with operators that bind as `*` or more tightly.
    #[inline(never)]
    fn after_product(&self, a: Boxed<Expr>, tokens: &mut Cursor<'_>) -> Result<Boxed<Expr>, Fault>
        requires { Nests self.now.room (F.pre self.now.inside) (F.post self.now.inside) }
        ensures { Reads (spec.levels_from 10 (spec.e11 self.now.room (nested self.now.room)) 2 a tokens.old) result tokens.new }
    {
        let a = chain_from(10, &PrefixedRule { grammar: self }, a, tokens)?;
        let power = Chain {
            level: 10,
            item: PrefixedRule { grammar: self },
        };
        chain_from(9, &power, a, tokens)
    }

    /// What goes on from an operand of `**` with operators that bind as `+` or more tightly.
    #[inline(never)]
    fn after_sum(&self, a: Boxed<Expr>, tokens: &mut Cursor<'_>) -> Result<Boxed<Expr>, Fault>
        requires { Nests self.now.room (F.pre self.now.inside) (F.post self.now.inside) }
        ensures { Reads (spec.levels_from 10 (spec.e11 self.now.room (nested self.now.room)) 3 a tokens.old) result tokens.new }
    {
        let a = self.after_product(a, tokens)?;
        let power = Chain {
            level: 10,
            item: PrefixedRule { grammar: self },
        };
        let product = Chain {
            level: 9,
            item: power,
        };
        chain_from(8, &product, a, tokens)
    }

    /// What goes on from an operand of `**`.
    #[inline(never)]
    fn after_operand(&self, a: Boxed<Expr>, tokens: &mut Cursor<'_>) -> Result<Boxed<Expr>, Fault>
        requires { Nests self.now.room (F.pre self.now.inside) (F.post self.now.inside) }
        ensures { Reads (spec.levels_from 10 (spec.e11 self.now.room (nested self.now.room)) 4 a tokens.old) result tokens.new }
    {
        let a = self.after_sum(a, tokens)?;
        let power = Chain {
            level: 10,
            item: PrefixedRule { grammar: self },
        };
        let product = Chain {
            level: 9,
            item: power,
        };
        let sum = Chain {
            level: 8,
            item: product,
        };
        chain_from(7, &sum, a, tokens)
    }

    /// What goes on from the left side of a comparison.
    #[inline(never)]
    #[tactic(auto, unfolding(setl_parse_reading::specs::code::ReadExpressions::compared, setl_parse_reading::specs::code::Reading::one_of))]
    fn compared(&self, a: Boxed<Expr>, tokens: &mut Cursor<'_>) -> Result<Boxed<Expr>, Fault>
        requires { Nests self.now.room (F.pre self.now.inside) (F.post self.now.inside) }
        ensures { Reads (spec.compared self.now.room (nested self.now.room) a tokens.old) result tokens.new }
    {
        let Some(op) = relation_op(tokens.kind()) else {
            return Ok(a);
        };
        tokens.pass();
        let (a, b) = held(a, self.e7(tokens))?;
        made::compare(tokens.alloc(), a, op, b)
    }

    /// A comparison, or what comparisons compare.
    #[tactic(auto, unfolding(setl_parse_reading::specs::code::ReadExpressions::e6))]
    fn e6(&self, tokens: &mut Cursor<'_>) -> Result<Boxed<Expr>, Fault>
        requires { Nests self.now.room (F.pre self.now.inside) (F.post self.now.inside) }
        ensures { Reads (spec.e6 self.now.room (nested self.now.room) tokens.old) result tokens.new }
    {
        let a = self.e7(tokens)?;
        self.compared(a, tokens)
    }

    /// The words `not` and the prefixes before a primary expression.
    #[inline(never)]
    #[tactic(auto, unfolding(setl_parse_reading::specs::code::ReadExpressions::nots))]
    fn before_primary(&self, tokens: &mut Cursor<'_>) -> Result<Before, Fault>
        ensures { Reads (parts.before_primary tokens.old) result tokens.new }
    {
        let nots = many(&NotRule, tokens)?;
        let prefixes = read_prefixes(tokens)?;
        Ok(Before { nots, prefixes })
    }

    /// A comparison from its primary expression on.
    #[inline(never)]
    fn after_primary(
        &self,
        before: Before,
        primary: Boxed<Expr>,
        tokens: &mut Cursor<'_>,
    ) -> Result<Boxed<Expr>, Fault>
        requires { Nests self.now.room (F.pre self.now.inside) (F.post self.now.inside) }
        ensures { Reads (parts.comparison_from self.now.room (nested self.now.room) before primary tokens.old) result tokens.new }
    {
        let Before { nots, prefixes } = before;
        let a = self.sum_from(prefixes, primary, tokens)?;
        let a = self.compared(a, tokens)?;
        prefixed(tokens.alloc(), nots, a)
    }

    /// What goes on from a primary expression.
    #[inline(never)]
    fn go_on(
        &self,
        before: Before,
        primary: Boxed<Expr>,
        tokens: &mut Cursor<'_>,
    ) -> Result<Boxed<Expr>, Fault>
        requires { Nests self.now.room (F.pre self.now.inside) (F.post self.now.inside) }
        ensures { Reads (parts.go_on self.now.room (nested self.now.room) before primary tokens.old) result tokens.new }
    {
        let a = self.after_primary(before, primary, tokens)?;
        self.after_comparison(a, tokens)
    }

    /// An expression that is no quantifier, whose primary expression has words or signs before it.
    #[inline(never)]
    fn prefixed_expression(&self, tokens: &mut Cursor<'_>) -> Result<Boxed<Expr>, Fault>
        requires { Nests self.now.room (F.pre self.now.inside) (F.post self.now.inside) }
        ensures { Reads (parts.expression self.now.room (nested self.now.room) tokens.old) result tokens.new }
    {
        let before = self.before_primary(tokens)?;
        let primary = self.primary(tokens)?;
        self.go_on(before, primary, tokens)
    }

    /// An expression that is no quantifier, whose primary expression stands in front.
    fn bare_expression(&self, tokens: &mut Cursor<'_>) -> Result<Boxed<Expr>, Fault>
        requires { Nests self.now.room (F.pre self.now.inside) (F.post self.now.inside) }
        ensures { Reads (parts.bare_expression self.now.room (nested self.now.room) tokens.old) result tokens.new }
    {
        let primary = self.primary(tokens)?;
        self.go_on_bare(primary, tokens)
    }

    /// What goes on from a primary expression that stands in front.
    #[inline(never)]
    fn go_on_bare(
        &self,
        primary: Boxed<Expr>,
        tokens: &mut Cursor<'_>,
    ) -> Result<Boxed<Expr>, Fault>
        requires { Nests self.now.room (F.pre self.now.inside) (F.post self.now.inside) }
        ensures { Reads (parts.go_on self.now.room (nested self.now.room) (record { nots = []; prefixes = [] }) primary tokens.old) result tokens.new }
    {
        let a = self.selection(primary, tokens)?;
        let a = self.after_operand(a, tokens)?;
        let a = self.compared(a, tokens)?;
        self.after_comparison(a, tokens)
    }

    /// An expression that is no quantifier. While its primary expression is read, nothing else is kept than what stands
    /// before it.
    #[tactic(auto, using(crate::proofs::Many::bare_is))]
    fn expression(&self, tokens: &mut Cursor<'_>) -> Result<Boxed<Expr>, Fault>
        requires { Nests self.now.room (F.pre self.now.inside) (F.post self.now.inside) }
        ensures { Reads (parts.expression self.now.room (nested self.now.room) tokens.old) result tokens.new }
    {
        if NotRule.begins(tokens.kind()) || PrefixRule.begins(tokens.kind()) {
            return self.prefixed_expression(tokens);
        }
        self.bare_expression(tokens)
    }

    /// An expression that is no quantifier.
    #[tactic(auto, unfolding(setl_parse_reading::specs::code::ReadExpressions::e2, setl_parse_reading::specs::code::ReadExpressions::e5, setl_parse_reading::specs::code::ReadExpressions::e6, setl_parse_reading::specs::code::ReadExpressions::e7, setl_parse_reading::specs::code::ReadExpressions::e11, setl_parse_reading::specs::code::ReadExpressions::e12, setl_parse_reading::specs::code::ReadExpressions::after))]
    fn e2(&self, tokens: &mut Cursor<'_>) -> Result<Boxed<Expr>, Fault>
        requires { Nests self.now.room (F.pre self.now.inside) (F.post self.now.inside) }
        ensures { Reads (spec.e2 self.now.room (nested self.now.room) tokens.old) result tokens.new }
    {
        self.expression(tokens)
    }

    /// What goes on from an operand of `and` with operators that bind as `or` or more tightly.
    #[inline(never)]
    fn after_either(&self, a: Boxed<Expr>, tokens: &mut Cursor<'_>) -> Result<Boxed<Expr>, Fault>
        requires { Nests self.now.room (F.pre self.now.inside) (F.post self.now.inside) }
        ensures { Reads (spec.levels_from 4 (spec.e5 self.now.room (nested self.now.room)) 2 a tokens.old) result tokens.new }
    {
        let a = chain_from(4, &ComparedRule { grammar: self }, a, tokens)?;
        let both = Chain {
            level: 4,
            item: ComparedRule { grammar: self },
        };
        chain_from(3, &both, a, tokens)
    }

    /// What goes on from an operand of `and`.
    #[inline(never)]
    #[tactic(auto, unfolding(setl_parse_reading::specs::code::ReadExpressions::after))]
    pub fn after_comparison(
        &self,
        a: Boxed<Expr>,
        tokens: &mut Cursor<'_>,
    ) -> Result<Boxed<Expr>, Fault>
        requires { Nests self.now.room (F.pre self.now.inside) (F.post self.now.inside) }
        ensures { Reads (spec.after self.now.room (nested self.now.room) a tokens.old) result tokens.new }
    {
        let a = self.after_either(a, tokens)?;
        let both = Chain {
            level: 4,
            item: ComparedRule { grammar: self },
        };
        let one = Chain {
            level: 3,
            item: both,
        };
        chain_from(2, &one, a, tokens)
    }

    /// `exists iterators | condition` and the like.
    #[inline(never)]
    #[tactic(auto, unfolding(setl_parse_reading::specs::code::ReadExpressions::quantified, setl_parse_reading::specs::code::Reading::opening_one_of))]
    fn quantified(&self, tokens: &mut Cursor<'_>) -> Result<Boxed<Expr>, Fault>
        requires { Nests self.now.room (F.pre self.now.inside) (F.post self.now.inside) }
        ensures { Reads (spec.quantified self.now.room (nested self.now.room) tokens.old) result tokens.new }
    {
        let quantifier = open_quantifier(self.room, tokens)?;
        let over = self.iters(tokens)?;
        let (over, condition) = self.boxed_behind(over, Kind::Bar, tokens)?;
        made::quantified(tokens.alloc(), quantifier, over, condition)
    }

    /// An expression.
    #[tactic(auto, unfolding(setl_parse_reading::specs::code::ReadExpressions::whole))]
    pub fn whole(&self, tokens: &mut Cursor<'_>) -> Result<Boxed<Expr>, Fault>
        requires { Nests self.now.room (F.pre self.now.inside) (F.post self.now.inside) }
        ensures { Reads (spec.whole self.now.room (nested self.now.room) tokens.old) result tokens.new }
    {
        if quantifier(tokens.kind()).is_some() {
            return self.quantified(tokens);
        }
        self.e2(tokens)
    }

    /// A part of expressions.
    #[tactic(auto, unfolding(setl_parse_reading::specs::code::ReadExpressions::nested))]
    pub fn part(&self, part: Part, tokens: &mut Cursor<'_>) -> Result<Boxed<Expr>, Fault>
        requires { Nests self.now.room (F.pre self.now.inside) (F.post self.now.inside) }
        ensures { Reads (reader_of (nested (suc self.now.room)) part tokens.old) result tokens.new }
    {
        match part {
            Part::Whole => self.whole(tokens),
            Part::Source => self.e7(tokens),
            Part::After(a) => self.after_comparison(a, tokens),
        }
    }
}
