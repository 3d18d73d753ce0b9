//! What expressions become.

ghost use Rattle.std.specs.Prelude.{◌≡◌, map, option_map, IfOk};
ghost use Rattle.setl_program.specs.Expressions as spec;
ghost use Rattle.setl_program.specs.Expressions.{part_of, term_of, inner_of, turn_of, behind_of};
ghost use Rattle.setl_program.specs.code.Plain.{plain_expr};
ghost use Rattle.setl_program_elaborate.specs.Elaborators.{does, plain_range, plain_bounds, bounds_of};

use crate::chain::Chain;
use crate::elaborator::Elaborator;
use crate::ranges::Bounds;
use crate::{makers, operators, ranges};
use setl_program::{Collection, Expr, Source};
use setl_program_scope::beside;
use setl_tree::{
    BinaryOp, Bound, Boxed, Expr as TreeExpr, Inner, Items, Iter, Quantifier, Relation, Selector,
    Text,
};
use std::alloc::AllocError;

/// The name that an expression is, if it is a name alone.
pub fn name_of(x: &TreeExpr) -> Option<&Text>
    ensures { option_map (λ name. name.now) result ≡ (part_of x.now).name }
{
    match x {
        TreeExpr::Name(name) => Some(name),
        TreeExpr::Number(_) => None,
        TreeExpr::Text(_) => None,
        TreeExpr::Om => None,
        TreeExpr::True => None,
        TreeExpr::False => None,
        TreeExpr::Newat => None,
        TreeExpr::Eof => None,
        TreeExpr::Ok => None,
        TreeExpr::If(_, _, _) => None,
        TreeExpr::Set(_) => None,
        TreeExpr::Tuple(_) => None,
        TreeExpr::Chain(_, _) => None,
        TreeExpr::Compare(_, _, _) => None,
        TreeExpr::Prefixed(_, _) => None,
        TreeExpr::Selected(_, _) => None,
        TreeExpr::Quantified(_, _, _) => None,
    }
}

impl Elaborator<'_> {
    /// What an expression becomes. An error is want of memory.
    #[cycle(expressions)]
    pub fn expr(&mut self, x: &TreeExpr) -> Result<Boxed<Expr>, AllocError>
        ensures { IfOk result (λ e. (plain_expr e, self.new) ≡ does (term_of x.now) self.old) }
    {
        match x {
            TreeExpr::Number(n) => Boxed::new(self.alloc, Expr::Integer(*n)),
            TreeExpr::Text(text) => makers::string(self.alloc, text),
            TreeExpr::Om => Boxed::new(self.alloc, Expr::Undefined),
            TreeExpr::True => Boxed::new(self.alloc, Expr::Truth(true)),
            TreeExpr::False => Boxed::new(self.alloc, Expr::Truth(false)),
            TreeExpr::Newat => Boxed::new(self.alloc, Expr::Newat),
            TreeExpr::Eof => Boxed::new(self.alloc, Expr::Eof),
            TreeExpr::Ok => Boxed::new(self.alloc, Expr::Ok),
            TreeExpr::Name(name) => self.name(name),
            TreeExpr::If(a, b, c) => self.choice(a.get(), b.get(), c.get()),
            TreeExpr::Set(inner) => self.inner(inner, Collection::OfSet),
            TreeExpr::Tuple(inner) => self.inner(inner, Collection::OfTuple),
            TreeExpr::Chain(first, others) => self.chain(others.as_slice(), first.get()),
            TreeExpr::Compare(a, relation, b) => self.comparison(a.get(), *relation, b.get()),
            TreeExpr::Prefixed(prefixes, x) => {
                let operand = self.expr(x.get())?;
                makers::prefixes(self.alloc, prefixes.as_slice(), operand)
            }
            TreeExpr::Selected(x, selectors) => self.selection(selectors.as_slice(), x.get()),
            TreeExpr::Quantified(word, turns, x) => {
                self.quantified(*word, turns.as_slice(), x.get())
            }
        }
    }

    /// What an `if` expression becomes. An error is want of memory.
    #[cycle(expressions)]
    #[inline(never)]
    fn choice(
        &mut self,
        a: &TreeExpr,
        b: &TreeExpr,
        c: &TreeExpr,
    ) -> Result<Boxed<Expr>, AllocError>
        ensures { IfOk result (λ e. (plain_expr e, self.new) ≡ does (spec.choice (part_of a.now) (part_of b.now) (part_of c.now)) self.old) }
    {
        let condition = self.expr(a)?;
        let both = beside(condition, self.expr(b))?;
        let ((condition, value), other) = beside(both, self.expr(c))?;
        makers::choice(self.alloc, condition, value, other)
    }

    /// What a chain of operators becomes. An error is want of memory.
    #[cycle(expressions)]
    #[inline(never)]
    fn chain(
        &mut self,
        others: &[(BinaryOp, TreeExpr)],
        first: &TreeExpr,
    ) -> Result<Boxed<Expr>, AllocError>
        ensures { IfOk result (λ e. (plain_expr e, self.new) ≡ does (spec.chain (part_of first.now) (map (λ x. (x.0, part_of x.1)) others.now)) self.old) }
    {
        let left = self.expr(first)?;
        let mut all = Chain::new(self.alloc, left);
        for (op, x) in others {
            let right = self.expr(x)?;
            all.binary(*op, right)?;
        }
        all.finish(self.alloc)
    }

    /// What a comparison becomes. An error is want of memory.
    #[cycle(expressions)]
    #[inline(never)]
    fn comparison(
        &mut self,
        a: &TreeExpr,
        relation: Relation,
        b: &TreeExpr,
    ) -> Result<Boxed<Expr>, AllocError>
        ensures { IfOk result (λ e. (plain_expr e, self.new) ≡ does (spec.comparison (part_of a.now) relation (part_of b.now)) self.old) }
    {
        let left = self.expr(a)?;
        let (left, right) = beside(left, self.expr(b))?;
        makers::two(self.alloc, operators::relation(relation), left, right)
    }

    /// What an expression with selectors becomes. An error is want of memory.
    #[cycle(expressions)]
    #[inline(never)]
    fn selection(&mut self, selectors: &[Selector], x: &TreeExpr) -> Result<Boxed<Expr>, AllocError>
        ensures { IfOk result (λ e. (plain_expr e, self.new) ≡ does (spec.selection (part_of x.now) (map behind_of selectors.now)) self.old) }
    {
        match name_of(x) {
            None => {
                let value = self.expr(x)?;
                self.selected(selectors, Chain::new(self.alloc, value))
            }
            Some(name) => self.name_selection(selectors, name),
        }
    }

    /// What a quantifier becomes. An error is want of memory.
    #[cycle(expressions)]
    #[inline(never)]
    fn quantified(
        &mut self,
        word: Quantifier,
        turns: &[Iter],
        x: &TreeExpr,
    ) -> Result<Boxed<Expr>, AllocError>
        ensures { IfOk result (λ e. (plain_expr e, self.new) ≡ does (spec.quantified word (map turn_of turns.now) (part_of x.now)) self.old) }
    {
        let iterators = self.iterators(turns)?;
        let condition = self.expr(x)?;
        let word = operators::quantifier(word);
        makers::quantified(self.alloc, word, iterators, condition)
    }

    /// What expressions become. An error is want of memory.
    #[cycle(expressions)]
    #[inline(never)]
    pub fn exprs(&mut self, xs: &[TreeExpr]) -> Result<Items<Expr>, AllocError>
        ensures { IfOk result (λ es. (map plain_expr es, self.new) ≡ does (spec.terms (map part_of xs.now)) self.old) }
    {
        let mut all = Items::new(self.alloc);
        for x in xs {
            let made = self.expr(x)?;
            makers::put_expr(&mut all, made)?;
        }
        Ok(all)
    }

    /// What an expression becomes, if there is one. An error is want of memory.
    #[cycle(expressions)]
    pub fn optional(
        &mut self,
        x: &Option<Boxed<TreeExpr>>,
    ) -> Result<Option<Boxed<Expr>>, AllocError>
        ensures { IfOk result (λ e. (option_map plain_expr e, self.new) ≡ does (spec.optional (option_map part_of x.now)) self.old) }
    {
        match x {
            None => Ok(None),
            Some(x) => Ok(Some(self.expr(x.get())?)),
        }
    }

    /// What the inside of braces or brackets becomes. An error is want of memory.
    #[cycle(expressions)]
    #[inline(never)]
    fn inner(&mut self, x: &Inner, collection: Collection) -> Result<Boxed<Expr>, AllocError>
        ensures { IfOk result (λ e. (plain_expr e, self.new) ≡ does ((inner_of x.now).term collection) self.old) }
    {
        match x {
            Inner::List(xs) => {
                let all = self.exprs(xs.as_slice())?;
                makers::enumeration(self.alloc, collection, all)
            }
            Inner::Range(a, b, c) => {
                let bounds = self.bounds(a.get(), b, c.get())?;
                ranges::range(self.alloc, collection, bounds)
            }
            Inner::Former(value, turns, condition) => {
                self.former(value.get(), turns.as_slice(), condition, collection)
            }
            Inner::Filter(names, source, condition) => {
                self.filter(names, source.get(), condition.get(), collection)
            }
        }
    }

    /// What the bounds of a range become. An error is want of memory.
    #[cycle(expressions)]
    #[inline(never)]
    fn bounds(
        &mut self,
        a: &TreeExpr,
        b: &Option<Boxed<TreeExpr>>,
        c: &TreeExpr,
    ) -> Result<Bounds, AllocError>
        ensures { IfOk result (λ r. (plain_bounds r, self.new) ≡ does (bounds_of (part_of a.now) (option_map part_of b.now) (part_of c.now)) self.old) }
    {
        let first = self.expr(a)?;
        let both = beside(first, self.optional(b))?;
        beside(both, self.expr(c))
    }

    /// What a former becomes that collects an expression. An error is want of memory.
    #[cycle(expressions)]
    #[inline(never)]
    fn former(
        &mut self,
        value: &TreeExpr,
        turns: &[Iter],
        condition: &Option<Boxed<TreeExpr>>,
        collection: Collection,
    ) -> Result<Boxed<Expr>, AllocError>
        ensures { IfOk result (λ e. (plain_expr e, self.new) ≡ does (spec.former (part_of value.now) (map turn_of turns.now) (option_map part_of condition.now) collection) self.old) }
    {
        let (number, names) = self.open_over(turns)?;
        let value = self.expr_within(value, number, names)?;
        let held = beside(value, self.own_iterators(turns, number))?;
        let condition = self.own_condition(condition, number, turns);
        let ((value, iterators), condition) = beside(held, condition)?;
        makers::former(self.alloc, collection, value, iterators, condition)
    }

    /// What a former becomes that collects its members. An error is want of memory.
    #[cycle(expressions)]
    #[inline(never)]
    fn filter(
        &mut self,
        bound: &Bound,
        source: &TreeExpr,
        condition: &TreeExpr,
        collection: Collection,
    ) -> Result<Boxed<Expr>, AllocError>
        ensures { IfOk result (λ e. (plain_expr e, self.new) ≡ does (spec.filter bound.now (part_of source.now) (part_of condition.now) collection) self.old) }
    {
        let number = self.opened.open()?;
        let iterator = self.over(Some(number), bound, source)?;
        let condition = self.bound_condition(condition, number, bound);
        let (iterator, condition) = beside(iterator, condition)?;
        makers::selection(self.alloc, collection, iterator, condition)
    }

    /// What an expression becomes as the source of an iterator. An error is want of memory.
    #[cycle(expressions)]
    #[inline(never)]
    pub fn source(&mut self, x: &TreeExpr) -> Result<(Source, Items<Expr>), AllocError>
        ensures { IfOk result (λ r. (plain_range r, self.new) ≡ does (part_of x.now).source self.old) }
    {
        match x {
            TreeExpr::Set(inner) => self.inner_source(inner, Collection::OfSet),
            TreeExpr::Tuple(inner) => self.inner_source(inner, Collection::OfTuple),
            TreeExpr::Number(_)
            | TreeExpr::Text(_)
            | TreeExpr::Om
            | TreeExpr::True
            | TreeExpr::False
            | TreeExpr::Newat
            | TreeExpr::Eof
            | TreeExpr::Ok
            | TreeExpr::Name(_)
            | TreeExpr::If(_, _, _)
            | TreeExpr::Chain(_, _)
            | TreeExpr::Compare(_, _, _)
            | TreeExpr::Prefixed(_, _)
            | TreeExpr::Selected(_, _)
            | TreeExpr::Quantified(_, _, _) => {
                let value = self.expr(x)?;
                ranges::values(self.alloc, value)
            }
        }
    }

    /// What the inside of braces or brackets becomes as the source of an iterator. An error is want of memory.
    #[cycle(expressions)]
    #[inline(never)]
    fn inner_source(
        &mut self,
        x: &Inner,
        collection: Collection,
    ) -> Result<(Source, Items<Expr>), AllocError>
        ensures { IfOk result (λ r. (plain_range r, self.new) ≡ does ((inner_of x.now).source collection) self.old) }
    {
        match x {
            Inner::Range(a, b, c) => {
                let bounds = self.bounds(a.get(), b, c.get())?;
                ranges::range_source(self.alloc, collection, bounds)
            }
            Inner::List(_) | Inner::Former(_, _, _) | Inner::Filter(_, _, _) => {
                let value = self.inner(x, collection)?;
                ranges::values(self.alloc, value)
            }
        }
    }
}
