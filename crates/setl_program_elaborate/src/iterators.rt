//! What iterators become, and what stands inside a former.

ghost use Rattle.std.specs.Prelude.{◌≡◌, [], Some, map, option_map, OnOk, IfOk};
ghost use Rattle.setl_names.specs.Names.{with_names, in_order};
ghost use Rattle.setl_names.specs.Occurrences as names;
ghost use Rattle.setl_program.specs.Expressions as spec;
ghost use Rattle.setl_program.specs.Expressions.{part_of, term_of, turn_of};
ghost use Rattle.setl_program.specs.code.Plain.{plain_expr, plain_iterator};
ghost use Rattle.setl_program.specs.Lists.{exprs_of};
ghost use Rattle.setl_program.specs.Scope.{in_former, bound_by, binding_of};
ghost use Rattle.setl_program_elaborate.specs.Elaborators.{made, does, puts};

use crate::elaborator::Elaborator;
use crate::makers;
use setl_names::Names;
use setl_program::{Expr, Iterator, Source};
use setl_program_scope::{beside, names_of_bound, names_of_turns};
use setl_tree::{Bound, Boxed, Expr as TreeExpr, Items, Iter, Text};
use std::alloc::{AllocError, Global};

/// No names. An error is want of memory.
#[inline(never)]
fn no_names(alloc: Global) -> Result<Boxed<Names>, AllocError>
    ensures { IfOk result (λ names. names ≡ []) }
{
    Boxed::new(alloc, Names::new(alloc))
}

/// The names that a former binds which collects its members, each once. An error is want of memory.
#[inline(never)]
fn boxed_names_of_bound(alloc: Global, bound: &Bound) -> Result<Boxed<Names>, AllocError>
    ensures { IfOk result (λ all. all ≡ in_order (names.names_of_bound bound.now)) }
{
    let names = names_of_bound(alloc, bound)?;
    Boxed::new(alloc, names)
}

/// The names that iterators bind, each once. An error is want of memory.
#[inline(never)]
fn boxed_names_of_turns(alloc: Global, turns: &[Iter]) -> Result<Boxed<Names>, AllocError>
    ensures { IfOk result (λ all. all ≡ in_order (spec.names_of_turns (map turn_of turns.now))) }
{
    let names = names_of_turns(alloc, turns)?;
    Boxed::new(alloc, names)
}

impl Elaborator<'_> {
    /// What an expression becomes inside a former that binds these names. An error is want of memory.
    #[cycle(expressions)]
    #[inline(never)]
    pub fn expr_within(
        &mut self,
        x: &TreeExpr,
        number: u32,
        names: Boxed<Names>,
    ) -> Result<Boxed<Expr>, AllocError>
        ensures { IfOk result (λ e. (plain_expr e, self.new) ≡ does (λ s. term_of x.now (in_former number names s)) self.old) }
    {
        self.enter(number, names)?;
        let made = self.expr(x)?;
        self.leave();
        Ok(made)
    }

    /// What the condition of a former becomes that binds these names. An error is want of memory.
    #[cycle(expressions)]
    #[inline(never)]
    pub fn bound_condition(
        &mut self,
        x: &TreeExpr,
        number: u32,
        bound: &Bound,
    ) -> Result<Boxed<Expr>, AllocError>
        ensures { IfOk result (λ e. (plain_expr e, self.new) ≡ does (λ s. term_of x.now (in_former number (in_order (names.names_of_bound bound.now)) s)) self.old) }
    {
        let names = boxed_names_of_bound(self.alloc, bound)?;
        self.expr_within(x, number, names)
    }

    /// What the condition of a former with these iterators becomes, if there is one. An error is want of memory.
    #[cycle(expressions)]
    #[inline(never)]
    pub fn own_condition(
        &mut self,
        x: &Option<Boxed<TreeExpr>>,
        number: u32,
        turns: &[Iter],
    ) -> Result<Option<Boxed<Expr>>, AllocError>
        ensures { IfOk result (λ e. (option_map plain_expr e, self.new) ≡ does (λ s. spec.optional (option_map part_of x.now) (in_former number (in_order (spec.names_of_turns (map turn_of turns.now))) s)) self.old) }
    {
        match x {
            None => Ok(None),
            Some(x) => {
                let names = boxed_names_of_turns(self.alloc, turns)?;
                Ok(Some(self.expr_within(x.get(), number, names)?))
            }
        }
    }

    /// What iterators become that bind variables. An error is want of memory.
    #[cycle(expressions)]
    #[inline(never)]
    pub fn iterators(&mut self, turns: &[Iter]) -> Result<Items<Iterator>, AllocError>
        ensures { IfOk result (λ is. (map plain_iterator is, self.new) ≡ does (spec.iterators (map turn_of turns.now)) self.old) }
    {
        let mut all = Items::new(self.alloc);
        for turn in turns {
            self.iterator(turn, None, &mut all)?;
        }
        Ok(all)
    }

    /// What the iterators of a former become, each of which sees the names of the ones before it. An error is want of memory.
    #[cycle(expressions)]
    #[inline(never)]
    pub fn own_iterators(
        &mut self,
        turns: &[Iter],
        number: u32,
    ) -> Result<Items<Iterator>, AllocError>
        ensures { IfOk result (λ is. (map plain_iterator is, self.new) ≡ does (spec.own_iterators number [] (map turn_of turns.now)) self.old) }
    {
        let mut all = Items::new(self.alloc);
        let none = no_names(self.alloc)?;
        let mut seen = none;
        for turn in turns {
            seen = self.own_iterator(turn, number, seen, &mut all)?;
        }
        Ok(all)
    }

    /// What an iterator of a former becomes, which sees these names. It is put at the end. It gives the names with those
    /// that the iterator binds. An error is want of memory.
    #[cycle(expressions)]
    #[inline(never)]
    fn own_iterator(
        &mut self,
        turn: &Iter,
        number: u32,
        seen: Boxed<Names>,
        all: &mut Items<Iterator>,
    ) -> Result<Boxed<Names>, AllocError>
        ensures value { OnOk result ((map plain_iterator all.new, self.new) ≡ puts (map plain_iterator all.old) (λ s. (turn_of turn.now).iterator (Some number) (in_former number seen s)) self.old) }
        ensures names { IfOk result (λ names. names ≡ with_names seen (turn_of turn.now).names) }
    {
        self.enter(number, seen)?;
        self.iterator(turn, Some(number), all)?;
        let names = self.leave_with(turn)?;
        Ok(names)
    }

    /// What an iterator becomes, where the names that it binds are own names of the former with this number, or else
    /// variables. It is put at the end. An error is want of memory.
    #[cycle(expressions)]
    #[inline(never)]
    fn iterator(
        &mut self,
        turn: &Iter,
        former: Option<u32>,
        all: &mut Items<Iterator>,
    ) -> Result<(), AllocError>
        ensures { OnOk result ((map plain_iterator all.new, self.new) ≡ puts (map plain_iterator all.old) ((turn_of turn.now).iterator former) self.old) }
    {
        match turn {
            Iter::Over(bound, source) => {
                let made = self.over(former, bound, source)?;
                makers::put_iterator(all, made)
            }
            Iter::Image(value, map, argument) => {
                let made = self.image(former, value, map, argument)?;
                makers::put_iterator(all, made)
            }
        }
    }

    /// What an iterator over a source becomes, where the names that it binds are own names of the former with this number,
    /// or else variables. An error is want of memory.
    #[cycle(expressions)]
    #[inline(never)]
    pub fn over(
        &mut self,
        former: Option<u32>,
        bound: &Bound,
        source: &TreeExpr,
    ) -> Result<Boxed<Iterator>, AllocError>
        ensures { IfOk result (λ i. (plain_iterator i, self.new) ≡ does (spec.over bound.now (part_of source.now) former) self.old) }
    {
        let (kind, sources) = self.source(source)?;
        self.over_parts(former, bound, kind, sources)
    }

    /// An iterator over the parts of its source. An error is want of memory.
    #[inline(never)]
    fn over_parts(
        &self,
        former: Option<u32>,
        bound: &Bound,
        kind: Source,
        sources: Items<Expr>,
    ) -> Result<Boxed<Iterator>, AllocError>
        ensures { IfOk result (λ i. plain_iterator i ≡ (binding_of bound.now kind (bound_by former self.now.scope), exprs_of (map plain_expr sources))) }
    {
        let binding = self.scope.binding(self.alloc, former, bound, kind);
        let (sources, binding) = beside(sources, binding)?;
        makers::iterator(self.alloc, binding, sources)
    }

    /// What an iterator over the images of a map becomes. An error is want of memory.
    #[inline(never)]
    fn image(
        &self,
        former: Option<u32>,
        value: &Text,
        map: &Text,
        argument: &Text,
    ) -> Result<Boxed<Iterator>, AllocError>
        ensures { IfOk result (λ i. plain_iterator i ≡ made (spec.image value.now map.now argument.now former) self.now) }
    {
        let (map, binding) = self.scope.image(former, value, map, argument)?;
        let (binding, sources) = beside(binding, makers::alone(self.alloc, Expr::Name(map)))?;
        makers::iterator(self.alloc, binding, sources)
    }
}
