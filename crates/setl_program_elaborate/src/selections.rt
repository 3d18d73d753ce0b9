//! What selections and calls become.

ghost use Rattle.std.specs.Prelude.{◌≡◌, map, OnOk, IfOk};
ghost use Rattle.setl_program.specs.Expressions as spec;
ghost use Rattle.setl_program.specs.Expressions.{part_of, behind_of};
ghost use Rattle.setl_program.specs.code.Plain.{plain_expr, plain_argument};
ghost use Rattle.setl_program.specs.Scope.{procedure_of};
ghost use Rattle.setl_program_elaborate.specs.Chains.{plain_chain};
ghost use Rattle.setl_program_elaborate.specs.Elaborators.{does, puts};

use crate::chain::Chain;
use crate::elaborator::Elaborator;
use crate::expressions::name_of;
use crate::{makers, ranges};
use setl_operators_table::Operator;
use setl_program::{Argument, Expr};
use setl_program_scope::beside;
use setl_tree::{Boxed, Expr as TreeExpr, Items, Param, Passing, Selector, Text};
use std::alloc::AllocError;

impl Elaborator<'_> {
    /// What a name becomes. An error is want of memory.
    #[inline(never)]
    pub fn name(&self, name: &Text) -> Result<Boxed<Expr>, AllocError>
        ensures { IfOk result (λ e. plain_expr e ≡ spec.named name.now self.now.scope) }
    {
        let variable = self.scope.variable(name)?;
        Boxed::new(self.alloc, Expr::Name(variable))
    }

    /// What a chain becomes with selectors behind it. An error is want of memory.
    #[cycle(expressions)]
    #[inline(never)]
    pub fn selected(
        &mut self,
        selectors: &[Selector],
        value: Chain,
    ) -> Result<Boxed<Expr>, AllocError>
        ensures { IfOk result (λ e. (plain_expr e, self.new) ≡ does (spec.selected (plain_chain value) (map behind_of selectors.now)) self.old) }
    {
        let mut all = value;
        for selector in selectors {
            self.applied(selector, &mut all)?;
        }
        all.finish(self.alloc)
    }

    /// Puts a selector behind a chain. An error is want of memory.
    #[cycle(expressions)]
    #[inline(never)]
    fn applied(&mut self, selector: &Selector, all: &mut Chain) -> Result<(), AllocError>
        ensures { OnOk result ((plain_chain all.new, self.new) ≡ does ((behind_of selector.now).applied (plain_chain all.old)) self.old) }
    {
        match selector {
            Selector::Round(xs) => self.at_list(xs.as_slice(), Operator::Get, all),
            Selector::Slice(a, b) => {
                let first = self.expr(a.get())?;
                let (first, last) = beside(first, self.optional(b))?;
                all.slice(first, last)
            }
            Selector::Braces(xs) => self.at_list(xs.as_slice(), Operator::Images, all),
        }
    }

    /// Puts an operator with a list in brackets behind a chain. An error is want of memory.
    #[cycle(expressions)]
    #[inline(never)]
    fn at_list(
        &mut self,
        xs: &[TreeExpr],
        operator: Operator,
        all: &mut Chain,
    ) -> Result<(), AllocError>
        ensures { OnOk result ((plain_chain all.new, self.new) ≡ does (spec.at_list operator (map part_of xs.now) (plain_chain all.old)) self.old) }
    {
        let list = self.listed(xs)?;
        all.apply(operator, list)
    }

    /// What a list in brackets becomes: one expression alone, or the tuple of several. An error is want of memory.
    #[cycle(expressions)]
    #[inline(never)]
    pub fn listed(&mut self, xs: &[TreeExpr]) -> Result<Boxed<Expr>, AllocError>
        ensures { IfOk result (λ e. (plain_expr e, self.new) ≡ does (spec.listed (map part_of xs.now)) self.old) }
    {
        let all = self.exprs(xs)?;
        ranges::tuple_of_several(self.alloc, all)
    }

    /// What a name with selectors becomes: a call, or a selection. An error is want of memory.
    #[cycle(expressions)]
    #[inline(never)]
    pub fn name_selection(
        &mut self,
        selectors: &[Selector],
        name: &Text,
    ) -> Result<Boxed<Expr>, AllocError>
        ensures { IfOk result (λ e. (plain_expr e, self.new) ≡ does (spec.name_selection name.now (map behind_of selectors.now)) self.old) }
    {
        match selectors {
            [] => self.name(name),
            [Selector::Round(xs), others @ ..] => {
                let value = self.application(xs.as_slice(), name)?;
                self.selected(others, value)
            }
            [Selector::Slice(_, _), ..] | [Selector::Braces(_), ..] => {
                let value = self.name(name)?;
                self.selected(selectors, Chain::new(self.alloc, value))
            }
        }
    }

    /// What a name before a list in round brackets becomes: a call if it is a procedure's. An error is want of memory.
    #[cycle(expressions)]
    #[inline(never)]
    fn application(&mut self, xs: &[TreeExpr], name: &Text) -> Result<Chain, AllocError>
        ensures { IfOk result (λ e. (plain_chain e, self.new) ≡ does (λ s. spec.application (procedure_of s name.now) name.now (map part_of xs.now) s) self.old) }
    {
        match self.scope.procedure(name) {
            None => {
                let mut all = Chain::new(self.alloc, self.name(name)?);
                self.at_list(xs, Operator::Get, &mut all)?;
                Ok(all)
            }
            Some((place, parameters)) => {
                let value = self.call(xs, place, parameters)?;
                Ok(Chain::new(self.alloc, value))
            }
        }
    }

    /// What a call of the procedure at this place becomes, which has these parameters. An error is want of memory.
    #[cycle(expressions)]
    #[inline(never)]
    pub fn call(
        &mut self,
        xs: &[TreeExpr],
        place: usize,
        parameters: &[Param],
    ) -> Result<Boxed<Expr>, AllocError>
        ensures { IfOk result (λ e. (plain_expr e, self.new) ≡ does (spec.call place parameters.now (map part_of xs.now)) self.old) }
    {
        let all = self.arguments(xs, parameters)?;
        makers::call(self.alloc, place, all)
    }

    /// What arguments become for these parameters. An error is want of memory.
    #[cycle(expressions)]
    #[inline(never)]
    fn arguments(
        &mut self,
        xs: &[TreeExpr],
        parameters: &[Param],
    ) -> Result<Items<Argument>, AllocError>
        ensures { IfOk result (λ all. (map plain_argument all, self.new) ≡ does (spec.arguments parameters.now (map part_of xs.now)) self.old) }
    {
        let mut all = Items::new(self.alloc);
        let mut left = parameters;
        for x in xs {
            if let [parameter, others @ ..] = left {
                self.argument(x, parameter.passing, &mut all)?;
                left = others;
            }
        }
        Ok(all)
    }

    /// What an argument becomes, which is passed so. It is put at the end. An error is want of memory.
    #[cycle(expressions)]
    #[inline(never)]
    fn argument(
        &mut self,
        x: &TreeExpr,
        passing: Passing,
        all: &mut Items<Argument>,
    ) -> Result<(), AllocError>
        ensures { OnOk result ((map plain_argument all.new, self.new) ≡ puts (map plain_argument all.old) (spec.argument passing (part_of x.now)) self.old) }
    {
        match (passing, name_of(x)) {
            (Passing::Wr, Some(name)) => { all.push(Argument::Wr(self.scope.variable(name)?)) }
            (Passing::Rw, Some(name)) => { all.push(Argument::Rw(self.scope.variable(name)?)) }
            (Passing::Wr, None) | (Passing::Rw, None) | (Passing::Rd, _) => {
                let value = self.expr(x)?;
                makers::put_value(all, value)
            }
        }
    }
}
