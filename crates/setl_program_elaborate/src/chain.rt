//! Chains that grow.

ghost use Rattle.std.specs.Prelude.{◌≡◌, option_map, IfOk, OnOk};
ghost use Rattle.setl_program.specs.Expressions as spec;
ghost use Rattle.setl_program.specs.Operators.{binary, two};
ghost use Rattle.setl_program.specs.code.Plain.{plain_expr, plain_link};
ghost use Rattle.setl_program_elaborate.specs.Chains.{plain_chain};

use crate::operators;
use setl_operators_table::Operator;
use setl_program::{Expr, Link};
use setl_tree::{BinaryOp, Boxed, Items};
use std::alloc::{AllocError, Global};

/// An expression with links behind it. `plain_chain` is the expression that they make together.
#[derive(Drop)]
pub struct Chain {
    first: Boxed<Expr>,
    links: Items<Link>,
}

impl Chain {
    /// An expression without links.
    pub fn new(alloc: Global, first: Boxed<Expr>) -> Chain
        ensures { plain_chain result ≡ plain_expr first }
    {
        Chain {
            first,
            links: Items::new(alloc),
        }
    }

    /// Puts a link at the end. An error is want of memory.
    #[tactic(auto, using(crate::proofs::Links::one_more))]
    pub fn push(&mut self, link: Link) -> Result<(), AllocError>
        ensures { OnOk result (plain_chain self.new ≡ plain_link link (plain_chain self.old)) }
    {
        self.links.push(link)?;
        Ok(())
    }

    /// An operator over what stands here and its second operand. An error is want of memory.
    #[inline(never)]
    pub fn apply(&mut self, operator: Operator, second: Boxed<Expr>) -> Result<(), AllocError>
        ensures { OnOk result (plain_chain self.new ≡ two operator (plain_chain self.old) (plain_expr second)) }
    {
        self.push(Link::Binary(operator, second.into_inner()))
    }

    /// A binary operator over what stands here and its right operand. An error is want of memory.
    #[inline(never)]
    pub fn binary(&mut self, op: BinaryOp, right: Boxed<Expr>) -> Result<(), AllocError>
        ensures { OnOk result (plain_chain self.new ≡ binary op (plain_chain self.old) (plain_expr right)) }
    {
        match operators::connective(op) {
            None => self.apply(operators::updating(op), right),
            Some(connective) => self.push(Link::Connect(connective, right)),
        }
    }

    /// A slice of what stands here, by its bounds. An error is want of memory.
    #[inline(never)]
    pub fn slice(&mut self, first: Boxed<Expr>, last: Option<Boxed<Expr>>) -> Result<(), AllocError>
        ensures { OnOk result (plain_chain self.new ≡ spec.with_bound (plain_chain self.old) (plain_expr first) (option_map plain_expr last)) }
    {
        match last {
            None => self.apply(Operator::Tail, first),
            Some(last) => self.push(Link::Ternary(Operator::Slice, first, last)),
        }
    }

    /// The expression that was made. An error is want of memory.
    #[inline(never)]
    pub fn finish(self, alloc: Global) -> Result<Boxed<Expr>, AllocError>
        ensures { IfOk result (λ e. plain_expr e ≡ plain_chain self) }
    {
        let Chain { first, links } = self;
        if links.is_empty() {
            Ok(first)
        } else {
            Boxed::new(alloc, Expr::Chain(first, links))
        }
    }
}
