//! Expressions of a program, in which each name stands for its variable.

use crate::kinds::{Collection, Connective, Quantifier, Source};
use setl_operators_table::Operator;
use setl_tree::{Boxed, Items, Text};

/// A variable.
#[derive(Debug, Drop)]
pub enum Variable {
    /// One that all bodies see.
    Global(Text),
    /// One of a single body: 0 is the main program, and the procedures follow in their order from 1.
    Own(u32, Text),
    /// One of a former, by the former's number in its body, from 1 in the order of their opening brackets.
    Former(u32, Text),
}

/// What an iterator runs over, and what it binds at each step.
#[derive(Debug, Drop)]
pub enum Binding {
    /// x, in `x in s`.
    Member(Source, Variable),
    /// The names of a pattern, in `[x, -, y] in s`; `None` skips a component.
    Components(Source, Items<Option<Variable>>),
    /// y and x, in `y = f(x)`.
    Point(Variable, Variable),
}

/// An expression.
#[cycle(expr)]
#[derive(Drop)]
pub enum Expr {
    /// A literal, from 0 to 2^127 - 1.
    Integer(i128),
    Text(Text),
    Truth(bool),
    /// `om`
    Undefined,
    Name(Variable),
    /// An operator over its operands in their order, of which it has as many as it needs.
    Apply(Operator, Items<Expr>),
    /// An expression, and what is done with its value, one link after the other.
    Chain(Boxed<Expr>, Items<Link>),
    /// `if condition then value else other end`
    Choose(Boxed<Expr>, Boxed<Expr>, Boxed<Expr>),
    /// `{value : iterators | condition}`, and with brackets.
    Former(Collection, Boxed<Expr>, Items<Iterator>, Option<Boxed<Expr>>),
    /// `{bound in source | condition}`, and with brackets: what is bound, the parts of the source, and the condition.
    Selection(Collection, Binding, Items<Expr>, Boxed<Expr>),
    Quantified(Quantifier, Items<Iterator>, Boxed<Expr>),
    /// A call of a procedure, by its place among the procedures from 0.
    Call(u32, Items<Argument>),
    Newat,
    Eof,
    Ok,
}

/// What is done with the value of what stands before it in a chain, which is the first operand.
#[cycle(expr)]
#[derive(Drop)]
pub enum Link {
    /// An operator over the value alone.
    Unary(Operator),
    /// An operator over the value and a second operand.
    Binary(Operator, Expr),
    /// An operator over the value, a second and a third operand.
    Ternary(Operator, Boxed<Expr>, Boxed<Expr>),
    /// A connective between the value and a right part.
    Connect(Connective, Boxed<Expr>),
}

/// An iterator with the parts of its source: the one expression, or the bounds of a range.
#[cycle(expr)]
#[derive(Drop)]
pub struct Iterator {
    pub binding: Binding,
    pub sources: Items<Expr>,
}

/// An argument of a call.
#[cycle(expr)]
#[derive(Drop)]
pub enum Argument {
    /// A value that is passed in.
    Rd(Expr),
    /// A variable that is only set.
    Wr(Variable),
    /// A variable that is passed in and out.
    Rw(Variable),
}
