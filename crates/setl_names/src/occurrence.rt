//! What stands in the statements of a program, as far as the rules of names ask for it.

use crate::name::Name;
use setl_tree::Items;

/// An argument of a list in round brackets.
#[derive(Drop)]
pub enum Argument<'t> {
    /// A name alone; whether it means a former's own name, and whether a former around it binds it.
    Name(Name<'t>, bool, bool),
    /// Any other expression.
    Other,
}

/// One thing that stands in a statement.
#[derive(Drop)]
pub enum What<'t> {
    /// A name that doesn't stand before a list in round brackets; whether it is a former's own name.
    Name(Name<'t>, bool),
    /// A name before a list in round brackets, with the list; whether the name is a former's own name.
    Applied(Name<'t>, bool, Items<Argument<'t>>),
    /// The name of a call statement. It stands before a list in round brackets, too.
    CallStatement(Name<'t>),
    /// A list in round brackets that is empty and doesn't stand behind a name.
    EmptyList,
    /// The names that one list of iterators binds, or a former that collects what it binds.
    Bound(Items<Name<'t>>),
    /// A name that a quantifier binds; whether a former around it binds it, too.
    Quantified(Name<'t>, bool),
    /// The names of a tuple target.
    Target(Items<Name<'t>>),
    /// `quit` or `continue`; whether it stands in a loop.
    Quit(bool),
    /// `return`; whether it stands in a procedure.
    Return(bool),
}

/// One thing that stands in a statement, with the line of that statement.
#[derive(Drop)]
pub struct Occurrence<'t> {
    pub line: u32,
    pub what: What<'t>,
}
