//! Conditions.

ghost use Rattle.std.specs.Prelude.{◌≡◌};
ghost use Rattle.setl_program.specs.ProgramOf.{parameter_of};
ghost use Rattle.setl_program.specs.code.Plain.{plain_variable};
ghost use Rattle.setl_model.specs.Calls as calls;
ghost use Rattle.setl_advise_gathering.specs.code.Plain.{plain_name};

use setl_operators_table::Operator;
use setl_program::{Binding, Expr, Place, Variable};
use setl_tree::Param;

/// A variable: one that all bodies see; one of a single body, where 0 is the main program and the procedures follow in
/// their order from 1; or one of a former, by its number in its body.
#[derive(Clone, Copy, PartialEq, Eq, Hash)]
pub enum Name<'p> {
    Global(&'p [u8]),
    Own(u64, &'p [u8]),
    Former(u64, &'p [u8]),
}

/// Where something is stored: in a variable, or in the result of a procedure, by its place among the procedures from 0.
#[derive(Clone, Copy, PartialEq, Eq, Hash)]
pub enum Target<'p> {
    Into(Name<'p>),
    ResultOf(u64),
}

/// What is stored somewhere.
#[derive(Clone, Copy)]
pub enum Term<'p> {
    /// Any value, as `read` stores it.
    Anything,
    /// `om`, as a parameter holds it that a procedure sets.
    Unset,
    /// What a variable holds.
    Held(Name<'p>),
    /// The value of an expression.
    Value(&'p Expr),
    /// A component of the value of an expression.
    Component(&'p Expr),
    /// A member of what an iterator runs over.
    Member(&'p Binding, &'p [Expr]),
    /// A component of such a member.
    MemberComponent(&'p Binding, &'p [Expr]),
    /// An argument of the map that an iterator runs over.
    Argument(&'p Binding, &'p [Expr]),
    /// An image under that map.
    Image(&'p Binding, &'p [Expr]),
    /// What a place's variable holds after `place := e`.
    Assigned(&'p Place, &'p Expr),
    /// What a place's variable holds after `place op:= e`.
    Updated(Operator, &'p Place, &'p Expr),
    /// What is taken from a place.
    Taken(&'p Place),
    /// What a place's variable holds once something was taken from it.
    Remaining(&'p Place),
}

/// What is stored, and where.
#[derive(Clone, Copy)]
pub struct Condition<'p> {
    pub target: Target<'p>,
    pub term: Term<'p>,
}

/// A variable of a program.
pub fn name_of<'p>(x: &'p Variable) -> Name<'p>
    ensures { plain_name result ≡ plain_variable x.now }
{
    match x {
        Variable::Global(text) => Name::Global(text.bytes()),
        Variable::Own(body, text) => Name::Own(*body as u64, text.bytes()),
        Variable::Former(former, text) => Name::Former(*former as u64, text.bytes()),
    }
}

/// A parameter of a body.
pub(crate) fn parameter<'p>(body: u64, p: &'p Param) -> Name<'p>
    ensures { plain_name result ≡ calls.parameter body (parameter_of p.now) }
{
    Name::Own(body, p.name.bytes())
}
