//! Code: what a program becomes before it runs.

use crate::literal::Literal;
use setl_operators_table::Operator;
use setl_program::{Collection, Connective, Source, Taking};
use setl_tree::{Boxed, Items, Param, Text};

/// Where a variable of a body lies.
#[derive(Clone, Copy, Debug, PartialEq, Eq)]
pub enum Slot {
    /// Among the variables that all bodies see, by its place from 0.
    Global(u32),
    /// Among the parameters and, behind them, the own names of the body, by its place from 0.
    Own(u32),
}

/// A name of a body's own that is no parameter.
#[derive(Debug, Drop)]
pub enum OwnName {
    /// A variable of the body.
    Body(Text),
    /// A variable of a former, by the former's number in the body, from 1 in the order of their opening brackets.
    Former(u32, Text),
}

/// How a selector of an update is written.
#[derive(Clone, Copy, Debug, PartialEq, Eq)]
pub enum Bracket {
    /// `(x)`
    Round,
    /// `{x}`
    Brace,
}

/// What an update does to the part at its selectors.
#[derive(Clone, Copy, Debug, PartialEq, Eq)]
pub enum Alteration {
    /// Puts the right side there.
    Put,
    /// Combines it with the right side.
    Combine(Operator),
    /// Takes a value out of it.
    TakeOut(Taking),
}

/// How an iterator begins.
#[derive(Clone, Copy, Debug, PartialEq, Eq)]
pub enum Begin {
    /// Over the members of a source.
    Members(Source),
    /// Over the arguments of a map, tuple or string, each with its image.
    Points,
}

/// An instruction. A target is the number of a step of the same body, from 0. What would take more than 24 bytes is boxed,
/// since code may have millions of steps.
#[derive(Drop)]
pub enum Instr {
    /// Pushes an integer, a string, a truth value, or `om`.
    Integer(Literal),
    Text(Text),
    Truth(bool),
    Undefined,
    /// Pushes the next atom, for one turn.
    NewAtom,
    /// Pushes whether a read met the end of the input.
    Eof,
    /// Pushes what a variable holds.
    Load(Slot),
    /// Pushes what a variable holds and leaves it without a value. It is then stored before it is read again.
    Take(Slot),
    /// Pops the top into a variable.
    Store(Slot),
    /// Pops so many operands, the last one on top, and pushes what the operator makes of them.
    Operate(Operator, u32),
    /// Pops the selectors, the last one on top, and the right side below them where there is one, and stores a new whole
    /// in the variable. Pushes what was taken out where something is.
    Alter(Alteration, Slot, Boxed<Items<Bracket>>),
    /// Goes to the target where the truth value on top decides, and leaves the answer there; else pops it.
    Decide(Connective, u32),
    /// Stops the run unless a truth value is on top.
    TestTruth,
    /// Pops a truth value, and goes to the target if it is false.
    Unless(u32),
    Jump(u32),
    /// Pops the top.
    Discard,
    /// Pushes the top again.
    Duplicate,
    /// Pops a tuple and pushes its first components, so many, the first one on top.
    Parts(u32),
    /// Pops the parts of a source, so many, the last one on top, and pushes an iterator.
    Begin(Begin, u32),
    /// At the end of the iterator on top drops it and goes to the target; else takes one turn and pushes the member, or
    /// the image and on it the argument.
    Next(u32),
    /// Pushes an empty collection.
    Collect(Collection),
    /// Pops a value, and adds it to the collection below so many iterators.
    Add(u32),
    /// Drops so many iterators.
    Leave(u32),
    /// Takes one turn.
    Round,
    /// Takes one turn and calls the body of this number, whose arguments are popped, the last one on top.
    Call(u32),
    /// Ends the activation; pushes the result, and on it what the `wr` and `rw` parameters hold, the first one on top.
    Return,
    /// `ok`
    Keep,
    /// `fail`
    Back,
    /// `succeed`
    Forget,
    /// Prints so many operands, the last one on top, and pops them.
    Print(u32),
    /// Pushes a value that was read, or `om`.
    Read,
    /// Ends the run.
    Stop,
}

/// An instruction with the line of its statement in the source.
#[derive(Drop)]
pub struct Step {
    pub line: u32,
    pub what: Instr,
}

/// The code of the main program or of a procedure. A slot of its own is a place in the parameters and, behind them, the
/// names.
#[derive(Drop)]
pub struct Body {
    pub name: Text,
    pub parameters: Items<Param>,
    pub names: Items<OwnName>,
    pub steps: Items<Step>,
}

/// The code of a program: the names in `var`, which are the variables that all bodies see, and the bodies, the main
/// program first and the procedures in their order.
#[derive(Drop)]
pub struct Code {
    pub vars: Items<Text>,
    pub bodies: Items<Body>,
}
