//! The rows of the table of instructions.

use setl_code::Begin;
use setl_operators_table::Operator;
use setl_program::{Collection, Connective, Taking};

/// An instruction without its operands.
#[derive(Clone, Copy, Debug, PartialEq, Eq)]
pub enum Row {
    /// An operator that has always so many operands.
    Operate(Operator),
    SetOf,
    TupleOf,
    Integer,
    Text,
    Truth(bool),
    Undefined,
    NewAtom,
    Eof,
    Load,
    Take,
    Store,
    Put,
    Combine,
    TakeOut(Taking),
    Decide(Connective),
    TestTruth,
    Unless,
    Jump,
    Discard,
    Duplicate,
    Parts,
    Begin(Begin),
    Next,
    Collect(Collection),
    Add,
    Leave,
    Round,
    Call,
    Return,
    Keep,
    Back,
    Print,
    Read,
    Stop,
    Forget,
}
