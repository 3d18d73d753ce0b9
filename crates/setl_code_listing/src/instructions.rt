//! Instructions.

ghost use Rattle.std.specs.Prelude.{◌≡◌, ◌++◌, ◌∷◌, codes, map, OnOk};
ghost use Rattle.setl_code.specs.Listing.{alteration_word, brackets_text, instr_text, name_at, operate_text, variable_text};
ghost use Rattle.setl_code.specs.Plain.{plain_alteration, plain_bracket, plain_instr, plain_slot};
ghost use Rattle.setl_code_listing.specs.Parts.{bodies_of, variables_of};

use crate::names::{push_body_name, push_variable};
use crate::texts::{push_integer, push_numbered, push_string, push_word};
use crate::words::{alteration_word, begin_words, connective_word, operator_word};
use setl_code::{Alteration, Body, Bracket, Code, Instr, Slot};
use setl_operators_table::Operator;
use setl_program::Collection;
use std::alloc::AllocError;

/// Adds an instruction of a body.
pub fn push_instr(
    into: &mut Vec<u8>,
    code: &Code,
    body: &Body,
    what: &Instr,
) -> Result<(), AllocError>
    ensures { OnOk result (into.new.items ≡ into.old.items ++ instr_text (bodies_of code.now) (plain_instr (variables_of code.now body.now) what.now)) }
{
    match what {
        Instr::Integer(n) => push_integer(into, n.get()),
        Instr::Text(t) => push_string(into, t),
        Instr::Truth(true) => push_word(into, "true"),
        Instr::Truth(false) => push_word(into, "false"),
        Instr::Undefined => push_word(into, "om"),
        Instr::NewAtom => push_word(into, "newat"),
        Instr::Eof => push_word(into, "eof"),
        Instr::Load(x) => push_access(into, "load ", code, body, *x),
        Instr::Take(x) => push_access(into, "take ", code, body, *x),
        Instr::Store(x) => push_access(into, "store ", code, body, *x),
        Instr::Operate(o, n) => push_operate(into, *o, *n),
        Instr::Alter(a, x, brackets) => {
            push_alter(into, code, body, *a, *x, brackets.get().as_slice())
        }
        Instr::Decide(k, to) => push_numbered(into, connective_word(*k), *to),
        Instr::TestTruth => push_word(into, "bool"),
        Instr::Unless(to) => push_numbered(into, "unless", *to),
        Instr::Jump(to) => push_numbered(into, "jump", *to),
        Instr::Discard => push_word(into, "drop"),
        Instr::Duplicate => push_word(into, "dup"),
        Instr::Parts(n) => push_numbered(into, "parts", *n),
        Instr::Begin(k, _) => push_word(into, begin_words(*k)),
        Instr::Next(to) => push_numbered(into, "next", *to),
        Instr::Collect(Collection::OfSet) => push_word(into, "newset"),
        Instr::Collect(Collection::OfTuple) => push_word(into, "newtuple"),
        Instr::Add(n) => push_numbered(into, "add", *n),
        Instr::Leave(n) => push_numbered(into, "leave", *n),
        Instr::Round => push_word(into, "round"),
        Instr::Call(n) => push_call(into, code, *n),
        Instr::Return => push_word(into, "return"),
        Instr::Keep => push_word(into, "ok"),
        Instr::Back => push_word(into, "fail"),
        Instr::Forget => push_word(into, "succeed"),
        Instr::Print(n) => push_numbered(into, "print", *n),
        Instr::Read => push_word(into, "read"),
        Instr::Stop => push_word(into, "stop"),
    }
}

// Adds a word and behind it the name of a slot of a body.
fn push_access(
    into: &mut Vec<u8>,
    word: &str,
    code: &Code,
    body: &Body,
    slot: Slot,
) -> Result<(), AllocError>
    ensures { OnOk result (into.new.items ≡ into.old.items ++ (word.now ++ variable_text (plain_slot (variables_of code.now body.now) slot))) }
{
    push_word(into, word)?;
    push_variable(into, code, body, slot)
}

// Adds an operator, and how many operands it has where it may have any number.
fn push_operate(into: &mut Vec<u8>, o: Operator, n: u32) -> Result<(), AllocError>
    ensures { OnOk result (into.new.items ≡ into.old.items ++ operate_text o n) }
{
    match o {
        Operator::SetOf => push_numbered(into, "set", n),
        Operator::TupleOf => push_numbered(into, "tuple", n),
        _ => push_word(into, operator_word(o)),
    }
}

// Adds an update of a slot of a body.
fn push_alter(
    into: &mut Vec<u8>,
    code: &Code,
    body: &Body,
    a: Alteration,
    slot: Slot,
    brackets: &[Bracket],
) -> Result<(), AllocError>
    ensures { OnOk result (into.new.items ≡ into.old.items ++ (alteration_word (plain_alteration a) ++ 32 ∷ variable_text (plain_slot (variables_of code.now body.now) slot) ++ brackets_text (map plain_bracket brackets.now))) }
{
    push_word(into, alteration_word(a))?;
    into.push(b' ')?;
    push_variable(into, code, body, slot)?;
    push_brackets(into, brackets)
}

// Adds the brackets of selectors.
fn push_brackets(into: &mut Vec<u8>, brackets: &[Bracket]) -> Result<(), AllocError>
    ensures { OnOk result (into.new.items ≡ into.old.items ++ brackets_text (map plain_bracket brackets.now)) }
{
    for b in brackets {
        match b {
            Bracket::Round => push_word(into, " ()")?,
            Bracket::Brace => push_word(into, " {}")?,
        }
    }
    Ok(())
}

// Adds the call of the body of this number.
fn push_call(into: &mut Vec<u8>, code: &Code, n: u32) -> Result<(), AllocError>
    ensures { OnOk result (into.new.items ≡ into.old.items ++ (codes "call " ++ name_at n (bodies_of code.now))) }
{
    push_word(into, "call ")?;
    push_body_name(into, code, n)
}
