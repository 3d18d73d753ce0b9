//! What instructions name is there.

ghost use Rattle.std.specs.Prelude.{◌≡◌, ◌↔◌, ◌+◌, ◌<◌, ◌^◌, IsTrue, length};
ghost use Rattle.setl_program.specs.Updating.{is_updating};
ghost use Rattle.setl_image_closed.specs.Closed.{IsClosed, has_slot, can_alter, is_count, names_there, all_there, ends, is_ended, last_of, counts_of};
ghost use Rattle.setl_operators_table.specs.Operators.{operand_count};

use setl_code::{Alteration, Body, Code, Instr, Slot, Step};
use setl_operators_table::Operator;

/// What there is for the instructions of a body: variables that all bodies see, variables of its own, steps, and bodies;
/// and the number of the body.
#[derive(Clone, Copy)]
struct Counts {
    globals: usize,
    own: usize,
    steps: usize,
    bodies: usize,
    number: usize,
}

/// Whether each slot, step and body that the body of this number names is there, each operator has as many operands as it
/// needs, each update has an operator that it may have, no instruction calls the main program or returns from it, and the
/// last step ends the body.
pub fn is_closed(code: &Code, n: usize, body: &Body) -> bool
    requires few { length body.now.parameters + length body.now.names < 2 ^ 32 }
    ensures { IsTrue result ↔ IsClosed code.now n body.now }
{
    let counts = counts_of(code, n, body);
    let there = all_there(&counts, body.steps.as_slice());
    let ended = is_ended(body.steps.as_slice());
    there && ended
}

// What there is for the instructions of a body.
fn counts_of(code: &Code, n: usize, body: &Body) -> Counts
    requires few { length body.now.parameters + length body.now.names < 2 ^ 32 }
    ensures { result ≡ counts_of code.now n body.now }
{
    Counts {
        globals: code.vars.len(),
        own: body.parameters.len() + body.names.len(),
        steps: body.steps.len(),
        bodies: code.bodies.len(),
        number: n,
    }
}

// Whether what the steps name is there.
fn all_there(counts: &Counts, steps: &[Step]) -> bool
    ensures { result ≡ all_there counts.now steps.now }
{
    for step in steps {
        if !names_there(counts, &step.what) {
            return false;
        }
    }
    true
}

// Whether what an instruction names is there.
fn names_there(counts: &Counts, what: &Instr) -> bool
    ensures { result ≡ names_there counts.now what.now }
{
    match what {
        Instr::Load(slot) | Instr::Take(slot) | Instr::Store(slot) => has_slot(counts, *slot),
        Instr::Operate(operator, n) => is_count(*operator, *n),
        Instr::Alter(alteration, slot, _) => has_slot(counts, *slot) && can_alter(*alteration),
        Instr::Decide(_, to) | Instr::Unless(to) | Instr::Jump(to) | Instr::Next(to) => {
            (*to as usize) < counts.steps
        }
        Instr::Call(m) => 0 < *m && (*m as usize) < counts.bodies,
        Instr::Return => 0 < counts.number,
        _ => true,
    }
}

// Whether a slot is there.
fn has_slot(counts: &Counts, slot: Slot) -> bool
    ensures { result ≡ has_slot counts.now slot }
{
    match slot {
        Slot::Global(k) => (k as usize) < counts.globals,
        Slot::Own(k) => (k as usize) < counts.own,
    }
}

// Whether an operator has so many operands.
fn is_count(operator: Operator, n: u32) -> bool
    ensures { result ≡ is_count (operand_count operator) n }
{
    match operator.operand_count() {
        None => true,
        Some(count) => n as usize == count,
    }
}

/// Whether an update may do this: put, take out, or combine by an operator that an update may have.
pub fn can_alter(alteration: Alteration) -> bool
    ensures { result ≡ can_alter alteration }
{
    match alteration {
        Alteration::Put | Alteration::TakeOut(_) => true,
        Alteration::Combine(operator) => is_updating(operator),
    }
}

// Whether an update may have the operator.
fn is_updating(operator: Operator) -> bool
    ensures { result ≡ is_updating operator }
{
    matches!(
        operator,
        Operator::Add
            | Operator::Subtract
            | Operator::Multiply
            | Operator::Power
            | Operator::Divide
            | Operator::Modulo
            | Operator::Max
            | Operator::Min
            | Operator::With
            | Operator::Less
            | Operator::Lessf
            | Operator::Npow
    )
}

// Whether the last step ends a body.
fn is_ended(steps: &[Step]) -> bool
    ensures { result ≡ is_ended (last_of steps.now) }
{
    match steps.last() {
        None => false,
        Some(step) => ends(&step.what),
    }
}

// Whether no step comes after an instruction in its body but one that it names.
fn ends(what: &Instr) -> bool
    ensures { result ≡ ends what.now }
{
    matches!(
        what,
        Instr::Jump(_) | Instr::Return | Instr::Back | Instr::Stop
    )
}
