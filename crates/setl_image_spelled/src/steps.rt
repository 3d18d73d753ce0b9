//! Instructions and steps.

ghost use Rattle.std.specs.Prelude.{◌≡◌};
ghost use Rattle.std.specs.List.{list_all};
ghost use Rattle.setl_operators_table.specs.Operators.{operand_count};
ghost use Rattle.setl_image_format.specs.Table.{begin_count};
ghost use Rattle.setl_image_spelled.specs.Spelled.{instr_fits, is_count, is_put, is_whole, operate_fits, slot_fits, step_fits, text_fits};

use crate::numbers::{is_length, is_number};
use setl_code::{Begin, Instr, Slot, Step};
use setl_image_closed::can_alter;
use setl_operators_table::Operator;
use setl_program::Source;
use setl_tree::Text;

/// Whether each of these steps has a spelling, where all bodies see so many variables and the body has so many of its own.
pub(crate) fn steps_fit(globals: usize, own: u128, steps: &[Step]) -> bool
    ensures { result ≡ list_all (step_fits globals own) steps.now }
{
    for step in steps {
        if !step_fits(globals, own, step) {
            return false;
        }
    }
    true
}

// Whether a step has a spelling.
fn step_fits(globals: usize, own: u128, step: &Step) -> bool
    ensures { result ≡ step_fits globals own step.now }
{
    is_number(step.line) && instr_fits(globals, own, &step.what)
}

// Whether an instruction has a spelling.
fn instr_fits(globals: usize, own: u128, what: &Instr) -> bool
    ensures { result ≡ instr_fits globals own what.now }
{
    match what {
        Instr::Integer(n) => is_whole(n.get()),
        Instr::Text(t) => text_fits(t),
        Instr::Load(x) | Instr::Take(x) | Instr::Store(x) => slot_fits(globals, own, *x),
        Instr::Operate(operator, n) => operate_fits(*operator, *n),
        Instr::Alter(a, x, brackets) => {
            can_alter(*a) && slot_fits(globals, own, *x) && is_length(brackets.get().len())
        }
        Instr::Decide(_, n)
        | Instr::Unless(n)
        | Instr::Jump(n)
        | Instr::Parts(n)
        | Instr::Next(n)
        | Instr::Add(n)
        | Instr::Leave(n)
        | Instr::Call(n)
        | Instr::Print(n) => is_number(*n),
        Instr::Begin(begin, n) => *n == begin_count(*begin),
        _ => true,
    }
}

// Whether a string has a spelling.
#[tactic(auto, using(crate::proofs::Telling::clean_text))]
fn text_fits(text: &Text) -> bool
    ensures { result ≡ text_fits text.now }
{
    is_length(text.bytes().len())
}

// Whether an integer has a spelling.
fn is_whole(n: i128) -> bool
    ensures { result ≡ is_whole n }
{
    n >= 0
}

// Whether a slot is there and its number is below 2^32.
fn slot_fits(globals: usize, own: u128, slot: Slot) -> bool
    ensures { result ≡ slot_fits globals own slot }
{
    match slot {
        Slot::Global(k) => (k as usize) < globals && k < 1 << 31,
        Slot::Own(k) => u128::from(k) < own && k < 1 << 31,
    }
}

// Whether an operator with so many operands has a spelling.
fn operate_fits(operator: Operator, n: u32) -> bool
    ensures { result ≡ operate_fits operator n }
{
    !is_put(operator) && is_count(operator, n)
}

// Whether an operator is a put, for which no byte stands.
fn is_put(operator: Operator) -> bool
    ensures { result ≡ is_put operator }
{
    matches!(operator, Operator::Put | Operator::PutImages)
}

// Whether an operator has so many operands.
fn is_count(operator: Operator, n: u32) -> bool
    ensures { result ≡ is_count (operand_count operator) n }
{
    match operator.operand_count() {
        None => is_number(n),
        Some(count) => n as usize == count,
    }
}

// How many parts a source has.
fn begin_count(begin: Begin) -> u32
    ensures { result ≡ begin_count begin }
{
    match begin {
        Begin::Members(Source::Values) | Begin::Points => 1,
        Begin::Members(Source::Between) => 2,
        Begin::Members(Source::SetSteps) | Begin::Members(Source::TupleSteps) => 3,
    }
}
