//! Slots, instructions and steps.

ghost use Rattle.std.specs.Prelude.{◌≡◌, ◌++◌, ℕ, List, OnOk, unwrap_or};
ghost use Rattle.setl_code.specs.declared.code.Bracket.{Bracket};
ghost use Rattle.setl_code.specs.declared.code.Instr.{Instr};
ghost use Rattle.setl_code.specs.declared.code.Instr.TheVariants.{Alter};
ghost use Rattle.setl_code.specs.declared.code.Slot.{Slot};
ghost use Rattle.setl_operators_table.specs.declared.Operator.{Operator};
ghost use Rattle.setl_image_codec.specs.Given.{Gives};
ghost use Rattle.setl_image_format.specs.Table.{form, Combining, Updating, Whole, Written};
ghost use Rattle.setl_image_format.specs.Steps as spec;
ghost use Rattle.setl_image_format.specs.Table as table;
ghost use Rattle.setl_operators_table.specs.Operators.{operand_count};
ghost use Rattle.setl_program.specs.Updating.{is_updating};

use crate::table::{operator_at, operator_tag, row_at, tag};
use setl_code::{Alteration, Begin, Bracket, Instr, Literal, Slot, Step};
use setl_image_codec::{
    Coder, ImageFault, push_integer, push_list, push_number, push_text, read_integer, read_list,
    read_number, read_text,
};
use setl_image_format::Row;
use setl_operators_table::Operator;
use setl_program::{Collection, Connective, Source, Taking};
use setl_tree::{Boxed, Items};
use std::alloc::{AllocError, Global};

// The slot at the front, where there is that slot.
fn read_slot(globals: usize, own: u128, bytes: &[u8]) -> Result<(Slot, &[u8]), ImageFault>
    ensures { Gives {Y = Slot × List ℕ} (λ x. (x.0, x.1.now)) result ((spec.a_slot globals own).read bytes.now) }
{
    let (n, rest) = read_number(bytes)?;
    let k = n / 2;
    if n % 2 == 0 {
        if (k as usize) < globals {
            return Ok((Slot::Global(k), rest));
        }
    } else if u128::from(k) < own {
        return Ok((Slot::Own(k), rest));
    }
    Err(ImageFault::Bad)
}

// How a selector is written.
fn read_bracket(bytes: &[u8]) -> Result<(Bracket, &[u8]), ImageFault>
    ensures { Gives {Y = Bracket × List ℕ} (λ x. (x.0, x.1.now)) result (spec.a_bracket.read bytes.now) }
{
    match bytes {
        [0, rest @ ..] => Ok((Bracket::Round, rest)),
        [1, rest @ ..] => Ok((Bracket::Brace, rest)),
        _ => Err(ImageFault::Bad),
    }
}

// An operator that an update may have.
fn read_operator(bytes: &[u8]) -> Result<(Operator, &[u8]), ImageFault>
    ensures { Gives {Y = Operator × List ℕ} (λ x. (x.0, x.1.now)) result (spec.an_operator.read bytes.now) }
{
    let Some((b, rest)) = bytes.split_first() else {
        return Err(ImageFault::Bad);
    };
    let Some(what) = operator_at(*b) else {
        return Err(ImageFault::Bad);
    };
    if !is_updating(what) {
        return Err(ImageFault::Bad);
    }
    Ok((what, rest))
}

// Whether an update may have the operator.
fn is_updating(what: Operator) -> bool
    ensures { result ≡ is_updating what }
{
    matches!(
        what,
        Operator::Add
            | Operator::Subtract
            | Operator::Multiply
            | Operator::Power
            | Operator::Divide
            | Operator::Modulo
            | Operator::Max
            | Operator::Min
            | Operator::With
            | Operator::Less
            | Operator::Lessf
            | Operator::Npow
    )
}

// A slot and the selectors behind it.
#[tactic(auto, using(crate::proofs::Operators::same_items))]
fn read_place(
    alloc: Global,
    globals: usize,
    own: u128,
    bytes: &[u8],
) -> Result<((Slot, Items<Bracket>), &[u8]), ImageFault>
    ensures { Gives {Y = (Slot × List Bracket) × List ℕ} (λ x. (x.0, x.1.now)) result ((spec.a_place globals own).read bytes.now) }
{
    let (x, rest) = read_slot(globals, own, bytes)?;
    let (brackets, behind) = read_list(alloc, &BracketCoder {}, rest)?;
    Ok(((x, brackets), behind))
}

/// Selectors.
#[derive(Drop)]
pub struct BracketCoder {}

impl Coder for BracketCoder {
    type Out = Bracket;

    ghost use Rattle.setl_code.specs.declared.code.Bracket.{Bracket};
    ghost use Rattle.setl_image_format.specs.Steps.{a_bracket};

    ghost Plain = { Bracket };

    ghost view = { λ x. x };

    ghost codec = { λ c. a_bracket };

    fn read<'a>(&self, _alloc: Global, bytes: &'a [u8]) -> Result<(Bracket, &'a [u8]), ImageFault> {
        read_bracket(bytes)
    }

    fn push(&self, into: &mut Vec<u8>, x: &Bracket) -> Result<(), AllocError> {
        into.push(match x {
            Bracket::Round => 0,
            Bracket::Brace => 1,
        })?;
        Ok(())
    }
}

// An update of the slot at the front.
fn read_update(
    alloc: Global,
    globals: usize,
    own: u128,
    a: Alteration,
    bytes: &[u8],
) -> Result<(Instr, &[u8]), ImageFault>
    ensures { Gives {Y = Instr × List ℕ} (λ x. (x.0, x.1.now)) result ((spec.operands globals own (Updating a)).read bytes.now) }
{
    let ((x, brackets), rest) = read_place(alloc, globals, own, bytes)?;
    Ok((Instr::Alter(a, x, Boxed::new(alloc, brackets)?), rest))
}

// An update by the operator at the front.
fn read_combining(
    alloc: Global,
    globals: usize,
    own: u128,
    bytes: &[u8],
) -> Result<(Instr, &[u8]), ImageFault>
    ensures { Gives {Y = Instr × List ℕ} (λ x. (x.0, x.1.now)) result ((spec.operands globals own Combining).read bytes.now) }
{
    let (what, rest) = read_operator(bytes)?;
    let ((x, brackets), behind) = read_place(alloc, globals, own, rest)?;
    let a = Alteration::Combine(what);
    Ok((Instr::Alter(a, x, Boxed::new(alloc, brackets)?), behind))
}

// An integer.
fn read_whole(bytes: &[u8]) -> Result<(Instr, &[u8]), ImageFault>
    ensures { Gives {Y = Instr × List ℕ} (λ x. (x.0, x.1.now)) result ((spec.operands 0 0 Whole).read bytes.now) }
{
    let (n, rest) = read_integer(bytes)?;
    Ok((Instr::Integer(Literal::new(n as i128)), rest))
}

// A string.
fn read_written(alloc: Global, bytes: &[u8]) -> Result<(Instr, &[u8]), ImageFault>
    ensures { Gives {Y = Instr × List ℕ} (λ x. (x.0, x.1.now)) result ((spec.operands 0 0 Written).read bytes.now) }
{
    let (t, rest) = read_text(alloc, bytes)?;
    Ok((Instr::Text(t), rest))
}

// What stands behind the byte of a row.
fn read_row(
    alloc: Global,
    globals: usize,
    own: u128,
    row: Row,
    bytes: &[u8],
) -> Result<(Instr, &[u8]), ImageFault>
    ensures { Gives {Y = Instr × List ℕ} (λ x. (x.0, x.1.now)) result ((spec.operands globals own (form row)).read bytes.now) }
{
    match row {
        Row::Operate(what) => Ok((Instr::Operate(what, fixed_count(what)), bytes)),
        Row::SetOf => {
            let (n, rest) = read_number(bytes)?;
            Ok((Instr::Operate(Operator::SetOf, n), rest))
        }
        Row::TupleOf => {
            let (n, rest) = read_number(bytes)?;
            Ok((Instr::Operate(Operator::TupleOf, n), rest))
        }
        Row::Integer => read_whole(bytes),
        Row::Text => read_written(alloc, bytes),
        Row::Truth(t) => Ok((Instr::Truth(t), bytes)),
        Row::Undefined => Ok((Instr::Undefined, bytes)),
        Row::NewAtom => Ok((Instr::NewAtom, bytes)),
        Row::Eof => Ok((Instr::Eof, bytes)),
        Row::Load => {
            let (x, rest) = read_slot(globals, own, bytes)?;
            Ok((Instr::Load(x), rest))
        }
        Row::Take => {
            let (x, rest) = read_slot(globals, own, bytes)?;
            Ok((Instr::Take(x), rest))
        }
        Row::Store => {
            let (x, rest) = read_slot(globals, own, bytes)?;
            Ok((Instr::Store(x), rest))
        }
        Row::Put => read_update(alloc, globals, own, Alteration::Put, bytes),
        Row::Combine => read_combining(alloc, globals, own, bytes),
        Row::TakeOut(k) => read_update(alloc, globals, own, Alteration::TakeOut(k), bytes),
        Row::Decide(k) => {
            let (n, rest) = read_number(bytes)?;
            Ok((Instr::Decide(k, n), rest))
        }
        Row::TestTruth => Ok((Instr::TestTruth, bytes)),
        Row::Unless => {
            let (n, rest) = read_number(bytes)?;
            Ok((Instr::Unless(n), rest))
        }
        Row::Jump => {
            let (n, rest) = read_number(bytes)?;
            Ok((Instr::Jump(n), rest))
        }
        Row::Discard => Ok((Instr::Discard, bytes)),
        Row::Duplicate => Ok((Instr::Duplicate, bytes)),
        Row::Parts => {
            let (n, rest) = read_number(bytes)?;
            Ok((Instr::Parts(n), rest))
        }
        Row::Begin(k) => Ok((Instr::Begin(k, begin_count(k)), bytes)),
        Row::Next => {
            let (n, rest) = read_number(bytes)?;
            Ok((Instr::Next(n), rest))
        }
        Row::Collect(k) => Ok((Instr::Collect(k), bytes)),
        Row::Add => {
            let (n, rest) = read_number(bytes)?;
            Ok((Instr::Add(n), rest))
        }
        Row::Leave => {
            let (n, rest) = read_number(bytes)?;
            Ok((Instr::Leave(n), rest))
        }
        Row::Round => Ok((Instr::Round, bytes)),
        Row::Call => {
            let (n, rest) = read_number(bytes)?;
            Ok((Instr::Call(n), rest))
        }
        Row::Return => Ok((Instr::Return, bytes)),
        Row::Keep => Ok((Instr::Keep, bytes)),
        Row::Back => Ok((Instr::Back, bytes)),
        Row::Print => {
            let (n, rest) = read_number(bytes)?;
            Ok((Instr::Print(n), rest))
        }
        Row::Read => Ok((Instr::Read, bytes)),
        Row::Stop => Ok((Instr::Stop, bytes)),
        Row::Forget => Ok((Instr::Forget, bytes)),
    }
}

// How many operands an operator has, where it has always so many.
fn fixed_count(what: Operator) -> u32
    ensures { result ≡ unwrap_or (operand_count what) 0 }
{
    match what {
        Operator::Negate
        | Operator::Abs
        | Operator::Even
        | Operator::Odd
        | Operator::Size
        | Operator::Not
        | Operator::Pow
        | Operator::Domain
        | Operator::Range
        | Operator::Arb
        | Operator::Str
        | Operator::IsInteger
        | Operator::IsString
        | Operator::IsBoolean
        | Operator::IsAtom
        | Operator::IsTuple
        | Operator::IsSet
        | Operator::IsMap
        | Operator::FoldAdd
        | Operator::FoldMultiply
        | Operator::FoldMax
        | Operator::FoldMin
        | Operator::FoldAnd
        | Operator::FoldOr => 1,
        Operator::SetOf | Operator::TupleOf => 0,
        Operator::Slice
        | Operator::SetStep
        | Operator::TupleStep
        | Operator::Put
        | Operator::PutImages => 3,
        _ => 2,
    }
}

// How many parts a source has.
fn begin_count(k: Begin) -> u32
    ensures { result ≡ table.begin_count k }
{
    match k {
        Begin::Members(Source::Values) | Begin::Points => 1,
        Begin::Members(Source::Between) => 2,
        Begin::Members(Source::SetSteps) | Begin::Members(Source::TupleSteps) => 3,
    }
}

// The instruction at the front.
fn read_instr(
    alloc: Global,
    globals: usize,
    own: u128,
    bytes: &[u8],
) -> Result<(Instr, &[u8]), ImageFault>
    ensures { Gives {Y = Instr × List ℕ} (λ x. (x.0, x.1.now)) result ((spec.instr globals own).read bytes.now) }
{
    let Some((b, rest)) = bytes.split_first() else {
        return Err(ImageFault::Bad);
    };
    let Some(row) = row_at(*b) else {
        return Err(ImageFault::Bad);
    };
    read_row(alloc, globals, own, row, rest)
}

/// Steps of a body with so many slots.
#[derive(Drop)]
pub struct StepCoder {
    /// How many variables all bodies see.
    pub globals: usize,
    /// How many the body has of its own: as wide as the sum of two counts.
    pub own: u128,
}

impl Coder for StepCoder {
    type Out = Step;

    ghost use Rattle.setl_code.specs.declared.code.Step.{Step};
    ghost use Rattle.setl_image_format.specs.Steps.{step};

    ghost Plain = { Step };

    ghost view = { λ x. x };

    ghost codec = { λ c. step c.globals c.own };

    fn read<'a>(&self, alloc: Global, bytes: &'a [u8]) -> Result<(Step, &'a [u8]), ImageFault> {
        let (line, rest) = read_number(bytes)?;
        let (what, behind) = read_instr(alloc, self.globals, self.own, rest)?;
        Ok((Step { line, what }, behind))
    }

    fn push(&self, into: &mut Vec<u8>, x: &Step) -> Result<(), AllocError> {
        push_number(into, x.line)?;
        push_instr(into, self.globals, self.own, &x.what)
    }
}

// Adds a slot.
fn push_slot(into: &mut Vec<u8>, globals: usize, own: u128, x: Slot) -> Result<(), AllocError>
    requires { (spec.a_slot globals own).Fits x }
    ensures { OnOk result (into.new.items ≡ into.old.items ++ (spec.a_slot globals own).write x) }
{
    match x {
        Slot::Global(k) => push_number(into, 2 * k),
        Slot::Own(k) => push_number(into, 2 * k + 1),
    }
}

// Adds a slot and selectors.
#[tactic(auto, using(crate::proofs::Operators::same_items))]
fn push_place(
    into: &mut Vec<u8>,
    globals: usize,
    own: u128,
    x: Slot,
    brackets: &[Bracket],
) -> Result<(), AllocError>
    requires { (spec.a_place globals own).Fits (x, brackets.now) }
    ensures { OnOk result (into.new.items ≡ into.old.items ++ (spec.a_place globals own).write (x, brackets.now)) }
{
    push_slot(into, globals, own, x)?;
    push_list(&BracketCoder {}, into, brackets)
}

// Adds an instruction.
fn push_instr(into: &mut Vec<u8>, globals: usize, own: u128, what: &Instr) -> Result<(), AllocError>
    requires { (spec.instr globals own).Fits what.now }
    ensures { OnOk result (into.new.items ≡ into.old.items ++ (spec.instr globals own).write what.now) }
{
    into.push(tag(what))?;
    push_operands(into, globals, own, what)
}

// Adds the operands of an instruction.
#[tactic(auto, using(crate::proofs::Operators::operate_writes))]
fn push_operands(
    into: &mut Vec<u8>,
    globals: usize,
    own: u128,
    what: &Instr,
) -> Result<(), AllocError>
    requires { (spec.behind globals own (table.row_at (table.tag what.now))).Fits what.now }
    ensures { OnOk result (into.new.items ≡ into.old.items ++ (spec.behind globals own (table.row_at (table.tag what.now))).write what.now) }
{
    match what {
        Instr::Integer(n) => push_integer(into, n.get().unsigned_abs()),
        Instr::Text(t) => push_text(into, t),
        Instr::Load(x) => push_slot(into, globals, own, *x),
        Instr::Take(x) => push_slot(into, globals, own, *x),
        Instr::Store(x) => push_slot(into, globals, own, *x),
        Instr::Operate(Operator::SetOf, n) => push_number(into, *n),
        Instr::Operate(Operator::TupleOf, n) => push_number(into, *n),
        Instr::Operate(_, _) => Ok(()),
        Instr::Alter(a, x, brackets) => {
            push_update(into, globals, own, *a, *x, brackets.get().as_slice())
        }
        Instr::Decide(Connective::And, to) => push_number(into, *to),
        Instr::Decide(Connective::Or, to) => push_number(into, *to),
        Instr::Decide(Connective::Implies, to) => push_number(into, *to),
        Instr::Unless(n) => push_number(into, *n),
        Instr::Jump(n) => push_number(into, *n),
        Instr::Parts(n) => push_number(into, *n),
        Instr::Next(n) => push_number(into, *n),
        Instr::Add(n) => push_number(into, *n),
        Instr::Leave(n) => push_number(into, *n),
        Instr::Call(n) => push_number(into, *n),
        Instr::Print(n) => push_number(into, *n),
        Instr::Truth(true) => Ok(()),
        Instr::Truth(false) => Ok(()),
        Instr::Undefined => Ok(()),
        Instr::NewAtom => Ok(()),
        Instr::Eof => Ok(()),
        Instr::TestTruth => Ok(()),
        Instr::Discard => Ok(()),
        Instr::Duplicate => Ok(()),
        Instr::Begin(Begin::Members(Source::Values), _) => Ok(()),
        Instr::Begin(Begin::Members(Source::Between), _) => Ok(()),
        Instr::Begin(Begin::Members(Source::SetSteps), _) => Ok(()),
        Instr::Begin(Begin::Members(Source::TupleSteps), _) => Ok(()),
        Instr::Begin(Begin::Points, _) => Ok(()),
        Instr::Collect(Collection::OfSet) => Ok(()),
        Instr::Collect(Collection::OfTuple) => Ok(()),
        Instr::Round => Ok(()),
        Instr::Return => Ok(()),
        Instr::Keep => Ok(()),
        Instr::Back => Ok(()),
        Instr::Read => Ok(()),
        Instr::Stop => Ok(()),
        Instr::Forget => Ok(()),
    }
}

// Adds the operands of an update.
fn push_update(
    into: &mut Vec<u8>,
    globals: usize,
    own: u128,
    a: Alteration,
    x: Slot,
    brackets: &[Bracket],
) -> Result<(), AllocError>
    requires { (spec.behind globals own (table.row_at (table.tag (Alter a x brackets.now)))).Fits (Alter a x brackets.now) }
    ensures { OnOk result (into.new.items ≡ into.old.items ++ (spec.behind globals own (table.row_at (table.tag (Alter a x brackets.now)))).write (Alter a x brackets.now)) }
{
    match a {
        Alteration::Put => push_place(into, globals, own, x, brackets),
        Alteration::TakeOut(Taking::TakeLeast) => push_place(into, globals, own, x, brackets),
        Alteration::TakeOut(Taking::TakeFirst) => push_place(into, globals, own, x, brackets),
        Alteration::TakeOut(Taking::TakeLast) => push_place(into, globals, own, x, brackets),
        Alteration::Combine(what) => {
            into.push(operator_tag(what))?;
            push_place(into, globals, own, x, brackets)
        }
    }
}
