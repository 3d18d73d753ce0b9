//! The table of the instructions by their bytes.

ghost use Rattle.std.specs.Prelude.{◌≡◌, option_map, slice_get};
ghost use Rattle.setl_image_format.specs.Table as spec;

use setl_code::{Alteration, Begin, Instr};
use setl_image_format::Row;
use setl_operators_table::Operator;
use setl_program::{Collection, Connective, Source, Taking};

// The operators by their bytes, from 0 on.
const OPERATORS: &[Operator] = &[
    Operator::Negate,
    Operator::Abs,
    Operator::Even,
    Operator::Odd,
    Operator::Size,
    Operator::Not,
    Operator::Pow,
    Operator::Domain,
    Operator::Range,
    Operator::Arb,
    Operator::Str,
    Operator::IsInteger,
    Operator::IsString,
    Operator::IsBoolean,
    Operator::IsAtom,
    Operator::IsTuple,
    Operator::IsSet,
    Operator::IsMap,
    Operator::Add,
    Operator::Subtract,
    Operator::Multiply,
    Operator::Power,
    Operator::Divide,
    Operator::Modulo,
    Operator::Max,
    Operator::Min,
    Operator::With,
    Operator::Less,
    Operator::Lessf,
    Operator::Npow,
    Operator::Equal,
    Operator::NotEqual,
    Operator::Below,
    Operator::AtMost,
    Operator::Above,
    Operator::AtLeast,
    Operator::In,
    Operator::NotIn,
    Operator::Subset,
    Operator::Includes,
    Operator::Get,
    Operator::Images,
    Operator::Slice,
    Operator::Tail,
    Operator::FoldAdd,
    Operator::FoldMultiply,
    Operator::FoldMax,
    Operator::FoldMin,
    Operator::FoldAnd,
    Operator::FoldOr,
];

// The other rows by their bytes, from 64 on.
const ROWS: &[Row] = &[
    Row::Integer,
    Row::Text,
    Row::Truth(true),
    Row::Truth(false),
    Row::Undefined,
    Row::NewAtom,
    Row::Eof,
    Row::Load,
    Row::Take,
    Row::Store,
    Row::SetOf,
    Row::TupleOf,
    Row::Operate(Operator::SetRange),
    Row::Operate(Operator::TupleRange),
    Row::Operate(Operator::SetStep),
    Row::Operate(Operator::TupleStep),
    Row::Put,
    Row::Combine,
    Row::TakeOut(Taking::TakeLeast),
    Row::TakeOut(Taking::TakeFirst),
    Row::TakeOut(Taking::TakeLast),
    Row::Decide(Connective::And),
    Row::Decide(Connective::Or),
    Row::Decide(Connective::Implies),
    Row::TestTruth,
    Row::Unless,
    Row::Jump,
    Row::Discard,
    Row::Duplicate,
    Row::Parts,
    Row::Begin(Begin::Members(Source::Values)),
    Row::Begin(Begin::Members(Source::Between)),
    Row::Begin(Begin::Members(Source::SetSteps)),
    Row::Begin(Begin::Members(Source::TupleSteps)),
    Row::Begin(Begin::Points),
    Row::Next,
    Row::Collect(Collection::OfSet),
    Row::Collect(Collection::OfTuple),
    Row::Add,
    Row::Leave,
    Row::Round,
    Row::Call,
    Row::Return,
    Row::Keep,
    Row::Back,
    Row::Print,
    Row::Read,
    Row::Stop,
    Row::Forget,
];

/// The row of a byte.
pub fn row_at(b: u8) -> Option<Row>
    ensures { result ≡ spec.row_at b }
{
    if b < 50 {
        return operator_row(b);
    }
    if b < 64 {
        return None;
    }
    at(rows(), b as usize - 64)
}

/// The operator of a byte.
pub fn operator_at(b: u8) -> Option<Operator>
    ensures { result ≡ slice_get spec.operators b }
{
    at(operators(), b as usize)
}

fn operator_row(b: u8) -> Option<Row>
    ensures { result ≡ option_map Row.Operate (slice_get spec.operators b) }
{
    let what = operator_at(b)?;
    Some(Row::Operate(what))
}

/// What stands at a place.
pub fn at<T: Copy>(all: &[T], k: usize) -> Option<T>
    ensures { result ≡ slice_get all.now k }
{
    if k < all.len() { Some(all[k]) } else { None }
}

fn operators() -> &'static [Operator]
    ensures { result.now ≡ spec.operators }
{
    OPERATORS
}

fn rows() -> &'static [Row]
    ensures { result.now ≡ spec.rows }
{
    ROWS
}

/// The byte of an operator; 255 where it has none.
pub fn operator_tag(what: Operator) -> u8
    ensures { result ≡ spec.operator_tag what }
{
    match what {
        Operator::Negate => 0,
        Operator::Abs => 1,
        Operator::Even => 2,
        Operator::Odd => 3,
        Operator::Size => 4,
        Operator::Not => 5,
        Operator::Pow => 6,
        Operator::Domain => 7,
        Operator::Range => 8,
        Operator::Arb => 9,
        Operator::Str => 10,
        Operator::IsInteger => 11,
        Operator::IsString => 12,
        Operator::IsBoolean => 13,
        Operator::IsAtom => 14,
        Operator::IsTuple => 15,
        Operator::IsSet => 16,
        Operator::IsMap => 17,
        Operator::Add => 18,
        Operator::Subtract => 19,
        Operator::Multiply => 20,
        Operator::Power => 21,
        Operator::Divide => 22,
        Operator::Modulo => 23,
        Operator::Max => 24,
        Operator::Min => 25,
        Operator::With => 26,
        Operator::Less => 27,
        Operator::Lessf => 28,
        Operator::Npow => 29,
        Operator::Equal => 30,
        Operator::NotEqual => 31,
        Operator::Below => 32,
        Operator::AtMost => 33,
        Operator::Above => 34,
        Operator::AtLeast => 35,
        Operator::In => 36,
        Operator::NotIn => 37,
        Operator::Subset => 38,
        Operator::Includes => 39,
        Operator::Get => 40,
        Operator::Images => 41,
        Operator::Slice => 42,
        Operator::Tail => 43,
        Operator::FoldAdd => 44,
        Operator::FoldMultiply => 45,
        Operator::FoldMax => 46,
        Operator::FoldMin => 47,
        Operator::FoldAnd => 48,
        Operator::FoldOr => 49,
        Operator::SetOf => 74,
        Operator::TupleOf => 75,
        Operator::SetRange => 76,
        Operator::TupleRange => 77,
        Operator::SetStep => 78,
        Operator::TupleStep => 79,
        Operator::Put => 255,
        Operator::PutImages => 255,
    }
}

/// The byte of an instruction.
pub fn tag(what: &Instr) -> u8
    ensures { result ≡ spec.tag what.now }
{
    match what {
        Instr::Integer(_) => 64,
        Instr::Text(_) => 65,
        Instr::Truth(true) => 66,
        Instr::Truth(false) => 67,
        Instr::Undefined => 68,
        Instr::NewAtom => 69,
        Instr::Eof => 70,
        Instr::Load(_) => 71,
        Instr::Take(_) => 72,
        Instr::Store(_) => 73,
        Instr::Operate(what, _) => operator_tag(*what),
        Instr::Alter(Alteration::Put, _, _) => 80,
        Instr::Alter(Alteration::Combine(_), _, _) => 81,
        Instr::Alter(Alteration::TakeOut(Taking::TakeLeast), _, _) => 82,
        Instr::Alter(Alteration::TakeOut(Taking::TakeFirst), _, _) => 83,
        Instr::Alter(Alteration::TakeOut(Taking::TakeLast), _, _) => 84,
        Instr::Decide(Connective::And, _) => 85,
        Instr::Decide(Connective::Or, _) => 86,
        Instr::Decide(Connective::Implies, _) => 87,
        Instr::TestTruth => 88,
        Instr::Unless(_) => 89,
        Instr::Jump(_) => 90,
        Instr::Discard => 91,
        Instr::Duplicate => 92,
        Instr::Parts(_) => 93,
        Instr::Begin(Begin::Members(Source::Values), _) => 94,
        Instr::Begin(Begin::Members(Source::Between), _) => 95,
        Instr::Begin(Begin::Members(Source::SetSteps), _) => 96,
        Instr::Begin(Begin::Members(Source::TupleSteps), _) => 97,
        Instr::Begin(Begin::Points, _) => 98,
        Instr::Next(_) => 99,
        Instr::Collect(Collection::OfSet) => 100,
        Instr::Collect(Collection::OfTuple) => 101,
        Instr::Add(_) => 102,
        Instr::Leave(_) => 103,
        Instr::Round => 104,
        Instr::Call(_) => 105,
        Instr::Return => 106,
        Instr::Keep => 107,
        Instr::Back => 108,
        Instr::Print(_) => 109,
        Instr::Read => 110,
        Instr::Stop => 111,
        Instr::Forget => 112,
    }
}
