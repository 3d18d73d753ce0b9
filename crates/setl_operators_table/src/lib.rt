//! The table of the operators: what each makes of its operands, as definitions, and what a call of one answers.
//!
//! `op_of` is the outcome of an operator on its operands with the turns that are left. The calls that make these
//! outcomes stand in crates above; what they answer is an `Answer` or an `OpFault`, and `Tells` says that it is the
//! outcome of the table.
#![tactic(auto)]

pub mod answers;
pub mod laws;
pub mod ranges;

use setl_value::Value;
use std::alloc::AllocError;

/// Why an operator gave no value. Where several causes hold, the first in the order Om, Kind, Zero, Range, Spent, Wide,
/// Deep counts; NoMemory may come at any point.
#[derive(Clone, Copy, Debug, PartialEq, Eq)]
pub enum OpFault {
    /// An operand is of another kind than the operator's.
    Kind,
    /// An operand is `om`.
    Om,
    /// The integer result doesn't fit 128 bits.
    Wide,
    /// A divisor or a step is 0.
    Zero,
    /// A place, a count or an exponent is out of range.
    Range,
    /// The result would be more than 500 deep.
    Deep,
    /// The charge is above the turns left.
    Spent,
    /// Memory was refused.
    NoMemory,
}

impl From<AllocError> for OpFault {
    ghost use Rattle.std.specs.Prelude.{◌≡◌};
    ghost use Rattle.setl_operators_table.specs.declared.OpFault.TheVariants.{NoMemory};

    ghost from_gives = { λ _ e. e ≡ NoMemory };

    fn from(_e: AllocError) -> OpFault {
        OpFault::NoMemory
    }
}

/// What an operator gave: a value, or None for `om`, and the turns that it charges.
#[derive(Drop)]
pub struct Answer {
    pub value: Option<Value>,
    pub charged: u64,
}

/// What was taken out of a set or a tuple in place.
#[derive(Drop)]
pub struct Taken {
    /// The part, where None is `om`.
    pub value: Option<Value>,
    /// Whether there was one: of an empty set or tuple nothing is taken, and nothing changes.
    pub stored: bool,
}

/// The operators on values, with the folds, the enumerations, the ranges and the puts. The operands stand in the order
/// of the source.
#[derive(Clone, Copy, Debug, PartialEq, Eq)]
pub enum Operator {
    /// `- i`
    Negate,
    /// `abs i`
    Abs,
    /// `even i`
    Even,
    /// `odd i`
    Odd,
    /// `# v`
    Size,
    /// `not b`
    Not,
    /// `pow s`
    Pow,
    /// `domain f`
    Domain,
    /// `range f`
    Range,
    /// `arb s`
    Arb,
    /// `str v`
    Str,
    /// `is_integer v`
    IsInteger,
    /// `is_string v`
    IsString,
    /// `is_boolean v`
    IsBoolean,
    /// `is_atom v`
    IsAtom,
    /// `is_tuple v`
    IsTuple,
    /// `is_set v`
    IsSet,
    /// `is_map v`
    IsMap,
    /// `+/ v`
    FoldAdd,
    /// `*/ v`
    FoldMultiply,
    /// `max/ v`
    FoldMax,
    /// `min/ v`
    FoldMin,
    /// `and/ v`
    FoldAnd,
    /// `or/ v`
    FoldOr,
    /// `a + b`
    Add,
    /// `a - b`
    Subtract,
    /// `a * b`
    Multiply,
    /// `a ** b`
    Power,
    /// `a div b`
    Divide,
    /// `a mod b`
    Modulo,
    /// `a max b`
    Max,
    /// `a min b`
    Min,
    /// `s with v`, `t with v`
    With,
    /// `s less v`
    Less,
    /// `f lessf x`
    Lessf,
    /// `n npow s`
    Npow,
    /// `a = b`
    Equal,
    /// `a /= b`
    NotEqual,
    /// `a < b`
    Below,
    /// `a <= b`
    AtMost,
    /// `a > b`
    Above,
    /// `a >= b`
    AtLeast,
    /// `v in s`, `v in t`
    In,
    /// `v notin s`, `v notin t`
    NotIn,
    /// `a subset b`
    Subset,
    /// `a incs b`
    Includes,
    /// `f(x)`, `t(i)`
    Get,
    /// `f{x}`
    Images,
    /// `t(i..j)`
    Slice,
    /// `t(i..)`
    Tail,
    /// `{a, b, ..}`, with any number of operands
    SetOf,
    /// `[a, b, ..]`, with any number of operands
    TupleOf,
    /// `{a..b}`
    SetRange,
    /// `[a..b]`
    TupleRange,
    /// `{a, b..c}`
    SetStep,
    /// `[a, b..c]`
    TupleStep,
    /// The whole after `f(x) := y` or `t(i) := y`, of the whole, the selector and the part.
    Put,
    /// The whole after `f{x} := s`, of the whole, the selector and the part.
    PutImages,
}

impl Operator {
    ghost use Rattle.std.specs.Prelude.{◌≡◌};
    ghost use Rattle.setl_operators_table.specs.Operators.{operand_count};

    /// How many operands an operator has, and None for an enumeration, which has any number.
    #[inline]
    pub fn operand_count(self) -> Option<usize>
        ensures { result ≡ operand_count self }
    {
        match self {
            Operator::SetOf | Operator::TupleOf => None,
            Operator::Negate
            | Operator::Abs
            | Operator::Even
            | Operator::Odd
            | Operator::Size
            | Operator::Not
            | Operator::Pow
            | Operator::Domain
            | Operator::Range
            | Operator::Arb
            | Operator::Str
            | Operator::IsInteger
            | Operator::IsString
            | Operator::IsBoolean
            | Operator::IsAtom
            | Operator::IsTuple
            | Operator::IsSet
            | Operator::IsMap
            | Operator::FoldAdd
            | Operator::FoldMultiply
            | Operator::FoldMax
            | Operator::FoldMin
            | Operator::FoldAnd
            | Operator::FoldOr => Some(1),
            Operator::Slice
            | Operator::SetStep
            | Operator::TupleStep
            | Operator::Put
            | Operator::PutImages => Some(3),
            _ => Some(2),
        }
    }
}
