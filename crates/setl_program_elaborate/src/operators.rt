//! Operators.

ghost use Rattle.std.specs.Prelude.{◌≡◌};
ghost use Rattle.setl_program.specs.Operators as spec;
ghost use Rattle.setl_program.specs.Expressions as terms;

use setl_operators_table::Operator;
use setl_program::{Collection, Connective, Quantifier, Taking};
use setl_tree::{BinaryOp, Fold, FromEnd, Prefix, Relation};

/// The connective of an operator that looks at its right part only where it needs it; `None` for another.
pub fn connective(op: BinaryOp) -> Option<Connective>
    ensures { result ≡ spec.connective op }
{
    match op {
        BinaryOp::Impl => Some(Connective::Implies),
        BinaryOp::Or => Some(Connective::Or),
        BinaryOp::And => Some(Connective::And),
        _ => None,
    }
}

/// The operator of a binary one that takes both values.
pub fn updating(op: BinaryOp) -> Operator
    ensures { result ≡ spec.updating op }
{
    match op {
        BinaryOp::With => Operator::With,
        BinaryOp::Less => Operator::Less,
        BinaryOp::Lessf => Operator::Lessf,
        BinaryOp::Npow => Operator::Npow,
        BinaryOp::Plus => Operator::Add,
        BinaryOp::Minus => Operator::Subtract,
        BinaryOp::Max => Operator::Max,
        BinaryOp::Min => Operator::Min,
        BinaryOp::Times => Operator::Multiply,
        BinaryOp::Div => Operator::Divide,
        BinaryOp::Mod => Operator::Modulo,
        BinaryOp::Power => Operator::Power,
        _ => Operator::Equal,
    }
}

/// The operator of a comparison.
pub fn relation(relation: Relation) -> Operator
    ensures { result ≡ spec.relation relation }
{
    match relation {
        Relation::Equal => Operator::Equal,
        Relation::NotEqual => Operator::NotEqual,
        Relation::LessThan => Operator::Below,
        Relation::AtMost => Operator::AtMost,
        Relation::GreaterThan => Operator::Above,
        Relation::AtLeast => Operator::AtLeast,
        Relation::In => Operator::In,
        Relation::Notin => Operator::NotIn,
        Relation::Subset => Operator::Subset,
        Relation::Incs => Operator::Includes,
    }
}

/// The operator that combines the members of a value.
pub fn folding(fold: Fold) -> Operator
    ensures { result ≡ spec.folding fold }
{
    match fold {
        Fold::Plus => Operator::FoldAdd,
        Fold::Times => Operator::FoldMultiply,
        Fold::Max => Operator::FoldMax,
        Fold::Min => Operator::FoldMin,
        Fold::And => Operator::FoldAnd,
        Fold::Or => Operator::FoldOr,
    }
}

/// The operator of a prefix.
pub fn prefix(prefix: Prefix) -> Operator
    ensures { result ≡ spec.prefix prefix }
{
    match prefix {
        Prefix::Not => Operator::Not,
        Prefix::Minus => Operator::Negate,
        Prefix::Size => Operator::Size,
        Prefix::Abs => Operator::Abs,
        Prefix::Even => Operator::Even,
        Prefix::Odd => Operator::Odd,
        Prefix::Pow => Operator::Pow,
        Prefix::Domain => Operator::Domain,
        Prefix::Range => Operator::Range,
        Prefix::Arb => Operator::Arb,
        Prefix::Str => Operator::Str,
        Prefix::IsInteger => Operator::IsInteger,
        Prefix::IsString => Operator::IsString,
        Prefix::IsBoolean => Operator::IsBoolean,
        Prefix::IsAtom => Operator::IsAtom,
        Prefix::IsTuple => Operator::IsTuple,
        Prefix::IsSet => Operator::IsSet,
        Prefix::IsMap => Operator::IsMap,
        Prefix::Folded(fold) => folding(fold),
    }
}

/// What the word of a quantifier asks.
pub fn quantifier(word: setl_tree::Quantifier) -> Quantifier
    ensures { result ≡ spec.quantifier word }
{
    match word {
        setl_tree::Quantifier::Exists => Quantifier::Exists,
        setl_tree::Quantifier::Forall => Quantifier::Forall,
        setl_tree::Quantifier::Notexists => Quantifier::NotExists,
    }
}

/// What is taken out by a word.
pub fn taking(word: FromEnd) -> Taking
    ensures { result ≡ spec.taking word }
{
    match word {
        FromEnd::From => Taking::TakeLeast,
        FromEnd::Fromb => Taking::TakeFirst,
        FromEnd::Frome => Taking::TakeLast,
    }
}

/// The operator that collects its operands.
pub fn enumeration(collection: Collection) -> Operator
    ensures { result ≡ terms.enumeration collection }
{
    match collection {
        Collection::OfSet => Operator::SetOf,
        Collection::OfTuple => Operator::TupleOf,
    }
}
