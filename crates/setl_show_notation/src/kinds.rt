//! The words and signs of operators.

ghost use Rattle.std.specs.Prelude.{◌≡◌};
ghost use Rattle.setl_tree.specs.Canonical as spec;
ghost use Rattle.setl_token.specs.Spellings.{IsSpelled};

use setl_tree::{Attribute, BinaryOp, Fold, FromEnd, Kind, Passing, Quantifier, Relation};

/// The token of an operator between operands.
pub fn op_kind(op: BinaryOp) -> Kind
    ensures value { result ≡ spec.op_kind op }
    ensures spelled { IsSpelled result }
{
    match op {
        BinaryOp::Impl => Kind::Impl,
        BinaryOp::Or => Kind::Or,
        BinaryOp::And => Kind::And,
        BinaryOp::With => Kind::With,
        BinaryOp::Less => Kind::Less,
        BinaryOp::Lessf => Kind::Lessf,
        BinaryOp::Npow => Kind::Npow,
        BinaryOp::Plus => Kind::Plus,
        BinaryOp::Minus => Kind::Minus,
        BinaryOp::Max => Kind::Max,
        BinaryOp::Min => Kind::Min,
        BinaryOp::Times => Kind::Star,
        BinaryOp::Div => Kind::Div,
        BinaryOp::Mod => Kind::Mod,
        BinaryOp::Power => Kind::Power,
    }
}

/// The token of a comparison.
pub fn relation_kind(relation: Relation) -> Kind
    ensures value { result ≡ spec.relation_kind relation }
    ensures spelled { IsSpelled result }
{
    match relation {
        Relation::Equal => Kind::Equal,
        Relation::NotEqual => Kind::NotEqual,
        Relation::LessThan => Kind::LessThan,
        Relation::AtMost => Kind::AtMost,
        Relation::GreaterThan => Kind::GreaterThan,
        Relation::AtLeast => Kind::AtLeast,
        Relation::In => Kind::In,
        Relation::Notin => Kind::Notin,
        Relation::Subset => Kind::Subset,
        Relation::Incs => Kind::Incs,
    }
}

/// The token before the `/` of a fold.
pub fn fold_kind(fold: Fold) -> Kind
    ensures value { result ≡ spec.fold_kind fold }
    ensures spelled { IsSpelled result }
{
    match fold {
        Fold::Plus => Kind::Plus,
        Fold::Times => Kind::Star,
        Fold::Max => Kind::Max,
        Fold::Min => Kind::Min,
        Fold::And => Kind::And,
        Fold::Or => Kind::Or,
    }
}

/// The word of a quantifier.
pub fn quantifier_kind(quantifier: Quantifier) -> Kind
    ensures value { result ≡ spec.quantifier_kind quantifier }
    ensures spelled { IsSpelled result }
{
    match quantifier {
        Quantifier::Exists => Kind::Exists,
        Quantifier::Forall => Kind::Forall,
        Quantifier::Notexists => Kind::Notexists,
    }
}

/// The word of a statement that takes a member out.
pub fn from_kind(end: FromEnd) -> Kind
    ensures value { result ≡ spec.from_kind end }
    ensures spelled { IsSpelled result }
{
    match end {
        FromEnd::From => Kind::From,
        FromEnd::Fromb => Kind::Fromb,
        FromEnd::Frome => Kind::Frome,
    }
}

/// The word before a mode.
pub fn attribute_kind(attribute: Attribute) -> Kind
    ensures value { result ≡ spec.attribute_kind attribute }
    ensures spelled { IsSpelled result }
{
    match attribute {
        Attribute::Local => Kind::Local,
        Attribute::Remote => Kind::Remote,
        Attribute::Sparse => Kind::Sparse,
    }
}

/// The word before a parameter.
pub fn passing_kind(passing: Passing) -> Kind
    ensures value { result ≡ spec.passing_kind passing }
    ensures spelled { IsSpelled result }
{
    match passing {
        Passing::Rd => Kind::Rd,
        Passing::Wr => Kind::Wr,
        Passing::Rw => Kind::Rw,
    }
}
