//! Which token stands for which operator.

ghost use Rattle.std.specs.Prelude.{◌≡◌};
ghost use Rattle.setl_tree.specs.Operators as table;
ghost use Rattle.setl_parse_reading.specs.code.ReadExpressions as spec;

use setl_tree::{BinaryOp, Fold, Kind, Prefix, Quantifier, Relation};

/// How tightly a token binds that stands behind an operand; 0 where none does.
#[tactic(auto, unfolding(setl_tree::specs::Operators::level_of))]
fn level_of(kind: Kind) -> u8
    ensures { result ≡ table.level_of kind }
{
    match kind {
        Kind::Impl => 2,
        Kind::Or => 3,
        Kind::And => 4,
        Kind::Equal | Kind::NotEqual | Kind::LessThan | Kind::AtMost => 6,
        Kind::GreaterThan | Kind::AtLeast => 6,
        Kind::In | Kind::Notin | Kind::Subset | Kind::Incs => 6,
        Kind::With | Kind::Less | Kind::Lessf | Kind::Npow => 7,
        Kind::Plus | Kind::Minus | Kind::Max | Kind::Min => 8,
        Kind::Star | Kind::Div | Kind::Mod => 9,
        Kind::Power => 10,
        Kind::LeftParen | Kind::LeftBrace => 12,
        _ => 0,
    }
}

/// The binary operator of a level that groups to the left.
#[tactic(auto, unfolding(setl_tree::specs::Operators::binary_op))]
fn binary_op(kind: Kind) -> Option<BinaryOp>
    ensures { result ≡ table.binary_op kind }
{
    match kind {
        Kind::Impl => Some(BinaryOp::Impl),
        Kind::Or => Some(BinaryOp::Or),
        Kind::And => Some(BinaryOp::And),
        Kind::With => Some(BinaryOp::With),
        Kind::Less => Some(BinaryOp::Less),
        Kind::Lessf => Some(BinaryOp::Lessf),
        Kind::Npow => Some(BinaryOp::Npow),
        Kind::Plus => Some(BinaryOp::Plus),
        Kind::Minus => Some(BinaryOp::Minus),
        Kind::Max => Some(BinaryOp::Max),
        Kind::Min => Some(BinaryOp::Min),
        Kind::Star => Some(BinaryOp::Times),
        Kind::Div => Some(BinaryOp::Div),
        Kind::Mod => Some(BinaryOp::Mod),
        Kind::Power => Some(BinaryOp::Power),
        _ => None,
    }
}

/// The binary operator of this level.
#[tactic(auto, unfolding(setl_tree::specs::Operators::op_at))]
pub fn op_at(level: u8, kind: Kind) -> Option<BinaryOp>
    ensures { result ≡ table.op_at level kind }
{
    if level_of(kind) == level {
        binary_op(kind)
    } else {
        None
    }
}

/// The comparison that a token stands for.
#[tactic(auto, unfolding(setl_tree::specs::Operators::relation_op))]
pub fn relation_op(kind: Kind) -> Option<Relation>
    ensures { result ≡ table.relation_op kind }
{
    match kind {
        Kind::Equal => Some(Relation::Equal),
        Kind::NotEqual => Some(Relation::NotEqual),
        Kind::LessThan => Some(Relation::LessThan),
        Kind::AtMost => Some(Relation::AtMost),
        Kind::GreaterThan => Some(Relation::GreaterThan),
        Kind::AtLeast => Some(Relation::AtLeast),
        Kind::In => Some(Relation::In),
        Kind::Notin => Some(Relation::Notin),
        Kind::Subset => Some(Relation::Subset),
        Kind::Incs => Some(Relation::Incs),
        _ => None,
    }
}

/// The prefix `not`.
#[tactic(auto, unfolding(setl_tree::specs::Operators::not_sign))]
pub fn not_sign(kind: Kind) -> Option<Prefix>
    ensures { result ≡ table.not_sign kind }
{
    match kind {
        Kind::Not => Some(Prefix::Not),
        _ => None,
    }
}

/// A prefix of one token that binds tighter than every binary operator.
#[tactic(auto, unfolding(setl_tree::specs::Operators::prefix_op))]
pub fn prefix_op(kind: Kind) -> Option<Prefix>
    ensures { result ≡ table.prefix_op kind }
{
    match kind {
        Kind::Minus => Some(Prefix::Minus),
        Kind::Hash => Some(Prefix::Size),
        Kind::Abs => Some(Prefix::Abs),
        Kind::Even => Some(Prefix::Even),
        Kind::Odd => Some(Prefix::Odd),
        Kind::Pow => Some(Prefix::Pow),
        Kind::Domain => Some(Prefix::Domain),
        Kind::Range => Some(Prefix::Range),
        Kind::Arb => Some(Prefix::Arb),
        Kind::Str => Some(Prefix::Str),
        Kind::IsInteger => Some(Prefix::IsInteger),
        Kind::IsString => Some(Prefix::IsString),
        Kind::IsBoolean => Some(Prefix::IsBoolean),
        Kind::IsAtom => Some(Prefix::IsAtom),
        Kind::IsTuple => Some(Prefix::IsTuple),
        Kind::IsSet => Some(Prefix::IsSet),
        Kind::IsMap => Some(Prefix::IsMap),
        _ => None,
    }
}

/// The sign that stands before the `/` of a fold.
#[tactic(auto, unfolding(setl_tree::specs::Operators::fold_sign))]
pub fn fold_sign(kind: Kind) -> Option<Fold>
    ensures { result ≡ table.fold_sign kind }
{
    match kind {
        Kind::Plus => Some(Fold::Plus),
        Kind::Star => Some(Fold::Times),
        Kind::Max => Some(Fold::Max),
        Kind::Min => Some(Fold::Min),
        Kind::And => Some(Fold::And),
        Kind::Or => Some(Fold::Or),
        _ => None,
    }
}

/// The word of a quantifier.
#[tactic(auto, unfolding(setl_tree::specs::Operators::quantifier))]
pub fn quantifier(kind: Kind) -> Option<Quantifier>
    ensures { result ≡ table.quantifier kind }
{
    match kind {
        Kind::Exists => Some(Quantifier::Exists),
        Kind::Forall => Some(Quantifier::Forall),
        Kind::Notexists => Some(Quantifier::Notexists),
        _ => None,
    }
}

/// Whether a token of this kind opens a selector: `(` or `{`.
#[tactic(auto, unfolding(setl_parse_reading::specs::code::ReadExpressions::begins_selector))]
pub fn begins_selector(kind: Kind) -> bool
    ensures { result ≡ spec.begins_selector kind }
{
    matches!(kind, Kind::LeftParen | Kind::LeftBrace)
}

/// Whether a token of this kind closes a brace or bracket.
#[tactic(auto, unfolding(setl_parse_reading::specs::code::ReadExpressions::closes))]
pub fn closes(kind: Kind) -> bool
    ensures { result ≡ spec.closes kind }
{
    matches!(kind, Kind::RightBrace | Kind::RightBracket)
}
