//! Expressions.

use crate::boxed::Boxed;
use crate::items::Items;
use crate::text::Text;

/// An operator between two operands, of the levels that group to the left.
#[derive(Clone, Copy, Debug, PartialEq, Eq)]
pub enum BinaryOp {
    Impl,
    Or,
    And,
    With,
    Less,
    Lessf,
    Npow,
    /// `+`
    Plus,
    /// `-`
    Minus,
    Max,
    Min,
    /// `*`
    Times,
    Div,
    Mod,
    /// `**`
    Power,
}

/// A comparison.
#[derive(Clone, Copy, Debug, PartialEq, Eq)]
pub enum Relation {
    Equal,
    NotEqual,
    LessThan,
    AtMost,
    GreaterThan,
    AtLeast,
    In,
    Notin,
    Subset,
    Incs,
}

/// The operator that a fold combines members with.
#[derive(Clone, Copy, Debug, PartialEq, Eq)]
pub enum Fold {
    /// `+/`
    Plus,
    /// `*/`
    Times,
    /// `max/`
    Max,
    /// `min/`
    Min,
    /// `and/`
    And,
    /// `or/`
    Or,
}

/// An operator before its one operand.
#[derive(Clone, Copy, Debug, PartialEq, Eq)]
pub enum Prefix {
    Not,
    /// `-`
    Minus,
    /// `#`
    Size,
    Abs,
    Even,
    Odd,
    Pow,
    Domain,
    Range,
    Arb,
    Str,
    IsInteger,
    IsString,
    IsBoolean,
    IsAtom,
    IsTuple,
    IsSet,
    IsMap,
    Folded(Fold),
}

/// The word of a quantifier.
#[derive(Clone, Copy, Debug, PartialEq, Eq)]
pub enum Quantifier {
    Exists,
    Forall,
    Notexists,
}

/// A component of a tuple pattern or of a tuple target.
#[derive(Debug, Drop)]
pub enum Slot {
    Name(Text),
    /// `-`: the component is skipped.
    Skip,
}

/// What an iterator binds.
#[derive(Debug, Drop)]
pub enum Bound {
    Name(Text),
    /// `[slot, ..]`
    Pattern(Items<Slot>),
}

/// An expression. Parentheses are not kept.
#[cycle(expr)]
#[derive(Drop)]
pub enum Expr {
    /// A literal, from 0 to 2^127 - 1.
    Number(i128),
    Text(Text),
    Om,
    True,
    False,
    Newat,
    Eof,
    Ok,
    Name(Text),
    /// `if condition then value else other end`
    If(Boxed<Expr>, Boxed<Expr>, Boxed<Expr>),
    /// `{inner}`
    Set(Inner),
    /// `[inner]`
    Tuple(Inner),
    /// The first operand, and one or more operators of one level with their right operands. Groups to the left.
    Chain(Boxed<Expr>, Items<(BinaryOp, Expr)>),
    /// A comparison. Comparisons do not chain.
    Compare(Boxed<Expr>, Relation, Boxed<Expr>),
    /// One or more prefixes of one level, from the outside in, and their operand.
    Prefixed(Items<Prefix>, Boxed<Expr>),
    /// A primary expression with one or more selectors.
    Selected(Boxed<Expr>, Items<Selector>),
    /// `exists iters | condition` and the like.
    Quantified(Quantifier, Items<Iter>, Boxed<Expr>),
}

/// What stands behind a primary expression.
#[cycle(expr)]
#[derive(Drop)]
pub enum Selector {
    /// `(x, ..)`, maybe with nothing between.
    Round(Items<Expr>),
    /// `(from ..)` and `(from .. to)`.
    Slice(Boxed<Expr>, Option<Boxed<Expr>>),
    /// `{x, ..}`
    Braces(Items<Expr>),
}

/// What stands inside the braces of a set or the brackets of a tuple.
#[cycle(expr)]
#[derive(Drop)]
pub enum Inner {
    /// `x, ..`, maybe nothing.
    List(Items<Expr>),
    /// `first .. last` and `first, second .. last`.
    Range(Boxed<Expr>, Option<Boxed<Expr>>, Boxed<Expr>),
    /// `value : iters` and `value : iters | condition`.
    Former(Boxed<Expr>, Items<Iter>, Option<Boxed<Expr>>),
    /// `bound in source | condition`
    Filter(Bound, Boxed<Expr>, Boxed<Expr>),
}

/// What a former, a loop or a quantifier runs over.
#[cycle(expr)]
#[derive(Drop)]
pub enum Iter {
    /// `bound in source`
    Over(Bound, Expr),
    /// `value = map(argument)`
    Image(Text, Text, Text),
}
