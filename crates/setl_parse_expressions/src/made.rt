//! Expressions made of their parts. An error is want of memory.
//!
//! They are boxed here, in functions that aren't inlined: so no call that reads inside a nesting has room for one on the stack.

ghost use Rattle.std.specs.Prelude.{◌≡◌, IfOk, IfErr, [], ◌∷◌};
ghost use Rattle.setl_tree.specs.Operators as table;
ghost use Rattle.setl_parse_reading.specs.code.Scan as scan;

use setl_parse_cursor::{one, two};
use setl_parse_reading::Fault;
use setl_tree::{
    BinaryOp, Bound, Boxed, Expr, Inner, Items, Iter, Kind, Prefix, Quantifier, Relation, Selector,
    Slot,
};
use std::alloc::{AllocError, Global};

/// A word that is an expression by itself.
#[tactic(auto, unfolding(setl_tree::specs::Operators::constant))]
pub fn constant(kind: Kind) -> Option<Expr>
    ensures { result ≡ table.constant kind }
{
    match kind {
        Kind::Om => Some(Expr::Om),
        Kind::True => Some(Expr::True),
        Kind::False => Some(Expr::False),
        Kind::Newat => Some(Expr::Newat),
        Kind::Eof => Some(Expr::Eof),
        Kind::Ok => Some(Expr::Ok),
        _ => None,
    }
}

/// Operators with their right operands, taken out of their boxes.
fn unboxed(
    alloc: Global,
    others: Items<(BinaryOp, Boxed<Expr>)>,
) -> Result<Items<(BinaryOp, Expr)>, AllocError>
    ensures { IfOk result (λ all. all ≡ others) }
{
    let mut found = Items::from_vec(Vec::with_capacity(alloc, others.len())?);
    for (op, right) in others.into_vec() {
        found.push((op, right.into_inner()))?;
    }
    Ok(found)
}

/// A chain of operators of one level, or its one operand alone.
#[inline(never)]
pub fn chain_of(
    alloc: Global,
    first: Boxed<Expr>,
    others: Items<(BinaryOp, Boxed<Expr>)>,
) -> Result<Boxed<Expr>, Fault>
    ensures ok { IfOk result (λ e. e ≡ table.chain_of first others) }
    ensures err { IfErr result (λ e. e ≡ Fault.Memory) }
{
    if others.is_empty() {
        return Ok(first);
    }
    let others = unboxed(alloc, others)?;
    Ok(Boxed::new(alloc, Expr::Chain(first, others))?)
}

/// An operand with its prefixes.
#[inline(never)]
pub fn prefixed(
    alloc: Global,
    prefixes: Items<Prefix>,
    operand: Boxed<Expr>,
) -> Result<Boxed<Expr>, Fault>
    ensures ok { IfOk result (λ e. e ≡ table.prefixed prefixes operand) }
    ensures err { IfErr result (λ e. e ≡ Fault.Memory) }
{
    if prefixes.is_empty() {
        return Ok(operand);
    }
    Ok(Boxed::new(alloc, Expr::Prefixed(prefixes, operand))?)
}

/// A primary expression with its selectors.
#[inline(never)]
pub fn selected(
    alloc: Global,
    primary: Boxed<Expr>,
    selectors: Items<Selector>,
) -> Result<Boxed<Expr>, Fault>
    ensures ok { IfOk result (λ e. e ≡ table.selected primary selectors) }
    ensures err { IfErr result (λ e. e ≡ Fault.Memory) }
{
    if selectors.is_empty() {
        return Ok(primary);
    }
    Ok(Boxed::new(alloc, Expr::Selected(primary, selectors))?)
}

/// A comparison.
#[inline(never)]
pub fn compare(
    alloc: Global,
    a: Boxed<Expr>,
    op: Relation,
    b: Boxed<Expr>,
) -> Result<Boxed<Expr>, Fault>
    ensures ok { IfOk result (λ e. e ≡ Expr.Compare a op b) }
    ensures err { IfErr result (λ e. e ≡ Fault.Memory) }
{
    Ok(Boxed::new(alloc, Expr::Compare(a, op, b))?)
}

/// A conditional expression.
#[inline(never)]
pub fn choice(
    alloc: Global,
    condition: Boxed<Expr>,
    value: Boxed<Expr>,
    other: Boxed<Expr>,
) -> Result<Boxed<Expr>, Fault>
    ensures ok { IfOk result (λ e. e ≡ Expr.If condition value other) }
    ensures err { IfErr result (λ e. e ≡ Fault.Memory) }
{
    Ok(Boxed::new(alloc, Expr::If(condition, value, other))?)
}

/// A quantified expression.
#[inline(never)]
pub fn quantified(
    alloc: Global,
    quantifier: Quantifier,
    over: Items<Iter>,
    condition: Boxed<Expr>,
) -> Result<Boxed<Expr>, Fault>
    ensures ok { IfOk result (λ e. e ≡ Expr.Quantified quantifier over condition) }
    ensures err { IfErr result (λ e. e ≡ Fault.Memory) }
{
    Ok(Boxed::new(alloc, Expr::Quantified(quantifier, over, condition))?)
}

/// A set.
#[inline(never)]
pub fn set(alloc: Global, inner: Boxed<Inner>) -> Result<Boxed<Expr>, Fault>
    ensures ok { IfOk result (λ e. e ≡ Expr.Set inner) }
    ensures err { IfErr result (λ e. e ≡ Fault.Memory) }
{
    Ok(Boxed::new(alloc, Expr::Set(inner.into_inner()))?)
}

/// A tuple.
#[inline(never)]
pub fn tuple(alloc: Global, inner: Boxed<Inner>) -> Result<Boxed<Expr>, Fault>
    ensures ok { IfOk result (λ e. e ≡ Expr.Tuple inner) }
    ensures err { IfErr result (λ e. e ≡ Fault.Memory) }
{
    Ok(Boxed::new(alloc, Expr::Tuple(inner.into_inner()))?)
}

/// The members of a set or the components of a tuple.
#[inline(never)]
pub fn list(alloc: Global, all: Items<Expr>) -> Result<Boxed<Inner>, Fault>
    ensures ok { IfOk result (λ i. i ≡ Inner.List all) }
    ensures err { IfErr result (λ e. e ≡ Fault.Memory) }
{
    Ok(Boxed::new(alloc, Inner::List(all))?)
}

/// One expression alone.
#[inline(never)]
pub fn one_expr(alloc: Global, a: Boxed<Expr>) -> Result<Items<Expr>, Fault>
    ensures ok { IfOk result (λ all. all ≡ a ∷ []) }
    ensures err { IfErr result (λ e. e ≡ Fault.Memory) }
{
    one(alloc, a.into_inner())
}

/// Two expressions.
#[inline(never)]
pub fn two_exprs(alloc: Global, a: Boxed<Expr>, b: Boxed<Expr>) -> Result<Items<Expr>, Fault>
    ensures ok { IfOk result (λ all. all ≡ a ∷ b ∷ []) }
    ensures err { IfErr result (λ e. e ≡ Fault.Memory) }
{
    two(alloc, a.into_inner(), b.into_inner())
}

/// A range.
#[inline(never)]
pub fn range(
    alloc: Global,
    first: Boxed<Expr>,
    second: Option<Boxed<Expr>>,
    last: Boxed<Expr>,
) -> Result<Boxed<Inner>, Fault>
    ensures ok { IfOk result (λ i. i ≡ Inner.Range first second last) }
    ensures err { IfErr result (λ e. e ≡ Fault.Memory) }
{
    Ok(Boxed::new(alloc, Inner::Range(first, second, last))?)
}

/// A former.
#[inline(never)]
pub fn former(
    alloc: Global,
    value: Boxed<Expr>,
    over: Items<Iter>,
    condition: Option<Boxed<Expr>>,
) -> Result<Boxed<Inner>, Fault>
    ensures ok { IfOk result (λ i. i ≡ Inner.Former value over condition) }
    ensures err { IfErr result (λ e. e ≡ Fault.Memory) }
{
    Ok(Boxed::new(alloc, Inner::Former(value, over, condition))?)
}

/// A filter.
#[inline(never)]
pub fn filter(
    alloc: Global,
    bound: Bound,
    source: Boxed<Expr>,
    condition: Boxed<Expr>,
) -> Result<Boxed<Inner>, Fault>
    ensures ok { IfOk result (λ i. i ≡ Inner.Filter bound source condition) }
    ensures err { IfErr result (λ e. e ≡ Fault.Memory) }
{
    Ok(Boxed::new(alloc, Inner::Filter(bound, source, condition))?)
}

/// Arguments.
#[inline(never)]
pub fn round(alloc: Global, all: Items<Expr>) -> Result<Boxed<Selector>, Fault>
    ensures ok { IfOk result (λ s. s ≡ Selector.Round all) }
    ensures err { IfErr result (λ e. e ≡ Fault.Memory) }
{
    Ok(Boxed::new(alloc, Selector::Round(all))?)
}

/// The bounds of a slice.
#[inline(never)]
pub fn slice(
    alloc: Global,
    from: Boxed<Expr>,
    to: Option<Boxed<Expr>>,
) -> Result<Boxed<Selector>, Fault>
    ensures ok { IfOk result (λ s. s ≡ Selector.Slice from to) }
    ensures err { IfErr result (λ e. e ≡ Fault.Memory) }
{
    Ok(Boxed::new(alloc, Selector::Slice(from, to))?)
}

/// Arguments in braces.
#[inline(never)]
pub fn braces(alloc: Global, all: Items<Expr>) -> Result<Boxed<Selector>, Fault>
    ensures ok { IfOk result (λ s. s ≡ Selector.Braces all) }
    ensures err { IfErr result (λ e. e ≡ Fault.Memory) }
{
    Ok(Boxed::new(alloc, Selector::Braces(all))?)
}

/// An iterator over the members of a source.
#[inline(never)]
pub fn over(alloc: Global, bound: Bound, source: Boxed<Expr>) -> Result<Boxed<Iter>, Fault>
    ensures ok { IfOk result (λ i. i ≡ Iter.Over bound source) }
    ensures err { IfErr result (λ e. e ≡ Fault.Memory) }
{
    Ok(Boxed::new(alloc, Iter::Over(bound, source.into_inner()))?)
}

/// A slot as the expression that has the same tokens.
fn slot_as_expr(slot: Slot) -> Expr
    ensures { result ≡ scan.slot_expr slot }
{
    match slot {
        Slot::Name(name) => Expr::Name(name),
        Slot::Skip => Expr::Om,
    }
}

/// Slots as the expressions that have the same tokens.
#[tactic(auto, using(crate::proofs::Slots::slot_exprs_more))]
fn slots_as_exprs(alloc: Global, slots: Items<Slot>) -> Result<Items<Expr>, AllocError>
    ensures { IfOk result (λ xs. xs ≡ scan.slot_exprs slots) }
{
    let mut found = Items::new(alloc);
    for slot in slots.into_vec() {
        found.push(slot_as_expr(slot))?;
    }
    Ok(found)
}

/// What an iterator binds, as the expression that has the same tokens.
fn bound_as_expr(alloc: Global, bound: Bound) -> Result<Expr, AllocError>
    ensures { IfOk result (λ e. e ≡ scan.bound_expr bound) }
{
    match bound {
        Bound::Name(name) => Ok(Expr::Name(name)),
        Bound::Pattern(slots) => Ok(Expr::Tuple(Inner::List(slots_as_exprs(alloc, slots)?))),
    }
}

/// What a filter binds, as the expression that has the same tokens, compared by `in`.
#[inline(never)]
pub fn membership(alloc: Global, bound: Bound, source: Boxed<Expr>) -> Result<Boxed<Expr>, Fault>
    ensures ok { IfOk result (λ e. e ≡ Expr.Compare (scan.bound_expr bound) Relation.In source) }
    ensures err { IfErr result (λ e. e ≡ Fault.Memory) }
{
    let left = bound_as_expr(alloc, bound)?;
    let left = Boxed::new(alloc, left)?;
    Ok(Boxed::new(alloc, Expr::Compare(left, Relation::In, source))?)
}
