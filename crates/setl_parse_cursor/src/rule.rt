//! Rules of the grammar, and lists of them.

ghost use Rattle.std.specs.Prelude.{◌≡◌, ◌≢◌, Ok, Err, IfOk, IfErr, [], ◌∷◌, ◌++◌};
ghost use Rattle.setl_parse_reading.specs.code.Reading as spec;
ghost use Rattle.setl_parse_reading.specs.code.Reading.{Reads};
ghost use Rattle.setl_parse_cursor.specs.code.Behind as behind;

use crate::cursor::{Cursor, same_kind};
use setl_parse_reading::Fault;
use setl_tree::{Boxed, Items, Kind};
use std::alloc::Global;

/// A part of the grammar that is read from tokens.
pub trait Rule {
    /// What is read.
    type Out: Drop;

    ghost use Rattle.setl_parse_reading.specs.code.Reading.{Reader, Reads};

    /// What reading needs.
    ghost can_read: { Self → Type 0 };

    ghost reader: { Self → Reader Self.Out };

    /// Reads the part from the next token on.
    fn read(&self, tokens: &mut Cursor<'_>) -> Result<Self::Out, Fault>
        requires { can_read self.now }
        ensures { Reads (reader self.now tokens.old) result tokens.new };
}

/// A part that tokens of certain kinds begin.
pub trait Repeated: Rule {
    ghost use Rattle.std.specs.Prelude.{◌≡◌, Bool};
    ghost use Rattle.setl_tree.specs.declared.kind.Kind.{Kind};

    ghost begins_with: { Self → Kind → Bool };

    /// Whether a token of this kind begins the part.
    fn begins(&self, kind: Kind) -> bool
        ensures { result ≡ begins_with self.now kind };
}

/// A list of one item, with room for it alone. An error is want of memory.
pub fn one<T: Drop>(alloc: Global, item: T) -> Result<Items<T>, Fault>
    ensures ok { IfOk result (λ all. all ≡ item ∷ []) }
    ensures err { IfErr result (λ e. e ≡ Fault.Memory) }
{
    let mut items = Items::from_vec(Vec::with_capacity(alloc, 1)?);
    items.push(item)?;
    Ok(items)
}

/// A list of two items. An error is want of memory.
pub fn two<T: Drop>(alloc: Global, first: T, second: T) -> Result<Items<T>, Fault>
    ensures ok { IfOk result (λ all. all ≡ first ∷ second ∷ []) }
    ensures err { IfErr result (λ e. e ≡ Fault.Memory) }
{
    let mut items = one(alloc, first)?;
    items.push(second)?;
    Ok(items)
}

/// What was read before, and what is read now. A fault is that of the second. What lets the first go isn't inlined, so that
/// no call that reads inside a nesting has room for it on the stack.
#[inline(never)]
pub fn held<T: Drop, U: Drop>(head: T, part: Result<U, Fault>) -> Result<(T, U), Fault>
    ensures head { IfOk result (λ all. all.0 ≡ head) }
    ensures part { IfOk result (λ all. part ≡ Ok all.1) }
    ensures err { IfErr result (λ e. part ≡ Err e) }
{
    let part = part?;
    Ok((head, part))
}

/// A list of what is read in a box, with room for it alone.
#[inline(never)]
fn only<T: Drop>(alloc: Global, part: Result<Boxed<T>, Fault>) -> Result<Items<T>, Fault>
    ensures ok { IfOk result (λ all. (x : T) × (part ≡ Ok x) × (all ≡ x ∷ [])) }
    ensures err { IfErr result (λ e. e ≢ Fault.Memory → part ≡ Err e) }
{
    one(alloc, part?.into_inner())
}

/// Items, and behind them what is read.
#[inline(never)]
fn pushed<T: Drop>(items: Items<T>, part: Result<T, Fault>) -> Result<Items<T>, Fault>
    ensures ok { IfOk result (λ all. (x : T) × (part ≡ Ok x) × (all ≡ items ++ x ∷ [])) }
    ensures err { IfErr result (λ e. e ≢ Fault.Memory → part ≡ Err e) }
{
    let mut all = items;
    all.push(part?)?;
    Ok(all)
}

/// Items, and behind them what is read in a box.
#[inline(never)]
fn put<T: Drop>(items: Items<T>, part: Result<Boxed<T>, Fault>) -> Result<Items<T>, Fault>
    ensures ok { IfOk result (λ all. (x : T) × (part ≡ Ok x) × (all ≡ items ++ x ∷ [])) }
    ensures err { IfErr result (λ e. e ≢ Fault.Memory → part ≡ Err e) }
{
    let mut all = items;
    all.push(part?.into_inner())?;
    Ok(all)
}

/// Items, and behind them parts in their order, while the next token begins one. A fault is the first part's that has
/// one.
pub fn many_onto<R: Repeated>(
    items: Items<R::Out>,
    rule: &R,
    tokens: &mut Cursor<'_>,
) -> Result<Items<R::Out>, Fault>
    requires { R.can_read rule.now }
    ensures { Reads (behind.many_onto items (R.begins_with rule.now) (R.reader rule.now) tokens.old) result tokens.new }
{
    let mut found = items;
    for _turn in 0..tokens.left() {
        if !rule.begins(tokens.kind()) {
            return Ok(found);
        }
        found = pushed(found, rule.read(tokens))?;
    }
    Ok(found)
}

/// The same where parts are read in boxes, out of which they are taken.
pub fn many_boxed_onto<T: Drop, R: Repeated<Out = Boxed<T>>>(
    items: Items<T>,
    rule: &R,
    tokens: &mut Cursor<'_>,
) -> Result<Items<T>, Fault>
    requires { R.can_read rule.now }
    ensures { Reads (behind.many_onto items (R.begins_with rule.now) (R.reader rule.now) tokens.old) result tokens.new }
{
    let mut found = items;
    for _turn in 0..tokens.left() {
        if !rule.begins(tokens.kind()) {
            return Ok(found);
        }
        found = put(found, rule.read(tokens))?;
    }
    Ok(found)
}

/// Parts in their order, while the next token begins one. A fault is the first part's that has one.
pub fn many<R: Repeated>(rule: &R, tokens: &mut Cursor<'_>) -> Result<Items<R::Out>, Fault>
    requires { R.can_read rule.now }
    ensures { Reads (spec.many (R.begins_with rule.now) (R.reader rule.now) tokens.old) result tokens.new }
{
    many_onto(Items::new(tokens.alloc()), rule, tokens)
}

/// `many` where parts are read in boxes, out of which they are taken.
pub fn many_boxed<T: Drop, R: Repeated<Out = Boxed<T>>>(
    rule: &R,
    tokens: &mut Cursor<'_>,
) -> Result<Items<T>, Fault>
    requires { R.can_read rule.now }
    ensures { Reads (spec.many (R.begins_with rule.now) (R.reader rule.now) tokens.old) result tokens.new }
{
    many_boxed_onto(Items::new(tokens.alloc()), rule, tokens)
}

/// A part, if the next token begins one, otherwise `None`. A fault is the part's.
pub fn optional<R: Repeated>(rule: &R, tokens: &mut Cursor<'_>) -> Result<Option<R::Out>, Fault>
    requires { R.can_read rule.now }
    ensures { Reads (spec.optional (R.begins_with rule.now) (R.reader rule.now) tokens.old) result tokens.new }
{
    if !rule.begins(tokens.kind()) {
        return Ok(None);
    }
    Ok(Some(rule.read(tokens)?))
}

/// What was read, behind which a token of this kind stands.
#[inline(never)]
pub fn followed<T: Drop>(head: T, kind: Kind, tokens: &mut Cursor<'_>) -> Result<T, Fault>
    ensures { Reads (behind.followed head kind tokens.old) result tokens.new }
{
    tokens.expect(kind)?;
    Ok(head)
}

/// What was read, and beside it a part.
pub fn beside<T: Drop, R: Rule>(
    head: T,
    rule: &R,
    tokens: &mut Cursor<'_>,
) -> Result<(T, R::Out), Fault>
    requires { R.can_read rule.now }
    ensures { Reads (behind.beside head (R.reader rule.now) tokens.old) result tokens.new }
{
    Ok(held(head, rule.read(tokens))?)
}

/// What was read, and beside it the part of `optional`.
pub fn with_optional<T: Drop, R: Repeated>(
    head: T,
    rule: &R,
    tokens: &mut Cursor<'_>,
) -> Result<(T, Option<R::Out>), Fault>
    requires { R.can_read rule.now }
    ensures { Reads (behind.beside head (spec.optional (R.begins_with rule.now) (R.reader rule.now)) tokens.old) result tokens.new }
{
    Ok(held(head, optional(rule, tokens))?)
}

/// A part between a token that opens a nesting, where so many may still open, and one that closes it.
pub fn enclosed<R: Rule>(
    room: usize,
    opener: Kind,
    rule: &R,
    closer: Kind,
    tokens: &mut Cursor<'_>,
) -> Result<R::Out, Fault>
    requires { R.can_read rule.now }
    ensures { Reads (behind.enclosed room opener (R.reader rule.now) closer tokens.old) result tokens.new }
{
    tokens.open(room, opener)?;
    let part = rule.read(tokens)?;
    followed(part, closer, tokens)
}

/// What was read, and beside it the parts of `many`.
pub fn with_many<T: Drop, R: Repeated>(
    head: T,
    rule: &R,
    tokens: &mut Cursor<'_>,
) -> Result<(T, Items<R::Out>), Fault>
    requires { R.can_read rule.now }
    ensures { Reads (behind.beside head (spec.many (R.begins_with rule.now) (R.reader rule.now)) tokens.old) result tokens.new }
{
    Ok(held(head, many(rule, tokens))?)
}

/// What was read, and beside it the parts of `many_boxed`.
pub fn with_many_boxed<T: Drop, U: Drop, R: Repeated<Out = Boxed<U>>>(
    head: T,
    rule: &R,
    tokens: &mut Cursor<'_>,
) -> Result<(T, Items<U>), Fault>
    requires { R.can_read rule.now }
    ensures { Reads (behind.beside head (spec.many (R.begins_with rule.now) (R.reader rule.now)) tokens.old) result tokens.new }
{
    Ok(held(head, many_boxed(rule, tokens))?)
}

/// One or more parts in their order, with commas between. No comma stands behind the last.
#[tactic(auto, unfolding(setl_parse_reading::specs::code::Reading::separated))]
pub fn separated<R: Rule>(rule: &R, tokens: &mut Cursor<'_>) -> Result<Items<R::Out>, Fault>
    requires { R.can_read rule.now }
    ensures { Reads (spec.separated (R.reader rule.now) tokens.old) result tokens.new }
{
    let first = one(tokens.alloc(), rule.read(tokens)?)?;
    more_onto(first, rule, tokens)
}

/// A comma and a part behind it.
#[derive(Drop)]
struct BehindComma<'r, R> {
    part: &'r R,
}

impl<'r, R: Rule> Rule for BehindComma<'r, R> {
    type Out = R::Out;

    ghost use Rattle.setl_tree.specs.declared.kind.Kind.TheVariants as k;
    ghost use Rattle.setl_parse_reading.specs.code.Reading.{expect, ◌>>◌};

    ghost can_read = { λ s. R.can_read s.part.now };

    ghost reader = { λ s. expect k.Comma >> R.reader s.part.now };

    fn read(&self, tokens: &mut Cursor<'_>) -> Result<R::Out, Fault> {
        tokens.expect(Kind::Comma)?;
        self.part.read(tokens)
    }
}

impl<'r, R: Rule> Repeated for BehindComma<'r, R> {
    ghost use Rattle.setl_tree.specs.declared.kind.Kind.TheVariants as k;
    ghost use Rattle.setl_parse_reading.specs.code.Reading.{is};

    ghost begins_with = { λ s. is k.Comma };

    fn begins(&self, kind: Kind) -> bool {
        same_kind(kind, Kind::Comma)
    }
}

/// Items, and behind them any number of parts in their order, each behind a comma.
#[tactic(auto, unfolding(setl_parse_reading::specs::code::Reading::more))]
pub fn more_onto<R: Rule>(
    items: Items<R::Out>,
    rule: &R,
    tokens: &mut Cursor<'_>,
) -> Result<Items<R::Out>, Fault>
    requires { R.can_read rule.now }
    ensures { Reads (behind.more_onto items (R.reader rule.now) tokens.old) result tokens.new }
{
    many_onto(items, &BehindComma { part: rule }, tokens)
}

/// `more_onto` where parts are read in boxes, out of which they are taken.
#[tactic(auto, unfolding(setl_parse_reading::specs::code::Reading::more))]
pub fn more_boxed_onto<T: Drop, R: Rule<Out = Boxed<T>>>(
    items: Items<T>,
    rule: &R,
    tokens: &mut Cursor<'_>,
) -> Result<Items<T>, Fault>
    requires { R.can_read rule.now }
    ensures { Reads (behind.more_onto items (R.reader rule.now) tokens.old) result tokens.new }
{
    many_boxed_onto(items, &BehindComma { part: rule }, tokens)
}

/// `separated` where parts are read in boxes, out of which they are taken.
#[tactic(auto, unfolding(setl_parse_reading::specs::code::Reading::separated))]
pub fn separated_boxed<T: Drop, R: Rule<Out = Boxed<T>>>(
    rule: &R,
    tokens: &mut Cursor<'_>,
) -> Result<Items<T>, Fault>
    requires { R.can_read rule.now }
    ensures { Reads (spec.separated (R.reader rule.now) tokens.old) result tokens.new }
{
    let first = only(tokens.alloc(), rule.read(tokens))?;
    more_boxed_onto(first, rule, tokens)
}

/// Parts in their order with commas between, or none where the next token is the one that closes them. That token is
/// left.
#[tactic(auto, unfolding(setl_parse_reading::specs::code::Reading::listed))]
pub fn listed<R: Rule>(
    close: Kind,
    rule: &R,
    tokens: &mut Cursor<'_>,
) -> Result<Items<R::Out>, Fault>
    requires { R.can_read rule.now }
    ensures { Reads (spec.listed close (R.reader rule.now) tokens.old) result tokens.new }
{
    if same_kind(tokens.kind(), close) {
        return Ok(Items::new(tokens.alloc()));
    }
    separated(rule, tokens)
}

/// The parts of `separated`, as a rule.
#[derive(Drop)]
pub struct SeparatedRule<R> {
    pub item: R,
}

impl<R: Rule> Rule for SeparatedRule<R> {
    type Out = Items<R::Out>;

    ghost use Rattle.setl_parse_reading.specs.code.Reading.{separated};

    ghost can_read = { λ s. R.can_read s.item };

    ghost reader = { λ s. separated (R.reader s.item) };

    fn read(&self, tokens: &mut Cursor<'_>) -> Result<Items<R::Out>, Fault> {
        separated(&self.item, tokens)
    }
}

/// The parts of `listed`, as a rule.
#[derive(Drop)]
pub struct ListedRule<R> {
    pub close: Kind,
    pub item: R,
}

impl<R: Rule> Rule for ListedRule<R> {
    type Out = Items<R::Out>;

    ghost use Rattle.setl_parse_reading.specs.code.Reading.{listed};

    ghost can_read = { λ s. R.can_read s.item };

    ghost reader = { λ s. listed s.close (R.reader s.item) };

    fn read(&self, tokens: &mut Cursor<'_>) -> Result<Items<R::Out>, Fault> {
        listed(self.close, &self.item, tokens)
    }
}
