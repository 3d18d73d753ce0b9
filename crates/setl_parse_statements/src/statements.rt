//! Statements.

ghost use Rattle.std.specs.Prelude.{◌≡◌, IfOk, IfErr, Ok, Err, [], ◌∷◌};
ghost use Rattle.setl_tree.specs.Operators as table;
ghost use Rattle.setl_tree.specs.Statements as grammar;
ghost use Rattle.setl_tree.specs.Tokens.{Token};
ghost use Rattle.setl_parse_reading.specs.code.Reading.{Reads, begins_as};
ghost use Rattle.setl_parse_reading.specs.code.ReadStatements as spec;
ghost use Rattle.setl_parse_statements.specs.code.Parts as parts;

use setl_parse_cursor::{
    Cursor, ListedRule, Repeated, Rule, SeparatedRule, begins_selector, beside, enclosed, followed,
    many_onto, one, pattern, same_kind, with_many,
};
use setl_parse_expressions::{NestedExpr, braces, expr};
use setl_parse_reading::Fault;
use setl_tree::{BinaryOp, Boxed, Expr, FromEnd, Items, Kind, Place, Selector, StmtKind, Text};
use std::alloc::Global;

/// The operator that may stand before `:=`.
#[tactic(auto, unfolding(setl_tree::specs::Operators::update_op))]
fn update_op(kind: Kind) -> Option<BinaryOp>
    ensures { result ≡ table.update_op kind }
{
    match kind {
        Kind::With => Some(BinaryOp::With),
        Kind::Less => Some(BinaryOp::Less),
        Kind::Lessf => Some(BinaryOp::Lessf),
        Kind::Npow => Some(BinaryOp::Npow),
        Kind::Plus => Some(BinaryOp::Plus),
        Kind::Minus => Some(BinaryOp::Minus),
        Kind::Max => Some(BinaryOp::Max),
        Kind::Min => Some(BinaryOp::Min),
        Kind::Star => Some(BinaryOp::Times),
        Kind::Div => Some(BinaryOp::Div),
        Kind::Mod => Some(BinaryOp::Mod),
        Kind::Power => Some(BinaryOp::Power),
        _ => None,
    }
}

/// Which member is taken out.
#[tactic(auto, unfolding(setl_tree::specs::Statements::from_word))]
fn from_word(kind: Kind) -> Option<FromEnd>
    ensures { result ≡ grammar.from_word kind }
{
    match kind {
        Kind::From => Some(FromEnd::From),
        Kind::Fromb => Some(FromEnd::Fromb),
        Kind::Frome => Some(FromEnd::Frome),
        _ => None,
    }
}

/// A statement of one word.
#[tactic(auto, unfolding(setl_tree::specs::Statements::simple))]
fn simple(kind: Kind) -> Option<StmtKind>
    ensures { result ≡ grammar.simple kind }
{
    match kind {
        Kind::Quit => Some(StmtKind::Quit),
        Kind::Continue => Some(StmtKind::Continue),
        Kind::Fail => Some(StmtKind::Fail),
        Kind::Succeed => Some(StmtKind::Succeed),
        Kind::Stop => Some(StmtKind::Stop),
        Kind::Pass => Some(StmtKind::Pass),
        _ => None,
    }
}

/// Whether a token of this kind is a statement of one word.
#[tactic(auto, unfolding(setl_tree::specs::Statements::simple))]
fn is_simple(kind: Kind) -> bool
    ensures { result ≡ begins_as grammar.simple kind }
{
    matches!(
        kind,
        Kind::Quit | Kind::Continue | Kind::Fail | Kind::Succeed | Kind::Stop | Kind::Pass
    )
}

/// A statement without its line, in a box. An error is want of memory.
pub fn boxed(alloc: Global, kind: StmtKind) -> Result<Boxed<StmtKind>, Fault>
    ensures ok { IfOk result (λ k. k ≡ kind) }
    ensures err { IfErr result (λ e. e ≡ Fault.Memory) }
{
    Ok(Boxed::new(alloc, kind)?)
}

/// Reads `end`, maybe this word, and `;`.
#[tactic(auto, unfolding(setl_parse_reading::specs::code::ReadStatements::ending))]
pub fn ending(word: Kind, tokens: &mut Cursor<'_>) -> Result<(), Fault>
    ensures ok { IfOk result (λ _. (t : Token) × (spec.ending word tokens.old ≡ Ok (t, tokens.new))) }
    ensures err { IfErr result (λ e. spec.ending word tokens.old ≡ Err e) }
{
    tokens.expect(Kind::End)?;
    if same_kind(tokens.kind(), word) {
        tokens.expect(word)?;
    }
    tokens.expect(Kind::Semicolon)?;
    Ok(())
}

/// What was read, behind which `end`, maybe this word, and `;` stand.
#[inline(never)]
pub fn ended<T: Drop>(head: T, word: Kind, tokens: &mut Cursor<'_>) -> Result<T, Fault>
    ensures { Reads (parts.ended head word tokens.old) result tokens.new }
{
    ending(word, tokens)?;
    Ok(head)
}

/// What was read, and behind `:=` a value up to `;`.
fn valued<T: Drop>(head: T, room: usize, tokens: &mut Cursor<'_>) -> Result<(T, Expr), Fault>
    ensures { Reads (parts.valued head room tokens.old) result tokens.new }
{
    let head = followed(head, Kind::Assign, tokens)?;
    let value = expr(room, tokens)?;
    followed((head, value), Kind::Semicolon, tokens)
}

/// A word, and in round brackets up to `;` what it is of.
fn command<R: Rule>(
    word: Kind,
    room: usize,
    rule: &R,
    tokens: &mut Cursor<'_>,
) -> Result<R::Out, Fault>
    requires { R.can_read rule.now }
    ensures { Reads (parts.command word room (R.reader rule.now) tokens.old) result tokens.new }
{
    tokens.expect(word)?;
    let part = enclosed(room, Kind::LeftParen, rule, Kind::RightParen, tokens)?;
    followed(part, Kind::Semicolon, tokens)
}

/// Expressions in the round brackets of a place.
#[tactic(auto, unfolding(setl_parse_reading::specs::code::ReadStatements::place_round))]
fn place_round(room: usize, tokens: &mut Cursor<'_>) -> Result<Selector, Fault>
    ensures { Reads (spec.place_round room tokens.old) result tokens.new }
{
    let all = SeparatedRule {
        item: NestedExpr { room },
    };
    let all = enclosed(room, Kind::LeftParen, &all, Kind::RightParen, tokens)?;
    Ok(Selector::Round(all))
}

/// A selector of a place.
#[derive(Drop)]
struct PlaceSelector {
    room: usize,
}

impl Rule for PlaceSelector {
    type Out = Selector;

    ghost use Rattle.setl_parse_reading.specs.code.ReadStatements.{place_selector};

    ghost can_read = { λ s. Unit {0} };

    ghost reader = { λ s. place_selector s.room };

    #[tactic(auto, unfolding(setl_parse_reading::specs::code::ReadStatements::place_selector))]
    fn read(&self, tokens: &mut Cursor<'_>) -> Result<Selector, Fault> {
        if same_kind(tokens.kind(), Kind::LeftParen) {
            return place_round(self.room, tokens);
        }
        braces(self.room, tokens)
    }
}

impl Repeated for PlaceSelector {
    ghost use Rattle.setl_parse_reading.specs.code.ReadExpressions.{begins_selector};

    ghost begins_with = { λ s. begins_selector };

    fn begins(&self, kind: Kind) -> bool {
        begins_selector(kind)
    }
}

/// A place.
#[derive(Drop)]
struct PlaceRule {
    room: usize,
}

impl Rule for PlaceRule {
    type Out = Place;

    ghost use Rattle.setl_parse_reading.specs.code.ReadStatements.{place};

    ghost can_read = { λ s. Unit {0} };

    ghost reader = { λ s. place s.room };

    #[tactic(auto, unfolding(setl_parse_reading::specs::code::ReadStatements::place, setl_parse_reading::specs::code::ReadStatements::place_selectors))]
    fn read(&self, tokens: &mut Cursor<'_>) -> Result<Place, Fault> {
        let name = tokens.name()?;
        let (name, selectors) = with_many(name, &PlaceSelector { room: self.room }, tokens)?;
        Ok(Place { name, selectors })
    }
}

/// `:= value;` behind a place.
#[tactic(auto, unfolding(setl_parse_reading::specs::code::ReadStatements::assigned))]
fn assigned(room: usize, place: Place, tokens: &mut Cursor<'_>) -> Result<Boxed<StmtKind>, Fault>
    ensures { Reads (spec.assigned room place tokens.old) result tokens.new }
{
    let (place, value) = valued(place, room, tokens)?;
    boxed(tokens.alloc(), StmtKind::Assign(place, value))
}

/// `op := value;` behind a place.
#[tactic(auto, unfolding(setl_parse_reading::specs::code::ReadStatements::updated, setl_parse_reading::specs::code::Reading::one_of))]
fn updated(room: usize, place: Place, tokens: &mut Cursor<'_>) -> Result<Boxed<StmtKind>, Fault>
    ensures { Reads (spec.updated room place tokens.old) result tokens.new }
{
    let Some(op) = update_op(tokens.kind()) else {
        return Err(tokens.refuse());
    };
    tokens.pass();
    let (place, value) = valued(place, room, tokens)?;
    boxed(tokens.alloc(), StmtKind::Update(place, op, value))
}

/// What stands behind a place.
#[tactic(auto, unfolding(setl_parse_reading::specs::code::ReadStatements::stored))]
fn stored(room: usize, place: Place, tokens: &mut Cursor<'_>) -> Result<Boxed<StmtKind>, Fault>
    ensures { Reads (spec.stored room place tokens.old) result tokens.new }
{
    if same_kind(tokens.kind(), Kind::Assign) {
        return assigned(room, place, tokens);
    }
    updated(room, place, tokens)
}

/// What was read, and beside it the selectors of a place, of which these were read.
#[tactic(auto, unfolding(setl_parse_reading::specs::code::ReadStatements::place_selectors))]
fn with_selectors<T: Drop>(
    head: T,
    room: usize,
    first: Items<Selector>,
    tokens: &mut Cursor<'_>,
) -> Result<(T, Items<Selector>), Fault>
    ensures { Reads (parts.with_selectors head room first tokens.old) result tokens.new }
{
    let selectors = many_onto(first, &PlaceSelector { room }, tokens)?;
    Ok((head, selectors))
}

/// What stands behind the first selector of a place.
#[tactic(auto, unfolding(setl_parse_reading::specs::code::ReadStatements::selected_place, setl_parse_reading::specs::code::ReadStatements::place_selectors))]
fn selected_place(
    room: usize,
    name: Text,
    first: Selector,
    tokens: &mut Cursor<'_>,
) -> Result<Boxed<StmtKind>, Fault>
    ensures { Reads (spec.selected_place room name first tokens.old) result tokens.new }
{
    let first = one(tokens.alloc(), first)?;
    let (name, selectors) = with_selectors(name, room, first, tokens)?;
    stored(room, Place { name, selectors }, tokens)
}

/// What stands behind `name(x, ..)`.
#[tactic(auto, unfolding(setl_parse_reading::specs::code::ReadStatements::after_arguments))]
fn after_arguments(
    room: usize,
    name: Text,
    all: Items<Expr>,
    tokens: &mut Cursor<'_>,
) -> Result<Boxed<StmtKind>, Fault>
    ensures { Reads (spec.after_arguments room name all tokens.old) result tokens.new }
{
    if same_kind(tokens.kind(), Kind::Semicolon) {
        let (name, all) = followed((name, all), Kind::Semicolon, tokens)?;
        return boxed(tokens.alloc(), StmtKind::Call(name, all));
    }
    selected_place(room, name, Selector::Round(all), tokens)
}

/// What stands behind `name(` where `)` does.
#[tactic(auto, unfolding(setl_parse_reading::specs::code::ReadStatements::no_arguments))]
fn no_arguments(room: usize, name: Text, tokens: &mut Cursor<'_>) -> Result<Boxed<StmtKind>, Fault>
    ensures { Reads (spec.no_arguments room name tokens.old) result tokens.new }
{
    let name = followed(name, Kind::RightParen, tokens)?;
    let name = followed(name, Kind::Semicolon, tokens)?;
    boxed(
        tokens.alloc(),
        StmtKind::Call(name, Items::new(tokens.alloc())),
    )
}

/// What stands behind `name(`.
#[tactic(auto, unfolding(setl_parse_reading::specs::code::ReadStatements::called))]
fn called(room: usize, name: Text, tokens: &mut Cursor<'_>) -> Result<Boxed<StmtKind>, Fault>
    ensures { Reads (spec.called room name tokens.old) result tokens.new }
{
    if same_kind(tokens.kind(), Kind::RightParen) {
        return no_arguments(room, name, tokens);
    }
    let all = SeparatedRule {
        item: NestedExpr { room },
    };
    let both = beside(name, &all, tokens)?;
    let (name, all) = followed(both, Kind::RightParen, tokens)?;
    after_arguments(room, name, all, tokens)
}

/// What stands behind a name with no round bracket.
#[tactic(auto, unfolding(setl_parse_reading::specs::code::ReadStatements::braced_or_alone))]
fn braced_or_alone(
    room: usize,
    name: Text,
    tokens: &mut Cursor<'_>,
) -> Result<Boxed<StmtKind>, Fault>
    ensures { Reads (spec.braced_or_alone room name tokens.old) result tokens.new }
{
    if same_kind(tokens.kind(), Kind::LeftBrace) {
        let first = braces(room, tokens)?;
        return selected_place(room, name, first, tokens);
    }
    let selectors = Items::new(tokens.alloc());
    stored(room, Place { name, selectors }, tokens)
}

/// A call or a place behind its name.
#[tactic(auto, unfolding(setl_parse_reading::specs::code::ReadStatements::called_or_stored))]
fn called_or_stored(
    room: usize,
    name: Text,
    tokens: &mut Cursor<'_>,
) -> Result<Boxed<StmtKind>, Fault>
    ensures { Reads (spec.called_or_stored room name tokens.old) result tokens.new }
{
    if same_kind(tokens.kind(), Kind::LeftParen) {
        tokens.open(room, Kind::LeftParen)?;
        return called(room, name, tokens);
    }
    braced_or_alone(room, name, tokens)
}

/// `from place;` behind a name.
#[tactic(auto, unfolding(setl_parse_reading::specs::code::ReadStatements::taken, setl_parse_reading::specs::code::Reading::one_of))]
fn taken(room: usize, name: Text, tokens: &mut Cursor<'_>) -> Result<Boxed<StmtKind>, Fault>
    ensures { Reads (spec.taken room name tokens.old) result tokens.new }
{
    let Some(word) = from_word(tokens.kind()) else {
        return Err(tokens.refuse());
    };
    tokens.pass();
    let both = beside(name, &PlaceRule { room }, tokens)?;
    let (name, from) = followed(both, Kind::Semicolon, tokens)?;
    boxed(tokens.alloc(), StmtKind::Take(name, word, from))
}

/// What stands behind a name.
#[inline(never)]
#[tactic(auto, unfolding(setl_parse_reading::specs::code::ReadStatements::behind_name))]
pub fn behind_name(
    room: usize,
    name: Text,
    tokens: &mut Cursor<'_>,
) -> Result<Boxed<StmtKind>, Fault>
    ensures { Reads (spec.behind_name room name tokens.old) result tokens.new }
{
    if from_word(tokens.kind()).is_some() {
        return taken(room, name, tokens);
    }
    called_or_stored(room, name, tokens)
}

/// `[slot, ..] := value;`
#[inline(never)]
#[tactic(auto, unfolding(setl_parse_reading::specs::code::ReadStatements::tuple_assign))]
pub fn tuple_assign(room: usize, tokens: &mut Cursor<'_>) -> Result<Boxed<StmtKind>, Fault>
    ensures { Reads (spec.tuple_assign room tokens.old) result tokens.new }
{
    let slots = pattern(room, tokens)?;
    let (slots, value) = valued(slots, room, tokens)?;
    boxed(tokens.alloc(), StmtKind::TupleAssign(slots, value))
}

/// `return value;`, where the value may be left out.
#[inline(never)]
#[tactic(auto, unfolding(setl_parse_reading::specs::code::ReadStatements::return_stmt))]
pub fn return_stmt(room: usize, tokens: &mut Cursor<'_>) -> Result<Boxed<StmtKind>, Fault>
    ensures { Reads (spec.return_stmt room tokens.old) result tokens.new }
{
    tokens.expect(Kind::Return)?;
    if same_kind(tokens.kind(), Kind::Semicolon) {
        tokens.expect(Kind::Semicolon)?;
        return boxed(tokens.alloc(), StmtKind::Return(None));
    }
    let value = followed(expr(room, tokens)?, Kind::Semicolon, tokens)?;
    boxed(tokens.alloc(), StmtKind::Return(Some(value)))
}

/// `print(x, ..);`
#[inline(never)]
#[tactic(auto, unfolding(setl_parse_reading::specs::code::ReadStatements::print_stmt))]
pub fn print_stmt(room: usize, tokens: &mut Cursor<'_>) -> Result<Boxed<StmtKind>, Fault>
    ensures { Reads (spec.print_stmt room tokens.old) result tokens.new }
{
    let all = ListedRule {
        close: Kind::RightParen,
        item: NestedExpr { room },
    };
    let all = command(Kind::Print, room, &all, tokens)?;
    boxed(tokens.alloc(), StmtKind::Print(all))
}

/// A name.
#[derive(Drop)]
pub struct NameRule;

impl Rule for NameRule {
    type Out = Text;

    ghost use Rattle.setl_parse_reading.specs.code.Reading.{name};

    ghost can_read = { λ s. Unit {0} };

    ghost reader = { λ s. name };

    fn read(&self, tokens: &mut Cursor<'_>) -> Result<Text, Fault> {
        tokens.name()
    }
}

impl Repeated for NameRule {
    ghost use Rattle.setl_tree.specs.declared.kind.Kind.TheVariants as k;
    ghost use Rattle.setl_parse_reading.specs.code.Reading.{is};

    ghost begins_with = { λ s. is k.Name };

    fn begins(&self, kind: Kind) -> bool {
        same_kind(kind, Kind::Name)
    }
}

/// `read(name, ..);`
#[inline(never)]
#[tactic(auto, unfolding(setl_parse_reading::specs::code::ReadStatements::read_stmt))]
pub fn read_stmt(room: usize, tokens: &mut Cursor<'_>) -> Result<Boxed<StmtKind>, Fault>
    ensures { Reads (spec.read_stmt room tokens.old) result tokens.new }
{
    let names = SeparatedRule { item: NameRule };
    let names = command(Kind::Read, room, &names, tokens)?;
    boxed(tokens.alloc(), StmtKind::Read(names))
}

/// A statement of one word.
#[inline(never)]
#[tactic(auto, unfolding(setl_parse_reading::specs::code::ReadStatements::simple_stmt, setl_parse_reading::specs::code::Reading::one_of))]
pub fn simple_stmt(room: usize, tokens: &mut Cursor<'_>) -> Result<Boxed<StmtKind>, Fault>
    ensures { Reads (spec.simple_stmt room tokens.old) result tokens.new }
{
    let word = tokens.kind();
    if !is_simple(word) {
        return Err(tokens.refuse());
    }
    tokens.pass();
    tokens.expect(Kind::Semicolon)?;
    boxed(tokens.alloc(), simple(word).ok_or(tokens.refuse())?)
}
