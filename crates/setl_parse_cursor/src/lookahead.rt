//! Looking ahead at the inside of a brace or bracket.

ghost use Rattle.std.specs.Prelude.{◌≡◌, drop, if◌then◌else◌};
ghost use Rattle.setl_tree.specs.declared.kind.Kind.TheVariants as k;
ghost use Rattle.setl_parse_reading.specs.code.Reading as spec;
ghost use Rattle.setl_parse_reading.specs.code.Scan as scan;

use crate::cursor::{Cursor, same_kind};
use setl_parse_reading::Ahead;
use setl_tree::Kind;

fn either_at(kind: Kind) -> Ahead
    ensures { result ≡ scan.either_at kind }
{
    if same_kind(kind, Kind::In) {
        Ahead::Either
    } else {
        Ahead::Expression
    }
}

/// Whether a slot ends before a token of this kind.
#[tactic(auto, unfolding(setl_parse_reading::specs::code::Scan::ends_slot))]
fn ends_slot(kind: Kind) -> bool
    ensures { result ≡ scan.ends_slot kind }
{
    matches!(kind, Kind::Comma | Kind::RightBracket)
}

/// What a skipped component shows, by the token behind it.
fn after_skip(kind: Kind) -> Ahead
    ensures { result ≡ (if scan.ends_slot kind then Ahead.Pattern else Ahead.Expression) }
{
    if ends_slot(kind) {
        Ahead::Pattern
    } else {
        Ahead::Expression
    }
}

/// What the last name of a pattern shows, by the two tokens behind it.
fn after_last(kind: Kind, next: Kind) -> Ahead
    ensures { result ≡ (if spec.same_kind kind k.RightBracket then scan.either_at next else Ahead.Expression) }
{
    if same_kind(kind, Kind::RightBracket) {
        either_at(next)
    } else {
        Ahead::Expression
    }
}

/// What stands behind the opening bracket of a tuple pattern or of a tuple.
#[tactic(auto, using(crate::proofs::Slots::skip_at, crate::proofs::Slots::other_at, crate::proofs::Slots::name_at, crate::proofs::Slots::few_at))]
fn slots_ahead(tokens: &Cursor<'_>) -> Ahead
    ensures { result ≡ scan.slots_ahead (drop 1 tokens.now) }
{
    let left = tokens.left();
    let mut at = 1;
    'slots: while left.saturating_sub(at) > 1 {
        let first = tokens.kind_behind(at);
        let end = tokens.kind_behind(at + 1);
        if same_kind(first, Kind::Minus) {
            return after_skip(end);
        }
        if !same_kind(first, Kind::Name) {
            return Ahead::Expression;
        }
        if !same_kind(end, Kind::Comma) {
            return after_last(end, tokens.kind_behind(at + 2));
        }
        at += 2;
    }
    Ahead::Expression
}

/// What the inside of a brace or bracket begins with.
#[tactic(auto, using(crate::proofs::Slots::rest_is_drop), unfolding(setl_parse_reading::specs::code::Scan::ahead))]
pub fn ahead(tokens: &Cursor<'_>) -> Ahead
    ensures { result ≡ scan.ahead tokens.now }
{
    if same_kind(tokens.kind(), Kind::Name) {
        return either_at(tokens.kind_behind(1));
    }
    if same_kind(tokens.kind(), Kind::LeftBracket) {
        return slots_ahead(tokens);
    }
    Ahead::Expression
}
