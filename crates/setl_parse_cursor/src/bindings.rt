//! What iterators bind.

ghost use Rattle.std.specs.Prelude.{◌≡◌};
ghost use Rattle.setl_parse_reading.specs.code.Reading.{Reads};
ghost use Rattle.setl_parse_reading.specs.code.ReadExpressions as spec;
ghost use Rattle.setl_parse_cursor.specs.code.Behind as behind;

use crate::cursor::{Cursor, same_kind};
use crate::rule::{Rule, SeparatedRule, enclosed, followed};
use setl_parse_reading::Fault;
use setl_tree::{Bound, Items, Kind, Slot, Text};

/// A component of a tuple pattern.
#[derive(Drop)]
struct SlotRule;

impl Rule for SlotRule {
    type Out = Slot;

    ghost use Rattle.setl_parse_reading.specs.code.ReadExpressions.{slot};

    ghost can_read = { λ s. Unit {0} };

    ghost reader = { λ s. slot };

    #[tactic(auto, unfolding(setl_parse_reading::specs::code::ReadExpressions::slot))]
    fn read(&self, tokens: &mut Cursor<'_>) -> Result<Slot, Fault> {
        if same_kind(tokens.kind(), Kind::Name) {
            return Ok(Slot::Name(tokens.name()?));
        }
        tokens.expect(Kind::Minus)?;
        Ok(Slot::Skip)
    }
}

/// Reads a tuple pattern: one or more names and `-` in brackets, where so many nestings may still open.
#[tactic(auto, unfolding(setl_parse_reading::specs::code::ReadExpressions::pattern))]
pub fn pattern(room: usize, tokens: &mut Cursor<'_>) -> Result<Items<Slot>, Fault>
    ensures { Reads (spec.pattern room tokens.old) result tokens.new }
{
    let slots = SeparatedRule { item: SlotRule };
    enclosed(room, Kind::LeftBracket, &slots, Kind::RightBracket, tokens)
}

/// What an iterator binds, where so many nestings may still open.
#[tactic(auto, unfolding(setl_parse_reading::specs::code::ReadExpressions::bound))]
pub fn bound(room: usize, tokens: &mut Cursor<'_>) -> Result<Bound, Fault>
    ensures { Reads (spec.bound room tokens.old) result tokens.new }
{
    if same_kind(tokens.kind(), Kind::Name) {
        return Ok(Bound::Name(tokens.name()?));
    }
    Ok(Bound::Pattern(pattern(room, tokens)?))
}

/// `(x)` behind a map, where so many nestings may still open.
pub fn argument(room: usize, tokens: &mut Cursor<'_>) -> Result<Text, Fault>
    ensures { Reads (behind.argument room tokens.old) result tokens.new }
{
    tokens.open(room, Kind::LeftParen)?;
    let name = tokens.name()?;
    followed(name, Kind::RightParen, tokens)
}
