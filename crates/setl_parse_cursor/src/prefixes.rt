//! Prefixes, and the words of quantifiers.

ghost use Rattle.std.specs.Prelude.{◌≡◌};
ghost use Rattle.setl_tree.specs.Operators.{quantifier};
ghost use Rattle.setl_parse_reading.specs.code.Reading.{Reads, opening_one_of};
ghost use Rattle.setl_parse_reading.specs.code.ReadExpressions as spec;

use crate::cursor::Cursor;
use crate::operators::{fold_sign, not_sign, prefix_op, quantifier};
use crate::rule::{Repeated, Rule};
use setl_parse_reading::Fault;
use setl_tree::{Kind, Prefix, Quantifier};

/// Reads the sign of a fold and the `/` behind it.
#[tactic(auto, unfolding(setl_parse_reading::specs::code::ReadExpressions::fold, setl_parse_reading::specs::code::Reading::one_of))]
fn fold(tokens: &mut Cursor<'_>) -> Result<Prefix, Fault>
    ensures { Reads (spec.fold tokens.old) result tokens.new }
{
    let Some(sign) = fold_sign(tokens.kind()) else {
        return Err(tokens.refuse());
    };
    tokens.pass();
    tokens.expect(Kind::Slash)?;
    Ok(Prefix::Folded(sign))
}

/// A prefix that binds tighter than every binary operator.
pub struct PrefixRule;

impl Rule for PrefixRule {
    type Out = Prefix;

    ghost use Rattle.setl_parse_reading.specs.code.ReadExpressions.{prefix};

    ghost can_read = { λ s. Unit {0} };

    ghost reader = { λ s. prefix };

    #[tactic(auto, unfolding(setl_parse_reading::specs::code::ReadExpressions::prefix, setl_parse_reading::specs::code::Reading::one_of))]
    fn read(&self, tokens: &mut Cursor<'_>) -> Result<Prefix, Fault> {
        if fold_sign(tokens.kind()).is_some() {
            return fold(tokens);
        }
        let Some(op) = prefix_op(tokens.kind()) else {
            return Err(tokens.refuse());
        };
        tokens.pass();
        Ok(op)
    }
}

impl Repeated for PrefixRule {
    ghost use Rattle.setl_parse_reading.specs.code.ReadExpressions.{begins_prefix};

    ghost begins_with = { λ s. begins_prefix };

    #[tactic(auto, unfolding(setl_parse_reading::specs::code::ReadExpressions::begins_prefix))]
    fn begins(&self, kind: Kind) -> bool {
        fold_sign(kind).is_some() || prefix_op(kind).is_some()
    }
}

/// The prefix `not`.
pub struct NotRule;

impl Rule for NotRule {
    type Out = Prefix;

    ghost use Rattle.setl_tree.specs.Operators.{not_sign};
    ghost use Rattle.setl_parse_reading.specs.code.Reading.{one_of};

    ghost can_read = { λ s. Unit {0} };

    ghost reader = { λ s. one_of not_sign };

    #[tactic(auto, unfolding(setl_parse_reading::specs::code::Reading::one_of))]
    fn read(&self, tokens: &mut Cursor<'_>) -> Result<Prefix, Fault> {
        let Some(sign) = not_sign(tokens.kind()) else {
            return Err(tokens.refuse());
        };
        tokens.pass();
        Ok(sign)
    }
}

impl Repeated for NotRule {
    ghost use Rattle.setl_tree.specs.Operators.{not_sign};
    ghost use Rattle.setl_parse_reading.specs.code.Reading.{begins_as};

    ghost begins_with = { λ s. begins_as not_sign };

    fn begins(&self, kind: Kind) -> bool {
        not_sign(kind).is_some()
    }
}

/// The word of a quantifier, where so many nestings may still open and it opens one.
#[tactic(auto, unfolding(setl_parse_reading::specs::code::Reading::opening_one_of))]
pub fn open_quantifier(room: usize, tokens: &mut Cursor<'_>) -> Result<Quantifier, Fault>
    ensures { Reads (opening_one_of room quantifier tokens.old) result tokens.new }
{
    let Some(word) = quantifier(tokens.kind()) else {
        return Err(tokens.refuse());
    };
    if room == 0 {
        return Err(Fault::Nesting(tokens.left()));
    }
    tokens.pass();
    Ok(word)
}
