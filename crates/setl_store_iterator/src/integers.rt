//! The integers that are left of a range.

ghost use Rattle.std.specs.Prelude.{◌≡◌, ◌∷◌, ◌<ℤ◌, Some, [], false};
ghost use Rattle.setl_value.specs.Datum.{int};
ghost use Rattle.setl_set.specs.Sets.{set_from};
ghost use Rattle.setl_operators_table.specs.Ranges.{range_from, step_from};
ghost use Rattle.setl_model.specs.Iterations.{members};
ghost use Rattle.setl_store_iterator.specs.Items.{plain_item, is_pair};
ghost use Rattle.setl_store_iterator.specs.Integers.{integers_left};

use crate::iterator::Item;
use setl_operators_table::ranges::is_past;
use setl_value::Value;

/// The next integer, how many more there are, and by what each follows the one before: modulo 2^128, since a step may
/// lie outside 128 bits.
#[derive(Clone, Copy)]
pub(crate) struct Steps {
    next: i128,
    step: i128,
    more: u128,
}

/// The integers from a to b.
pub(crate) fn between(a: i128, b: i128) -> Option<Steps>
    ensures { integers_left result ≡ range_from a b }
{
    if b < a {
        return None;
    }
    Some(Steps {
        next: a,
        step: 1,
        more: b.abs_diff(a),
    })
}

/// The integers a, b and on by the same step up to c, in their order.
pub(crate) fn stepped(a: i128, b: i128, c: i128) -> Option<Steps>
    requires { a ≡ b → ⊥ }
    ensures { integers_left result ≡ step_from a b c }
{
    if is_past(a, b, c) {
        return None;
    }
    Some(Steps {
        next: a,
        step: b.wrapping_sub(a),
        more: c.abs_diff(a) / b.abs_diff(a),
    })
}

/// The integers a, b and on by the same step up to c, rising.
pub(crate) fn stepped_rising(a: i128, b: i128, c: i128) -> Option<Steps>
    requires { a ≡ b → ⊥ }
    ensures { integers_left result ≡ set_from (step_from a b c) }
{
    if a < b {
        stepped(a, b, c)
    } else {
        stepped_back(a, b, c)
    }
}

// The integers a, b and on by the same step down to c, the last one first.
fn stepped_back(a: i128, b: i128, c: i128) -> Option<Steps>
    requires { b <ℤ a }
    ensures { integers_left result ≡ set_from (step_from a b c) }
{
    if a < c {
        return None;
    }
    // The last one lies between c and a, so it fits.
    let between = a.abs_diff(c);
    let step = a.abs_diff(b);
    Some(Steps {
        next: c.saturating_add_unsigned(between % step),
        step: a.wrapping_sub(b),
        more: between / step,
    })
}

/// Takes the first of the integers that are left.
pub(crate) fn next_integer(steps: &mut Option<Steps>) -> Item
    requires { integers_left steps.old ≡ [] → ⊥ }
    ensures first { members (integers_left steps.old) ≡ plain_item result ∷ members (integers_left steps.new) }
    ensures kind { is_pair result ≡ false }
{
    let Some(now) = *steps else {
        unreachable!();
    };
    *steps = following(now);
    Item::One(Some(Value::Int(now.next)))
}

// The integers behind the first.
fn following(now: Steps) -> Option<Steps>
    ensures { integers_left (Some now) ≡ int now.next ∷ integers_left result }
{
    if now.more == 0 {
        return None;
    }
    Some(Steps {
        next: now.next.wrapping_add(now.step),
        step: now.step,
        more: now.more - 1,
    })
}
