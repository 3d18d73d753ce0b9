//! Sets of numbers in the canonical order of their members, a step at a time. Nothing here takes memory.

ghost use Rattle.std.specs.Option.{ForSome};
ghost use Rattle.setl_base.specs.Base.{IsLiving};
ghost use Rattle.setl_rep_based.specs.Numbers.{numbers_in};
ghost use Rattle.setl_rep_based.specs.Walk.{IsStep};

use crate::numbers::Numbers;
use setl_base::{Base, Elt};
use setl_rep_forms::laws;

/// The least member of a set that is greater than the member `after`, or the least of all where `after` is None; None
/// exactly where there is none. It goes over the members of the base in between, in the canonical order, and each of
/// these steps takes time that grows with the number of all members of the base.
pub fn next_in(base: &Base, numbers: Numbers<'_>, after: Option<Elt>) -> Option<Elt>
    requires { ForSome after (IsLiving base.now) }
    ensures { IsStep base.now (numbers_in numbers.entry) after result }
{
    setl_set::laws::tests_are_exact();
    laws::sets_have_their_members();
    base.learn();
    let mut at = after;
    while let Some(e) = base.rank_next(at) {
        if numbers.test(e.block) {
            return Some(e);
        }
        at = Some(e);
    }
    None
}
