//! The members in order.

ghost use Rattle.std.specs.Prelude.{◌≡◌};
ghost use Rattle.setl_value.specs.code.Body.{Members};
ghost use Rattle.setl_value.specs.Order.{IsRising};
ghost use Rattle.setl_set.specs.Sets.{is_subset};

use crate::searching::{is_small, subset_by_search};
use setl_value::{MemberIter, SetBody};
use std::cmp::Ordering;

/// The members of a set that are left to visit, the least first. Contracts see it as their list.
pub type Rising<'a> = MemberIter<'a>;

/// The members in strictly rising order, as an iterator. It takes no memory.
pub fn walk(s: &SetBody) -> Rising<'_>
    ensures all { result ≡ Members s.now }
    ensures rising { IsRising result }
{
    s.learn();
    s.members()
}

/// Whether each member of `a` is a member of `b`. It takes no memory, and its cost is the sum of the sizes, or that of a
/// search for each member of an `a` that is much smaller than `b`.
pub fn subset(a: &SetBody, b: &SetBody) -> bool
    ensures { result ≡ is_subset (Members a.now) (Members b.now) }
{
    a.learn();
    b.learn();
    if is_small(a, b) {
        return subset_by_search(a, b);
    }
    let mut left = a.members();
    let mut right = b.members();
    let mut x = left.next();
    let mut y = right.next();
    while let Some(v) = x {
        let Some(w) = y else {
            return false;
        };
        match v.compare(w) {
            Ordering::Less => return false,
            Ordering::Equal => {
                x = left.next();
                y = right.next();
            }
            Ordering::Greater => y = right.next(),
        }
    }
    true
}
