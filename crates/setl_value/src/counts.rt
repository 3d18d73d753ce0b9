//! What is kept of the members of a set beside them: the depth, and how many are no pairs.

ghost use Rattle.std.specs.Prelude.{◌≡◌, ◌≤◌, ◌+◌, take, map, max, is_some, slice_get, if◌then◌else◌};
ghost use Rattle.std.specs.List.{AllByRecursion};
ghost use Rattle.setl_value_pages.specs.Pages.{joined};
ghost use Rattle.setl_value.specs.Datum.{Datum, depth, set_of, tuple_of};
ghost use Rattle.setl_value.specs.code.DatumOf.{datum, page};
ghost use Rattle.setl_value.specs.Pairs.{other_count, pair_parts, is_there};
ghost use Rattle.setl_value.specs.WellFormed.{IsWellFormed};

use crate::sets::MemberIter;
use crate::{TupleBody, Value};
use setl_value_pages::Page;

// Each member keeps the rules of values.
pub(crate) fn learn_members(members: &[Value])
    ensures { AllByRecursion IsWellFormed (map datum members.now) }
{
    for v in members {
        v.learn();
    }
}

// The depth of a set that would be `before` deep with one more member, of depth `gone`.
pub(crate) fn depth_without(pages: &[Page<Value>], before: u32, gone: u32) -> u32
    requires small { before ≤ 500 }
    requires cut { max (depth (set_of (joined (map page pages.now)))) (gone + 1) ≡ before }
    ensures { result ≡ depth (set_of (joined (map page pages.now))) }
{
    if gone + 1 < before {
        before
    } else {
        depth_of_pages(pages, before)
    }
}

// The depth of a set of these pages, which is at most `most`. It looks from the deepest kinds down, and no further than
// a page that makes the set `most` deep.
fn depth_of_pages(pages: &[Page<Value>], most: u32) -> u32
    requires small { most ≤ 500 }
    requires bound { depth (set_of (joined (map page pages.now))) ≤ most }
    ensures { result ≡ depth (set_of (joined (map page pages.now))) }
{
    let mut deepest: u32 = 1;
    let mut rest = pages;
    while let Some((last, others)) = rest.split_last() {
        deepest = deepest.max(depth_of(last.as_slice(), most));
        if deepest == most {
            return most;
        }
        rest = others;
    }
    deepest
}

// The depth of a set of these members, which is at most `most`. It looks from the deepest kinds down, and no further
// than a member that makes the set `most` deep.
pub(crate) fn depth_of(members: &[Value], most: u32) -> u32
    requires small { most ≤ 500 }
    requires bound { depth (set_of (map datum members.now)) ≤ most }
    ensures { result ≡ depth (set_of (map datum members.now)) }
{
    let mut deepest: u32 = 1;
    let mut rest = members;
    while let Some((last, others)) = rest.split_last() {
        deepest = deepest.max(last.depth() + 1);
        if deepest == most {
            return most;
        }
        rest = others;
    }
    deepest
}

// 1 for a value that is no pair, and 0 for a pair.
pub(crate) fn other(v: &Value) -> usize
    ensures { result ≡ (if is_some (pair_parts (datum v.now)) then 0 else 1) }
{
    match v {
        Value::Tuple(t) => usize::from(!is_pair(t)),
        _ => 1,
    }
}

// Whether a tuple is a pair.
#[tactic(auto, using(crate::proofs::Others::pair_test))]
pub(crate) fn is_pair(t: &TupleBody) -> bool
    ensures { result ≡ is_some (pair_parts (tuple_of t.now)) }
{
    t.len() == 2 && is_there(t, 0) && is_there(t, 1)
}

// Whether the i-th component is there and isn't `om`.
fn is_there(t: &TupleBody, i: usize) -> bool
    ensures { result ≡ is_there (slice_get t.now i) }
{
    t.at(i).is_some()
}

// How many members are no pairs.
pub(crate) fn others_in(members: &[Value]) -> usize
    ensures { result ≡ other_count (map datum members.now) }
{
    let mut count = 0;
    for v in members {
        count += other(v);
    }
    count
}

/// What some members that go leave behind: how many of them are no pairs, and the depth of a set of them.
#[derive(Clone, Copy)]
pub(crate) struct Gone {
    pub(crate) others: usize,
    pub(crate) deep: u32,
}

/// Looks at the first `count` members.
#[tactic(auto, using(crate::proofs::Others::count_taken, crate::proofs::Others::at_most_one, crate::proofs::Depths::depth_taken))]
pub(crate) fn leaving(members: MemberIter<'_>, count: usize) -> Gone
    requires { depth (set_of members) ≤ 500 }
    ensures others { result.others ≡ other_count (take count members.entry) }
    ensures deep { result.deep ≡ depth (set_of (take count members.entry)) }
{
    let mut left = count;
    let mut gone = Gone { others: 0, deep: 1 };
    for v in members {
        if left == 0 {
            return gone;
        }
        gone.others += other(v);
        gone.deep = gone.deep.max(v.depth() + 1);
        left -= 1;
    }
    gone
}
