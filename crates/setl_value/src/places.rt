//! Places among the members of a set: searching them, and changes there.
#![tactic(auto, unfolding(crate::specs::code::Places::HasPlace, crate::specs::code::Places::rank))]

ghost use Rattle.std.specs.Prelude.{suc, ◌≡◌, ◌<◌, ◌≤◌, ◌+◌, ◌-◌, ◌++◌, length, slice_get, take, drop, map, IfOk, IfErr, MatchResult, OnErr, OnOk, Some};
ghost use Rattle.std.specs.List.{insert, remove, AllByRecursion};
ghost use Rattle.std.specs.Option.{option_map};
ghost use Rattle.std.specs.Ordering.{is_lt};
ghost use Rattle.setl_value_pages.specs.Exchange.{PutsOnPage};
ghost use Rattle.setl_value_pages.specs.Pages.{IsPage, joined, rank_in};
ghost use Rattle.setl_value.specs.code.Body.{Members};
ghost use Rattle.setl_value.specs.Datum.{depth, set_of};
ghost use Rattle.setl_value.specs.code.DatumOf.{datum, page};
ghost use Rattle.setl_value.specs.Order.{datum_cmp, IsRising};
ghost use Rattle.setl_value.specs.code.Places.{HasPlace, rank, IsPlace, IsBound, IsBetween, point};
ghost use Rattle.setl_value.specs.code.Sought.{sought};

use crate::{MemberIter, SetBody, Value};
use setl_value_pages::{Page, first_at};
use std::alloc::{AllocError, Global};
use std::rc::Rc;

/// A place among the members of a set: at one of them, or after the last. It is good for the set that gave it, until
/// that set changes. Contracts read how many members stand before it as its `rank`.
#[derive(Clone, Copy)]
pub struct Cursor {
    pub(crate) page: usize,
    pub(crate) index: usize,
}

/// The place before all members.
pub(crate) const START: Cursor = Cursor { page: 0, index: 0 };

// What is sought among the members: a value, or where the pairs of a point begin.
#[derive(Clone, Copy)]
pub(crate) enum Sought<'a> {
    Member(&'a Value),
    Point(&'a Value),
}

impl SetBody {
    /// Where `v` is among the members, or else where it would stand. It takes no memory, and its cost grows as the
    /// number of halvings.
    pub fn search(&self, v: &Value) -> Result<Cursor, Cursor>
        ensures place { MatchResult result (λ c. HasPlace self.now c) (λ c. HasPlace self.now c) }
        ensures found { IfOk result (λ c. slice_get (Members self.now) (rank self.now c) ≡ Some (datum v.now)) }
        ensures absent { IfErr result (λ c. IsPlace (datum v.now) (Members self.now) (rank self.now c)) }
    {
        self.learn();
        let place = self.bound(Sought::Member(v));
        let Some(w) = self.member(place) else {
            return Err(place);
        };
        if w.compare(v).is_eq() {
            Ok(place)
        } else {
            Err(place)
        }
    }

    /// Where the pairs whose first part is `x` begin, or else would stand: before the first member that is above the
    /// tuple of `x` alone. It takes no memory.
    pub fn search_point(&self, x: &Value) -> Cursor
        ensures place { HasPlace self.now result }
        ensures bound { IsBound (point (datum x.now)) (Members self.now) (rank self.now result) }
    {
        self.bound(Sought::Point(x))
    }

    /// The member at a place, and None after the last.
    pub fn member(&self, c: Cursor) -> Option<&Value>
        requires { HasPlace self.now c }
        ensures { option_map (λ v. datum v.now) result ≡ slice_get (Members self.now) (rank self.now c) }
    {
        match self.body.members_from(c).next() {
            Some(v) => Some(v),
            None => None,
        }
    }

    /// The members from a place on, in rising order.
    pub fn members_from(&self, c: Cursor) -> MemberIter<'_>
        requires { HasPlace self.now c }
        ensures { result ≡ drop (rank self.now c) (Members self.now) }
    {
        self.body.members_from(c)
    }

    /// Puts `v` before the member at a place. The list stays rising and the depth at most 500. It lies on one page then,
    /// and a page of 64 members becomes two of 32 and 33. Where memory is refused, the set is as before.
    pub fn put_in(&mut self, alloc: Global, c: Cursor, v: Value) -> Result<(), AllocError>
        requires place { HasPlace self.old c }
        requires rising { IsRising (insert (Members self.old) (rank self.old c) (datum v)) }
        requires shallow { depth (set_of (insert (Members self.old) (rank self.old c) (datum v))) ≤ 500 }
        ensures put { OnOk result (Members self.new ≡ insert (Members self.old) (rank self.old c) (datum v)) }
        ensures pages { OnOk result (PutsOnPage self.old.pages self.new.pages) }
        ensures refused { OnErr result (self.new ≡ self.old) }
    {
        let pages = Rc::make_mut(&mut self.body)?;
        pages.put_in(alloc, c, v)
    }

    /// Takes the member at a place out. Where memory is refused, the set is as before.
    pub fn cut_in(&mut self, c: Cursor) -> Result<Value, AllocError>
        requires place { HasPlace self.old c }
        requires there { rank self.old c < length (Members self.old) }
        ensures cut { IfOk result (λ v. (slice_get (Members self.old) (rank self.old c) ≡ Some (datum v)) × (Members self.new ≡ remove (Members self.old) (rank self.old c))) }
        ensures refused { OnErr result (self.new ≡ self.old) }
    {
        let pages = Rc::make_mut(&mut self.body)?;
        pages.cut_in(c)
    }

    /// Puts members in the place of the `count` ones from a place on. The list stays rising and the depth at most 500.
    /// Where memory is refused, the set is as before. It looks at no other members, unless a deepest one goes.
    pub fn replace_in(&mut self, c: Cursor, count: usize, by: Vec<Value>) -> Result<(), AllocError>
        requires place { HasPlace self.old c }
        requires there { rank self.old c + count ≤ length (Members self.old) }
        requires rising { IsRising (take (rank self.old c) (Members self.old) ++ map datum by.items ++ drop (rank self.old c + count) (Members self.old)) }
        requires shallow { depth (set_of (take (rank self.old c) (Members self.old) ++ map datum by.items ++ drop (rank self.old c + count) (Members self.old))) ≤ 500 }
        ensures replaced { OnOk result (Members self.new ≡ take (rank self.old c) (Members self.old) ++ map datum by.items ++ drop (rank self.old c + count) (Members self.old)) }
        ensures refused { OnErr result (self.new ≡ self.old) }
    {
        let pages = Rc::make_mut(&mut self.body)?;
        pages.replace_in(c, count, by)
    }

    // The first place whose member isn't below what is sought.
    fn bound(&self, what: Sought<'_>) -> Cursor
        ensures place { HasPlace self.now result }
        ensures bound { IsBound (sought what.entry) (Members self.now) (rank self.now result) }
    {
        self.body.bound(what)
    }
}

/// How many of some rising members are below what is sought, found by halving.
pub(crate) fn bound_in(members: &[Value], what: Sought<'_>) -> usize
    requires { IsRising (map datum members.now) }
    ensures { IsBound (sought what.entry) (map datum members.now) result }
{
    let mut low = 0;
    let mut high = members.len();
    while low < high {
        let middle = low + (high - low) / 2;
        if is_below(&members[middle], what) {
            low = middle + 1;
        } else {
            high = middle;
        }
    }
    low
}

/// The last of some pages whose first member is below what is sought, or else the first page, found by halving.
pub(crate) fn page_in(pages: &[Page<Value>], what: Sought<'_>) -> usize
    requires pages { AllByRecursion IsPage (map page pages.now) }
    requires rising { IsRising (joined (map page pages.now)) }
    ensures there { result ≤ length pages.now - 1 }
    ensures bound { IsBetween (sought what.entry) (joined (map page pages.now)) (rank_in (map page pages.now) result 0) (rank_in (map page pages.now) (suc result) 0) }
{
    let mut low = 0;
    let mut high = pages.len();
    while high - low > 1 {
        let middle = low + (high - low) / 2;
        if is_below(first_at(pages, middle), what) {
            low = middle;
        } else {
            high = middle;
        }
    }
    low
}

// Whether a member is below what is sought.
fn is_below(v: &Value, what: Sought<'_>) -> bool
    ensures { result ≡ is_lt (datum_cmp (datum v.now) (sought what.entry)) }
{
    match what {
        Sought::Member(w) => v.compare(w).is_lt(),
        Sought::Point(x) => v.is_below_point(x),
    }
}
