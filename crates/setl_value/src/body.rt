//! The body of a set without its owner: pages, and what is kept beside them.
#![tactic(auto, unfolding(crate::specs::code::Places::HasPlace, crate::specs::code::Places::rank))]

ghost use Rattle.std.specs.Prelude.{◌≡◌, ◌<◌, ◌≤◌, ◌+◌, ◌^◌, ◌++◌, ◌⊎◌, [], length, slice_get, slice_set, take, drop, map, IfOk, IfNone, IfSome, OnErr, OnOk, Some, None};
ghost use Rattle.std.specs.List.{insert, remove, AllByRecursion};
ghost use Rattle.setl_value_pages.specs.Exchange.{PutsOnPage};
ghost use Rattle.setl_value_pages.specs.Pages.{IsIn, IsPage, joined, page_at, rank_in};
ghost use Rattle.setl_value.specs.code.Body.{Members};
ghost use Rattle.setl_value.specs.code.Changing.{AlwaysChanges, ChangesPair, PairGrows};
ghost use Rattle.setl_value.specs.Datum.{Datum, depth, set_of};
ghost use Rattle.setl_value.specs.code.DatumOf.{datum, page};
ghost use Rattle.setl_value.specs.Order.{IsRising};
ghost use Rattle.setl_value.specs.Pairs.{is_map, pair_parts};
ghost use Rattle.setl_value.specs.code.Places.{HasPlace, rank, IsBound};
ghost use Rattle.setl_value.specs.code.Sought.{sought};
ghost use Rattle.setl_value.specs.WellFormed.{IsValue, IsSetList};

use crate::counts::{depth_of, depth_without, learn_members, leaving, other, others_in};
use crate::places::{Cursor, START, Sought, bound_in, page_in};
use crate::second::change_second;
use crate::sets::MemberIter;
use crate::{Pages, Value};
use setl_value_pages::{
    Page, cut_page, item_at, items_at, items_from, paged, pages_from, put_page, replace_pages,
    size_at,
};
use std::alloc::{AllocError, Global};

impl Pages {
    /// No pages.
    pub(crate) fn new(alloc: Global) -> Pages
        ensures { Members result ≡ [] }
    {
        Pages {
            list: Vec::new(alloc),
            count: 0,
            deep: 1,
            others: 0,
        }
    }

    /// Pages of these members.
    pub(crate) fn from_rising(alloc: Global, items: Vec<Value>) -> Result<Pages, AllocError>
        requires rising { IsRising (map datum items.items) }
        requires shallow { depth (set_of (map datum items.items)) ≤ 500 }
        ensures made { IfOk result (λ s. Members s ≡ map datum items.items) }
    {
        learn_members(items.as_slice());
        let count = items.len();
        let deep = depth_of(items.as_slice(), 500);
        let others = others_in(items.as_slice());
        Ok(Pages {
            list: paged(alloc, 64, items)?,
            count,
            deep,
            others,
        })
    }

    /// How many members there are.
    pub(crate) fn len(&self) -> usize
        ensures { result ≡ length (Members self.now) }
    {
        self.count
    }

    /// Whether all members are pairs.
    pub(crate) fn is_map(&self) -> bool
        ensures { result ≡ is_map (Members self.now) }
    {
        self.others == 0
    }

    /// One more than the greatest depth of a member, and 1 where there is none.
    pub(crate) fn depth(&self) -> u32
        ensures { result ≡ depth (set_of (Members self.now)) }
    {
        self.deep
    }

    /// Has no effect: it hands a proof what is true of the members.
    pub(crate) fn learn(&self)
        ensures { IsSetList (Members self.now) }
    {
        let _ = &self.list;
    }

    /// Has no effect: it hands a proof what is true of the pages.
    pub(crate) fn learn_pages(&self)
        ensures { AllByRecursion IsPage self.now.pages }
    {
        let _ = &self.list;
    }

    /// The i-th member.
    pub(crate) fn at(&self, i: usize) -> &Value
        requires { i < length (Members self.now) }
        ensures member { slice_get (Members self.now) i ≡ Some (datum result.now) }
        ensures stands { IsValue (datum result.now) }
    {
        let list = self.list.as_slice();
        let place = standing(list, place_behind(list, self.count, START, i));
        &items_at(list, place.page)[place.index]
    }

    /// The members in rising order.
    pub(crate) fn members(&self) -> MemberIter<'_>
        ensures { result ≡ Members self.now }
    {
        MemberIter {
            rest: &[],
            pages: self.list.as_slice(),
        }
    }

    /// The members from a place on.
    pub(crate) fn members_from(&self, c: Cursor) -> MemberIter<'_>
        requires { HasPlace self.now c }
        ensures { result ≡ drop (rank self.now c) (Members self.now) }
    {
        members_behind(self.list.as_slice(), c)
    }

    /// The first place whose member isn't below what is sought.
    pub(crate) fn bound(&self, what: Sought<'_>) -> Cursor
        ensures place { HasPlace self.now result }
        ensures bound { IsBound (sought what.entry) (Members self.now) (rank self.now result) }
    {
        let list = self.list.as_slice();
        let page = page_in(list, what);
        Cursor {
            page,
            index: bound_in(items_at(list, page), what),
        }
    }

    /// The place that is `count` members behind a place.
    pub(crate) fn place_after(&self, c: Cursor, count: usize) -> Cursor
        requires place { HasPlace self.now c }
        requires there { rank self.now c + count ≤ length (Members self.now) }
        ensures place { HasPlace self.now result }
        ensures rank { rank self.now result ≡ rank self.now c + count }
        ensures behind { (c.page < result.page) ⊎ ((c.page ≡ result.page) × (c.index ≤ result.index)) }
    {
        place_behind(self.list.as_slice(), self.count, c, count)
    }

    /// Puts `v` before the member at a place.
    pub(crate) fn put_in(&mut self, alloc: Global, c: Cursor, v: Value) -> Result<(), AllocError>
        requires place { HasPlace self.old c }
        requires rising { IsRising (insert (Members self.old) (rank self.old c) (datum v)) }
        requires shallow { depth (set_of (insert (Members self.old) (rank self.old c) (datum v))) ≤ 500 }
        ensures put { OnOk result (Members self.new ≡ insert (Members self.old) (rank self.old c) (datum v)) }
        ensures pages { OnOk result (PutsOnPage self.old.pages self.new.pages) }
        ensures refused { OnErr result (self.new ≡ self.old) }
    {
        v.learn();
        let deep = v.depth() + 1;
        let other = other(&v);
        let count = sum_of(self.count, 1)?;
        put_page(alloc, &mut self.list, c.page, c.index, v)?;
        self.count = count;
        self.deep = self.deep.max(deep);
        self.others += other;
        Ok(())
    }

    /// Takes the member at a place out.
    pub(crate) fn cut_in(&mut self, c: Cursor) -> Result<Value, AllocError>
        requires place { HasPlace self.old c }
        requires there { rank self.old c < length (Members self.old) }
        ensures cut { IfOk result (λ v. (slice_get (Members self.old) (rank self.old c) ≡ Some (datum v)) × (Members self.new ≡ remove (Members self.old) (rank self.old c))) }
        ensures refused { OnErr result (self.new ≡ self.old) }
    {
        let place = standing(self.list.as_slice(), c);
        let v = cut_page(&mut self.list, place.page, place.index)?;
        self.count -= 1;
        self.deep = depth_without(self.list.as_slice(), self.deep, v.depth());
        self.others -= other(&v);
        Ok(v)
    }

    /// Lets `change` change the second part of the member at a place where it stands, unless that is no pair.
    pub(crate) fn change_second<R, F: FnOnce(&mut Value) -> R>(
        &mut self,
        c: Cursor,
        change: F,
    ) -> Result<Option<R>, AllocError>
        requires place { HasPlace self.old c }
        requires there { rank self.old c < length (Members self.old) }
        requires callable { F.IsAlwaysCallable change }
        requires grows { (m : Datum) → slice_get (Members self.old) (rank self.old c) ≡ Some m → PairGrows F.FnOnce change m }
        requires rising { (m : Datum) → slice_get (Members self.old) (rank self.old c) ≡ Some m → AlwaysChanges F.FnOnce change m (λ n. IsRising (slice_set (Members self.old) (rank self.old c) n)) }
        ensures changed { IfOk result (λ o. IfSome o (λ r. (m n : Datum) × (slice_get (Members self.old) (rank self.old c) ≡ Some m) × ChangesPair F.FnOnce change m r n × (Members self.new ≡ slice_set (Members self.old) (rank self.old c) n) × (n ≡ m → self.new ≡ self.old))) }
        ensures nothing { IfOk result (λ o. IfNone o ((m : Datum) × (slice_get (Members self.old) (rank self.old c) ≡ Some m) × (pair_parts m ≡ None))) }
        ensures unchanged { IfOk result (λ o. IfNone o (self.new ≡ self.old)) }
        ensures refused { OnErr result (self.new ≡ self.old) }
    {
        let place = standing(self.list.as_slice(), c);
        match change_second(&mut self.list, place.page, place.index, change)? {
            None => Ok(None),
            Some(answer) => {
                let member = item_at(self.list.as_slice(), place.page, place.index);
                member.learn();
                self.deep = self.deep.max(member.depth() + 1);
                Ok(Some(answer))
            }
        }
    }

    /// Puts members in the place of the `count` ones from a place on.
    pub(crate) fn replace_in(
        &mut self,
        c: Cursor,
        count: usize,
        by: Vec<Value>,
    ) -> Result<(), AllocError>
        requires place { HasPlace self.old c }
        requires there { rank self.old c + count ≤ length (Members self.old) }
        requires rising { IsRising (take (rank self.old c) (Members self.old) ++ map datum by.items ++ drop (rank self.old c + count) (Members self.old)) }
        requires shallow { depth (set_of (take (rank self.old c) (Members self.old) ++ map datum by.items ++ drop (rank self.old c + count) (Members self.old))) ≤ 500 }
        ensures replaced { OnOk result (Members self.new ≡ take (rank self.old c) (Members self.old) ++ map datum by.items ++ drop (rank self.old c + count) (Members self.old)) }
        ensures refused { OnErr result (self.new ≡ self.old) }
    {
        learn_members(by.as_slice());
        let list = self.list.as_slice();
        let end = place_behind(list, self.count, c, count);
        let gone = leaving(members_behind(list, c), count);
        let kept = self.others - gone.others;
        let deepest = gone.deep - 1;
        let others = others_in(by.as_slice());
        let most = self.deep.max(depth_of(by.as_slice(), 500));
        let left = self.count - count;
        let total = sum_of(left, by.len())?;
        let alloc = *self.list.allocator();
        replace_pages(
            alloc,
            &mut self.list,
            (c.page, c.index),
            (end.page, end.index),
            by,
        )?;
        self.count = total;
        self.deep = depth_without(self.list.as_slice(), most, deepest);
        self.others = kept + others;
        Ok(())
    }
}

// The sum of two numbers of members. Where it doesn't fit, no set can have so many.
fn sum_of(a: usize, b: usize) -> Result<usize, AllocError>
    ensures { IfOk result (λ n. (n ≡ a + b) × (n < 2 ^ 64)) }
{
    match a.checked_add(b) {
        Some(n) => Ok(n),
        None => Err(AllocError),
    }
}

// The members from a place on.
fn members_behind(list: &[Page<Value>], c: Cursor) -> MemberIter<'_>
    requires pages { AllByRecursion IsPage (map page list.now) }
    requires place { IsIn (map page list.now) c.page c.index }
    ensures { result ≡ drop (rank_in (map page list.now) c.page c.index) (joined (map page list.now)) }
{
    MemberIter {
        rest: items_from(list, c.page, c.index),
        pages: pages_from(list, c.page + 1),
    }
}

// The place that is `count` members behind a place.
#[tactic(auto, using(crate::proofs::PagesOfData::size_data))]
fn place_behind(list: &[Page<Value>], size: usize, c: Cursor, count: usize) -> Cursor
    requires pages { AllByRecursion IsPage (map page list.now) }
    requires size { size ≡ length (joined (map page list.now)) }
    requires place { IsIn (map page list.now) c.page c.index }
    requires there { rank_in (map page list.now) c.page c.index + count ≤ length (joined (map page list.now)) }
    ensures place { IsIn (map page list.now) result.page result.index }
    ensures rank { rank_in (map page list.now) result.page result.index ≡ rank_in (map page list.now) c.page c.index + count }
    ensures behind { (c.page < result.page) ⊎ ((c.page ≡ result.page) × (c.index ≤ result.index)) }
{
    let mut page = c.page;
    let mut index = c.index + count;
    while index > size_at(list, page) {
        index -= size_at(list, page);
        page += 1;
    }
    Cursor { page, index }
}

// The same place, at the next page where it is behind the last member of a page.
#[tactic(auto, using(crate::proofs::PagesOfData::size_data))]
fn standing(list: &[Page<Value>], c: Cursor) -> Cursor
    requires pages { AllByRecursion IsPage (map page list.now) }
    requires place { IsIn (map page list.now) c.page c.index }
    requires there { rank_in (map page list.now) c.page c.index < length (joined (map page list.now)) }
    ensures page { result.page < length list.now }
    ensures index { result.index < length (page_at (map page list.now) result.page) }
    ensures rank { rank_in (map page list.now) result.page result.index ≡ rank_in (map page list.now) c.page c.index }
{
    if c.index < size_at(list, c.page) {
        c
    } else {
        Cursor {
            page: c.page + 1,
            index: 0,
        }
    }
}
