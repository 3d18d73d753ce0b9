//! The body of a set: a strictly rising list of members in shared pages, and its depth.
#![tactic(auto, unfolding(crate::specs::code::Places::HasPlace, crate::specs::code::Places::rank))]

ghost use Rattle.std.specs.Prelude.{◌≡◌, ◌<◌, ◌≤◌, ◌+◌, ◌++◌, [], length, slice_get, slice_set, take, drop, map, IfOk, IfNone, IfSome, OnErr, OnOk, Some, None};
ghost use Rattle.std.specs.List.{insert, remove, AllByRecursion};
ghost use Rattle.std.specs.Iterator.{YieldsFirstBy, item_count};
ghost use Rattle.setl_value_pages.specs.Exchange.{PutsOnPage};
ghost use Rattle.setl_value_pages.specs.Pages.{IsPage};
ghost use Rattle.setl_value.specs.code.Body.{Members};
ghost use Rattle.setl_value.specs.code.Changing.{AlwaysChanges, ChangesPair, PairGrows};
ghost use Rattle.setl_value.specs.Datum.{Datum, depth, set_of};
ghost use Rattle.setl_value.specs.code.DatumOf.{datum};
ghost use Rattle.setl_value.specs.Order.{IsRising};
ghost use Rattle.setl_value.specs.Pairs.{is_map, pair_parts};
ghost use Rattle.setl_value.specs.code.Places.{HasPlace, rank};
ghost use Rattle.setl_value.specs.WellFormed.{IsValue, IsSetList};

use crate::places::{Cursor, START};
use crate::{Pages, SetBody, Value};
use std::alloc::{AllocError, Global};
use std::marker::Model;
use std::rc::Rc;

impl SetBody {
    /// The empty set.
    pub fn new(alloc: Global) -> Result<SetBody, AllocError>
        ensures empty { IfOk result (λ s. Members s ≡ []) }
    {
        let pages = Pages::new(alloc);
        Ok(SetBody {
            body: Rc::new(alloc, pages)?,
        })
    }

    /// The set of these members, which stand in strictly rising order.
    pub fn from_rising(alloc: Global, items: Vec<Value>) -> Result<SetBody, AllocError>
        requires rising { IsRising (map datum items.items) }
        requires shallow { depth (set_of (map datum items.items)) ≤ 500 }
        ensures made { IfOk result (λ s. Members s ≡ map datum items.items) }
    {
        let pages = Pages::from_rising(alloc, items)?;
        Ok(SetBody {
            body: Rc::new(alloc, pages)?,
        })
    }

    /// How many members the set has.
    pub fn len(&self) -> usize
        ensures { result ≡ length (Members self.now) }
    {
        self.body.len()
    }

    /// Whether all members are pairs, tuples of length two whose first component isn't `om`. It looks at no member.
    pub fn is_map(&self) -> bool
        ensures { result ≡ is_map (Members self.now) }
    {
        self.body.is_map()
    }

    /// The i-th member in rising order, counted from 0. It counts pages, so a walk goes by `members`.
    pub fn at(&self, i: usize) -> &Value
        requires { i < length (Members self.now) }
        ensures member { slice_get (Members self.now) i ≡ Some (datum result.now) }
        ensures stands { IsValue (datum result.now) }
    {
        self.body.at(i)
    }

    /// The members in rising order.
    pub fn members(&self) -> MemberIter<'_>
        ensures { result ≡ Members self.now }
    {
        self.body.members()
    }

    /// Puts `v` before the i-th member, or after the last where i is the length. The list stays rising and the depth
    /// at most 500. A page of 64 members on which it comes becomes two of 32 and 33. Where memory is refused, the set is
    /// as before.
    pub fn put_at(&mut self, alloc: Global, i: usize, v: Value) -> Result<(), AllocError>
        requires inside { i ≤ length (Members self.old) }
        requires rising { IsRising (insert (Members self.old) i (datum v)) }
        requires shallow { depth (set_of (insert (Members self.old) i (datum v))) ≤ 500 }
        ensures put { OnOk result (Members self.new ≡ insert (Members self.old) i (datum v)) }
        ensures pages { OnOk result (PutsOnPage self.old.pages self.new.pages) }
        ensures refused { OnErr result (self.new ≡ self.old) }
    {
        let place = self.place_of(i);
        self.put_in(alloc, place, v)
    }

    /// Takes the i-th member out. Where memory is refused, the set is as before.
    pub fn cut_at(&mut self, i: usize) -> Result<Value, AllocError>
        requires inside { i < length (Members self.old) }
        ensures cut { IfOk result (λ v. (slice_get (Members self.old) i ≡ Some (datum v)) × (Members self.new ≡ remove (Members self.old) i)) }
        ensures refused { OnErr result (self.new ≡ self.old) }
    {
        let place = self.place_of(i);
        self.cut_in(place)
    }

    /// Puts members in the place of those from the `from`-th up to before the `to`-th. The list stays rising and the
    /// depth at most 500. Where memory is refused, the set is as before. It looks at no other members, unless a deepest
    /// one goes.
    pub fn replace(&mut self, from: usize, to: usize, by: Vec<Value>) -> Result<(), AllocError>
        requires inside { (from ≤ to) × (to ≤ length (Members self.old)) }
        requires rising { IsRising (take from (Members self.old) ++ map datum by.items ++ drop to (Members self.old)) }
        requires shallow { depth (set_of (take from (Members self.old) ++ map datum by.items ++ drop to (Members self.old))) ≤ 500 }
        ensures replaced { OnOk result (Members self.new ≡ take from (Members self.old) ++ map datum by.items ++ drop to (Members self.old)) }
        ensures refused { OnErr result (self.new ≡ self.old) }
    {
        let place = self.place_of(from);
        self.replace_in(place, to - from, by)
    }

    /// Lets `change` change the second part of the member at a place where it stands, to one that is at least as deep and
    /// at most 498 deep, so that the list stays rising, and answers what `change` answers. Where the member is no pair,
    /// the answer is None, and `change` isn't called. Where memory is refused, neither, and the set is as before.
    pub fn change_second<R, F: FnOnce(&mut Value) -> R>(
        &mut self,
        c: Cursor,
        change: F,
    ) -> Result<Option<R>, AllocError>
        requires place { HasPlace self.old c }
        requires there { rank self.old c < length (Members self.old) }
        requires callable { F.IsAlwaysCallable change }
        requires grows { (m : Datum) → slice_get (Members self.old) (rank self.old c) ≡ Some m → PairGrows F.FnOnce change m }
        requires rising { (m : Datum) → slice_get (Members self.old) (rank self.old c) ≡ Some m → AlwaysChanges F.FnOnce change m (λ n. IsRising (slice_set (Members self.old) (rank self.old c) n)) }
        ensures changed { IfOk result (λ o. IfSome o (λ r. (m n : Datum) × (slice_get (Members self.old) (rank self.old c) ≡ Some m) × ChangesPair F.FnOnce change m r n × (Members self.new ≡ slice_set (Members self.old) (rank self.old c) n) × (n ≡ m → self.new ≡ self.old))) }
        ensures nothing { IfOk result (λ o. IfNone o ((m : Datum) × (slice_get (Members self.old) (rank self.old c) ≡ Some m) × (pair_parts m ≡ None))) }
        ensures unchanged { IfOk result (λ o. IfNone o (self.new ≡ self.old)) }
        ensures refused { OnErr result (self.new ≡ self.old) }
    {
        let pages = Rc::make_mut(&mut self.body)?;
        pages.change_second(c, change)
    }

    /// The place before all members.
    pub fn start(&self) -> Cursor
        ensures place { HasPlace self.now result }
        ensures rank { rank self.now result ≡ 0 }
    {
        START
    }

    /// The place after the member at a place.
    pub fn after(&self, c: Cursor) -> Cursor
        requires place { HasPlace self.now c }
        requires there { rank self.now c < length (Members self.now) }
        ensures place { HasPlace self.now result }
        ensures rank { rank self.now result ≡ rank self.now c + 1 }
    {
        self.body.place_after(c, 1)
    }

    // The place before the i-th member, or after the last.
    fn place_of(&self, i: usize) -> Cursor
        requires { i ≤ length (Members self.now) }
        ensures place { HasPlace self.now result }
        ensures rank { rank self.now result ≡ i }
    {
        self.body.place_after(START, i)
    }

    /// One more than the greatest depth of a member, and 1 for the empty set.
    pub fn depth(&self) -> u32
        ensures { result ≡ depth (set_of (Members self.now)) }
    {
        self.body.depth()
    }

    /// The same set, which shares its members.
    pub fn copy(&self) -> Result<SetBody, AllocError>
        ensures same { IfOk result (λ s. s ≡ self.now) }
    {
        Ok(SetBody {
            body: self.body.clone()?,
        })
    }

    /// Has no effect: it hands a proof what is true of every set, that its members are values which stand in strictly
    /// rising order, and that it is at most 500 deep.
    pub fn learn(&self)
        ensures { IsSetList (Members self.now) }
    {
        self.body.learn();
    }

    /// Has no effect: it hands a proof that each page of a set has 1 to 64 members.
    pub fn learn_pages(&self)
        ensures { AllByRecursion IsPage self.now.pages }
    {
        self.body.learn_pages();
    }
}

/// The members of a set that are left to visit, in rising order. Contracts see it as that list.
#[derive(Drop)]
pub struct MemberIter<'a> {
    // What is left of a page, and the pages behind it.
    pub(crate) rest: &'a [Value],
    pub(crate) pages: &'a [Rc<Vec<Value>>],
}

impl<'a> Model for MemberIter<'a> {
    ghost use Rattle.std.specs.Prelude.{List, map, ◌++◌};
    ghost use Rattle.std.specs.Coded.{coded_list};
    ghost use Rattle.std.specs.List.{AllByRecursion};
    ghost use Rattle.setl_value_pages.specs.Pages.{IsPage, joined};
    ghost use Rattle.setl_value.specs.Datum.{Datum};
    ghost use Rattle.setl_value.specs.code.DatumCode.{coded_datum};

    ghost Value = { List Datum };

    ghost coded = { coded_list coded_datum };

    ghost use Rattle.setl_value.specs.code.DatumOf.{datum, page};

    ghost view = { λ s. map datum s.rest.now ++ joined (map page s.pages.now) };

    ghost invariant = { λ s. AllByRecursion IsPage (map page s.pages.now) };
}

impl<'a> Iterator for MemberIter<'a> {
    type Item = &'a Value;

    ghost next_gives = { YieldsFirstBy (λ v. datum v.now) (λ s. s) };

    ghost remaining = { item_count (λ s. s) };

    fn next(&mut self) -> Option<&'a Value> {
        if self.rest.is_empty() {
            let (page, pages) = self.pages.split_first()?;
            self.rest = page.as_slice();
            self.pages = pages;
        }
        let (first, others) = self.rest.split_first()?;
        self.rest = others;
        Some(first)
    }
}
