//! Bases of element blocks: lists of different values, each in a block of its own, which other objects name by handles.
//!
//! A base is an append-only list that can be cut back. The value at place n, counted from 1, lies in the block with the
//! number n. A handle names a block by its number and its generation. The generation of a new block is the number of
//! cuts so far, so a number that `back` frees comes again only with a higher generation, and a handle of a block that
//! was cut names no block ever after.
//!
//! Contracts see a base as a `BaseState`: the list of its members, each with its value as plain data and its generation,
//! and the number of cuts.
#![tactic(auto)]

ghost use Rattle.std.specs.Prelude.{◌≡◌, ◌+◌, ◌<◌, ◌≤◌, ◌^◌, length, IfOk, OnOk, OnErr, IfSome, IfNone, Some};
ghost use Rattle.std.specs.Option.{option_map, ForSome};
ghost use Rattle.setl_value.specs.code.DatumOf.{datum};
ghost use Rattle.setl_base.specs.Base.{IsBase, IsLiving, IsNext, IsLast, empty, entered, cut_back, undone, find, elt_at, member_at, value_of, is_above};
ghost use Rattle.setl_base.specs.Least.{IsLeast, is_between};

pub mod laws;

use indexmap::IndexMap;
use setl_value::Value;
use std::alloc::{AllocError, Global};
use std::marker::Model;

/// A handle of an element block: its number, from 1, and its generation.
#[derive(Clone, Copy, Debug, PartialEq, Eq)]
pub struct Elt {
    pub block: u64,
    pub generation: u64,
}

/// How many members a base had.
#[derive(Clone, Copy, Debug, PartialEq, Eq)]
pub struct BaseMark {
    pub count: u64,
}

/// A base of element blocks. Contracts see it as a `BaseState`.
#[derive(Drop)]
pub struct Base {
    // Each member with its generation, in the order of the block numbers.
    table: IndexMap<Value, u64>,
    cuts: u64,
}

impl Model for Base {
    ghost use Rattle.setl_base.specs.Base.{BaseState, coded_base};

    ghost Value = { BaseState };

    ghost coded = { coded_base };

    ghost use Rattle.setl_base.specs.Table.{base_of, IsTable};

    ghost view = { λ b. base_of b.table b.cuts };

    ghost invariant = { λ b. IsTable b.table b.cuts };
}

impl Base {
    /// No members and no cuts. It takes room for one member.
    ///
    /// The error is want of memory.
    pub fn new(alloc: Global) -> Result<Base, AllocError>
        ensures { IfOk result (λ b. b ≡ empty) }
    {
        Ok(Base {
            table: IndexMap::with_capacity(alloc, 1)?,
            cuts: 0,
        })
    }

    /// Puts a value at the end, unless it is a member, and gives its handle.
    ///
    /// The error is want of memory, and then the base is as before.
    pub fn enter(&mut self, v: Value) -> Result<Elt, AllocError>
        ensures entered { OnOk result (self.new ≡ entered self.old (datum v)) }
        ensures handle { IfOk result (λ e. find self.new (datum v) ≡ Some e) }
        ensures living { IfOk result (λ e. value_of self.new e ≡ Some (datum v)) }
        ensures refused { OnErr result (self.new ≡ self.old) }
    {
        if let Some(e) = self.find(&v) {
            return Ok(e);
        }
        v.learn();
        let e = Elt {
            block: self.table.len() as u64 + 1,
            generation: self.cuts,
        };
        self.table.insert(v, e.generation)?;
        Ok(e)
    }

    /// The handle of a value: None exactly where it is no member. It takes no memory.
    pub fn find(&self, v: &Value) -> Option<Elt>
        ensures handle { result ≡ find self.now (datum v.now) }
        ensures living { IfSome result (λ e. value_of self.now e ≡ Some (datum v.now)) }
    {
        let (place, _, generation) = self.table.get_full(v)?;
        Some(Elt {
            block: place as u64 + 1,
            generation: *generation,
        })
    }

    /// The handle of the living block of that number: None exactly where no living block has it. It takes no memory.
    pub fn elt(&self, block: u64) -> Option<Elt>
        ensures handle { result ≡ elt_at self.now block }
        ensures living { IfSome result (IsLiving self.now) }
    {
        let (_, generation) = self.member(block)?;
        Some(Elt { block, generation })
    }

    /// The member that a handle names: None exactly where no living block has that number and generation. It takes no
    /// memory.
    pub fn value(&self, e: Elt) -> Option<&Value>
        ensures { option_map (λ v. datum v.now) result ≡ value_of self.now e }
    {
        let (value, generation) = self.member(e.block)?;
        (generation == e.generation).then_some(value)
    }

    // The member whose block has that number, with its generation.
    fn member(&self, block: u64) -> Option<(&Value, u64)>
        ensures { option_map (λ p. record { value = datum p.0.now; generation = p.1 }) result ≡ member_at self.now block }
    {
        let place = block.checked_sub(1)? as usize;
        let (value, generation) = self.table.get_index(place)?;
        Some((value, *generation))
    }

    /// The present number of members. It takes no memory.
    pub fn mark(&self) -> BaseMark
        ensures { result.count ≡ length self.now.members }
    {
        BaseMark {
            count: self.table.len() as u64,
        }
    }

    /// Cuts the list of members to the mark's count, and raises the generation of the numbers that it frees. It takes no
    /// memory.
    pub fn back(&mut self, m: &BaseMark)
        requires within { m.now.count ≤ length self.old.members }
        requires few_cuts { self.old.cuts < 2 ^ 63 }
        ensures { self.new ≡ cut_back self.old m.now.count }
    {
        self.undo(m);
        self.cuts += 1;
    }

    /// Cuts the list of members to the mark's count. The numbers that it frees come again with the same generation, so it
    /// serves to take back members whose handles nobody keeps. It takes no memory.
    pub fn undo(&mut self, m: &BaseMark)
        requires { m.now.count ≤ length self.old.members }
        ensures { self.new ≡ undone self.old m.now.count }
    {
        self.table.truncate(m.count as usize);
    }

    /// The block of the least member that is greater than that of `after` in the canonical order, or of the least member
    /// of all where `after` is None: None exactly where there is no such member. It takes no memory, and time that grows
    /// with the number of members, since it goes over all of them.
    pub fn rank_next(&self, after: Option<Elt>) -> Option<Elt>
        requires { ForSome after (IsLiving self.now) }
        ensures next { IfSome result (IsNext self.now after) }
        ensures last { IfNone result (IsLast self.now after) }
    {
        let mut least = None;
        for place in 0..self.table.len() {
            least = self.lesser(after, least, place as u64 + 1);
        }
        least
    }

    // The least member above `after` up to that block, where `least` is that of the blocks before it.
    fn lesser(&self, after: Option<Elt>, least: Option<Elt>, block: u64) -> Option<Elt>
        requires { IsLeast self.now after block least }
        ensures { IsLeast self.now after (block + 1) result }
    {
        match self.member(block) {
            Some((v, generation)) if self.is_between(after, v, least) => Some(Elt {
                block,
                generation,
            }),
            _ => least,
        }
    }

    // Whether a value is greater than that of `after` and no greater than that of `least`, where these are not None.
    fn is_between(&self, after: Option<Elt>, v: &Value, least: Option<Elt>) -> bool
        ensures { result ≡ is_between self.now after (datum v.now) least }
    {
        self.is_above(after, v) && !(least.is_some() && self.is_above(least, v))
    }

    // Whether a value is greater than that of `after`, as each is where `after` is None.
    fn is_above(&self, after: Option<Elt>, v: &Value) -> bool
        ensures { result ≡ is_above self.now after (datum v.now) }
    {
        match after {
            None => true,
            Some(e) => self.value(e).is_some_and(|x| x.compare(v).is_lt()),
        }
    }

    /// Has no effect: it hands a proof what is true of every base, that its members are different values and that no
    /// generation is above the number of cuts.
    pub fn learn(&self)
        ensures { IsBase self.now }
    {
        let _len = self.table.len();
    }
}
