//! Slots, operands, activations, members of collections and fields of element blocks, with a trail: to keep them puts a
//! mark on it, and each later change of what was kept notes what it replaced.

ghost use Rattle.std.specs.Prelude.{◌≡◌, ◌+◌, ◌-◌, false, ◌<◌, ◌≤◌, [], ◌∷◌, ◌++◌, nat_lt, length, take, drop, reverse, Some, IfOk, IfErr, IsOk, OnOk, OnErr, IfSome, IfNone, ℕ, ◌&&◌, get_or, slice_get, slice_set};
ghost use Rattle.setl_trail.specs.Trail.{mark_count};
ghost use Rattle.std.specs.Prelude.{IsTrue, option_copied};
ghost use Rattle.std.specs.FinSet as set;
ghost use Rattle.std.specs.FinMap as map;
ghost use Rattle.setl_store_environment.specs.Places.{with, no_fields, HasRoom};
ghost use Rattle.setl_store_environment.specs.Kept.{base_of, noted};
ghost use Rattle.setl_store_environment.specs.Undo.{undone, FitsIn, parts, contents_of, ready_of, lower, needed, slots_restamped, operands_restamped};

use crate::Copied;
use crate::fields::{Field, put_field};
use crate::stack::{Place, Stack};
use setl_local::Fields;
use setl_trail::{Needed, Trail};
use std::alloc::{AllocError, Global};
use std::marker::Model;

/// What a change replaced: one place of one of the four lists, or one field, with its old content. A slot and an operand
/// come with the stamp that their place had.
#[derive(Drop)]
pub enum Old<S, O, A, M, F> {
    Slot(Place<S>, u64),
    Operand(Place<O>, u64),
    Activation(Place<A>),
    Member(Place<M>),
    Field(Field<F>),
}

/// How many of the lowest values of each list a kept copy still has in common with what is there, but for those that are
/// noted; and the copy's number.
#[derive(Clone, Copy)]
pub(crate) struct Base {
    pub(crate) slots: usize,
    pub(crate) operands: usize,
    pub(crate) activations: usize,
    pub(crate) members: usize,
    pub(crate) since: u64,
}

/// The base of the copy that is forgotten, and that of the one before it.
#[derive(Clone, Copy)]
pub(crate) struct Bases {
    pub(crate) latest: Base,
    pub(crate) older: Base,
}

impl<S, O, A, M, F> Needed<Bases> for Old<S, O, A, M, F> {
    ghost needed = { needed };

    fn is_needed(&self, bases: &Bases) -> bool {
        let Bases { latest, older } = bases;
        match self {
            Old::Slot(place, stamp) => {
                place.at < older.slots && (latest.slots <= place.at || *stamp < older.since)
            }
            Old::Operand(place, stamp) => {
                place.at < older.operands && (latest.operands <= place.at || *stamp < older.since)
            }
            Old::Activation(place) => place.at < older.activations,
            Old::Member(place) => place.at < older.members,
            Old::Field(_) => true,
        }
    }
}

/// The slots, the operands, the activations, the members of collections that are being built and the fields of element
/// blocks, and what was kept of them.
///
/// `reserve` makes changes ready, and `reserve_slots` and the like make sure of memory for what they add; the changes
/// then can't fail, so a caller that reserves first and then makes several changes leaves all as before where memory
/// is refused. Where nothing is kept, a change notes nothing, and every number of changes is ready.
#[derive(Drop)]
pub struct Environment<S, O, A, M, F, K> {
    slots: Stack<S>,
    operands: Stack<O>,
    activations: Stack<A>,
    members: Stack<M>,
    fields: Fields<F>,
    trail: Trail<Old<S, O, A, M, F>>,
    // How many of the lowest values of each list are as they were last kept, or have what they were in the trail. Those
    // above came later, so nothing of them is noted; where nothing is kept all numbers are 0.
    base: Base,
    // The same of each mark of the trail below the latest one, and below these 0.
    bases: Vec<Base>,
    // By the place of a slot, and of an operand: the number of the copy under which it was last noted, and past the end
    // and where it was never noted 0. Where that is not below `base.since`, the latest copy has a note of it.
    slot_stamps: Vec<u64>,
    operand_stamps: Vec<u64>,
    // The number of the next copy, from 1 on.
    clock: u64,
    // What was kept beside them, one record for each mark of the trail.
    records: Vec<K>,
}

impl<S, O, A, M, F, K> Model for Environment<S, O, A, M, F, K> {
    ghost use Rattle.setl_store_environment.specs.Environment.{EnvironmentState, environment_code};

    ghost Value = { EnvironmentState S O A M F K };

    ghost coded = { environment_code S.code O.code A.code M.code F.code K.code };

    ghost use Rattle.std.specs.Prelude.{◌≡◌, reverse, length};
    ghost use Rattle.setl_trail.specs.Trail.{mark_count};
    ghost use Rattle.setl_store_environment.specs.Undo.{parts, contents_of, room_of, ready_of, kept_contents, IsTrailOf, AreStamped};

    ghost view = { λ e. record {
      now = contents_of (parts e.slots e.operands e.activations e.members e.fields);
      kept = kept_contents (parts e.slots e.operands e.activations e.members e.fields) e.base (reverse e.bases.items) e.trail.items (reverse e.records.items);
      ready = ready_of (mark_count e.trail.items) e.trail.spare;
      room = room_of (parts e.slots e.operands e.activations e.members e.fields);
    } };

    ghost invariant = { λ e.
        IsTrailOf (parts e.slots e.operands e.activations e.members e.fields) e.base (reverse e.bases.items) e.trail.items
        × (mark_count e.trail.items ≡ length e.records.items)
        × AreStamped e.clock e.base (reverse e.bases.items) e.trail.items e.slot_stamps.items e.operand_stamps.items };
}

impl<S: Drop, O: Drop, A: Drop, M: Drop, F: Drop, K: Drop> Environment<S, O, A, M, F, K> {
    /// Nothing is there, and nothing is kept.
    ///
    /// The error is want of memory.
    pub fn new(alloc: Global) -> Result<Environment<S, O, A, M, F, K>, AllocError>
        ensures now { IfOk result (λ e. e.now ≡ record { slots = []; operands = []; activations = []; members = []; fields = no_fields }) }
        ensures kept { IfOk result (λ e. e.kept ≡ []) }
    {
        Ok(Environment {
            slots: Stack::new(alloc)?,
            operands: Stack::new(alloc)?,
            activations: Stack::new(alloc)?,
            members: Stack::new(alloc)?,
            fields: Fields::new(alloc)?,
            trail: Trail::new(alloc)?,
            base: NOWHERE,
            bases: Vec::with_capacity(alloc, 1)?,
            slot_stamps: Vec::with_capacity(alloc, 1)?,
            operand_stamps: Vec::with_capacity(alloc, 1)?,
            clock: 1,
            records: Vec::with_capacity(alloc, 1)?,
        })
    }

    /// Makes `n` changes ready.
    ///
    /// The error is want of memory, and then all is as before. Where nothing is kept, it takes none.
    #[inline(always)]
    pub fn reserve(&mut self, n: usize) -> Result<(), AllocError>
        ensures now { self.new.now ≡ self.old.now }
        ensures kept { self.new.kept ≡ self.old.kept }
        ensures ready { OnOk result (n ≤ self.new.ready) }
        ensures more { self.old.ready ≤ self.new.ready }
        ensures room { self.new.room ≡ self.old.room }
        ensures unkept { length self.old.kept ≡ 0 → IsOk result }
        ensures refused { OnErr result (self.new ≡ self.old) }
    {
        reserve_entries(&mut self.trail, n)
    }

    /// The number of slots. It takes no memory.
    #[inline(always)]
    pub fn slots(&self) -> usize
        ensures { result ≡ length self.now.now.slots }
    {
        self.slots.len()
    }

    /// A slot, counted from the lowest. It takes no memory.
    #[inline(always)]
    pub fn slot(&self, at: usize) -> &S
        requires { at < length self.now.now.slots }
        ensures { Some result.now ≡ slice_get self.now.now.slots at }
    {
        self.slots.at(at)
    }

    /// Makes sure of memory for `n` more slots.
    ///
    /// The error is want of memory, and then all is as before. Where that memory is there, no more is taken.
    #[inline(always)]
    pub fn reserve_slots(&mut self, n: usize) -> Result<(), AllocError>
        ensures now { self.new.now ≡ self.old.now }
        ensures kept { self.new.kept ≡ self.old.kept }
        ensures ready { self.new.ready ≡ self.old.ready }
        ensures place { OnOk result (n ≤ self.new.room.slots) }
        ensures more { self.old.room.slots ≤ self.new.room.slots }
        ensures room { self.new.room ≡ record self.old.room { slots = self.new.room.slots } }
        ensures there { n ≤ self.old.room.slots → IsOk result }
        ensures refused { OnErr result (self.new ≡ self.old) }
    {
        self.slots.reserve(n)
    }

    /// Puts a value in the place of a slot. It takes no memory.
    #[inline(always)]
    pub fn set_slot(&mut self, at: usize, value: S)
        requires there { at < length self.old.now.slots }
        requires one { 1 ≤ self.old.ready }
        ensures now { self.new.now ≡ record self.old.now { slots = slice_set self.old.now.slots at value } }
        ensures kept { self.new.kept ≡ self.old.kept }
        ensures ready { self.old.ready ≤ self.new.ready + 1 }
        ensures room { self.new.room ≡ self.old.room }
    {
        if is_unnoted(&self.slot_stamps, at, self.base.slots, self.base.since) {
            let stamp = stamp(&self.slot_stamps, at);
            let before = self.slots.set(at, value);
            restamp(&mut self.slot_stamps, at, self.base.since);
            note(&mut self.trail, Old::Slot(before, stamp));
        } else {
            self.slots.put(at, value);
        }
    }

    /// Puts a value in the place of a slot, and gives what was there: a copy where it is noted, else moved out.
    ///
    /// The error is want of memory, and then all is as before. Where nothing is kept, it takes none.
    pub fn replace_slot(&mut self, at: usize, value: S) -> Result<S, AllocError>
    where
        S: Copied,
        requires there { at < length self.old.now.slots }
        requires one { 1 ≤ self.old.ready }
        ensures value { IfOk result (λ before. Some before ≡ slice_get self.old.now.slots at) }
        ensures now { OnOk result (self.new.now ≡ record self.old.now { slots = slice_set self.old.now.slots at value }) }
        ensures kept { self.new.kept ≡ self.old.kept }
        ensures ready { self.old.ready ≤ self.new.ready + 1 }
        ensures room { self.new.room ≡ self.old.room }
        ensures unkept { length self.old.kept ≡ 0 → IsOk result }
        ensures refused { OnErr result (self.new ≡ self.old) }
    {
        if is_unnoted(&self.slot_stamps, at, self.base.slots, self.base.since) {
            let before = self.slot(at).copied()?;
            self.set_slot(at, value);
            Ok(before)
        } else {
            Ok(self.slots.replace(at, value))
        }
    }

    /// Puts a value in the place of a slot, and gives what was there, where the change isn't noted; else the error is the
    /// value, and then all is as before. It takes no memory.
    #[inline(always)]
    pub fn replace_unnoted_slot(&mut self, at: usize, value: S) -> Result<S, S>
        requires { at < length self.old.now.slots }
        ensures value { IfOk result (λ before. Some before ≡ slice_get self.old.now.slots at) }
        ensures now { OnOk result (self.new.now ≡ record self.old.now { slots = slice_set self.old.now.slots at value }) }
        ensures kept { self.new.kept ≡ self.old.kept }
        ensures ready { self.new.ready ≡ self.old.ready }
        ensures room { self.new.room ≡ self.old.room }
        ensures back { IfErr result (λ back. back ≡ value) }
        ensures refused { OnErr result (self.new ≡ self.old) }
    {
        if is_unnoted(&self.slot_stamps, at, self.base.slots, self.base.since) {
            Err(value)
        } else {
            Ok(self.slots.replace(at, value))
        }
    }

    /// Adds a slot at the end. It takes no memory.
    pub fn push_slot(&mut self, value: S)
        requires one { 1 ≤ self.old.ready }
        requires place { 1 ≤ self.old.room.slots }
        ensures now { self.new.now ≡ record self.old.now { slots = self.old.now.slots ++ value ∷ [] } }
        ensures kept { self.new.kept ≡ self.old.kept }
        ensures ready { self.old.ready ≤ self.new.ready + 1 }
        ensures room { self.new.room ≡ record self.old.room { slots = self.old.room.slots - 1 } }
    {
        self.slots.add(value);
    }

    /// Adds slots at the end, in their order. It takes no memory.
    pub fn push_slots(&mut self, values: Vec<S>)
        requires each { length values.items ≤ self.old.ready }
        requires places { length values.items ≤ self.old.room.slots }
        ensures now { self.new.now ≡ record self.old.now { slots = self.old.now.slots ++ values.items } }
        ensures kept { self.new.kept ≡ self.old.kept }
        ensures ready { self.old.ready ≤ self.new.ready + length values.items }
        ensures room { self.new.room ≡ record self.old.room { slots = self.old.room.slots - length values.items } }
    {
        for value in values {
            self.push_slot(value);
        }
    }

    /// Drops the slots above the lowest `n`, the last one first. It takes no memory.
    pub fn cut_slots(&mut self, n: usize)
        requires fewer { n ≤ length self.old.now.slots }
        requires each { length self.old.now.slots - n ≤ self.old.ready }
        ensures now { self.new.now ≡ record self.old.now { slots = take n self.old.now.slots } }
        ensures kept { self.new.kept ≡ self.old.kept }
        ensures ready { self.old.ready ≤ self.new.ready + (length self.old.now.slots - n) }
        ensures room { self.new.room ≡ record self.old.room { slots = self.old.room.slots + (length self.old.now.slots - n) } }
    {
        for _i in 0..self.slots() - n {
            self.drop_slot();
        }
    }

    // Drops the last slot. It takes no memory.
    fn drop_slot(&mut self)
        requires some { 0 < length self.old.now.slots }
        requires one { 1 ≤ self.old.ready }
        ensures now { self.new.now ≡ record self.old.now { slots = take (length self.old.now.slots - 1) self.old.now.slots } }
        ensures kept { self.new.kept ≡ self.old.kept }
        ensures ready { self.old.ready ≤ self.new.ready + 1 }
        ensures room { self.new.room ≡ record self.old.room { slots = self.old.room.slots + 1 } }
    {
        let last = self.slots.len() - 1;
        if last < self.base.slots {
            let stamp = stamp(&self.slot_stamps, last);
            let before = self.slots.pop();
            self.base.slots = last;
            note(&mut self.trail, Old::Slot(before, stamp));
        } else {
            self.slots.drop_last();
        }
    }

    /// The number of operands. It takes no memory.
    #[inline(always)]
    pub fn operands(&self) -> usize
        ensures { result ≡ length self.now.now.operands }
    {
        self.operands.len()
    }

    /// An operand, counted from the lowest. It takes no memory.
    #[inline(always)]
    pub fn operand(&self, at: usize) -> &O
        requires { at < length self.now.now.operands }
        ensures { Some result.now ≡ slice_get self.now.now.operands at }
    {
        self.operands.at(at)
    }

    /// Makes sure of memory for `n` more operands.
    ///
    /// The error is want of memory, and then all is as before. Where that memory is there, no more is taken.
    #[inline(always)]
    pub fn reserve_operands(&mut self, n: usize) -> Result<(), AllocError>
        ensures now { self.new.now ≡ self.old.now }
        ensures kept { self.new.kept ≡ self.old.kept }
        ensures ready { self.new.ready ≡ self.old.ready }
        ensures place { OnOk result (n ≤ self.new.room.operands) }
        ensures more { self.old.room.operands ≤ self.new.room.operands }
        ensures room { self.new.room ≡ record self.old.room { operands = self.new.room.operands } }
        ensures there { n ≤ self.old.room.operands → IsOk result }
        ensures refused { OnErr result (self.new ≡ self.old) }
    {
        self.operands.reserve(n)
    }

    /// Puts a value in the place of an operand. It takes no memory.
    #[inline(always)]
    pub fn set_operand(&mut self, at: usize, value: O)
        requires there { at < length self.old.now.operands }
        requires one { 1 ≤ self.old.ready }
        ensures now { self.new.now ≡ record self.old.now { operands = slice_set self.old.now.operands at value } }
        ensures kept { self.new.kept ≡ self.old.kept }
        ensures ready { self.old.ready ≤ self.new.ready + 1 }
        ensures room { self.new.room ≡ self.old.room }
    {
        if is_unnoted(
            &self.operand_stamps,
            at,
            self.base.operands,
            self.base.since,
        ) {
            let stamp = stamp(&self.operand_stamps, at);
            let before = self.operands.set(at, value);
            restamp(&mut self.operand_stamps, at, self.base.since);
            note(&mut self.trail, Old::Operand(before, stamp));
        } else {
            self.operands.put(at, value);
        }
    }

    /// Puts a value in the place of an operand, and gives what was there: a copy where it is noted, else moved out.
    ///
    /// The error is want of memory, and then all is as before. Where nothing is kept, it takes none.
    #[inline(always)]
    pub fn replace_operand(&mut self, at: usize, value: O) -> Result<O, AllocError>
    where
        O: Copied,
        requires there { at < length self.old.now.operands }
        requires one { 1 ≤ self.old.ready }
        ensures value { IfOk result (λ before. Some before ≡ slice_get self.old.now.operands at) }
        ensures now { OnOk result (self.new.now ≡ record self.old.now { operands = slice_set self.old.now.operands at value }) }
        ensures kept { self.new.kept ≡ self.old.kept }
        ensures ready { self.old.ready ≤ self.new.ready + 1 }
        ensures room { self.new.room ≡ self.old.room }
        ensures unkept { length self.old.kept ≡ 0 → IsOk result }
        ensures refused { OnErr result (self.new ≡ self.old) }
    {
        if is_unnoted(
            &self.operand_stamps,
            at,
            self.base.operands,
            self.base.since,
        ) {
            let before = self.operand(at).copied()?;
            self.set_operand(at, value);
            Ok(before)
        } else {
            Ok(self.operands.replace(at, value))
        }
    }

    /// Puts a value in the place of an operand, and gives what was there, where the change isn't noted; else the error is
    /// the value, and then all is as before. It takes no memory.
    #[inline(always)]
    pub fn replace_unnoted_operand(&mut self, at: usize, value: O) -> Result<O, O>
        requires { at < length self.old.now.operands }
        ensures value { IfOk result (λ before. Some before ≡ slice_get self.old.now.operands at) }
        ensures now { OnOk result (self.new.now ≡ record self.old.now { operands = slice_set self.old.now.operands at value }) }
        ensures kept { self.new.kept ≡ self.old.kept }
        ensures ready { self.new.ready ≡ self.old.ready }
        ensures room { self.new.room ≡ self.old.room }
        ensures back { IfErr result (λ back. back ≡ value) }
        ensures refused { OnErr result (self.new ≡ self.old) }
    {
        if is_unnoted(
            &self.operand_stamps,
            at,
            self.base.operands,
            self.base.since,
        ) {
            Err(value)
        } else {
            Ok(self.operands.replace(at, value))
        }
    }

    /// Adds an operand at the end. It takes no memory.
    #[inline(always)]
    pub fn push_operand(&mut self, value: O)
        requires one { 1 ≤ self.old.ready }
        requires place { 1 ≤ self.old.room.operands }
        ensures now { self.new.now ≡ record self.old.now { operands = self.old.now.operands ++ value ∷ [] } }
        ensures kept { self.new.kept ≡ self.old.kept }
        ensures ready { self.old.ready ≤ self.new.ready + 1 }
        ensures room { self.new.room ≡ record self.old.room { operands = self.old.room.operands - 1 } }
    {
        self.operands.add(value);
    }

    /// Takes off the last operand, and gives it: a copy where it is kept, else moved out.
    ///
    /// The error is want of memory, and then all is as before. Where nothing is kept, it takes none.
    #[inline(always)]
    pub fn pop_operand(&mut self) -> Result<O, AllocError>
    where
        O: Copied,
        requires some { 0 < length self.old.now.operands }
        requires one { 1 ≤ self.old.ready }
        ensures value { IfOk result (λ value. Some value ≡ slice_get self.old.now.operands (length self.old.now.operands - 1)) }
        ensures now { OnOk result (self.new.now ≡ record self.old.now { operands = take (length self.old.now.operands - 1) self.old.now.operands }) }
        ensures kept { self.new.kept ≡ self.old.kept }
        ensures ready { self.old.ready ≤ self.new.ready + 1 }
        ensures room { OnOk result (self.new.room ≡ record self.old.room { operands = self.old.room.operands + 1 }) }
        ensures unkept { length self.old.kept ≡ 0 → IsOk result }
        ensures refused { OnErr result (self.new ≡ self.old) }
    {
        let last = self.operands() - 1;
        if last < self.base.operands {
            let value = self.operand(last).copied()?;
            self.drop_operand();
            Ok(value)
        } else {
            Ok(self.operands.take_last())
        }
    }

    /// Takes off the last operand, and gives it, where the change isn't noted; else None, and then all is as before. It
    /// takes no memory.
    #[inline(always)]
    pub fn pop_unnoted_operand(&mut self) -> Option<O>
        requires { 0 < length self.old.now.operands }
        ensures value { IfSome result (λ value. Some value ≡ slice_get self.old.now.operands (length self.old.now.operands - 1)) }
        ensures now { IfSome result (λ value. self.new.now ≡ record self.old.now { operands = take (length self.old.now.operands - 1) self.old.now.operands }) }
        ensures kept { self.new.kept ≡ self.old.kept }
        ensures ready { self.new.ready ≡ self.old.ready }
        ensures room { IfSome result (λ value. self.new.room ≡ record self.old.room { operands = self.old.room.operands + 1 }) }
        ensures none { IfNone result (self.new ≡ self.old) }
    {
        let last = self.operands() - 1;
        if last < self.base.operands {
            None
        } else {
            Some(self.operands.take_last())
        }
    }

    /// Drops the last operand. It takes no memory.
    #[inline(always)]
    pub fn drop_operand(&mut self)
        requires some { 0 < length self.old.now.operands }
        requires one { 1 ≤ self.old.ready }
        ensures now { self.new.now ≡ record self.old.now { operands = take (length self.old.now.operands - 1) self.old.now.operands } }
        ensures kept { self.new.kept ≡ self.old.kept }
        ensures ready { self.old.ready ≤ self.new.ready + 1 }
        ensures room { self.new.room ≡ record self.old.room { operands = self.old.room.operands + 1 } }
    {
        let last = self.operands.len() - 1;
        if last < self.base.operands {
            let stamp = stamp(&self.operand_stamps, last);
            let before = self.operands.pop();
            self.base.operands = last;
            note(&mut self.trail, Old::Operand(before, stamp));
        } else {
            self.operands.drop_last();
        }
    }

    /// Takes off the operands above the lowest `n`, and gives them, the lowest first: copies where one of them is kept, else
    /// moved out.
    ///
    /// The error is want of memory, and then all is as before.
    pub fn pop_operands(&mut self, n: usize) -> Result<Vec<O>, AllocError>
    where
        O: Copied,
        requires fewer { n ≤ length self.old.now.operands }
        requires each { length self.old.now.operands - n ≤ self.old.ready }
        ensures values { IfOk result (λ values. values.items ≡ drop n self.old.now.operands) }
        ensures now { OnOk result (self.new.now ≡ record self.old.now { operands = take n self.old.now.operands }) }
        ensures kept { self.new.kept ≡ self.old.kept }
        ensures ready { self.old.ready ≤ self.new.ready + (length self.old.now.operands - n) }
        ensures room { OnOk result (self.new.room ≡ record self.old.room { operands = self.old.room.operands + (length self.old.now.operands - n) }) }
        ensures refused { OnErr result (self.new ≡ self.old) }
    {
        if n < self.base.operands {
            let values = self.copied_operands(n)?;
            self.cut_operands(n);
            Ok(values)
        } else {
            self.operands.split_off(n)
        }
    }

    // Copies of the operands above the lowest `n`.
    fn copied_operands(&self, n: usize) -> Result<Vec<O>, AllocError>
    where
        O: Copied,
        requires { n ≤ length self.now.now.operands }
        ensures { IfOk result (λ values. values.items ≡ drop n self.now.now.operands) }
    {
        self.operands.copied_from(n)
    }

    /// Drops the operands above the lowest `n`, the last one first. It takes no memory.
    pub fn cut_operands(&mut self, n: usize)
        requires fewer { n ≤ length self.old.now.operands }
        requires each { length self.old.now.operands - n ≤ self.old.ready }
        ensures now { self.new.now ≡ record self.old.now { operands = take n self.old.now.operands } }
        ensures kept { self.new.kept ≡ self.old.kept }
        ensures ready { self.old.ready ≤ self.new.ready + (length self.old.now.operands - n) }
        ensures room { self.new.room ≡ record self.old.room { operands = self.old.room.operands + (length self.old.now.operands - n) } }
    {
        for _i in 0..self.operands() - n {
            self.drop_operand();
        }
    }

    /// The number of activations. It takes no memory.
    #[inline(always)]
    pub fn activations(&self) -> usize
        ensures { result ≡ length self.now.now.activations }
    {
        self.activations.len()
    }

    /// An activation, counted from the lowest. It takes no memory.
    #[inline(always)]
    pub fn activation(&self, at: usize) -> &A
        requires { at < length self.now.now.activations }
        ensures { Some result.now ≡ slice_get self.now.now.activations at }
    {
        self.activations.at(at)
    }

    /// Makes sure of memory for `n` more activations.
    ///
    /// The error is want of memory, and then all is as before. Where that memory is there, no more is taken.
    pub fn reserve_activations(&mut self, n: usize) -> Result<(), AllocError>
        ensures now { self.new.now ≡ self.old.now }
        ensures kept { self.new.kept ≡ self.old.kept }
        ensures ready { self.new.ready ≡ self.old.ready }
        ensures place { OnOk result (n ≤ self.new.room.activations) }
        ensures more { self.old.room.activations ≤ self.new.room.activations }
        ensures room { self.new.room ≡ record self.old.room { activations = self.new.room.activations } }
        ensures there { n ≤ self.old.room.activations → IsOk result }
        ensures refused { OnErr result (self.new ≡ self.old) }
    {
        self.activations.reserve(n)
    }

    /// Adds an activation at the end. It takes no memory.
    pub fn push_activation(&mut self, value: A)
        requires one { 1 ≤ self.old.ready }
        requires place { 1 ≤ self.old.room.activations }
        ensures now { self.new.now ≡ record self.old.now { activations = self.old.now.activations ++ value ∷ [] } }
        ensures kept { self.new.kept ≡ self.old.kept }
        ensures ready { self.old.ready ≤ self.new.ready + 1 }
        ensures room { self.new.room ≡ record self.old.room { activations = self.old.room.activations - 1 } }
    {
        self.activations.add(value);
    }

    /// Drops the last activation. It takes no memory.
    pub fn drop_activation(&mut self)
        requires some { 0 < length self.old.now.activations }
        requires one { 1 ≤ self.old.ready }
        ensures now { self.new.now ≡ record self.old.now { activations = take (length self.old.now.activations - 1) self.old.now.activations } }
        ensures kept { self.new.kept ≡ self.old.kept }
        ensures ready { self.old.ready ≤ self.new.ready + 1 }
        ensures room { self.new.room ≡ record self.old.room { activations = self.old.room.activations + 1 } }
    {
        let last = self.activations.len() - 1;
        if last < self.base.activations {
            let before = self.activations.pop();
            self.base.activations = last;
            note(&mut self.trail, Old::Activation(before));
        } else {
            self.activations.drop_last();
        }
    }

    /// The number of members. It takes no memory.
    #[inline(always)]
    pub fn members(&self) -> usize
        ensures { result ≡ length self.now.now.members }
    {
        self.members.len()
    }

    /// Makes sure of memory for `n` more members.
    ///
    /// The error is want of memory, and then all is as before. Where that memory is there, no more is taken.
    pub fn reserve_members(&mut self, n: usize) -> Result<(), AllocError>
        ensures now { self.new.now ≡ self.old.now }
        ensures kept { self.new.kept ≡ self.old.kept }
        ensures ready { self.new.ready ≡ self.old.ready }
        ensures place { OnOk result (n ≤ self.new.room.members) }
        ensures more { self.old.room.members ≤ self.new.room.members }
        ensures room { self.new.room ≡ record self.old.room { members = self.new.room.members } }
        ensures there { n ≤ self.old.room.members → IsOk result }
        ensures refused { OnErr result (self.new ≡ self.old) }
    {
        self.members.reserve(n)
    }

    /// Adds a member at the end. It takes no memory.
    pub fn push_member(&mut self, value: M)
        requires one { 1 ≤ self.old.ready }
        requires place { 1 ≤ self.old.room.members }
        ensures now { self.new.now ≡ record self.old.now { members = self.old.now.members ++ value ∷ [] } }
        ensures kept { self.new.kept ≡ self.old.kept }
        ensures ready { self.old.ready ≤ self.new.ready + 1 }
        ensures room { self.new.room ≡ record self.old.room { members = self.old.room.members - 1 } }
    {
        self.members.add(value);
    }

    /// Copies of `count` members from the place `lowest` on, in their order.
    ///
    /// The error is want of memory.
    pub fn copied_members(&self, lowest: usize, count: usize) -> Result<Vec<M>, AllocError>
    where
        M: Copied,
        requires { lowest + count ≤ length self.now.now.members }
        ensures { IfOk result (λ values. values.items ≡ take count (drop lowest self.now.now.members)) }
    {
        self.members.copied_between(lowest, count)
    }

    /// Drops the members above the lowest `n`, the last one first. It takes no memory.
    #[inline(always)]
    pub fn cut_members(&mut self, n: usize)
        requires fewer { n ≤ length self.old.now.members }
        requires each { length self.old.now.members - n ≤ self.old.ready }
        ensures now { self.new.now ≡ record self.old.now { members = take n self.old.now.members } }
        ensures kept { self.new.kept ≡ self.old.kept }
        ensures ready { self.old.ready ≤ self.new.ready + (length self.old.now.members - n) }
        ensures room { self.new.room ≡ record self.old.room { members = self.old.room.members + (length self.old.now.members - n) } }
    {
        for _i in 0..self.members() - n {
            self.drop_member();
        }
    }

    // Drops the last member. It takes no memory.
    fn drop_member(&mut self)
        requires some { 0 < length self.old.now.members }
        requires one { 1 ≤ self.old.ready }
        ensures now { self.new.now ≡ record self.old.now { members = take (length self.old.now.members - 1) self.old.now.members } }
        ensures kept { self.new.kept ≡ self.old.kept }
        ensures ready { self.old.ready ≤ self.new.ready + 1 }
        ensures room { self.new.room ≡ record self.old.room { members = self.old.room.members + 1 } }
    {
        let last = self.members.len() - 1;
        if last < self.base.members {
            let before = self.members.pop();
            self.base.members = last;
            note(&mut self.trail, Old::Member(before));
        } else {
            self.members.drop_last();
        }
    }

    /// Whether the bit of an object's field in a block is on. It takes no memory.
    pub fn bit(&self, object: u32, block: u64) -> bool
        ensures { result ≡ set.contains self.now.now.fields.bits (object, block) }
    {
        self.fields.test(object, block)
    }

    /// The content of an object's field in a block. It takes no memory.
    pub fn content(&self, object: u32, block: u64) -> Option<&F>
        ensures { option_copied result ≡ map.get self.now.now.fields.contents (object, block) }
    {
        self.fields.get(object, block)
    }

    /// Makes sure of memory for an object's field in a block.
    ///
    /// The error is want of memory, and then all is as before.
    pub fn reserve_field(&mut self, object: u32, block: u64) -> Result<(), AllocError>
        ensures now { self.new.now ≡ self.old.now }
        ensures kept { self.new.kept ≡ self.old.kept }
        ensures ready { self.new.ready ≡ self.old.ready }
        ensures place { OnOk result (IsTrue (set.contains self.new.room.fields (object, block))) }
        ensures room { OnOk result (self.new.room ≡ record self.old.room { fields = set.insert self.old.room.fields (object, block) }) }
        ensures refused { OnErr result (self.new ≡ self.old) }
    {
        self.fields.room(object, block)
    }

    /// Puts a bit and a content, or none, into an object's field in a block. It takes no memory.
    pub fn set_field(&mut self, field: Field<F>)
        requires place { HasRoom self.old.room.fields field }
        requires one { 1 ≤ self.old.ready }
        ensures now { self.new.now ≡ record self.old.now { fields = with self.old.now.fields field } }
        ensures kept { self.new.kept ≡ self.old.kept }
        ensures ready { self.old.ready ≤ self.new.ready + 1 }
        ensures room { self.new.room ≡ self.old.room }
    {
        let before = put_field(&mut self.fields, field);
        note(&mut self.trail, Old::Field(before));
    }

    /// Whether something is kept. It takes no memory.
    #[inline(always)]
    pub fn is_kept(&self) -> bool
        ensures { result ≡ nat_lt 0 (length self.now.kept) }
    {
        self.trail.marks() > 0
    }

    /// Keeps what is there, with `beside` beside it, and makes `n` changes ready. No value is copied. Other changes that
    /// were ready need not be so any more.
    ///
    /// The error is want of memory, and then all is as before, but for more changes that may be ready.
    pub fn keep(&mut self, beside: K, n: usize) -> Result<(), AllocError>
        ensures now { self.new.now ≡ self.old.now }
        ensures kept { OnOk result (self.new.kept ≡ (self.old.now, beside) ∷ self.old.kept) }
        ensures ready { OnOk result (n ≤ self.new.ready) }
        ensures room { self.new.room ≡ self.old.room }
        ensures refused { OnErr result (self.new ≡ record self.old { ready = self.new.ready }) }
        ensures more { OnErr result (self.old.ready ≤ self.new.ready) }
    {
        self.records.reserve(1)?;
        self.bases.reserve(1)?;
        self.trail.reserve(n)?;
        let next = count_up(self.clock)?;
        fill(&mut self.slot_stamps, self.slots.len())?;
        fill(&mut self.operand_stamps, self.operands.len())?;
        self.trail.mark()?;
        self.bases.push_reserved(self.base);
        self.base = Base {
            slots: self.slots.len(),
            operands: self.operands.len(),
            activations: self.activations.len(),
            members: self.members.len(),
            since: self.clock,
        };
        self.clock = next;
        self.records.push_reserved(beside);
        Ok(())
    }

    /// Brings back what was kept last, and forgets it. Its answer is what was kept beside it: none where nothing is
    /// kept, and then all is as before. It takes no memory.
    pub fn back(&mut self) -> Option<K>
        ensures back { IfSome result (λ beside. self.old.kept ≡ (self.new.now, beside) ∷ self.new.kept) }
        ensures nothing { IfNone result ((self.old.kept ≡ []) × (self.new ≡ self.old)) }
    {
        let Some(beside) = self.records.pop() else {
            return None;
        };
        self.slots.cut(self.base.slots);
        self.operands.cut(self.base.operands);
        self.activations.cut(self.base.activations);
        self.members.cut(self.base.members);
        while let Some(old) = self.trail.pop() {
            put_back(
                &mut self.slots,
                &mut self.operands,
                &mut self.activations,
                &mut self.members,
                &mut self.fields,
                &mut self.slot_stamps,
                &mut self.operand_stamps,
                old,
            );
        }
        self.base = pop_base(&mut self.bases);
        Some(beside)
    }

    /// Forgets what was kept last, and keeps all changes: it is as though that copy hadn't been kept. Its answer is
    /// whether something was kept, and else all is as before.
    ///
    /// It takes no memory, and its work is in proportion to the notes since that copy. Of them, those stay on the trail
    /// that the copy before needs.
    pub fn forget(&mut self) -> bool
        ensures now { self.new.now ≡ self.old.now }
        ensures kept { self.new.kept ≡ drop 1 self.old.kept }
        ensures some { result ≡ nat_lt 0 (length self.old.kept) }
        ensures room { self.new.room ≡ self.old.room }
        ensures nothing { result ≡ false → self.new ≡ self.old }
    {
        let Some(_beside) = self.records.pop() else {
            return false;
        };
        let older = pop_base(&mut self.bases);
        self.trail.forget(&Bases {
            latest: self.base,
            older,
        });
        self.base = lower(self.base, older);
        true
    }
}

// The base where nothing is kept.
const NOWHERE: Base = Base {
    slots: 0,
    operands: 0,
    activations: 0,
    members: 0,
    since: 0,
};

// The lower of two bases, each list by itself, with the number of the second one.
fn lower(m: Base, n: Base) -> Base
    ensures { result ≡ lower m n }
{
    Base {
        slots: m.slots.min(n.slots),
        operands: m.operands.min(n.operands),
        activations: m.activations.min(n.activations),
        members: m.members.min(n.members),
        since: n.since,
    }
}

// Takes the last base off, and gives it; where there is none it is that of nothing.
fn pop_base(bases: &mut Vec<Base>) -> Base
    ensures base { result ≡ base_of (reverse bases.old.items) }
    ensures rest { reverse bases.new.items ≡ drop 1 (reverse bases.old.items) }
{
    match bases.pop() {
        Some(base) => base,
        None => NOWHERE,
    }
}

// The stamp of a place.
fn stamp(stamps: &Vec<u64>, at: usize) -> u64
    ensures { result ≡ get_or stamps.now.items at 0 }
{
    if at < stamps.len() { stamps[at] } else { 0 }
}

// Whether a place below the base `lowest` has no note since the copy of this number.
fn is_unnoted(stamps: &Vec<u64>, at: usize, lowest: usize, since: u64) -> bool
    ensures { result ≡ (nat_lt at lowest && nat_lt (get_or stamps.now.items at 0) since) }
{
    at < lowest && stamp(stamps, at) < since
}

// Gives a place a stamp, where there is memory for it.
fn restamp(stamps: &mut Vec<u64>, at: usize, stamp: u64)
    ensures { stamps.new.items ≡ slice_set stamps.old.items at stamp }
{
    if at < stamps.len() {
        stamps[at] = stamp;
    }
}

// The next number.
fn count_up(clock: u64) -> Result<u64, AllocError>
    ensures { IfOk result (λ next. next ≡ clock + 1) }
{
    clock.checked_add(1).ok_or(AllocError)
}

// Makes sure of memory for the stamps of the lowest `n` places.
fn fill(stamps: &mut Vec<u64>, n: usize) -> Result<(), AllocError>
    ensures { (at : ℕ) → get_or stamps.new.items at 0 ≡ get_or stamps.old.items at 0 }
{
    while stamps.len() < n {
        stamps.push(0)?;
    }
    Ok(())
}

// Puts back what a change replaced.
fn put_back<S: Drop, O: Drop, A: Drop, M: Drop, F: Drop>(
    slots: &mut Stack<S>,
    operands: &mut Stack<O>,
    activations: &mut Stack<A>,
    members: &mut Stack<M>,
    fields: &mut Fields<F>,
    slot_stamps: &mut Vec<u64>,
    operand_stamps: &mut Vec<u64>,
    old: Old<S, O, A, M, F>,
)
    requires { FitsIn (parts slots.old operands.old activations.old members.old fields.old) (contents_of (parts slots.old operands.old activations.old members.old fields.old)) old }
    ensures undone { contents_of (parts slots.new operands.new activations.new members.new fields.new) ≡ undone (contents_of (parts slots.old operands.old activations.old members.old fields.old)) old }
    ensures slots { slots.new.room ≡ slots.old.room }
    ensures operands { operands.new.room ≡ operands.old.room }
    ensures activations { activations.new.room ≡ activations.old.room }
    ensures members { members.new.room ≡ members.old.room }
    ensures fields { fields.new.room ≡ fields.old.room }
    ensures slot_stamps { slot_stamps.new.items ≡ slots_restamped slot_stamps.old.items old }
    ensures operand_stamps { operand_stamps.new.items ≡ operands_restamped operand_stamps.old.items old }
{
    match old {
        Old::Slot(place, stamp) => {
            restamp(slot_stamps, place.at, stamp);
            slots.place(place);
        }
        Old::Operand(place, stamp) => {
            restamp(operand_stamps, place.at, stamp);
            operands.place(place);
        }
        Old::Activation(place) => activations.place(place),
        Old::Member(place) => members.place(place),
        Old::Field(field) => {
            put_field(fields, field);
        }
    }
}

// Reserves memory for `n` entries, where something is kept.
#[inline(always)]
fn reserve_entries<E>(trail: &mut Trail<E>, n: usize) -> Result<(), AllocError>
    ensures same { trail.new.items ≡ trail.old.items }
    ensures ready { OnOk result (n ≤ ready_of (mark_count trail.new.items) trail.new.spare) }
    ensures more { trail.old.spare ≤ trail.new.spare }
    ensures unkept { mark_count trail.old.items ≡ 0 → IsOk result }
    ensures refused { OnErr result (trail.new ≡ trail.old) }
{
    if trail.marks() > 0 {
        trail.reserve(n)?;
    }
    Ok(())
}

// Notes what a change replaced, where something is kept.
#[inline(always)]
fn note<E: Drop>(trail: &mut Trail<E>, e: E)
    requires { 1 ≤ ready_of (mark_count trail.old.items) trail.old.spare }
    ensures noted { trail.new.items ≡ noted e trail.old.items }
    ensures ready { ready_of (mark_count trail.old.items) trail.old.spare ≤ ready_of (mark_count trail.new.items) trail.new.spare + 1 }
{
    if trail.marks() > 0 {
        trail.note(e);
    }
}
