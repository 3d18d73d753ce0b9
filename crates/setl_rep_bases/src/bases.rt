//! The bases of a run.

ghost use Rattle.std.specs.Prelude.{◌≡◌, ◌<◌, ◌≤◌, ◌^◌, length, if◌then◌else◌, true, false, IfOk, OnOk, OnErr, None, Some};
ghost use Rattle.setl_value.specs.code.DatumOf.{datum};
ghost use Rattle.setl_base.specs.Base.{find, IsBase};
ghost use Rattle.setl_rep_bases.specs.Marks.{marks_of, back_all, AreWithin, HaveFewCuts};
ghost use Rattle.setl_rep_bases.specs.Bases.{base_at, instance_at, is_gone, is_there, IsThere, main_bases, named, with_added, with_cut, with_entered, with_gone, with_undone, without, without_gone};

use crate::tables::{self, Table};
use crate::{BaseId, BaseMarks};
use setl_base::{Base, BaseMark, Elt};
use setl_value::Value;
use std::alloc::{AllocError, Global};
use std::collections::BTreeMap;
use std::marker::Model;

/// The bases of a run, by their instances. Contracts see them as a `BasesState`.
#[derive(Drop)]
pub struct Bases {
    // How many bases the main program has.
    count: u32,
    instances: Table,
}

impl Model for Bases {
    ghost use Rattle.setl_rep_bases.specs.Bases.{BasesState, coded_bases};
    ghost use Rattle.setl_rep_bases.specs.Tables.{state_of};

    ghost Value = { BasesState };

    ghost coded = { coded_bases };

    ghost view = { λ b. state_of b.count b.instances.entries };
}

impl Bases {
    /// So many bases of the main program, without members. An error is want of memory.
    pub fn new(alloc: Global, count: u32) -> Result<Bases, AllocError>
        ensures { IfOk result (λ bs. bs ≡ main_bases count) }
    {
        let mut instances = BTreeMap::new(alloc);
        for base in 0..count {
            tables::add(alloc, &mut instances, BaseId { base, instance: 0 })?;
        }
        Ok(Bases { count, instances })
    }

    /// How many bases the main program has. It takes no memory.
    pub fn len(&self) -> u32
        ensures { result ≡ self.now.count }
    {
        self.count
    }

    /// Whether an instance is there. It takes no memory.
    pub fn has(&self, i: BaseId) -> bool
        ensures { result ≡ is_there self.now i }
    {
        self.instances.contains_key(&i)
    }

    /// The instance that the number of a base names in an activation: that of the main program, where it has such a base,
    /// and otherwise that of the activation. It takes no memory.
    pub fn named(&self, instance: u64, base: u32) -> BaseId
        ensures { result ≡ named self.now instance base }
    {
        let main = BaseId { base, instance: 0 };
        if self.has(main) {
            main
        } else {
            BaseId { base, instance }
        }
    }

    /// The base of an instance. It takes no memory.
    pub fn at(&self, i: BaseId) -> &Base
        requires { IsThere self.now i }
        ensures base { result.now ≡ base_at self.now i }
        ensures known { IsBase (base_at self.now i) }
    {
        let base = tables::base_at(&self.instances, i);
        base.learn();
        base
    }

    /// Enters a value into an instance and gives its handle.
    ///
    /// The error is want of memory, and then the bases are as before.
    pub fn enter(&mut self, i: BaseId, v: Value) -> Result<Elt, AllocError>
        requires { IsThere self.old i }
        ensures entered { OnOk result (self.new ≡ with_entered self.old i (datum v)) }
        ensures handle { IfOk result (λ e. find (base_at self.new i) (datum v) ≡ Some e) }
        ensures refused { OnErr result (self.new ≡ self.old) }
    {
        tables::enter(&mut self.instances, i, v)
    }

    /// Cuts an instance as `Base::back` does. It takes no memory.
    pub fn back(&mut self, i: BaseId, m: &BaseMark)
        requires there { IsThere self.old i }
        requires within { m.now.count ≤ length (base_at self.old i).members }
        requires few_cuts { (base_at self.old i).cuts < 2 ^ 63 }
        ensures { self.new ≡ with_cut self.old i m.now.count }
    {
        tables::back(&mut self.instances, i, m);
    }

    /// Cuts an instance as `Base::undo` does. It takes no memory.
    pub fn undo(&mut self, i: BaseId, m: &BaseMark)
        requires there { IsThere self.old i }
        requires within { m.now.count ≤ length (base_at self.old i).members }
        ensures { self.new ≡ with_undone self.old i m.now.count }
    {
        tables::undo(&mut self.instances, i, m);
    }

    /// Adds an instance without members.
    ///
    /// The error is want of memory, and then the bases are as before.
    pub fn add(&mut self, alloc: Global, i: BaseId) -> Result<(), AllocError>
        requires { instance_at self.old i ≡ None }
        ensures added { OnOk result (self.new ≡ with_added self.old i) }
        ensures refused { OnErr result (self.new ≡ self.old) }
    {
        tables::add(alloc, &mut self.instances, i)
    }

    /// An instance goes: it is left there as gone, where `kept` is true, and otherwise removed. It takes no memory.
    pub fn leave(&mut self, i: BaseId, kept: bool)
        requires { IsThere self.old i }
        ensures { self.new ≡ (if kept then with_gone self.old i true else without self.old i) }
    {
        if kept {
            tables::set_gone(&mut self.instances, i, true);
        } else {
            tables::remove(&mut self.instances, i);
        }
    }

    /// An instance that is gone comes again. It takes no memory.
    pub fn again(&mut self, i: BaseId)
        requires { is_gone self.old i ≡ true }
        ensures { self.new ≡ with_gone self.old i false }
    {
        tables::set_gone(&mut self.instances, i, false);
    }

    /// Removes all instances that are gone. It takes no memory.
    pub fn drop_gone(&mut self)
        ensures { self.new ≡ without_gone self.old }
    {
        tables::drop_gone(&mut self.instances);
    }

    /// What each instance has now: how many members, and whether it is gone. An error is want of memory.
    pub fn marks(&self, alloc: Global) -> Result<BaseMarks, AllocError>
        ensures { IfOk result (λ ms. ms ≡ marks_of self.now) }
    {
        let table = tables::marks(alloc, &self.instances)?;
        Ok(BaseMarks { table })
    }

    /// Brings all instances back to what they had: those that have no mark go, and each other one is cut as `Base::back`
    /// does, and is gone or not as it was then. It takes no memory.
    pub fn back_to(&mut self, marks: &BaseMarks)
        requires within { AreWithin marks.now self.old }
        requires few_cuts { HaveFewCuts self.old }
        ensures { self.new ≡ back_all self.old marks.now }
    {
        tables::back_to(&mut self.instances, &marks.table);
    }
}
