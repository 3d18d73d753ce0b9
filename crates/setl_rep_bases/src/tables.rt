//! A table of instances.

ghost use Rattle.std.specs.Prelude.{◌≡◌, ◌<◌, ◌≤◌, ◌^◌, cond, length, IsSome, IfOk, OnOk, OnErr, None, Some};
ghost use Rattle.setl_value.specs.code.DatumOf.{datum};
ghost use Rattle.setl_base.specs.Base.{find};
ghost use Rattle.std.specs.Option.{option_map};
ghost use Rattle.std.specs.List.{All};
ghost use Rattle.setl_rep_bases.specs.Bases.{fresh};
ghost use Rattle.setl_rep_bases.specs.Marks.{mark_of, as_cut};
ghost use Rattle.setl_rep_bases.specs.Tables.{found, base_in, Alters, Puts, Stays, with_value, cut_to, undone_to, gone_as, not_gone, marked_at, Brings, MayBeCut};

use crate::BaseId;
use crate::marks::{Mark, MarkTable};
use setl_base::{Base, BaseMark, Elt};
use setl_value::Value;
use std::alloc::{AllocError, Global};
use std::collections::BTreeMap;

/// An instance of a base, which may be gone.
#[derive(Drop)]
pub struct Instance {
    pub base: Base,
    pub gone: bool,
}

pub(crate) type Table = BTreeMap<BaseId, Instance>;

/// The base of an instance.
pub(crate) fn base_at(table: &Table, i: BaseId) -> &Base
    requires { IsSome (found table.now.entries i) }
    ensures { result.now ≡ base_in (found table.now.entries i) }
{
    &table.get(&i).unwrap().base
}

/// Enters a value into an instance and gives its handle. Where memory is refused, the table is as before.
pub(crate) fn enter(table: &mut Table, i: BaseId, v: Value) -> Result<Elt, AllocError>
    requires { IsSome (found table.old.entries i) }
    ensures entered { OnOk result (Alters (with_value (datum v)) i table.old.entries table.new.entries) }
    ensures handle { IfOk result (λ e. find (base_in (found table.new.entries i)) (datum v) ≡ Some e) }
    ensures refused { OnErr result (Alters (λ x. x) i table.old.entries table.new.entries) }
{
    let instance = table.get_mut(&i).unwrap();
    instance.base.enter(v)
}

/// Cuts an instance as `Base::back` does.
pub(crate) fn back(table: &mut Table, i: BaseId, m: &BaseMark)
    requires there { IsSome (found table.old.entries i) }
    requires within { m.now.count ≤ length (base_in (found table.old.entries i)).members }
    requires few_cuts { (base_in (found table.old.entries i)).cuts < 2 ^ 63 }
    ensures { Alters (cut_to m.now.count) i table.old.entries table.new.entries }
{
    let instance = table.get_mut(&i).unwrap();
    instance.base.back(m);
}

/// Cuts an instance as `Base::undo` does.
pub(crate) fn undo(table: &mut Table, i: BaseId, m: &BaseMark)
    requires there { IsSome (found table.old.entries i) }
    requires within { m.now.count ≤ length (base_in (found table.old.entries i)).members }
    ensures { Alters (undone_to m.now.count) i table.old.entries table.new.entries }
{
    let instance = table.get_mut(&i).unwrap();
    instance.base.undo(m);
}

/// Has an instance gone, or not.
pub(crate) fn set_gone(table: &mut Table, i: BaseId, gone: bool)
    ensures { Alters (gone_as gone) i table.old.entries table.new.entries }
{
    if let Some(instance) = table.get_mut(&i) {
        instance.gone = gone;
    }
}

/// Takes out the instances that are gone.
pub(crate) fn drop_gone(table: &mut Table)
    ensures { (i : BaseId) → found table.new.entries i ≡ not_gone (found table.old.entries i) }
{
    table.retain(|_, instance| !instance.gone);
}

/// Puts in an instance without members. Where memory is refused, the table is as before.
pub(crate) fn add(alloc: Global, table: &mut Table, i: BaseId) -> Result<(), AllocError>
    ensures added { OnOk result (Puts i (Some fresh) table.old.entries table.new.entries) }
    ensures refused { OnErr result (Stays table.old.entries table.new.entries) }
{
    let base = Base::new(alloc)?;
    table.insert(i, Instance { base, gone: false })?;
    Ok(())
}

/// Takes an instance out.
pub(crate) fn remove(table: &mut Table, i: BaseId)
    ensures { Puts i None table.old.entries table.new.entries }
{
    table.remove(&i);
}

/// What each instance has. An error is want of memory.
pub(crate) fn marks(alloc: Global, table: &Table) -> Result<MarkTable, AllocError>
    ensures { IfOk result (λ ms. (i : BaseId) → marked_at ms.entries i ≡ option_map mark_of (found table.now.entries i)) }
{
    table
        .iter()
        .map(|(i, instance)| (*i, mark(instance)))
        .collect(alloc)
}

// What an instance has.
fn mark(instance: &Instance) -> Mark
    ensures { result ≡ mark_of instance.now }
{
    Mark {
        count: instance.base.mark().count,
        gone: instance.gone,
    }
}

/// Takes out the instances that have no mark, and cuts the others to theirs.
pub(crate) fn back_to(table: &mut Table, marks: &MarkTable)
    requires { (i : BaseId) (x : Instance) → found table.old.entries i ≡ Some x → MayBeCut (marked_at marks.now.entries i) x }
    ensures { Brings marks.now.entries table.old.entries table.new.entries }
{
    let _ordered = table.len();
    table.retain(|i, instance| bring(marks, *i, instance));
}

// Cuts an instance to its mark, and tells whether it has one.
fn bring(marks: &MarkTable, i: BaseId, instance: &mut Instance) -> bool
    requires { MayBeCut (marked_at marks.now.entries i) instance.old }
    ensures { cond result (Some instance.new) None ≡ option_map (as_cut instance.old) (marked_at marks.now.entries i) }
{
    match marks.get(&i) {
        None => false,
        Some(m) => {
            instance.base.back(&BaseMark { count: m.count });
            instance.gone = m.gone;
            true
        }
    }
}
