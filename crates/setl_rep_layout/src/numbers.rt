//! The numbers at which a map has contents.

ghost use Rattle.std.specs.Prelude.{◌≡◌, ◌++◌, ◌∷◌, [], Bool, None, if◌then◌else◌, is_some, IfOk, OnOk};
ghost use Rattle.setl_remote.specs.Slots.{slot_at};
ghost use Rattle.setl_rep_forms.specs.FormOf.{form};
ghost use Rattle.setl_rep_forms.specs.Stands.{IsOver};
ghost use Rattle.setl_rep_layout.specs.Listing.{has_content, ListsExactly};

use setl_remote::Slots;
use setl_rep_bases::Bases;
use setl_rep_forms::Held;
use std::alloc::{AllocError, Global};

/// The numbers at which a map has contents, rising; none for other forms. The error is want of memory.
pub(crate) fn numbers_of(alloc: Global, map: &Held, bases: &Bases) -> Result<Vec<u64>, AllocError>
    requires { IsOver bases.now (form map.now) }
    ensures { IfOk result (λ list. ListsExactly (has_content (form map.now)) list.items) }
{
    setl_rep_tables::laws::slots_are_keyed();
    match map {
        Held::RemoteMap(_, _, slots) => slot_numbers(alloc, slots),
        Held::SparseMap(_, _, table) => table.numbers(alloc),
        _ => Ok(Vec::new(alloc)),
    }
}

// The numbers of the slots that have a content, rising.
fn slot_numbers(alloc: Global, slots: &Slots<Held>) -> Result<Vec<u64>, AllocError>
    requires { slot_at slots.now 0 ≡ None }
    ensures { IfOk result (λ list. ListsExactly (λ n. is_some (slot_at slots.now n)) list.items) }
{
    let mut list = Vec::new(alloc);
    for n in 0..slots.len() {
        push_if(slots.get(n + 1).is_some(), n + 1, &mut list)?;
    }
    Ok(list)
}

fn push_if(is_there: bool, n: u64, list: &mut Vec<u64>) -> Result<(), AllocError>
    ensures { OnOk result (list.new.items ≡ (if is_there then list.old.items ++ n ∷ [] else list.old.items)) }
{
    if is_there {
        list.push(n)?;
    }
    Ok(())
}
