//! A content is changed where it stands.

ghost use Rattle.std.specs.Prelude.{◌≡◌, nat_eq, IfOk, IfSome, IfNone, IsSome, OnErr, Some, None};
ghost use Rattle.std.specs.Fn.{FnOnceReturnsAtMut, FnOnceTakesAtMut};
ghost use Rattle.std.specs.List.{IsDistinct};
ghost use Rattle.std.specs.Map.{keys_of};
ghost use Rattle.setl_remote.specs.Slots.{slot_at, PutsSlot};
ghost use Rattle.setl_sparse.specs.Entries.{content_at, Puts};
ghost use Rattle.setl_rep_forms.specs.FormOf.{form};
ghost use Rattle.setl_rep_forms.specs.declared.held.Held.{Held};
ghost use Rattle.setl_rep_tables.specs.Tables.{content_in};
ghost use Rattle.setl_rep_maps.specs.Contents.{content_of, IsTable};
ghost use Rattle.setl_rep_maps.specs.code.Changing.{ChangesContent, ChangesEntry};
ghost use Rattle.setl_rep_maps.specs.code.Entries.{remote_entries, sparse_entries};

use setl_remote::Slots;
use setl_rep_forms::Held;
use setl_sparse::SparseMap;
use std::alloc::AllocError;
use std::mem;
use std::rc::Rc;

/// Lets `change` change the content that a map in table form has at the number of a block, where it stands, and answers what
/// `change` answers. Where nobody else holds the table, this costs the same whatever it holds, but for what `change` does.
///
/// `change` must be callable at each content of the form that is there. Where the number has no content, the answer is None,
/// and `change` isn't called. The error is want of memory: `change` isn't called then either, and the map has the form that it
/// had.
#[tactic(auto, using(crate::proofs::Entries::remote_same, crate::proofs::Entries::sparse_same, crate::proofs::Changes::remote_changed, crate::proofs::Changes::sparse_changed))]
pub fn change_content<R, F: FnOnce(&mut Held) -> R>(
    map: &mut Held,
    block: u64,
    change: F,
) -> Result<Option<R>, AllocError>
    requires table { IsTable (form map.old) }
    requires callable { (h : Held) → content_of (form map.old) block ≡ Some (form h) → FnOnceTakesAtMut F.FnOnce change h }
    ensures changed { IfOk result (λ o. IfSome o (λ r. ChangesContent F.FnOnce change block r (form map.old) (form map.new))) }
    ensures nothing { IfOk result (λ o. IfNone o (content_of (form map.old) block ≡ None)) }
    ensures unchanged { IfOk result (λ o. IfNone o (form map.new ≡ form map.old)) }
    ensures refused { OnErr result (form map.new ≡ form map.old) }
{
    match mem::replace(map, Held::Om) {
        Held::RemoteMap(base, many, mut slots) => {
            let answer = change_in_slots(&mut slots, block, change);
            *map = Held::RemoteMap(base, many, slots);
            answer
        }
        Held::SparseMap(base, many, mut table) => {
            let answer = change_in_table(&mut table, block, change);
            *map = Held::SparseMap(base, many, table);
            answer
        }
        other => {
            *map = other;
            Ok(None)
        }
    }
}

// The same in the slots of a remote map.
fn change_in_slots<R, F: FnOnce(&mut Held) -> R>(
    shared: &mut Rc<Slots<Held>>,
    block: u64,
    change: F,
) -> Result<Option<R>, AllocError>
    requires callable { (h : Held) → content_in (remote_entries shared.old.value) block ≡ Some (form h) → FnOnceTakesAtMut F.FnOnce change h }
    ensures changed { IfOk result (λ o. IfSome o (λ r. ChangesEntry F.FnOnce change block r (remote_entries shared.old.value) (remote_entries shared.new.value))) }
    ensures nothing { IfOk result (λ o. IfNone o (content_in (remote_entries shared.old.value) block ≡ None)) }
    ensures unchanged { IfOk result (λ o. IfNone o (remote_entries shared.new.value ≡ remote_entries shared.old.value)) }
    ensures refused { OnErr result (remote_entries shared.new.value ≡ remote_entries shared.old.value) }
{
    setl_rep_tables::laws::slots_are_keyed();
    if shared.get(block).is_none() {
        return Ok(None);
    }
    let slots = Rc::make_mut(shared)?;
    Ok(Some(change_slot(slots, block, change)))
}

fn change_slot<R, F: FnOnce(&mut Held) -> R>(slots: &mut Slots<Held>, block: u64, change: F) -> R
    requires callable { (h : Held) → slot_at slots.old block ≡ Some h → FnOnceTakesAtMut F.FnOnce change h }
    requires there { IsSome (slot_at slots.old block) }
    ensures { (v w : Held) × (slot_at slots.old block ≡ Some v) × FnOnceReturnsAtMut F.FnOnce change v result w × PutsSlot block (Some w) slots.old slots.new }
{
    let mut content = slots.replace(block, Held::Om).unwrap();
    let answer = change(&mut content);
    slots.replace(block, content);
    answer
}

// The same in the table of a sparse map.
fn change_in_table<R, F: FnOnce(&mut Held) -> R>(
    shared: &mut Rc<SparseMap<Held>>,
    block: u64,
    change: F,
) -> Result<Option<R>, AllocError>
    requires callable { (h : Held) → content_in (sparse_entries shared.old.value) block ≡ Some (form h) → FnOnceTakesAtMut F.FnOnce change h }
    ensures changed { IfOk result (λ o. IfSome o (λ r. ChangesEntry F.FnOnce change block r (sparse_entries shared.old.value) (sparse_entries shared.new.value))) }
    ensures nothing { IfOk result (λ o. IfNone o (content_in (sparse_entries shared.old.value) block ≡ None)) }
    ensures unchanged { IfOk result (λ o. IfNone o (sparse_entries shared.new.value ≡ sparse_entries shared.old.value)) }
    ensures refused { OnErr result (sparse_entries shared.new.value ≡ sparse_entries shared.old.value) }
{
    if !shared.test(block) {
        return Ok(None);
    }
    let table = Rc::make_mut(shared)?;
    Ok(Some(change_entry(table, block, change)))
}

fn change_entry<R, F: FnOnce(&mut Held) -> R>(
    table: &mut SparseMap<Held>,
    block: u64,
    change: F,
) -> R
    requires callable { (h : Held) → content_at table.old block ≡ Some h → FnOnceTakesAtMut F.FnOnce change h }
    requires there { IsSome (content_at table.old block) }
    ensures changed { (v w : Held) × (content_at table.old block ≡ Some v) × FnOnceReturnsAtMut F.FnOnce change v result w × Puts block (Some w) table.old table.new }
    ensures places { keys_of table.new ≡ keys_of table.old }
    ensures distinct { IsDistinct nat_eq (keys_of table.old) }
{
    table.learn();
    let mut content = table.replace(block, Held::Om);
    let answer = change(&mut content);
    table.replace(block, content);
    answer
}
