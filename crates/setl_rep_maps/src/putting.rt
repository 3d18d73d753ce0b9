//! Contents are put into maps.

ghost use Rattle.std.specs.Prelude.{◌≡◌, OnOk, OnErr};
ghost use Rattle.std.specs.Option.{option_map};
ghost use Rattle.setl_rep_forms.specs.FormOf.{form};
ghost use Rattle.setl_rep_maps.specs.Contents.{IsTable, PutsContent};
ghost use Rattle.setl_rep_maps.specs.code.Entries.{remote_entries, sparse_entries, PutsEntry};

use setl_remote::Slots;
use setl_rep_forms::Held;
use setl_sparse::SparseMap;
use std::alloc::AllocError;
use std::mem;
use std::rc::Rc;

/// Gives a map in table form a content at the number of a block, in place of the one that is there, or none. Where nobody
/// else holds the table, this costs the same whatever it holds, but for room that is made.
///
/// The error is want of memory, or that the number is 2^64 - 1, and then the map has the form that it had.
#[tactic(auto, using(crate::proofs::Entries::remote_same, crate::proofs::Entries::sparse_same, crate::proofs::Entries::sparse_puts))]
pub fn put_content(map: &mut Held, block: u64, content: Option<Held>) -> Result<(), AllocError>
    requires table { IsTable (form map.old) }
    ensures put { OnOk result (PutsContent block (option_map form content) (form map.old) (form map.new)) }
    ensures refused { OnErr result (form map.new ≡ form map.old) }
{
    match mem::replace(map, Held::Om) {
        Held::RemoteMap(base, many, mut slots) => {
            let put = put_in_slots(&mut slots, block, content);
            *map = Held::RemoteMap(base, many, slots);
            put
        }
        Held::SparseMap(base, many, mut table) => {
            let put = put_in_table(&mut table, block, content);
            *map = Held::SparseMap(base, many, table);
            put
        }
        other => {
            *map = other;
            Ok(())
        }
    }
}

// The same in the slots of a remote map.
fn put_in_slots(
    shared: &mut Rc<Slots<Held>>,
    block: u64,
    content: Option<Held>,
) -> Result<(), AllocError>
    ensures put { OnOk result (PutsEntry block (option_map form content) (remote_entries shared.old.value) (remote_entries shared.new.value)) }
    ensures refused { OnErr result (remote_entries shared.new.value ≡ remote_entries shared.old.value) }
{
    setl_rep_tables::laws::slots_are_keyed();
    let slots = Rc::make_mut(shared)?;
    slots.put(block, content)?;
    Ok(())
}

// The same in the table of a sparse map.
fn put_in_table(
    shared: &mut Rc<SparseMap<Held>>,
    block: u64,
    content: Option<Held>,
) -> Result<(), AllocError>
    ensures put { OnOk result (PutsEntry block (option_map form content) (sparse_entries shared.old.value) (sparse_entries shared.new.value)) }
    ensures refused { OnErr result (sparse_entries shared.new.value ≡ sparse_entries shared.old.value) }
{
    let table = Rc::make_mut(shared)?;
    table.put(block, content)?;
    Ok(())
}
