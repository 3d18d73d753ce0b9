//! One member more or less in a set of numbers.

ghost use Rattle.std.specs.Prelude.{◌≡◌, if◌then◌else◌, OnOk, OnErr, Some};
ghost use Rattle.std.specs.FinSet as set;
ghost use Rattle.setl_base.specs.Base.{value_of, IsLiving};
ghost use Rattle.setl_rep_forms.specs.Stands.{members_at, AreLiving};
ghost use Rattle.setl_rep_based.specs.Members.{IsPut};

use setl_base::{Base, Elt};
use setl_remote::Bits;
use setl_rep_forms::laws;
use setl_sparse::SparseSet;
use std::alloc::AllocError;
use std::rc::Rc;

/// Puts a member of the base into a set where `on` is true, and takes it out where it is false: in place, where the set
/// has its words alone.
///
/// An error is want of memory, or that the block has one of the last 64 numbers, and then the set is as before.
pub fn put_in_bits(base: &Base, bits: &mut Bits, e: Elt, on: bool) -> Result<(), AllocError>
    requires member { IsLiving base.now e }
    requires living { AreLiving base.now bits.old }
    ensures put { OnOk result (IsPut base.now e on bits.old bits.new) }
    ensures living { OnOk result (AreLiving base.now bits.new) }
    ensures refused { OnErr result (bits.new ≡ bits.old) }
{
    laws::operations_go_by_number();
    base.learn();
    bits.put(e.block, on)?;
    Ok(())
}

/// Puts a member of the base into a set where `on` is true, and takes it out where it is false: in place, where nobody
/// else holds the set.
///
/// An error is want of memory, and then the set is as before.
pub fn put_in_table(
    base: &Base,
    shared: &mut Rc<SparseSet>,
    e: Elt,
    on: bool,
) -> Result<(), AllocError>
    requires member { IsLiving base.now e }
    requires living { AreLiving base.now shared.old.value }
    ensures put { OnOk result (IsPut base.now e on shared.old.value shared.new.value) }
    ensures living { OnOk result (AreLiving base.now shared.new.value) }
    ensures refused { OnErr result (shared.new.value ≡ shared.old.value) }
{
    laws::operations_go_by_number();
    base.learn();
    put(shared, e.block, on)?;
    Ok(())
}

// Puts a number in or takes it out, in a set of its own.
fn put(shared: &mut Rc<SparseSet>, block: u64, on: bool) -> Result<(), AllocError>
    ensures put { OnOk result (shared.new.value ≡ (if on then set.insert shared.old.value block else set.remove shared.old.value block)) }
    ensures refused { OnErr result (shared.new.value ≡ shared.old.value) }
{
    let table = Rc::make_mut(shared)?;
    if on {
        table.put(block)
    } else {
        table.cut(block)
    }
}
