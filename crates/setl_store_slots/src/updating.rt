//! What slots hold is updated in its form.

ghost use Rattle.setl_modes.specs.Modes.{mode_of};
ghost use Rattle.setl_rep_forms.specs.FormOf.{form};
ghost use Rattle.setl_rep_forms.specs.Stands.{stands};
ghost use Rattle.setl_rep_updates.specs.Changed.{given_by};
ghost use Rattle.setl_rep_updates.specs.InForm.{IsInForm};
ghost use Rattle.setl_rep_updates.specs.Updates.{IsUpdate};
ghost use Rattle.setl_store_slots.specs.Slots.{IsStanding};
ghost use Rattle.setl_store_slots.specs.Updates.{IsSlotUpdate};

use crate::cells::Held;
use crate::shared::Shared;
use setl_modes::Mode;
use setl_rep_bases::Bases;
use setl_rep_updates::Change;
use std::alloc::{AllocError, Global};
use std::rc::Rc;

/// Does this to the set or map that a slot holds in a form, in place; values at its places are entered into their bases first.
///
/// Ok(false) comes where the slot holds no form, or one in which this has no such way. After that, and after want of memory, which
/// is the error, the slot holds what it held, and the bases are as before. Where nobody else holds the set or map, the cost is near
/// linear in the size of what is put in or taken out alone.
pub fn update(
    alloc: Global,
    slot: &mut Held,
    change: &Change,
    bases: &mut Bases,
) -> Result<bool, AllocError>
    requires { IsStanding bases.old slot.old }
    ensures { IsSlotUpdate (given_by change.now) bases.old bases.new slot.old slot.new result }
{
    setl_rep_entering::laws::places_are_members();
    match slot {
        Held::Based(mode, held) => update_in(alloc, mode.get(), held, change, bases),
        _ => Ok(false),
    }
}

// The same in the form of a mode.
fn update_in(
    alloc: Global,
    mode: &Mode,
    held: &mut Shared<setl_rep_forms::Held>,
    change: &Change,
    bases: &mut Bases,
) -> Result<bool, AllocError>
    requires { IsInForm bases.old 0 (mode_of mode.now) (form held.old) }
    ensures { IsUpdate (mode_of mode.now) 0 (given_by change.now (stands bases.old (form held.old))) bases.old bases.new (form held.old) (form held.new) result }
{
    let own = Rc::make_mut(&mut held.rc)?;
    setl_rep_updates::update(alloc, mode, own, change, bases, 0)
}
