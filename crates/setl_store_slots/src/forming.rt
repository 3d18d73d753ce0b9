//! Values go into slots in the forms of their modes.

ghost use Rattle.std.specs.Prelude.{◌≡◌, true, Some, IfOk, OnOk, OnErr};
ghost use Rattle.setl_modes.specs.Fits.{datum_fits};
ghost use Rattle.setl_modes.specs.Modes.{mode_of};
ghost use Rattle.setl_rep_entering.specs.Entering.{AreLengthened, BasesAreThere};
ghost use Rattle.setl_rep_entering.specs.Laws.{PlacesAreFound};
ghost use Rattle.setl_store_slots.specs.Slots.{content_of, IsStanding};
ghost use Rattle.setl_store_slots.specs.Updates.{AreGrown};
ghost use Rattle.setl_value.specs.code.DatumOf.{datum};

use crate::cells::Held;
use crate::shared::Shared;
use setl_modes::{Mode, copied};
use setl_rep_bases::Bases;
use setl_rep_building::in_form;
use setl_rep_entering::{base_marks, enter_places, take_back};
use setl_value::Value;
use std::alloc::{AllocError, Global};

/// A slot that holds a value in the form of a mode which it fits; the values at its places are entered into their bases.
///
/// The error is want of memory, and then the bases are as before. The cost is near linear in the size of the value.
pub fn formed(
    alloc: Global,
    mode: &Mode,
    value: &Value,
    bases: &mut Bases,
) -> Result<Held, AllocError>
    requires fits { datum_fits (mode_of mode.now) (datum value.now) ≡ true }
    requires there { BasesAreThere bases.old 0 (mode_of mode.now) }
    ensures standing { IfOk result (IsStanding bases.new) }
    ensures value { IfOk result (λ h. content_of bases.new h ≡ Some (Some (datum value.now))) }
    ensures grown { AreGrown bases.old bases.new }
    ensures lengthened { OnOk result (AreLengthened (mode_of mode.now) (datum value.now) 0 bases.old bases.new) }
    ensures refused { OnErr result (bases.new ≡ bases.old) }
{
    setl_rep_entering::laws::places_are_members();
    let marks = base_marks(alloc, mode, 0, bases)?;
    enter_places(alloc, mode, value, 0, bases)?;
    match in_slot(alloc, mode, value, bases) {
        Ok(slot) => Ok(slot),
        Err(e) => {
            take_back(marks, bases);
            Err(e)
        }
    }
}

// The same where all values at its places are members of their bases.
fn in_slot(alloc: Global, mode: &Mode, value: &Value, bases: &Bases) -> Result<Held, AllocError>
    requires fits { datum_fits (mode_of mode.now) (datum value.now) ≡ true }
    requires found { PlacesAreFound bases.now 0 (mode_of mode.now) (datum value.now) }
    requires there { BasesAreThere bases.now 0 (mode_of mode.now) }
    ensures standing { IfOk result (IsStanding bases.now) }
    ensures value { IfOk result (λ h. content_of bases.now h ≡ Some (Some (datum value.now))) }
{
    value.learn();
    let form = in_form(alloc, mode, value, bases, 0)?;
    let own = copied(alloc, mode)?;
    let beside = Shared::new(alloc, own)?;
    let held = Shared::new(alloc, form)?;
    Ok(Held::Based(beside, held))
}
