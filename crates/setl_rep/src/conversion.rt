//! A value goes into the form of a mode.

ghost use Rattle.std.specs.Prelude.{◌≡◌, false, true, Err, IfOk, OnErr, OnOk, Some};
ghost use Rattle.setl_value.specs.code.DatumOf.{datum};
ghost use Rattle.setl_modes.specs.Fits.{datum_fits, fits};
ghost use Rattle.setl_modes.specs.Modes.{mode_of};
ghost use Rattle.setl_rep_bases.specs.Bases.{named};
ghost use Rattle.setl_rep_forms.specs.FormOf.{form};
ghost use Rattle.setl_rep_forms.specs.Stands.{stands, IsOver};
ghost use Rattle.setl_rep_building.specs.HasForm.{HasForm, HasFormOrOm};
ghost use Rattle.setl_rep_entering.specs.Entering.{AreLengthened, BasesAreThere};
ghost use Rattle.setl_rep_plain.specs.Standing.{held_value, IsHeldOver};
ghost use Rattle.setl_rep.specs.Standing.{AreLengthenedBy};
ghost use Rattle.setl_rep.specs.declared.conversion.ConvertFault.TheVariants as fault;

use crate::own_form::is_ready;
use setl_modes::Mode;
use setl_modes_fit::fits;
use setl_rep_bases::Bases;
use setl_rep_building::in_form;
use setl_rep_entering::{base_marks, enter_places, take_back};
use setl_rep_forms::Held;
use setl_rep_plain::plain;
use setl_value::Value;
use std::alloc::{AllocError, Global};

/// Why a value doesn't go into the form of a mode.
#[derive(Clone, Copy, Debug, PartialEq, Eq)]
pub enum ConvertFault {
    /// It doesn't fit the mode.
    Unfit,
    /// Memory was refused.
    NoMemory,
}

impl From<AllocError> for ConvertFault {
    ghost use Rattle.std.specs.Prelude.{◌≡◌};
    ghost use Rattle.setl_rep.specs.declared.conversion.ConvertFault.TheVariants.{NoMemory};

    ghost from_gives = { λ _ e. e ≡ NoMemory };

    fn from(_e: AllocError) -> ConvertFault {
        ConvertFault::NoMemory
    }
}

/// A value, or `om`, that is held in any form goes into the form of a mode, in the activation with the number `instance`.
/// Each base that the mode names is lengthened by the values at its places that aren't members yet, in canonical order.
///
/// A set that is held as the numbers that the mode asks for is copied, and shares its numbers: its members are tested one by one,
/// and no plain set is made. So is an element, a tuple of handles, and a map in table form whose contents are held so or plain as
/// values without parts.
///
/// `Unfit` comes where the value doesn't fit the mode, and want of memory at any point. After an error the bases are as
/// before.
pub fn convert(
    alloc: Global,
    h: &Held,
    mode: &Mode,
    bases: &mut Bases,
    instance: u64,
) -> Result<Held, ConvertFault>
    requires held { IsHeldOver bases.old h.now }
    requires there { BasesAreThere bases.old instance (mode_of mode.now) }
    ensures over { IfOk result (λ r. IsOver bases.new (form r)) }
    ensures stands { IfOk result (λ r. held_value bases.new r ≡ held_value bases.old h.now) }
    ensures form { IfOk result (λ r. HasFormOrOm (named bases.old instance) (mode_of mode.now) (form r)) }
    ensures lengthened { OnOk result (AreLengthenedBy (mode_of mode.now) (held_value bases.old h.now) instance bases.old bases.new) }
    ensures fits { OnOk result (fits (mode_of mode.now) (held_value bases.old h.now) ≡ true) }
    ensures unfit { result ≡ Err fault.Unfit → fits (mode_of mode.now) (held_value bases.old h.now) ≡ false }
    ensures refused { OnErr result (bases.new ≡ bases.old) }
{
    setl_rep_entering::laws::parts_lengthen_alike();
    if is_ready(alloc, mode, h, bases, instance)? {
        return Ok(h.copy()?);
    }
    let v = plain(alloc, h, bases)?;
    if !fits(mode, &v) {
        return Err(ConvertFault::Unfit);
    }
    match v {
        None => Ok(Held::Om),
        Some(v) => Ok(entered(alloc, mode, &v, bases, instance)?),
    }
}

// A value that fits, in the form of its mode, after its places were entered. The error is want of memory, and then the
// bases are as before.
fn entered(
    alloc: Global,
    mode: &Mode,
    v: &Value,
    bases: &mut Bases,
    instance: u64,
) -> Result<Held, AllocError>
    requires fits { datum_fits (mode_of mode.now) (datum v.now) ≡ true }
    requires there { BasesAreThere bases.old instance (mode_of mode.now) }
    ensures over { IfOk result (λ r. IsOver bases.new (form r)) }
    ensures stands { IfOk result (λ r. stands bases.new (form r) ≡ Some (datum v.now)) }
    ensures form { IfOk result (λ r. HasForm (named bases.old instance) (mode_of mode.now) (form r)) }
    ensures lengthened { OnOk result (AreLengthened (mode_of mode.now) (datum v.now) instance bases.old bases.new) }
    ensures refused { OnErr result (bases.new ≡ bases.old) }
{
    setl_rep_entering::laws::places_are_members();
    setl_rep_entering::laws::bases_are_lengthened();
    let marks = base_marks(alloc, mode, instance, bases)?;
    enter_places(alloc, mode, v, instance, bases)?;
    match in_form(alloc, mode, v, bases, instance) {
        Ok(h) => Ok(h),
        Err(e) => {
            take_back(marks, bases);
            Err(e)
        }
    }
}
