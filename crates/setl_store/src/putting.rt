//! Changes of slots in their forms, with the memory that they take.

ghost use Rattle.std.specs.Prelude.{◌≡◌, ◌<◌, true, length, Some, OnOk, OnErr};
ghost use Rattle.setl_modes.specs.Fits.{datum_fits};
ghost use Rattle.setl_modes.specs.Modes.{mode_of};
ghost use Rattle.setl_rep_entering.specs.Entering.{BasesAreThere};
ghost use Rattle.setl_rep_updates.specs.Changed.{given_by};
ghost use Rattle.setl_store.specs.Putting.{HaveGained, IsPut, IsPutAgain, IsUpdatedAt};
ghost use Rattle.setl_store_slots.specs.Slots.{AreStanding};
ghost use Rattle.setl_store_slots.specs.Updates.{AreGrown};
ghost use Rattle.setl_value.specs.code.DatumOf.{datum};

use crate::cells::Contents;
use crate::store::held;
use setl_modes::Mode;
use setl_rep_bases::Bases;
use setl_rep_plain::plain;
use setl_rep_updates::Change;
use setl_store_slots::{Held, formed, is_of_mode, update};
use setl_value::Value;
use std::alloc::{AllocError, Global};

/// Puts a value that fits a mode into a slot, in the form of that mode.
pub(crate) fn put_formed(
    alloc: Global,
    environment: &mut Contents,
    bases: &mut Bases,
    at: usize,
    mode: &Mode,
    value: &Value,
) -> Result<(), AllocError>
    requires slot { at < length environment.old.now.slots }
    requires fits { datum_fits (mode_of mode.now) (datum value.now) ≡ true }
    requires there { BasesAreThere bases.old 0 (mode_of mode.now) }
    ensures put { OnOk result (IsPut bases.new at (Some (Some (datum value.now))) environment.old.now environment.new.now) }
    ensures grown { AreGrown bases.old bases.new }
    ensures gained { OnOk result (HaveGained (mode_of mode.now) bases.old bases.new (Some (datum value.now))) }
    ensures kept { environment.new.kept ≡ environment.old.kept }
    ensures refused { OnErr result ((bases.new ≡ bases.old) × (environment.new.now ≡ environment.old.now)) }
{
    setl_rep_entering::laws::bases_are_lengthened();
    environment.reserve(1)?;
    let slot = formed(alloc, mode, value, bases)?;
    environment.set_slot(at, slot);
    Ok(())
}

/// Does this to what a slot holds in the form of this mode. The answer is whether it was done.
pub(crate) fn update_at(
    alloc: Global,
    environment: &mut Contents,
    bases: &mut Bases,
    at: usize,
    mode: &Mode,
    change: &Change,
) -> Result<bool, AllocError>
    requires slot { at < length environment.old.now.slots }
    requires standing { AreStanding bases.old environment.old.now.slots }
    ensures updated { IsUpdatedAt (given_by change.now) (mode_of mode.now) bases.old bases.new at environment.old.now environment.new.now result }
    ensures kept { environment.new.kept ≡ environment.old.kept }
{
    setl_rep_entering::laws::bases_are_lengthened();
    if !is_of_mode(environment.slot(at), mode) {
        return Ok(false);
    }
    if let Err(refused) = environment.reserve(2) {
        return Err(refused);
    }
    let mut slot = match environment.replace_slot(at, Held::Taken) {
        Ok(slot) => slot,
        Err(refused) => return Err(refused),
    };
    let done = update(alloc, &mut slot, change, bases);
    environment.set_slot(at, slot);
    done
}

/// Puts the value of a slot there as it is, in no form.
pub(crate) fn plain_at(
    alloc: Global,
    environment: &mut Contents,
    bases: &Bases,
    at: usize,
) -> Result<(), AllocError>
    requires slot { at < length environment.old.now.slots }
    requires standing { AreStanding bases.now environment.old.now.slots }
    ensures again { IsPutAgain bases.now at environment.old.now environment.new.now }
    ensures kept { environment.new.kept ≡ environment.old.kept }
{
    let Held::Based(_, form) = environment.slot(at) else {
        return Ok(());
    };
    let value = plain(alloc, form.get(), bases)?;
    environment.reserve(1)?;
    environment.set_slot(at, held(value));
    Ok(())
}
