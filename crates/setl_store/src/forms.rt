//! Values of variables in the forms of their modes.

ghost use Rattle.std.specs.Prelude.{◌≡◌, ◌∷◌, [], true, length, Some, IfOk, IsTrue, OnErr};
ghost use Rattle.setl_code.specs.CodeCore.{There, write};
ghost use Rattle.setl_code.specs.MayRun.{HasSlot};
ghost use Rattle.setl_code.specs.Plain.{plain_slot};
ghost use Rattle.setl_modes.specs.Fits.{datum_fits};
ghost use Rattle.setl_modes.specs.Modes.{Mode as PlainMode, mode_of};
ghost use Rattle.setl_rep_updates.specs.Changed.{given_by};
ghost use Rattle.setl_store.specs.Forms.{UpdatesFreely};
ghost use Rattle.setl_store.specs.Gained.{with_places};
ghost use Rattle.setl_store.specs.Standing.{variables, Becomes};
ghost use Rattle.setl_value.specs.code.DatumOf.{datum};

use crate::putting::{plain_at, put_formed, update_at};
use crate::store::{Store, place};
use setl_code::Slot;
use setl_modes::Mode;
use setl_rep_entering::bases_are_there;
use setl_rep_updates::Change;
use setl_value::Value;
use std::alloc::AllocError;

impl<'c> Store<'c> {
    /// Whether the store tells the bases of the main program. It takes no memory.
    #[inline(always)]
    pub fn tells(&self) -> bool
        ensures { ¬ IsTrue result → self.now.bases ≡ [] }
    {
        self.bases.len() > 0
    }

    /// Stores a value in a variable's slot, in the form of a mode that it fits, and enters the values at its places into their
    /// bases. Where the mode names a base that isn't there, a store that tells no bases has the value as it is.
    ///
    /// The error is want of memory, or that a base isn't there of a store that tells its bases; and then all is as before. The cost
    /// is near linear in the size of the value.
    pub fn assign(&mut self, slot: Slot, mode: &Mode, value: Value) -> Result<(), AllocError>
        requires slot { HasSlot (length self.old.core.globals) (length self.old.core.now.own) slot }
        requires fits { datum_fits (mode_of mode.now) (datum value) ≡ true }
        ensures { Becomes result self.old self.new (record self.old { core = write (plain_slot (variables self.old.core) slot) (There (Some (datum value))) self.old.core; bases = with_places 0 (mode_of mode.now) (datum value) self.old.bases }) }
    {
        if !bases_are_there(mode, 0, &self.bases) {
            return self.set_untold(slot, value);
        }
        setl_rep_bases::laws::cuts_are_exact();
        setl_rep_updates::laws::forms_of_main_stay();
        setl_store_operands::laws::operands_stay();
        let at = place(&self.environment, slot);
        put_formed(
            self.alloc,
            &mut self.environment,
            &mut self.bases,
            at,
            mode,
            &value,
        )
    }

    // Stores a value as it is, where no bases are told.
    fn set_untold(&mut self, slot: Slot, value: Value) -> Result<(), AllocError>
        requires { HasSlot (length self.old.core.globals) (length self.old.core.now.own) slot }
        ensures { (m : PlainMode) → Becomes result self.old self.new (record self.old { core = write (plain_slot (variables self.old.core) slot) (There (Some (datum value))) self.old.core; bases = with_places 0 m (datum value) self.old.bases }) }
    {
        if self.tells() {
            return Err(AllocError);
        }
        self.set_slot(slot, Some(value))
    }

    /// Does this to the set or map that a variable's slot holds in the form of this mode, in place: values at its places are entered
    /// into their bases first. The answer is whether there is such a way, and else all is as before.
    ///
    /// The error is want of memory, and then all is as before. Where nobody else holds the set or map, the cost is near linear in
    /// the size of what is put in or taken out alone.
    pub fn update(&mut self, slot: Slot, mode: &Mode, change: &Change) -> Result<bool, AllocError>
        requires { HasSlot (length self.old.core.globals) (length self.old.core.now.own) slot }
        ensures done { IfOk result (UpdatesFreely (given_by change.now) (mode_of mode.now) (plain_slot (variables self.old.core) slot) self.old self.new) }
        ensures refused { OnErr result (self.new ≡ self.old) }
    {
        setl_rep_bases::laws::cuts_are_exact();
        setl_rep_updates::laws::forms_of_main_stay();
        setl_store_operands::laws::operands_stay();
        let at = place(&self.environment, slot);
        update_at(
            self.alloc,
            &mut self.environment,
            &mut self.bases,
            at,
            mode,
            change,
        )
    }

    /// Has a variable's slot hold its value as it is, in no form.
    ///
    /// The error is want of memory. The variable has what it had in both cases.
    pub fn make_plain(&mut self, slot: Slot) -> Result<(), AllocError>
        requires { HasSlot (length self.old.core.globals) (length self.old.core.now.own) slot }
        ensures { self.new ≡ self.old }
    {
        let at = place(&self.environment, slot);
        plain_at(self.alloc, &mut self.environment, &self.bases, at)
    }
}
