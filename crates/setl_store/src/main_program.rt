//! What the main program has, whatever body is at work.

ghost use Rattle.std.specs.Prelude.{◌≡◌, ◌<◌, None, length};
ghost use Rattle.setl_code.specs.CodeCore.{There, main_held};
ghost use Rattle.setl_code.specs.Plain.{plain_slot};
ghost use Rattle.setl_model_runs.specs.Variable.{Variable};
ghost use Rattle.setl_store.specs.Flat.{held_of, main_place};
ghost use Rattle.setl_store.specs.MainProgram.{main_variables, AreTold, HasMainSlot, IsMissing, IsStored};
ghost use Rattle.setl_store_slots.specs.Slots.{IsStanding};

use crate::cells::Contents;
use crate::store::Store;
use setl_code::{Code, Slot};
use setl_modes::Mode;
use setl_rep_bases::Bases;
use setl_store_slots::Held;
use setl_value::Value;

/// What a variable of the main program holds, as the store has it.
pub enum Stored<'a> {
    /// Nothing: its value was taken.
    Taken,
    Om,
    Value(&'a Value),
    /// A value, or `om`, in the form of this mode.
    Based(&'a Mode, &'a setl_rep_forms::Held),
}

impl<'c> Store<'c> {
    /// The bases of the main program. It takes no memory.
    pub fn told_bases(&self) -> &Bases
        ensures { AreTold self.now.bases result.now }
    {
        &self.bases
    }

    /// What a slot of the main program holds, whatever body is at work, and the bases of its form. It takes no memory.
    pub fn main_slot(&self, slot: Slot) -> (Stored<'_>, &Bases)
        requires { HasMainSlot self.now.code slot }
        ensures holds { IsStored result.1.now (main_held (plain_slot (main_variables self.now.code) slot) self.now.core) result.0 }
        ensures bases { AreTold self.now.bases result.1.now }
    {
        let place = main_place(self.code, &self.environment, slot);
        (as_stored(self.environment.slot(place)), &self.bases)
    }

    /// Has no effect: it hands a proof that a variable which the main program doesn't have is `om`.
    pub fn learn_main(&self)
        ensures { (x : Variable) → IsMissing self.now.code x → main_held x self.now.core ≡ There None }
    {
        let _at = self.at;
    }
}

/// The place of a slot of the main program.
fn main_place(code: &Code, environment: &Contents, slot: Slot) -> usize
    requires { main_place code.now slot < length environment.now.now.slots }
    ensures { result ≡ main_place code.now slot }
{
    let _slots = environment.slots();
    match slot {
        Slot::Global(k) => k as usize,
        Slot::Own(k) => code.vars.len() + k as usize,
    }
}

/// What a slot holds.
fn as_stored(slot: &Held) -> Stored<'_>
    ensures { (bs : _) → IsStanding bs slot.now → IsStored bs (held_of bs slot.now) result }
{
    match slot {
        Held::Om => Stored::Om,
        Held::Value(value) => Stored::Value(value),
        Held::Taken => Stored::Taken,
        Held::Based(mode, held) => Stored::Based(mode.get(), held.get()),
    }
}
