//! What slots hold.

ghost use Rattle.std.specs.Prelude.{◌≡◌, true, IfOk};
ghost use Rattle.std.specs.Option.{option_map};
ghost use Rattle.setl_modes.specs.Modes.{mode_of};
ghost use Rattle.setl_value.specs.code.DatumOf.{part};
ghost use Rattle.setl_store_slots.specs.Slots.{content_of, IsStanding};
ghost use Rattle.setl_store_slots.specs.Updates.{IsOfMode};

use crate::shared::Shared;
use setl_modes::Mode;
use setl_modes_same::same_mode;
use setl_rep_bases::Bases;
use setl_rep_plain::plain;
use setl_store_environment::Copied;
use setl_value::Value;
use std::alloc::{AllocError, Global};

/// What a slot holds.
#[derive(Drop)]
pub enum Held {
    Om,
    Value(Value),
    /// Nothing: its value was taken, and it is stored before it is read again.
    Taken,
    /// A value, or `om`, in the form of this mode, over the bases of the main program.
    Based(Shared<Mode>, Shared<setl_rep_forms::Held>),
}

impl Copied for Held {
    fn copied(&self) -> Result<Held, AllocError> {
        match self {
            Held::Om => Ok(Held::Om),
            Held::Value(value) => Ok(Held::Value(value.copy()?)),
            Held::Taken => Ok(Held::Taken),
            Held::Based(mode, held) => Ok(Held::Based(mode.copy()?, held.copy()?)),
        }
    }
}

/// The plain value, or `om`, that a slot holds, whose form stands over these bases; or None where it was taken.
///
/// The error is want of memory.
pub fn content(
    alloc: Global,
    slot: &Held,
    bases: &Bases,
) -> Result<Option<Option<Value>>, AllocError>
    requires { IsStanding bases.now slot.now }
    ensures { IfOk result (λ content. content_of bases.now slot.now ≡ option_map part content) }
{
    match slot {
        Held::Om => Ok(Some(None)),
        Held::Value(value) => Ok(Some(Some(value.copy()?))),
        Held::Taken => Ok(None),
        Held::Based(_, held) => Ok(Some(plain(alloc, held.get(), bases)?)),
    }
}

/// Whether a slot holds something in the form of this mode.
pub fn is_of_mode(slot: &Held, mode: &Mode) -> bool
    ensures { result ≡ true → IsOfMode (mode_of mode.now) slot.now }
{
    match slot {
        Held::Based(own, _) => same_mode(own.get(), mode),
        Held::Om | Held::Value(_) | Held::Taken => false,
    }
}
