//! Whether an update of a part keeps that a whole fits its mode, as the part alone tells.
//!
//! A whole that fits a mode isn't tested again where its part at some selectors gets a new value: each selector leads to the
//! mode of the part that it selects, and the new part is tested by that mode. Where the part alone doesn't tell, the answer
//! says so, and the whole is to be tested.
#![tactic(auto)]

ghost use Rattle.setl_modes_parts.specs.Laws.{ValuesFit, ImagesFit, PutsFit, SetPutsFit, CombinedFit, LeastTakenFits, FirstTakenFits, LastTakenFits};

mod combining;
mod selecting;

pub use combining::combines;
pub use selecting::{images_mode, value_mode};
pub use setl_operators_table::Operator;

/// Has no effect: it hands a proof the laws that the tests of parts decide whether a whole fits. A part that is read fits the
/// mode at its selector, and a part of that mode that is put keeps that the whole fits; so does a value that `combines` lets
/// through, and what is taken out of a whole.
pub fn parts_decide()
    ensures values { ValuesFit }
    ensures images { ImagesFit }
    ensures puts { PutsFit }
    ensures set_puts { SetPutsFit }
    ensures combined { CombinedFit }
    ensures least { LeastTakenFits }
    ensures first { FirstTakenFits }
    ensures last { LastTakenFits }
{
    setl_set::laws::operations_have_their_members();
}
