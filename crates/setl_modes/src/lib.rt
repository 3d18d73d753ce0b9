//! The modes of declared variables, and which values fit them.
//!
//! Contracts see a mode as plain data: `mode_of m` is what the mode `m` stands for.
#![tactic(auto)]

ghost use Rattle.setl_modes.specs.FitLaws.{FormsChangeNothing};

mod copies;
mod mode;

pub use copies::{copied, copied_box};
pub use mode::{Form, Mode, ModeTable, NamedMode};

/// How a declared variable keeps its values has no part in which values it takes: those are the same without its
/// attributes, and with the modes of its bases in their place.
pub fn forms_change_nothing()
    ensures { FormsChangeNothing }
{}
