//! Values held in the forms of their declarations: how a value goes into the form of a mode, and operators on forms.
#![tactic(auto)]

mod applied;
mod by_change;
mod by_kernel;
mod by_table;
mod conversion;
mod own_form;
mod own_map;

pub use applied::{Applied, apply};
pub use conversion::{ConvertFault, convert};
