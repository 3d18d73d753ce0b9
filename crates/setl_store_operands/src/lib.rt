//! Operands, and members of collections that are being built.
#![tactic(auto)]

mod cells;
mod collections;
pub mod laws;
mod lent;
mod values;

pub use cells::{Member, Operand};
pub use lent::{AsHeld, Lent, in_form, lend, operand_of_form, plain_as, plain_in};
pub use values::{is_value, operand, operand_in, served, value};
