//! The bases that a mode names are lengthened by the values at their places in a value of that mode.
//!
//! Each store of a value in a declared variable enters the values at its places `elmt b` into the instance that the base
//! `b` has in the activation: in canonical order, and only those that aren't members yet. There are no forms here.
#![tactic(auto)]

mod enter;
pub mod laws;
mod places;
mod there;

pub use enter::{Mark, base_marks, enter_places, take_back};
pub use places::are_entered;
pub use there::bases_are_there;
