//! The instructions that push values, and those on variables, with the declarations and with updates in place.
#![tactic(auto)]

mod altering;
mod deciding;
mod declarations;
mod in_form;
mod in_place;
mod integers;
mod reading;
mod variables;

pub use altering::{Updated, alter};
pub use declarations::Declarations;
pub use in_place::update;
pub use integers::{freely_of_one, freely_of_top};
pub use variables::{load, push, push_integer, push_text, store_at_once, store_in, take};
