//! Values go into the forms of modes, over bases that don't change.
#![tactic(auto)]

mod build;
mod table;

pub use build::in_form;
