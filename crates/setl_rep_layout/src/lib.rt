//! The dump: the members of each base by block number, and what each declared variable holds, read from its form or made
//! from its value.
//!
//! Contracts say that the texts are those of the definition of the dump (`base_line` and `variable_line` of the meaning),
//! which speaks of values and of members and not of forms.
#![tactic(auto)]

mod found;
mod lines;
mod numbers;
mod parts;
mod sets;
mod values;

pub use lines::{push_base, push_value, push_variable};
