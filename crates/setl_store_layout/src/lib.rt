//! The dump of a store: the members of the bases that it tells, and what each declared variable of the main program holds, read
//! from its form where that is of the mode.
//!
//! Contracts say that the text is that of the definition of the dump, which speaks of values and of members and not of forms.
#![tactic(auto)]

mod lines;
mod places;
mod variables;

pub use lines::layout;
