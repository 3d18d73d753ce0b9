//! What refusals and stops mean in words: the sentences of the page of errors, and how a kind of token is told.
//!
//! `.ci/explanations` makes the texts from docs/ERRORS.md, so that both say the same.
#![tactic(auto)]

mod fault;
mod kinds;
mod stop;
mod texts;

pub use fault::SourceFault;
pub use kinds::{push_kind, sample};
pub use stop::{Stop, stop_named};
pub use texts::{fault_text, rule_text, stop_text};
