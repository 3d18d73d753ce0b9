//! What `setl advise` tells of a source: the advice for one without declarations, and the refusal of one that has some.
//!
//! Advice is tried before it is told: the source in which it stands is read, and its declarations are looked at.
#![tactic(auto)]

mod advising;
mod place;
mod refusal;
mod trying;

pub use advising::advice;
pub use refusal::{first_line, has_repr};
