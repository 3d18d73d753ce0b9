//! Which constructs of a source are still open at a place, and where each began.
#![tactic(auto)]

mod effect;
mod reached;
mod text;

pub use reached::{Opening, open_at};
pub use text::push_open;
