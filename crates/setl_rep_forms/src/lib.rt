//! Forms in which values are held over bases of element blocks.
#![tactic(auto)]

mod held;
pub mod laws;

pub use held::Held;
