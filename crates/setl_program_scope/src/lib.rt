//! Which variable a name stands for where it stands in a tree, and the numbers of formers and bodies.
//!
//! A walk over a tree goes with a `Scope`: it enters formers and leaves them, goes over to the next body, and asks for the
//! variables of names. `Opened` counts the formers of a body.
#![tactic(auto)]

mod bound;
mod held;
mod opened;
mod scope;

pub use bound::{names_of_bound, names_of_turns, put_turn};
pub use held::beside;
pub use opened::Opened;
pub use scope::Scope;
