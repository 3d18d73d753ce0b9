//! What a slot holds: plain values, and values in the forms of their modes over the main program's bases, which are updated
//! where they stand; and what a return hands back of the slots of its parameters.
#![tactic(auto)]

mod cells;
mod forming;
mod handing;
mod shared;
mod updating;

pub use cells::{Held, content, is_of_mode};
pub use forming::formed;
pub use handing::handed_back;
pub use shared::Shared;
pub use updating::update;
