//! What a name means and the rules of names, as definitions; tables of names; and the tests of the rules on what
//! stands in the statements of a body.
//!
//! `Names` and `Procs` are tables of names. `body_break` tests the rules 9 to 18 on what stands in the statements of a
//! body.
#![tactic(auto)]

mod around;
mod bodies;
mod broken;
mod head;
mod laws;
mod name;
mod names;
mod occurrence;
mod procs;
mod rules;

pub use around::Around;
pub use bodies::BodyNames;
pub use broken::{Break, RuleFault, noted, noted_if};
pub use head::{Declares, Entry, noted_again};
pub use laws::worked_rows;
pub use name::Name;
pub use names::Names;
pub use occurrence::{Argument, Occurrence, What};
pub use procs::Procs;
pub use rules::body_break;
