//! The bases of a run: one base of element blocks for each instance.
//!
//! The main program has one instance of each of its bases, and each activation of a procedure has instances of its own of
//! the procedure's bases. An instance is named by the number of its base and the number of its activation, which is 0 for
//! the main program. An instance that goes at return while something is kept is left there as gone, so that it can come
//! again.
//!
//! Contracts see `Bases` as a `BasesState`: how many bases the main program has, and a finite map from names to instances.
//! `Bases::marks` tells what all of them have, and `Bases::back_to` brings them back to that.
#![tactic(auto)]

mod bases;
pub mod laws;
mod marks;
mod tables;

pub use bases::Bases;
pub use marks::{BaseMarks, Mark};

/// The name of an instance of a base: the number of the base, and that of the activation, 0 for the main program.
#[derive(Clone, Copy, Debug, PartialEq, Eq, PartialOrd, Ord)]
pub struct BaseId {
    pub base: u32,
    pub instance: u64,
}
