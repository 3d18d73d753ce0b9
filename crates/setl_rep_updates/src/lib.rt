//! Values in their declared forms are updated in place.
//!
//! An update tests the new part alone, enters it into its base, and changes the form where it stands: it makes no plain
//! value. Where it has no such way, it says so and leaves all as it was.
#![tactic(auto)]

mod images;
pub mod laws;
mod maps;
mod members;
mod sets;
mod updating;

pub use images::{exclude_image, include_image};
pub use maps::{cut, put};
pub use sets::{exclude, include};
pub use updating::{Change, update};
