//! The operators on sets, tuples, strings and maps as wholes: sizes, members, selections and the wholes after a put.
#![tactic(auto)]

mod changes;
mod puts;
mod selections;
mod takes;
mod wholes;

pub use changes::{less, less_in_place, lessf, lessf_in_place, with, with_in_place};
pub use puts::{add_image_in_place, put, put_images, put_images_in_place, put_in_place};
pub use selections::{get, images, slice, tail};
pub use takes::{take_first, take_last, take_least};
pub use wholes::{arb, domain, range, size};
