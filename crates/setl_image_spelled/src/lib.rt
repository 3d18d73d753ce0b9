//! Whether an image has a spelling, so that it can be written as a code file.
#![tactic(auto)]

mod image;
mod modes;
mod names;
mod numbers;
mod steps;

pub use image::has_spelling;
