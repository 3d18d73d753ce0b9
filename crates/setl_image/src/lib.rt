//! Code files: `encode` writes an image, which is code with the modes of its declared variables, as bytes, and `decode`
//! reads it from them.
//!
//! Contracts see an image as plain data: `image_of i` is what the image `i` stands for. How its bytes are spelled is said
//! by the codec `image` of `setl_image_format`: one image has one spelling, and no two have the same.
#![tactic(auto)]

mod bodies;
mod image;
mod modes;
mod names;
mod own_names;
mod sections;

pub use image::{Image, decode, encode};
pub use setl_image_codec::ImageFault;
