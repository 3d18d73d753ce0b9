//! Sound images: `verify` tells whether the code and the declarations of a code file may be run.
//!
//! Contracts see an image as plain data, as `setl_image` does. `SoundImage` says what a sound image is.
#![tactic(auto)]

mod bodies;
mod laws;
mod parts;
mod verifying;

pub use laws::sound_images_run;
pub use verifying::{VerifyFault, verify};
