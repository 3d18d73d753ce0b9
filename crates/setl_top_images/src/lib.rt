//! Code files: which bytes are one, why others aren't, and the bytes of an image.
//!
//! `read_image` gives the image of a code file, or its first flaw by length, spelling and soundness; `image_text` gives the
//! bytes of an image. `IsCodeFile` and `IsFlawed` say what they mean.
#![tactic(auto)]

mod images;
mod laws;

pub use images::{Flaw, MOST_BYTES, Unread, flaw_line, image_text, read_image};
pub use laws::one_code;
