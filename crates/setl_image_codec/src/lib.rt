//! Codecs, which say how values are written as bytes and read from them, as definitions; and the readers and writers of
//! numbers, texts, names and lists, each of which gives what its codec reads, or adds what its codec writes.
//!
//! `Spells c a bytes` says that the codec `c` spells the value `a` by these bytes. A spelling is a function of the value,
//! so one value has one spelling. The laws of the codecs stand in `setl_image_format`.
#![tactic(auto)]

mod fault;
mod lists;
mod numbers;
mod texts;

pub use fault::ImageFault;
pub use lists::{Coder, push_list, read_list};
pub use numbers::{push_integer, push_number, read_integer, read_number};
pub use texts::{is_name, name_of, push_text, read_counted, read_name, read_text};
