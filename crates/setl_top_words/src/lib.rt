//! The words of the command line: their plain form, and what is told of other words.
//!
//! The commands are `run [--unbased] [--dump] [--turns N] [--watch NAME] FILE`, `exec` with the same options, `check FILE`, `code
//! FILE`, `build FILE`, `advise FILE`, `explain FILE`, `explain --stop NAME`, `debug [--unbased] FILE` and `trial SEED N`.
//! `Spells` is their plain form, which `read_words` decides. Of other words `fault_text` tells what `clap` says, where it
//! refuses them.
#![tactic(auto)]

mod debug;
mod explain;
mod given;
mod laws;
mod line;
mod number;
mod reading;
mod single;
mod told;
mod trial;
mod watching;

pub use laws::{faulty_words, one_command, plain_words};
pub use reading::{Command, FileKind, read_words};
pub use setl_top_options::{Asked, Options};
pub use told::fault_text;
