//! The real outside: files by their paths, and streams that are read or written, each with a count of its faults.
//!
//! An output tells its bytes where the writer under it does, and an input where the reader under it does and each is
//! below 256. Real files and streams tell none.
#![tactic(auto)]

mod files;
mod streams;
#[cfg(test)]
mod tests;

pub use files::DiskFiles;
pub use streams::{ReaderSource, WriterSink};
