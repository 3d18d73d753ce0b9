//! Sparse tables by block number: a set of numbers, and a map from numbers to contents.
//!
//! Contracts see a `SparseSet` as a finite set. They see a `SparseMap` as the list of its entries, a number with its
//! content each, and read it by `content_at`. Its contents stand in a `Vec`, so that a type may hold itself through it.
#![tactic(auto)]

mod map;
mod set;

pub use map::SparseMap;
pub use set::SparseSet;
