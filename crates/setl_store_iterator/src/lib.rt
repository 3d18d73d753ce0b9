//! Iterators at work: what a `begin` of the code starts, and a `next` moves on.
//!
//! Contracts see an iterator as an `IteratorState`: whether its items are pairs, and the list of the items that are left.
//! It shares the body of its source and holds a place in it, so that neither starting it nor copying it copies items.
#![tactic(auto)]

mod integers;
mod iterator;
mod points;
mod rests;
mod sources;
mod starts;

pub use iterator::{Item, Iterator};
pub use setl_operators_table::OpFault;
pub use starts::begin;
