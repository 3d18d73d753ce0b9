//! The fields of element blocks: what objects keep in the blocks of a base.
//!
//! An object is named by a number, a block by its number in the base, and the two make a place. A place may have room, and
//! then it has a bit and a content that may be there. Contracts see `Fields` as a `FieldState`: the set of the places that
//! have room, the set of those whose bit is on, and the finite map from places to contents.
#![tactic(auto)]

mod fields;

pub use fields::Fields;
