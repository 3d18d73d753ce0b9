//! The laws of maps that are kept as tables: their pairs, the images of a point, and slots as tables.
#![tactic(auto)]

pub mod laws;
