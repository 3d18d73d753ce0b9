//! Sets and tuples as numbers and handles of one base.
//!
//! A remote set is a set of bits and a sparse set a table of numbers: both hold the numbers of their members' blocks. What
//! comes in is a member of the base already, so nothing here changes a base.
#![tactic(auto)]

mod changes;
mod numbers;
mod plain;
mod sets;
mod walk;

pub use changes::{put_in_bits, put_in_table};
pub use numbers::Numbers;
pub use plain::{member, set_of_numbers, tuple_of_handles};
pub use sets::{handle, handles, has, remote_set, sparse_set};
pub use walk::next_in;
