//! Updates in place: the part of a value at some selectors gets another value, as `f(x){y} := v` does, is combined with
//! one, as `f(x) +:= v` does, or has one taken out, as `x from f(y)` does.
//!
//! Contracts state the new whole, and what is charged, by the definitions of the model: `with_part_at_all`, `combined`,
//! and `part_at_all` with `take_out`. Of several faults the first on the way is told, and the whole is then as before.
#![tactic(auto)]

mod one_image;
mod one_part;
mod selectors;
mod taking;
mod two_parts;
mod updates;

pub use selectors::Selector;
pub use setl_operators_table::{OpFault, Operator};
pub use setl_program::Taking;
pub use taking::{TakenOut, take_at};
pub use updates::{combine_at, put_at};
