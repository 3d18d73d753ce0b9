//! The control of a run, which `fail` doesn't bring back (turns, atoms and the reader of the input), how a run ends,
//! the tests of declared variables, and the instructions `ok`, `fail` and `succeed`.
#![tactic(auto)]

mod backtracking;
mod control;
mod declaration;
mod end;
mod operands;
mod updating;

pub use backtracking::{back, forget, keep};
pub use control::Control;
pub use declaration::{Declaration, refusal};
pub use end::{End, StopKind};
pub use operands::{end_by, go_on, pop_top};
pub use updating::{Target, end_update};
