//! The machine that runs the code of a program: by steps, over a store, a control, an input and an output.
#![tactic(auto)]

mod at_once;
mod backtracking;
mod calling;
mod conditions;
mod dispatch;
mod families;
mod held;
mod iterating;
mod laws;
mod machine;
mod operating;
mod outside;
mod quiet;
mod telling;
mod values;
mod variables;
mod watching;

pub use laws::{ends_change_nothing, ends_write_nothing, steps_add};
pub use machine::{run, run_whole};
pub use setl_machine_control::{Control, End, StopKind};
pub use setl_machine_variables::Declarations;
pub use telling::step_telling;
pub use watching::run_watched;
