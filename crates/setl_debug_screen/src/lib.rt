//! What the debugger shows of a state: where the program is, how it stands, and a line for each variable.
#![tactic(auto)]

mod laws;
mod place;
mod stop;
mod variables;

pub use laws::slots_show_the_state;
pub use place::push_place;
pub use variables::push_variables;
