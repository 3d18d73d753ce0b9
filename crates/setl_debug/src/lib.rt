//! The session of the debugger: the commands of a script over the states of one run, forth and back.
//!
//! `Follows shows commands k told next` says what the commands tell, from the state after k turns on, and after how many
//! turns the session stands at their end.
#![tactic(auto)]

mod laws;
mod obeying;
mod place;
mod sessions;
mod until;

pub use laws::back_undoes_on;
pub use sessions::{Ended, session};
