//! How a call of the program ends: its status, and what it loads and writes on the way there.
//!
//! `load_source` and `load_text` load the text of a file, `write_text` writes to the output, and `tell` and `refuse` write the last line.
//! Each gives the status with which the call ends where it fails, and has then tried the line of that fault, as
//! `break_off` does.
#![tactic(auto)]

mod fault;
mod laws;
mod lines;
mod reason;
mod status;
mod telling;
mod texts;

pub use fault::Fault;
pub use laws::worked_lines;
pub use lines::break_off;
pub use reason::{Reason, at_line, push_number, reason_line};
pub use status::Status;
pub use telling::{refuse, tell, tell_made};
pub use texts::{load_source, load_text, write_text};
