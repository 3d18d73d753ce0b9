//! A session of the debugger: its script is read from the input, and what it tells of a program's run is written to the
//! output.
//!
//! `IsScript bytes commands` says which commands bytes spell, `ScriptRefusal bytes line` with which line other bytes are
//! refused, and `IsTold session commands told` what commands tell, by the screens of the program's meaning.
#![tactic(auto)]

mod following;
mod laws;
mod scripts;

pub use following::follow;
pub use laws::script_or_refusal;
pub use scripts::load_script;
