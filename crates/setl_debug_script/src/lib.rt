//! Scripts of `setl debug`, which are read from bytes: commands in lines, and the first faulty line of what is no script.
//!
//! `AreCommands (lines bytes) commands` says which commands the bytes of a script spell, and `IsFirstFault (lines bytes) n`
//! that the n-th line is the first that spells none. Exactly one of them holds, for one list of commands or one line.
#![tactic(auto)]

mod command;
mod fault;
mod lines;
mod number;
mod reading;
mod script;

pub use command::Command;
pub use fault::ScriptFault;
pub use reading::read_script;
pub use script::Script;
