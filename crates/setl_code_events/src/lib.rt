//! What a step of code tells: its events, by its instruction and the cores before and after it, as laws; and the events
//! of calls, returns and stores as watchers are told them.
#![tactic(auto)]

mod events;
mod laws;

pub use events::{call_events, return_events, store_events};
pub use laws::{ends_tell_nothing, events_are};
