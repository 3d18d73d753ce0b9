//! Watchers, which are told the events of a run and report what they were told: a trace, a cover, a profile and hits.
//!
//! A watcher is told each event once, in order, up to the one where it has enough. Contracts see a watcher as a `Watch`:
//! a name, plain data that it knows, how an event changes this and whether the watcher has enough then, the bytes that it
//! reports, and how much it has counted. `Trace` keeps the first 1,000 events, `Cover` counts the stores of each line,
//! `Profile` the calls of each procedure, and `Hits` the stores of one line.
#![tactic(auto)]

mod cover;
mod event;
mod hits;
mod laws;
mod profile;
mod text;
mod trace;
mod watcher;

pub use cover::Cover;
pub use event::Event;
pub use hits::Hits;
pub use laws::told_in_parts;
pub use profile::Profile;
pub use trace::Trace;
pub use watcher::{Wants, Watcher, report_all, tell, tell_each};
