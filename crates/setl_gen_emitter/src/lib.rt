//! Code under construction: steps that grow, with targets of jumps that are filled in behind; the variables of a body and
//! their slots; and the short pieces of code that have no expression and no statement inside.
//!
//! Contracts see an emitter as what it holds (`held`): the variables of the body, the steps as plain data, the jumps out
//! of the innermost loop, and where that loop goes on. Where memory is wanting, nothing is known of it afterwards.
#![tactic(auto)]

mod binds;
mod emitter;
mod hole;
mod names;
mod simple;

pub use binds::{bind, clear_all, parts, store_set};
pub use emitter::{Emitter, number};
pub use hole::Hole;
pub use names::Names;
pub use simple::{
    add_and_go_on, begin, begin_selection, end_undecided, keep_or_drop, leave_decided, quit,
};
