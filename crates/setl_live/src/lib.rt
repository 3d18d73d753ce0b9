//! Last uses of variables: `take_marks` makes takes, which move a value, of the loads that are last uses, and
//! `takes_are_last` tells whether the takes of a body are last uses.
#![tactic(auto)]

mod marking;
mod nodes;
mod slots;
mod taking;

pub use marking::take_marks;
pub use slots::declared_among;
pub use taking::takes_are_last;
