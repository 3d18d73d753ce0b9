//! The modes of a `repr` section as they are written: whether a mode, or one inside it, passes a test.
#![tactic(auto)]

mod parts;

pub use parts::{Test, any_inside, any_part};
