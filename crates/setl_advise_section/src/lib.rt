//! The text of a `repr` section, by the flows of the variables that it declares.
#![tactic(auto)]

mod lines;
mod plain;
mod sections;

pub use lines::{Numbers, push_base, push_line, push_name};
pub use plain::Written;
pub use sections::{Variable, is_used, section};
