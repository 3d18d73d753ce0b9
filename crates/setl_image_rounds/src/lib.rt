//! Whether the ways of steps come back to the step where they began: heights that fall along each way, found by one
//! depth-first search.
#![tactic(auto)]

mod search;

pub use search::heights;
