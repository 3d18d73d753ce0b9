//! Tables of flows, and the flow of each term of a condition by such a table.
#![tactic(auto)]

mod iterators;
mod places;
mod shapes;
mod table;
mod terms;

pub use table::Table;
pub use terms::term;
