//! Flows that meet all conditions of a program: found by a worklist, and by sweeps over the conditions until no flow changes.
#![tactic(auto)]

mod looking;
mod meet;
mod readers;
mod reads;
mod sweeps;
mod worklist;

pub use setl_advise_terms::Table;
pub use sweeps::{settled, solved};
