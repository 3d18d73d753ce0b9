//! Readers and writers of the steps of code in code files: `StepCoder` reads and adds the steps of a body with so many
//! slots.
#![tactic(auto)]

mod steps;
mod table;

pub use steps::StepCoder;
pub use table::at;
