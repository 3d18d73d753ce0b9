//! Advice: the `repr` section that declares the variables of a program by its least flows, and with which no run ends for a
//! value that doesn't fit.
#![tactic(auto)]

mod advice;
mod laws;
mod numbers;
mod variables;

pub use advice::advise;
pub use laws::advice_always_fits;
