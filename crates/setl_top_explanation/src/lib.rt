//! What is told of a refused source below the line that names its fault: the place, what can stand there, and words.
#![tactic(auto)]

mod explained;
mod laws;
mod next;

pub use explained::explanation;
pub use laws::one_explanation;
