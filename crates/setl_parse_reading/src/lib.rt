//! How the grammar is read from left to right, and the laws between reading and the grammar. No code that runs.
#![tactic(auto)]

mod ahead;
mod claims;
mod fault;

pub use ahead::Ahead;
pub use claims::{
    canonical_tokens_derive, fault_is_unique, faults_are_exact, nestings_may_be_fewer,
    reading_meets_grammar, tree_is_unique,
};
pub use fault::Fault;
