//! Tests of the listing of code. Nothing stands on this crate.
#![tactic(auto)]

#[cfg(test)]
mod listings;
