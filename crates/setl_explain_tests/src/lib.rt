//! Tests of what is told of refused sources and of stops. Nothing stands on this crate.
#![tactic(auto)]

#[cfg(test)]
mod calls;
#[cfg(test)]
mod slips;
