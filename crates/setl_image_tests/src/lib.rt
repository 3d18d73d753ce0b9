//! Tests of code files. Nothing stands on this crate.
#![tactic(auto)]

#[cfg(test)]
mod images;
#[cfg(test)]
mod sound;
#[cfg(test)]
mod turns;
