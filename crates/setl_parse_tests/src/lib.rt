//! Tests of the front end: sources, and what the lexer, the parser, the canonical text and name resolution give for
//! them. Nothing stands on this crate.
#![tactic(auto)]

#[cfg(test)]
mod faults;
#[cfg(test)]
mod names;
#[cfg(test)]
mod nestings;
#[cfg(test)]
mod programs;
#[cfg(test)]
mod rows;
#[cfg(test)]
mod tokens;
#[cfg(test)]
mod trees;
