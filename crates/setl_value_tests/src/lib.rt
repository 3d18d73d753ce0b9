//! Tests of the values and their operators, of texts and denotations, and of the outside, all through public calls.
//!
//! Nothing stands on this crate. Each call is made with ample memory, and its answer is compared with worked rows. Rows
//! write operands and answers as denotations.
#![tactic(auto)]

#[cfg(test)]
mod bodies;
#[cfg(test)]
mod in_place;
#[cfg(test)]
mod operators;
#[cfg(test)]
mod order;
#[cfg(test)]
mod outside;
#[cfg(test)]
mod reading;
#[cfg(test)]
mod rows;
#[cfg(test)]
mod written;
