//! Tests of the program as one call: sources, code files, words, inputs and faults of the outside, and what a call answers
//! and writes then.
//!
//! Nothing stands on this crate. Each call is made over an outside in memory, and its answer is compared with worked
//! rows.
#![tactic(auto)]

#[cfg(test)]
mod advice;
#[cfg(test)]
mod calls;
#[cfg(test)]
mod code_files;
#[cfg(test)]
mod declarations;
#[cfg(test)]
mod dumps;
#[cfg(test)]
mod explanations;
#[cfg(test)]
mod faults;
#[cfg(test)]
mod inputs;
#[cfg(test)]
mod limits;
#[cfg(test)]
mod listings;
#[cfg(test)]
mod programs;
#[cfg(test)]
mod refusals;
#[cfg(test)]
mod rows;
#[cfg(test)]
mod searches;
#[cfg(test)]
mod sessions;
#[cfg(test)]
mod stops;
#[cfg(test)]
mod swept;
#[cfg(test)]
mod trials;
#[cfg(test)]
mod watchers;
#[cfg(test)]
mod words;
