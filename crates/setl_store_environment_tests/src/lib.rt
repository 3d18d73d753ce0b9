//! Tests of the environment: each call once, with nothing kept and under nested marks. There is no code here but
//! tests.
#![tactic(auto)]

#[cfg(test)]
mod tests;
