//! Tests of iterators over each kind of source, through public calls, on rows that are written as denotations. There
//! is no code here but tests.
#![tactic(auto)]

#[cfg(test)]
mod tests;
