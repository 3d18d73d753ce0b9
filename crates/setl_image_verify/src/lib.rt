//! Tests of what makes code sound, one for each rule. So far: that each way round takes a turn.
#![tactic(auto)]

mod turns;

pub use turns::falling_heights;
