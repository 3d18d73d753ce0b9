//! Tests of declarations: programs with a `repr` section, and what their declarations give or which rule they break; and
//! modes, values and what fits. Nothing stands on this crate.
#![tactic(auto)]

#[cfg(test)]
mod fits;
#[cfg(test)]
mod sections;
