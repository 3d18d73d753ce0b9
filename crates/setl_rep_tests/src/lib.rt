//! Tests of values in forms over bases: conversions, operators on forms, updates in place, maps and bases, as tables of rows, and
//! what is large or deep. There is no code here but tests.
#![tactic(auto)]

#[cfg(test)]
mod conversions;
#[cfg(test)]
mod holding;
#[cfg(test)]
mod instances;
#[cfg(test)]
mod large;
#[cfg(test)]
mod modes;
#[cfg(test)]
mod operators;
#[cfg(test)]
mod updates;
#[cfg(test)]
mod values;
