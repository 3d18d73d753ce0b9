//! The operators on numbers and booleans: arithmetic, which serves sets, tuples and strings too, comparisons, membership
//! and kinds.
#![tactic(auto)]

mod numbers;
mod owned;
mod truths;

pub use numbers::{
    absolute, divide, even, greater, lesser, minus, minus_in_place, modulo, negate, odd, plus,
    plus_in_place, power, times,
};
pub use owned::{difference, sum};
pub use truths::{
    at_most, below, both, either, equal, is_atom, is_boolean, is_in, is_integer, is_map, is_set,
    is_string, is_tuple, negation, not_equal, not_in, subset,
};
