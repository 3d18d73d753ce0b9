//! The notation of the parts of a syntax tree: the tokens of operators, and which operands stand in parentheses.
#![tactic(auto)]

mod kinds;
mod operands;

pub use kinds::{
    attribute_kind, fold_kind, from_kind, op_kind, passing_kind, quantifier_kind, relation_kind,
};
pub use operands::{is_operation, is_selection};
