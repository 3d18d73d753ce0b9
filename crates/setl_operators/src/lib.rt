//! Any operator applied to its operands: `op` and `op_pair` take them, `op_one` and `op_two` are lent them, and each
//! answers what the table of the operators says.
#![tactic(auto)]

mod folds;
mod operands;
mod table;

pub use setl_operators_table::{Answer, OpFault, Operator};
pub use table::{op, op_one, op_pair, op_two};
