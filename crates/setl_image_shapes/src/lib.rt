//! Whether steps have a table of shapes: the kinds of the operands at each step that is reached, where no step lacks one.
#![tactic(auto)]

mod effect;
mod stacks;
mod walk;

pub use effect::Effect;
pub use stacks::Kind;
pub use walk::has_table;
