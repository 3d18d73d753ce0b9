//! Whether the steps of a body have a table of shapes, so that no operand is ever missing or of a wrong kind.
#![tactic(auto)]

mod shapes;

pub use shapes::{Signature, has_shapes, signatures};
