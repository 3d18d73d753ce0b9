//! What is known of an operand.

ghost use Rattle.std.specs.Prelude.{◌≡◌};
ghost use Rattle.setl_advise_flows.specs.Operators as operators;
ghost use Rattle.setl_advise_lattice.specs.code.Levels.{flow_of, shape_of};

use crate::flow::{Flow, join, tuple_flow};

/// What is known of an operand: its flow; or that it is written as a literal, or as a pair of literals.
#[derive(Clone, Copy, Debug)]
pub enum Shape {
    Plain(Flow),
    Constant(Flow),
    Written(Flow, Flow),
}

impl Shape {
    /// The flow of the operand.
    pub fn flow(self) -> Flow
        ensures { flow_of result ≡ operators.flow_of (shape_of self) }
    {
        match self {
            Shape::Plain(f) => f,
            Shape::Constant(f) => f,
            Shape::Written(f, g) => tuple_flow(join(f, g)),
        }
    }
}
