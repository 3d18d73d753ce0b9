//! Flows of at most three constructors inside one another: their joins, and what operators make of them.
#![tactic(auto)]

mod flow;
mod level;
mod operators;
mod shape;

pub use flow::{
    Flow, argument_flow, domain_flow, el, get_flow, images_flow, is, join, map_flow, part,
    put_flow, put_images_flow, set_flow, tuple_flow,
};
pub use level::{Flat, Kind, Level, Part};
pub use operators::op_shape;
pub use shape::Shape;
