//! The names of bodies.

use setl_tree::{Items, Param, Text};

/// The names of a body: its own, its parameters, and the variables of its own in the order in which their names first
/// stand in its statements. Parameters, names in `var`, names of procedures and the own names of formers are not among
/// these.
#[derive(Drop)]
pub struct BodyNames {
    pub name: Text,
    pub params: Items<Param>,
    pub slots: Items<Text>,
}
