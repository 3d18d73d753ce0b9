//! The variables of programs, and the rules of names that they break.

use crate::rows::{read, show_bytes};
use setl_names::BodyNames;
use setl_names_walk::resolve;
use setl_tree::Tree;
use std::alloc::{AllocError, Global};
use std::fmt::Write;

/// Programs, and their slots in the order of their first appearance, or the rule that each breaks. A line `====` stands
/// between two rows.
pub const PROGRAMS: &str = "program p;
s := t;
t := r;
end; => s t r\x20
====
program p;
quit;
end; => Broken { rule: 13, line: 2 }";

/// The slots of a body, each with a blank behind it.
fn show_body(body: &BodyNames, shown: &mut String) -> Result<(), AllocError> {
    for slot in body.slots.as_slice() {
        show_bytes(slot.bytes(), shown)?;
        shown.push(' ')?;
    }
    Ok(())
}

fn show_bodies(bodies: &[BodyNames], shown: &mut String) -> Result<(), AllocError> {
    for body in bodies {
        show_body(body, shown)?;
    }
    Ok(())
}

/// The slots of all bodies, or the first rule that the program breaks.
fn show_names(alloc: Global, tree: &Tree, shown: &mut String) -> Result<(), AllocError> {
    match &resolve(alloc, tree) {
        Ok(bodies) => show_bodies(bodies.as_slice(), shown),
        Err(fault) => write!(shown, "{fault:?}"),
    }
}

/// The slots of the program of a short source, or the first rule that it breaks.
pub fn show_slots(alloc: Global, source: &str, shown: &mut String) -> Result<(), AllocError> {
    match &read(alloc, source.as_bytes()) {
        Some(Ok(tree)) => show_names(alloc, tree, shown),
        _ => Ok(()),
    }
}
