//! The canonical text of a syntax tree.
#![tactic(auto)]

mod expressions;
mod lists;
mod modes;
mod operators;
mod programs;
mod simple;
mod statements;
mod writer;

ghost use Rattle.std.specs.Prelude.{◌≡◌, IfOk};
ghost use Rattle.setl_tree.specs.Canonical.{canonical};
ghost use Rattle.setl_show.specs.Text.{text_of};

use crate::programs::program;
use crate::writer::Writer;
use setl_tree::Tree;
use std::alloc::{AllocError, Global};

/// The text of a tree: its canonical tokens in their order, with one blank between two, and byte 10 behind each `;`
/// in place of the blank. It ends in `;` and byte 10.
///
/// # Errors
///
/// Want of memory.
pub fn show(alloc: Global, t: &Tree) -> Result<Vec<u8>, AllocError>
    ensures { IfOk result (λ text. text.items ≡ text_of (canonical t.now)) }
{
    let mut to = Writer::new(alloc);
    program(t, &mut to)?;
    Ok(to.into_bytes())
}
