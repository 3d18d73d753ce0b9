//! The declarations of a program.

ghost use Rattle.std.specs.Prelude.{◌≡◌, IfOk};
ghost use Rattle.setl_names.specs.Breaks.{first_break};
ghost use Rattle.setl_names.specs.Resolves.{all_names};
ghost use Rattle.setl_modes_declarations.specs.Declares.{Declares, breaks};

use crate::names::name_break;
use crate::rules::mode_break;
use crate::table::mode_table;
use setl_modes::ModeTable;
use setl_names::{BodyNames, Break, RuleFault};
use setl_tree::{Items, Tree};
use std::alloc::{AllocError, Global};

/// The first break of the rules 19 to 28. The bodies' names are those of the tree. An error is want of memory.
fn section_break(
    alloc: Global,
    tree: &Tree,
    bodies: &[BodyNames],
) -> Result<Option<Break>, AllocError>
    requires { bodies.now ≡ all_names tree.now }
    ensures { IfOk result (λ f. f ≡ first_break (breaks tree.now)) }
{
    let first = name_break(alloc, tree, bodies)?;
    mode_break(alloc, first, tree.modes.as_slice())
}

/// The bases and the declared variables of a program, each in the order of their declarations, with their modes. The
/// bodies' names are those of the tree, as name resolution finds them.
///
/// Where a rule of 19 to 28 is broken, the error is `Broken` with the first break by line, and of one line that of the
/// lowest number. `NoMemory` is want of memory, or 2^32 bases, which no source of 2^24 bytes has.
pub fn modes(alloc: Global, tree: &Tree, bodies: &[BodyNames]) -> Result<ModeTable, RuleFault>
    requires { bodies.now ≡ all_names tree.now }
    ensures { Declares tree.now result }
{
    match section_break(alloc, tree, bodies)? {
        None => Ok(mode_table(alloc, tree.modes.as_slice())?),
        Some(first) => Err(RuleFault::Broken {
            rule: first.rule,
            line: first.line,
        }),
    }
}
