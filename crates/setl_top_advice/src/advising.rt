//! The advice for a source.
ghost use Rattle.std.specs.Prelude.{◌≡◌, ◌≤◌, ◌^◌, [], length, IfOk};
ghost use Rattle.setl_program_laws.specs.Claims.{IsAccepted};
ghost use Rattle.setl_top_advice.specs.Advised.{IsAdvised};

use crate::place::with_section;
use crate::trying::{tokens_of, try_source};
use setl_advise::advise;
use setl_advise_names::spelled_names;
use setl_tree::Tree;
use std::alloc::{AllocError, Global};

/// The advice for a source with this tree, which has no declarations. The source in which it stands is accepted, where it has
/// at most 2^24 bytes, and no run of it ends for a value that doesn't fit. The error is want of memory, or that this couldn't
/// be told of the source in which the advice stands.
pub fn advice(alloc: Global, source: &[u8], tree: &Tree) -> Result<Vec<u8>, AllocError>
    requires short { length source.now ≤ 2 ^ 24 }
    requires accepted { IsAccepted tree.now }
    requires bare { tree.now.modes ≡ [] }
    ensures { IfOk result (λ text. IsAdvised source.now tree.now text.items) }
{
    let list = tokens_of(alloc, source)?;
    let names = spelled_names(alloc, &list)?;
    let text = advise(alloc, &names, tree)?;
    let (_place, whole) = with_section(alloc, &list, &text)?;
    try_source(alloc, &whole)?;
    Ok(text)
}
