//! The kinds that can stand at a place.
ghost use Rattle.std.specs.Prelude.{◌≤◌, ◌^◌, length, IfOk, OnOk};
ghost use Rattle.setl_explain_next.specs.Firsts.{Adds};
ghost use Rattle.setl_explain_next.specs.Next.{GoesOn, IsNext};

use crate::candidates::candidates;
use crate::trying::goes_on;
use setl_tree::Kind;
use std::alloc::{AllocError, Global};

/// How many kinds are told at most.
const MOST: usize = 10;

/// Adds a kind of tokens if the source up to a place can go on with it. The error is want of memory.
fn add_if_next(
    alloc: Global,
    source: &[u8],
    at: usize,
    kind: &Kind,
    found: &mut Vec<Kind>,
) -> Result<(), AllocError>
    requires within { at ≤ length source.now }
    requires short { length source.now ≤ 2 ^ 20 }
    ensures { OnOk result (Adds (GoesOn source.now at) kind.now found.old.items found.new.items) }
{
    if goes_on(alloc, source, at, *kind)? {
        found.push(*kind)?;
        return Ok(());
    }
    Ok(())
}

/// The first ten kinds of tokens, in their order, with which the source up to a place can go on. Each kind is tried at a
/// parse of all before the place. The error is want of memory.
pub fn next_kinds(alloc: Global, source: &[u8], at: usize) -> Result<Vec<Kind>, AllocError>
    requires within { at ≤ length source.now }
    requires short { length source.now ≤ 2 ^ 20 }
    ensures { IfOk result (λ kinds. IsNext source.now at kinds.items) }
{
    let all = candidates();
    let mut found = Vec::new(alloc);
    for i in 0..all.len() {
        if found.len() >= MOST {
            return Ok(found);
        }
        add_if_next(alloc, source, at, &all[i], &mut found)?;
    }
    Ok(found)
}
