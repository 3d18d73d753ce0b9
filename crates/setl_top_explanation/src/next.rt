//! What is told of the kinds of tokens that can stand at a place.
ghost use Rattle.std.specs.Prelude.{◌≡◌, ◌≤◌, ◌∷◌, ◌++◌, flat_map, length, IfOk, OnOk};
ghost use Rattle.setl_top_explanation.specs.Next as spec;
ghost use Rattle.setl_top_explanation.specs.Next.{AreTold};

use setl_explain_next::next_kinds;
use setl_explain_words::push_kind;
use setl_tree::Kind;
use std::alloc::{AllocError, Global};

/// The greatest length of a source of which kinds of tokens are tried.
const MOST_TRIED: usize = 1 << 20;

/// The kinds of tokens that are told of a place: none for a source of more than 2^20 bytes. The error is want of memory.
pub fn told_kinds(alloc: Global, source: &[u8], at: usize) -> Result<Vec<Kind>, AllocError>
    requires { at ≤ length source.now }
    ensures { IfOk result (λ kinds. AreTold source.now at kinds.items) }
{
    if source.len() > MOST_TRIED {
        return Ok(Vec::new(alloc));
    }
    next_kinds(alloc, source, at)
}

/// Adds a kind behind a comma.
#[tactic(auto, unfolding(crate::specs::Next::further_text))]
fn push_further(into: &mut Vec<u8>, kind: Kind) -> Result<(), AllocError>
    ensures { OnOk result (into.new.items ≡ into.old.items ++ spec.further_text kind) }
{
    into.extend_from_slice(b", ")?;
    push_kind(into, kind)
}

/// Adds kinds, each behind a comma.
fn push_all_further(into: &mut Vec<u8>, kinds: &[Kind]) -> Result<(), AllocError>
    ensures { OnOk result (into.new.items ≡ into.old.items ++ flat_map spec.further_text kinds.now) }
{
    for kind in kinds {
        push_further(into, *kind)?;
    }
    Ok(())
}

/// Adds the words before the kinds.
#[tactic(auto, unfolding(crate::specs::Next::words_before))]
fn push_words(into: &mut Vec<u8>) -> Result<(), AllocError>
    ensures { OnOk result (into.new.items ≡ into.old.items ++ spec.words_before) }
{
    into.extend_from_slice(b"Here can stand (at most ten are told): ")
}

/// Adds the line of a first kind and of others.
fn push_line(into: &mut Vec<u8>, first: Kind, others: &[Kind]) -> Result<(), AllocError>
    ensures { OnOk result (into.new.items ≡ into.old.items ++ spec.next_text (first ∷ others.now)) }
{
    push_words(into)?;
    push_kind(into, first)?;
    push_all_further(into, others)?;
    into.push(b'\n')?;
    Ok(())
}

/// Adds a line with the kinds of tokens that can stand at a place; nothing where there are none. The error is want of memory.
pub fn push_next(into: &mut Vec<u8>, kinds: &[Kind]) -> Result<(), AllocError>
    ensures { OnOk result (into.new.items ≡ into.old.items ++ spec.next_text kinds.now) }
{
    let Some((first, others)) = kinds.split_first() else {
        return Ok(());
    };
    push_line(into, *first, others)
}
