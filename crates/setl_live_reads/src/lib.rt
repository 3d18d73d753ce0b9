//! Which reads of a body's slots are the last ones, by all paths.
#![tactic(auto)]

ghost use Rattle.std.specs.Prelude.{◌≡◌, ◌<◌, ◌^◌, ℕ, length, slice_get, Some, IfOk};
ghost use Rattle.setl_live_reads.specs.declared.node.Access.TheVariants.{Read};
ghost use Rattle.setl_live_reads.specs.Paths.{IsRight};

mod blocks;
mod chains;
mod fronts;
mod marks;
mod masks;
mod node;
mod ranges;
mod row;
mod sweep;
mod window;

use crate::blocks::into_blocks;
use crate::chains::row_chains;
use crate::ranges::{sources, spans};
use crate::row::mark_rows;
pub use node::{Access, Node, Way};
use std::alloc::{AllocError, Global};

/// For each step that reads a slot, whether no path from the next step reaches a read of that slot before a write of it.
/// `back` tells the slots that are handed back, and there are so many slots.
///
/// The error is want of memory.
pub fn last_reads(
    alloc: Global,
    nodes: &[Node],
    back: &[bool],
    slots: u32,
) -> Result<Vec<bool>, AllocError>
    requires few { length nodes.now < 2 ^ 32 }
    requires slots { (at x : ℕ) (node : _) → slice_get nodes.now at ≡ Some node → node.access ≡ Read x → x < slots }
    ensures sizes { IfOk result (λ marks. length marks.items ≡ length nodes.now) }
    ensures right { IfOk result (λ marks. (at x : ℕ) (node : _) → slice_get nodes.now at ≡ Some node → node.access ≡ Read x → IsRight nodes.now back.now marks.items at x) }
{
    let rows = slots / 64 + 1;
    let blocks = into_blocks(alloc, nodes)?;
    let sources = sources(alloc, &blocks.lasts)?;
    let spans = spans(alloc, nodes, &blocks.blocks, rows as usize)?;
    let chains = row_chains(alloc, nodes, rows as usize)?;
    let mut gens = vec![in alloc; 0u64; blocks.firsts.len()]?;
    let mut passes = vec![in alloc; 0u64; blocks.firsts.len()]?;
    let mut masks = vec![in alloc; 0u64; blocks.firsts.len()]?;
    let mut marks = vec![in alloc; false; nodes.len()]?;
    mark_rows(
        nodes,
        back,
        &blocks,
        &sources,
        &spans,
        &chains,
        rows,
        &mut gens,
        &mut passes,
        &mut masks,
        &mut marks,
    );
    Ok(marks)
}
