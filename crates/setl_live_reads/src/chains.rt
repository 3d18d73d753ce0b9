//! Chains of the steps that name a slot, one for each row of 64 slots.

ghost use Rattle.std.specs.Prelude.{◌≡◌, ◌+◌, ◌/◌, ◌<◌, ◌≤◌, ◌^◌, ℕ, List, Some, get_or, length, slice_get, IfOk};
ghost use Rattle.setl_live_reads.specs.Paths.{named};
ghost use Rattle.setl_live_reads.specs.Chains.{AreChains};

use crate::node::Node;
use crate::ranges::named_of;
use std::alloc::{AllocError, Global};

/// The steps that name a slot, from the latest one back. A number is that of the step behind, or 0 for none.
#[derive(Drop)]
pub(crate) struct Chains {
    /// The latest step of each row.
    pub(crate) latest: Vec<u32>,
    /// At each step, the one before it in its row.
    pub(crate) earlier: Vec<u32>,
}

/// Puts a step into the chain of the row of the slot that it names.
fn note_step(chains: &mut Chains, node: Node, at: usize)
    requires step { at < length chains.old.earlier.items }
    requires few { at + 1 < 2 ^ 32 }
    ensures sizes { (length chains.new.latest.items ≡ length chains.old.latest.items) × (length chains.new.earlier.items ≡ length chains.old.earlier.items) }
    ensures there { (slot : ℕ) → named node.access ≡ Some slot → slot / 64 < length chains.old.latest.items → (get_or chains.new.latest.items (slot / 64) 0 ≡ at + 1) × (get_or chains.new.earlier.items at 0 ≡ get_or chains.old.latest.items (slot / 64) 0) }
    ensures rows { (row : ℕ) → ((slot : ℕ) → named node.access ≡ Some slot → slot / 64 ≡ row → ⊥) → get_or chains.new.latest.items row 0 ≡ get_or chains.old.latest.items row 0 }
    ensures kept { (other : ℕ) → (other ≡ at → ⊥) → get_or chains.new.earlier.items other 0 ≡ get_or chains.old.earlier.items other 0 }
{
    let Some(slot) = named_of(node.access) else {
        return;
    };
    let row = (slot / 64) as usize;
    if row >= chains.latest.len() {
        return;
    }
    chains.earlier[at] = chains.latest[row];
    chains.latest[row] = at as u32 + 1;
}

/// The chains of the steps that name a slot of one of the first rows, so many.
pub(crate) fn row_chains(alloc: Global, nodes: &[Node], rows: usize) -> Result<Chains, AllocError>
    requires { length nodes.now < 2 ^ 32 }
    ensures sizes { IfOk result (λ r. (length r.latest.items ≡ rows) × (length r.earlier.items ≡ length nodes.now)) }
    ensures chains { IfOk result (λ r. AreChains nodes.now rows (length nodes.now) r.latest.items r.earlier.items) }
{
    let latest = vec![in alloc; 0u32; rows]?;
    let earlier = vec![in alloc; 0u32; nodes.len()]?;
    let mut chains = Chains { latest, earlier };
    'steps: for at in 0..nodes.len() {
        note_step(&mut chains, nodes[at], at);
    }
    Ok(chains)
}
