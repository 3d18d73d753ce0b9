//! From where blocks are jumped to, and where slots are named.

ghost use Rattle.std.specs.Prelude.{◌≡◌, ◌+◌, ◌/◌, ◌<◌, ◌≤◌, ◌^◌, ℕ, List, Some, length, slice_get, IfOk};
ghost use Rattle.setl_live_reads.specs.Paths.{target, named};
ghost use Rattle.setl_live_reads.specs.Ranges.{InRange, Sourced, Spanned};

use crate::node::{Access, Node, Way};
use std::alloc::{AllocError, Global};

/// A range of blocks for each of some places, from the first to the last one.
#[derive(Drop)]
pub(crate) struct Ranges {
    pub(crate) first: Vec<u32>,
    pub(crate) last: Vec<u32>,
}

impl Ranges {
    /// Empty ranges.
    fn new(alloc: Global, count: usize) -> Result<Ranges, AllocError>
        ensures { IfOk result (λ r. (length r.first.items ≡ count) × (length r.last.items ≡ count)) }
    {
        let first = vec![in alloc; u32::MAX; count]?;
        let last = vec![in alloc; 0u32; count]?;
        Ok(Ranges { first, last })
    }

    /// Widens the range at a place, so that this block is in it.
    fn note(&mut self, place: usize, at: u32)
        requires first { place < length self.old.first.items }
        requires last { place < length self.old.last.items }
        ensures sizes { (length self.new.first.items ≡ length self.old.first.items) × (length self.new.last.items ≡ length self.old.last.items) }
        ensures there { InRange self.new.first.items self.new.last.items place at }
        ensures kept { (p x : ℕ) → InRange self.old.first.items self.old.last.items p x → InRange self.new.first.items self.new.last.items p x }
    {
        if at < self.first[place] {
            self.first[place] = at;
        }
        if at > self.last[place] {
            self.last[place] = at;
        }
    }
}

/// The step to which a step jumps, if it does.
pub(crate) fn target_of(way: Way) -> Option<u32>
    ensures { result ≡ target way }
{
    match way {
        Way::To(to) | Way::Either(to) => Some(to),
        Way::On | Way::Nowhere => None,
    }
}

/// The slot that a step names, if it names one.
pub(crate) fn named_of(access: Access) -> Option<u32>
    ensures { result ≡ named access }
{
    match access {
        Access::Read(slot) | Access::Write(slot) => Some(slot),
        Access::Nothing | Access::HandBack => None,
    }
}

/// Puts a block into the range of the block to which it jumps.
fn note_target(ranges: &mut Ranges, node: Node, at: u32)
    requires sizes { length ranges.old.first.items ≡ length ranges.old.last.items }
    ensures sizes { (length ranges.new.first.items ≡ length ranges.old.first.items) × (length ranges.new.last.items ≡ length ranges.old.last.items) }
    ensures there { (to : ℕ) → target node.way ≡ Some to → to < length ranges.old.first.items → InRange ranges.new.first.items ranges.new.last.items to at }
    ensures kept { (p x : ℕ) → InRange ranges.old.first.items ranges.old.last.items p x → InRange ranges.new.first.items ranges.new.last.items p x }
{
    let Some(to) = target_of(node.way) else {
        return;
    };
    let place = to as usize;
    if place >= ranges.first.len() {
        return;
    }
    ranges.note(place, at);
}

/// Puts a block into the range of the row of the slot that a step of it names.
fn note_slot(ranges: &mut Ranges, node: Node, at: u32)
    requires sizes { length ranges.old.first.items ≡ length ranges.old.last.items }
    ensures sizes { (length ranges.new.first.items ≡ length ranges.old.first.items) × (length ranges.new.last.items ≡ length ranges.old.last.items) }
    ensures there { (slot : ℕ) → named node.access ≡ Some slot → slot / 64 < length ranges.old.first.items → InRange ranges.new.first.items ranges.new.last.items (slot / 64) at }
    ensures kept { (p x : ℕ) → InRange ranges.old.first.items ranges.old.last.items p x → InRange ranges.new.first.items ranges.new.last.items p x }
{
    let Some(slot) = named_of(node.access) else {
        return;
    };
    let place = (slot / 64) as usize;
    if place >= ranges.first.len() {
        return;
    }
    ranges.note(place, at);
}

/// Of each block, the range of the blocks that jump to it. The blocks stand as their last steps.
pub(crate) fn sources(alloc: Global, lasts: &[Node]) -> Result<Ranges, AllocError>
    requires { length lasts.now < 2 ^ 32 }
    ensures sizes { IfOk result (λ r. (length r.first.items ≡ length lasts.now) × (length r.last.items ≡ length lasts.now)) }
    ensures sourced { IfOk result (λ r. Sourced lasts.now r.first.items r.last.items (length lasts.now)) }
{
    let mut ranges = Ranges::new(alloc, lasts.len())?;
    'places: for at in 0..lasts.len() {
        note_target(&mut ranges, lasts[at], at as u32);
    }
    Ok(ranges)
}

/// Of each row of 64 slots, the range of the blocks with steps that name one of them.
pub(crate) fn spans(
    alloc: Global,
    nodes: &[Node],
    blocks: &[u32],
    rows: usize,
) -> Result<Ranges, AllocError>
    requires { length blocks.now ≡ length nodes.now }
    ensures sizes { IfOk result (λ r. (length r.first.items ≡ rows) × (length r.last.items ≡ rows)) }
    ensures spanned { IfOk result (λ r. Spanned nodes.now blocks.now rows r.first.items r.last.items (length nodes.now)) }
{
    let mut ranges = Ranges::new(alloc, rows)?;
    'steps: for at in 0..nodes.len() {
        note_slot(&mut ranges, nodes[at], blocks[at]);
    }
    Ok(ranges)
}
