//! The window of blocks that matter to a row of slots.

ghost use Rattle.std.specs.Prelude.{◌≡◌, ◌+◌, ◌*◌, ◌<◌, ◌≤◌, ◌^◌, ℕ, List, Bool, get_or, length};
ghost use Rattle.setl_live_reads.specs.Blocks.{AreBlocks};
ghost use Rattle.setl_live_reads.specs.Chains.{IsLatest};
ghost use Rattle.setl_live_reads.specs.Masks.{IsHanded, Apart, Covers};
ghost use Rattle.setl_live_reads.specs.Ranges.{Sourced, Spanned};

use crate::blocks::Blocks;
use crate::node::Node;
use crate::ranges::Ranges;

/// How often a window is widened before it becomes the whole body.
const WIDENINGS: u32 = 8;

/// A window that has the blocks, too, from which blocks inside it are jumped to.
fn widened(sources: &Ranges, low: usize, high: usize) -> (usize, usize)
    requires window { low < high }
    requires first { high ≤ length sources.now.first.items }
    requires last { high ≤ length sources.now.last.items }
    ensures order { (result.0 ≤ low) × (high ≤ result.1) }
    ensures done { result.0 ≡ low → result.1 ≡ high → (at : ℕ) → low < at → at < high → (low ≤ get_or sources.now.first.items at 0) × (get_or sources.now.last.items at 0 < high) }
{
    let mut from = low;
    let mut to = high;
    'window: for at in low + 1..high {
        let first = sources.first[at] as usize;
        let last = sources.last[at] as usize;
        if first < from {
            from = first;
        }
        if last >= to {
            to = last + 1;
        }
    }
    (from, to)
}

/// A window that needs no widening, if one is found soon.
fn closed_window(sources: &Ranges, from: usize, to: usize, count: usize) -> Option<(usize, usize)>
    requires window { (from < to) × (to ≤ count) }
    requires first { count ≡ length sources.now.first.items }
    requires last { count ≡ length sources.now.last.items }
    ensures { (w : _) → result ≡ Some w → (w.0 ≤ from) × (to ≤ w.1) × (w.1 ≤ count) × ((at : ℕ) → w.0 < at → at < w.1 → (w.0 ≤ get_or sources.now.first.items at 0) × (get_or sources.now.last.items at 0 < w.1)) }
{
    let mut low = from;
    let mut high = to;
    'widenings: for _ in 0..WIDENINGS {
        let (l, h) = widened(sources, low, high);
        if l == low && h == high {
            return Some((low, high));
        }
        if h > count {
            return None;
        }
        low = l;
        high = h;
    }
    None
}

/// The window of a row. Each read of a slot of the row lies in it, and outside it blocks lead to its first block at most.
pub(crate) fn window(
    nodes: &[Node],
    blocks: &Blocks,
    sources: &Ranges,
    spans: &Ranges,
    row: usize,
    handed: u64,
) -> (usize, usize)
    requires row { row < length spans.now.first.items }
    requires spans { length spans.now.first.items ≡ length spans.now.last.items }
    requires blocks { AreBlocks nodes.now blocks.now.firsts.items blocks.now.blocks.items blocks.now.lasts.items }
    requires first { length sources.now.first.items ≡ length blocks.now.lasts.items }
    requires last { length sources.now.last.items ≡ length blocks.now.lasts.items }
    requires sourced { Sourced blocks.now.lasts.items sources.now.first.items sources.now.last.items (length blocks.now.lasts.items) }
    requires spanned { Spanned nodes.now blocks.now.blocks.items (length spans.now.first.items) spans.now.first.items spans.now.last.items (length nodes.now) }
    ensures within { (result.0 ≤ result.1) × (result.1 ≤ length blocks.now.firsts.items) }
    ensures latest { (latest : ℕ) → IsLatest nodes.now row (length nodes.now) latest → IsLatest nodes.now row (get_or blocks.now.firsts.items result.1 (length nodes.now)) latest }
    ensures covers { (back : List Bool) → IsHanded back (row * 64) handed → Covers nodes.now back row (get_or blocks.now.firsts.items result.0 (length nodes.now)) (get_or blocks.now.firsts.items result.1 (length nodes.now)) }
    ensures apart { Apart blocks.now.lasts.items result.0 result.1 }
{
    let count = blocks.firsts.len();
    if handed != 0 {
        return (0, count);
    }
    let first = spans.first[row] as usize;
    let last = spans.last[row] as usize;
    if first > last {
        return (0, 0);
    }
    if last >= count {
        return (0, count);
    }
    match closed_window(sources, first, last + 1, count) {
        Some(found) => found,
        None => (0, count),
    }
}
