//! The marks of one row of 64 slots after another.

ghost use Rattle.std.specs.Prelude.{◌≡◌, ◌+◌, ◌-◌, ◌*◌, ◌/◌, ◌<◌, ◌≤◌, ◌^◌, ℕ, List, Bool, true, false, get_or, length, slice_get, Some};
ghost use Rattle.std.specs.Int.{bit_at};
ghost use Rattle.setl_live_reads.specs.declared.node.Access.TheVariants.{Read};
ghost use Rattle.setl_live_reads.specs.Paths.{IsRight};
ghost use Rattle.setl_live_reads.specs.Blocks.{AreBlocks};
ghost use Rattle.setl_live_reads.specs.Chains.{IsLatest, Chained, AreChains};
ghost use Rattle.setl_live_reads.specs.Masks.{IsHanded, TellsReads, EmptyOutside, AllEmpty, Covers};
ghost use Rattle.setl_live_reads.specs.Ranges.{Sourced, Spanned};

use crate::blocks::Blocks;
use crate::chains::Chains;
use crate::fronts::fill;
use crate::marks::mark;
use crate::masks::at;
use crate::node::Node;
use crate::ranges::Ranges;
use crate::sweep::settle;
use crate::window::window;

/// Empties the sets of a window.
fn clear(low: usize, high: usize, masks: &mut [u64])
    requires window { (low ≤ high) × (high ≤ length masks.old) }
    requires outside { EmptyOutside low high masks.old }
    ensures sizes { length masks.new ≡ length masks.old }
    ensures empty { AllEmpty masks.new }
{
    'window: for block in low..high {
        masks[block] = 0;
    }
}

/// The sets of a row at the blocks of a window. The sets are empty before.
fn sets_in(
    nodes: &[Node],
    blocks: &Blocks,
    earlier: &[u32],
    row: u32,
    handed: u64,
    low: usize,
    high: usize,
    latest: usize,
    gens: &mut [u64],
    passes: &mut [u64],
    masks: &mut [u64],
)
    requires base { row * 64 < 2 ^ 32 }
    requires blocks { AreBlocks nodes.now blocks.now.firsts.items blocks.now.blocks.items blocks.now.lasts.items }
    requires window { (low ≤ high) × (high ≤ length blocks.now.firsts.items) }
    requires sizes { length earlier.now ≡ length nodes.now }
    requires chained { Chained nodes.now row (length nodes.now) earlier.now }
    requires latest { IsLatest nodes.now row (get_or blocks.now.firsts.items high (length nodes.now)) latest }
    requires words { (length gens.old ≡ length blocks.now.firsts.items) × (length passes.old ≡ length blocks.now.firsts.items) }
    requires masks { length masks.old ≡ length blocks.now.firsts.items }
    requires empty { AllEmpty masks.old }
    ensures words { (length gens.new ≡ length gens.old) × (length passes.new ≡ length passes.old) }
    ensures masks { length masks.new ≡ length masks.old }
    ensures outside { EmptyOutside low high masks.new }
    ensures tells { (back : List Bool) → IsHanded back (row * 64) handed → TellsReads nodes.now back row blocks.now.firsts.items blocks.now.lasts.items low high masks.new }
{
    fill(
        nodes, blocks, earlier, row, handed, low, high, latest, gens, passes,
    );
    settle(&blocks.lasts, gens, passes, low, high, masks);
}

/// The sets of a row at all blocks, which are empty before. Outside the window that it answers they stay empty.
fn sets(
    nodes: &[Node],
    blocks: &Blocks,
    sources: &Ranges,
    spans: &Ranges,
    chains: &Chains,
    row: u32,
    handed: u64,
    gens: &mut [u64],
    passes: &mut [u64],
    masks: &mut [u64],
) -> (usize, usize)
    requires row { row < length chains.now.latest.items }
    requires base { row * 64 < 2 ^ 32 }
    requires blocks { AreBlocks nodes.now blocks.now.firsts.items blocks.now.blocks.items blocks.now.lasts.items }
    requires chains { AreChains nodes.now (length chains.now.latest.items) (length nodes.now) chains.now.latest.items chains.now.earlier.items }
    requires earlier { length chains.now.earlier.items ≡ length nodes.now }
    requires spans { (length spans.now.first.items ≡ length chains.now.latest.items) × (length spans.now.last.items ≡ length chains.now.latest.items) }
    requires sources { (length sources.now.first.items ≡ length blocks.now.lasts.items) × (length sources.now.last.items ≡ length blocks.now.lasts.items) }
    requires sourced { Sourced blocks.now.lasts.items sources.now.first.items sources.now.last.items (length blocks.now.lasts.items) }
    requires spanned { Spanned nodes.now blocks.now.blocks.items (length chains.now.latest.items) spans.now.first.items spans.now.last.items (length nodes.now) }
    requires words { (length gens.old ≡ length blocks.now.firsts.items) × (length passes.old ≡ length blocks.now.firsts.items) }
    requires masks { length masks.old ≡ length blocks.now.firsts.items }
    requires empty { AllEmpty masks.old }
    ensures words { (length gens.new ≡ length gens.old) × (length passes.new ≡ length passes.old) }
    ensures masks { length masks.new ≡ length masks.old }
    ensures within { (result.0 ≤ result.1) × (result.1 ≤ length blocks.now.firsts.items) }
    ensures latest { IsLatest nodes.now row (get_or blocks.now.firsts.items result.1 (length nodes.now)) (get_or chains.now.latest.items row 0) }
    ensures outside { EmptyOutside result.0 result.1 masks.new }
    ensures covers { (back : List Bool) → IsHanded back (row * 64) handed → Covers nodes.now back row (get_or blocks.now.firsts.items result.0 (length nodes.now)) (get_or blocks.now.firsts.items result.1 (length nodes.now)) }
    ensures tells { (back : List Bool) → IsHanded back (row * 64) handed → TellsReads nodes.now back row blocks.now.firsts.items blocks.now.lasts.items 0 (length blocks.now.firsts.items) masks.new }
{
    let count = blocks.firsts.len();
    let latest = chains.latest[row as usize] as usize;
    let (low, high) = window(nodes, blocks, sources, spans, row as usize, handed);
    sets_in(
        nodes,
        blocks,
        &chains.earlier,
        row,
        handed,
        low,
        high,
        latest,
        gens,
        passes,
        masks,
    );
    if high - low == count {
        return (low, high);
    }
    if at(masks, low) == 0 {
        return (low, high);
    }
    clear(low, high, masks);
    sets_in(
        nodes,
        blocks,
        &chains.earlier,
        row,
        handed,
        0,
        count,
        latest,
        gens,
        passes,
        masks,
    );
    (0, count)
}

/// Whether a slot is handed back.
fn is_handed(back: &[bool], slot: usize) -> bool
    ensures { result ≡ get_or back.now slot false }
{
    match back.get(slot) {
        Some(is) => *is,
        None => false,
    }
}

/// The set with one slot more, where that is handed back.
fn with_handed(back: &[bool], base: u32, k: u32, handed: u64) -> u64
    requires { k < 64 }
    ensures there { ((i : ℕ) → i < k → get_or back.now (base + i) false ≡ true → bit_at handed i ≡ 1) → (i : ℕ) → i < k + 1 → get_or back.now (base + i) false ≡ true → bit_at result i ≡ 1 }
    ensures only { ((i : ℕ) → i < 64 → bit_at handed i ≡ 1 → get_or back.now (base + i) false ≡ true) → (i : ℕ) → i < 64 → bit_at result i ≡ 1 → get_or back.now (base + i) false ≡ true }
{
    if !is_handed(back, base as usize + k as usize) {
        return handed;
    }
    handed | 1u64 << k
}

/// The slots of a row that are handed back.
fn handed_of(back: &[bool], base: u32) -> u64
    ensures { IsHanded back.now base result }
{
    let mut handed = 0u64;
    'slots: for k in 0u32..64 {
        handed = with_handed(back, base, k, handed);
    }
    handed
}

/// Marks the steps that read a slot of a row, by sets that are empty before and after.
fn mark_row(
    nodes: &[Node],
    back: &[bool],
    blocks: &Blocks,
    sources: &Ranges,
    spans: &Ranges,
    chains: &Chains,
    row: u32,
    gens: &mut [u64],
    passes: &mut [u64],
    masks: &mut [u64],
    marks: &mut [bool],
)
    requires row { row < length chains.now.latest.items }
    requires base { row * 64 < 2 ^ 32 }
    requires blocks { AreBlocks nodes.now blocks.now.firsts.items blocks.now.blocks.items blocks.now.lasts.items }
    requires chains { AreChains nodes.now (length chains.now.latest.items) (length nodes.now) chains.now.latest.items chains.now.earlier.items }
    requires earlier { length chains.now.earlier.items ≡ length nodes.now }
    requires spans { (length spans.now.first.items ≡ length chains.now.latest.items) × (length spans.now.last.items ≡ length chains.now.latest.items) }
    requires sources { (length sources.now.first.items ≡ length blocks.now.lasts.items) × (length sources.now.last.items ≡ length blocks.now.lasts.items) }
    requires sourced { Sourced blocks.now.lasts.items sources.now.first.items sources.now.last.items (length blocks.now.lasts.items) }
    requires spanned { Spanned nodes.now blocks.now.blocks.items (length chains.now.latest.items) spans.now.first.items spans.now.last.items (length nodes.now) }
    requires words { (length gens.old ≡ length blocks.now.firsts.items) × (length passes.old ≡ length blocks.now.firsts.items) }
    requires masks { length masks.old ≡ length blocks.now.firsts.items }
    requires empty { AllEmpty masks.old }
    requires marks { length marks.old ≡ length nodes.now }
    ensures words { (length gens.new ≡ length gens.old) × (length passes.new ≡ length passes.old) }
    ensures masks { length masks.new ≡ length masks.old }
    ensures marks { length marks.new ≡ length marks.old }
    ensures empty { AllEmpty masks.new }
    ensures right { (step x : ℕ) (node : _) → slice_get nodes.now step ≡ Some node → node.access ≡ Read x → x / 64 ≡ row → IsRight nodes.now back.now marks.new step x }
    ensures others { (step x : ℕ) (node : _) → slice_get nodes.now step ≡ Some node → node.access ≡ Read x → (x / 64 ≡ row → ⊥) → get_or marks.new step false ≡ get_or marks.old step false }
{
    let handed = handed_of(back, row * 64);
    let (low, high) = sets(
        nodes, blocks, sources, spans, chains, row, handed, gens, passes, masks,
    );
    let latest = chains.latest[row as usize] as usize;
    mark(
        nodes,
        blocks,
        &chains.earlier,
        row,
        handed,
        low,
        high,
        latest,
        masks,
        marks,
    );
    clear(low, high, masks);
}

/// Marks the steps that read a slot of one of the first rows, so many as there are chains, by sets that are empty before.
pub(crate) fn mark_rows(
    nodes: &[Node],
    back: &[bool],
    blocks: &Blocks,
    sources: &Ranges,
    spans: &Ranges,
    chains: &Chains,
    rows: u32,
    gens: &mut [u64],
    passes: &mut [u64],
    masks: &mut [u64],
    marks: &mut [bool],
)
    requires rows { rows ≡ length chains.now.latest.items }
    requires base { rows * 64 ≤ 2 ^ 32 + 63 }
    requires blocks { AreBlocks nodes.now blocks.now.firsts.items blocks.now.blocks.items blocks.now.lasts.items }
    requires chains { AreChains nodes.now (length chains.now.latest.items) (length nodes.now) chains.now.latest.items chains.now.earlier.items }
    requires earlier { length chains.now.earlier.items ≡ length nodes.now }
    requires spans { (length spans.now.first.items ≡ length chains.now.latest.items) × (length spans.now.last.items ≡ length chains.now.latest.items) }
    requires sources { (length sources.now.first.items ≡ length blocks.now.lasts.items) × (length sources.now.last.items ≡ length blocks.now.lasts.items) }
    requires sourced { Sourced blocks.now.lasts.items sources.now.first.items sources.now.last.items (length blocks.now.lasts.items) }
    requires spanned { Spanned nodes.now blocks.now.blocks.items (length chains.now.latest.items) spans.now.first.items spans.now.last.items (length nodes.now) }
    requires words { (length gens.old ≡ length blocks.now.firsts.items) × (length passes.old ≡ length blocks.now.firsts.items) }
    requires masks { length masks.old ≡ length blocks.now.firsts.items }
    requires empty { AllEmpty masks.old }
    requires marks { length marks.old ≡ length nodes.now }
    ensures marks { length marks.new ≡ length marks.old }
    ensures right { (step x : ℕ) (node : _) → slice_get nodes.now step ≡ Some node → node.access ≡ Read x → x / 64 < rows → IsRight nodes.now back.now marks.new step x }
{
    'rows: for row in 0..rows {
        mark_row(
            nodes, back, blocks, sources, spans, chains, row, gens, passes, masks, marks,
        );
    }
}
