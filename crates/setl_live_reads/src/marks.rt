//! The marks of the steps that read a slot of a row, from the sets of the blocks.

ghost use Rattle.std.specs.Prelude.{◌≡◌, ◌+◌, ◌-◌, ◌*◌, ◌/◌, ◌%◌, ◌<◌, ◌≤◌, ◌^◌, ◌⊎◌, ℕ, List, Bool, true, false, Some, get_or, length, slice_get};
ghost use Rattle.std.specs.Int.{bit_at};
ghost use Rattle.setl_live_reads.specs.declared.node.Access.TheVariants.{Read, HandBack};
ghost use Rattle.setl_live_reads.specs.Paths.{IsRight};
ghost use Rattle.setl_live_reads.specs.Blocks.{AreBlocks};
ghost use Rattle.setl_live_reads.specs.Chains.{IsLatest, Chained};
ghost use Rattle.setl_live_reads.specs.Fronts.{ReadBehind};
ghost use Rattle.setl_live_reads.specs.Masks.{IsHanded, TellsReads};

use crate::blocks::{Blocks, first_of};
use crate::fronts::handing;
use crate::masks::{at, before, behind};
use crate::node::{Access, Node};

/// Marks a step that reads, by the set behind it.
fn mark_step(access: Access, step: usize, behind: u64, marks: &mut [bool])
    requires { step < length marks.old }
    ensures sizes { length marks.new ≡ length marks.old }
    ensures there { (x : ℕ) → access ≡ Read x → (get_or marks.new step false ≡ false → bit_at behind (x % 64) ≡ 1) × (get_or marks.new step false ≡ true → bit_at behind (x % 64) ≡ 1 → ⊥) }
    ensures kept { (other : ℕ) → (other ≡ step → ⊥) → get_or marks.new other false ≡ get_or marks.old other false }
{
    let Access::Read(slot) = access else {
        return;
    };
    marks[step] = (behind >> (slot % 64)) & 1 == 0;
}

/// The set behind a step: at the last step of a block that of the next one.
fn set_behind(step: usize, end: usize, next: u64, live: u64) -> u64
    requires { step < end }
    ensures last { step + 1 ≡ end → result ≡ next }
    ensures inside { step + 1 < end → result ≡ live }
{
    if step + 1 == end { next } else { live }
}

/// Marks the steps of a block of these steps that read a slot of the row, and answers the step before it in the chain of the row.
/// `next` is the set at the next block, and `out` the one behind the last step.
fn mark_steps(
    nodes: &[Node],
    earlier: &[u32],
    row: u32,
    handed: u64,
    first: usize,
    end: usize,
    access: Access,
    latest: usize,
    next: u64,
    out: u64,
    marks: &mut [bool],
) -> usize
    requires base { row * 64 < 2 ^ 32 }
    requires block { (first < end) × (end ≤ length nodes.now) }
    requires last { (node : _) → slice_get nodes.now (end - 1) ≡ Some node → access ≡ node.access }
    requires plain { (at : ℕ) (node : _) → first ≤ at → at + 1 < end → slice_get nodes.now at ≡ Some node → node.access ≡ HandBack → ⊥ }
    requires sizes { length earlier.now ≡ length nodes.now }
    requires marks { length marks.old ≡ length nodes.now }
    requires chained { Chained nodes.now row (length nodes.now) earlier.now }
    requires latest { IsLatest nodes.now row end latest }
    ensures sizes { length marks.new ≡ length marks.old }
    ensures there { (back : List Bool) → IsHanded back (row * 64) handed → (at x : ℕ) (node : _) → first ≤ at → at < end → slice_get nodes.now at ≡ Some node → node.access ≡ Read x → x / 64 ≡ row → (get_or marks.new at false ≡ false → ReadBehind nodes.now back x (x % 64) end next out at) × (get_or marks.new at false ≡ true → ReadBehind nodes.now back x (x % 64) end next out at → ⊥) }
    ensures kept { (at x : ℕ) (node : _) → slice_get nodes.now at ≡ Some node → node.access ≡ Read x → (x / 64 ≡ row → first ≤ at → at < end → ⊥) → get_or marks.new at false ≡ get_or marks.old at false }
    ensures latest { IsLatest nodes.now row first result }
{
    let mut live = handing(access, handed, out);
    let mut bound = latest;
    'steps: while bound > first {
        let step = bound - 1;
        let access = nodes[step].access;
        mark_step(access, step, set_behind(step, end, next, live), marks);
        live = before(access, handed, row * 64, live);
        bound = earlier[step] as usize;
    }
    bound
}

/// Marks the steps of a block that read a slot of the row, and answers the step before it in the chain of the row.
fn mark_block(
    nodes: &[Node],
    blocks: &Blocks,
    earlier: &[u32],
    row: u32,
    handed: u64,
    block: usize,
    latest: usize,
    masks: &[u64],
    marks: &mut [bool],
) -> usize
    requires base { row * 64 < 2 ^ 32 }
    requires blocks { AreBlocks nodes.now blocks.now.firsts.items blocks.now.blocks.items blocks.now.lasts.items }
    requires block { block < length blocks.now.firsts.items }
    requires sizes { length earlier.now ≡ length nodes.now }
    requires marks { length marks.old ≡ length nodes.now }
    requires chained { Chained nodes.now row (length nodes.now) earlier.now }
    requires latest { IsLatest nodes.now row (get_or blocks.now.firsts.items (block + 1) (length nodes.now)) latest }
    ensures sizes { length marks.new ≡ length marks.old }
    ensures right { (back : List Bool) → IsHanded back (row * 64) handed → TellsReads nodes.now back row blocks.now.firsts.items blocks.now.lasts.items 0 (length blocks.now.firsts.items) masks.now → (at x : ℕ) (node : _) → get_or blocks.now.firsts.items block (length nodes.now) ≤ at → at < get_or blocks.now.firsts.items (block + 1) (length nodes.now) → slice_get nodes.now at ≡ Some node → node.access ≡ Read x → x / 64 ≡ row → IsRight nodes.now back marks.new at x }
    ensures kept { (at x : ℕ) (node : _) → slice_get nodes.now at ≡ Some node → node.access ≡ Read x → (x / 64 ≡ row → get_or blocks.now.firsts.items block (length nodes.now) ≤ at → at < get_or blocks.now.firsts.items (block + 1) (length nodes.now) → ⊥) → get_or marks.new at false ≡ get_or marks.old at false }
    ensures latest { IsLatest nodes.now row (get_or blocks.now.firsts.items block (length nodes.now)) result }
{
    let first = first_of(&blocks.firsts, block, nodes.len());
    let end = first_of(&blocks.firsts, block + 1, nodes.len());
    let last = blocks.lasts[block];
    let next = at(masks, block + 1);
    let out = behind(last.way, block, masks);
    mark_steps(
        nodes,
        earlier,
        row,
        handed,
        first,
        end,
        last.access,
        latest,
        next,
        out,
        marks,
    )
}

/// Marks the steps of the blocks of a window that read a slot of the row.
pub(crate) fn mark(
    nodes: &[Node],
    blocks: &Blocks,
    earlier: &[u32],
    row: u32,
    handed: u64,
    low: usize,
    high: usize,
    latest: usize,
    masks: &[u64],
    marks: &mut [bool],
)
    requires base { row * 64 < 2 ^ 32 }
    requires blocks { AreBlocks nodes.now blocks.now.firsts.items blocks.now.blocks.items blocks.now.lasts.items }
    requires window { (low ≤ high) × (high ≤ length blocks.now.firsts.items) }
    requires sizes { length earlier.now ≡ length nodes.now }
    requires marks { length marks.old ≡ length nodes.now }
    requires chained { Chained nodes.now row (length nodes.now) earlier.now }
    requires latest { IsLatest nodes.now row (get_or blocks.now.firsts.items high (length nodes.now)) latest }
    ensures sizes { length marks.new ≡ length marks.old }
    ensures right { (back : List Bool) → IsHanded back (row * 64) handed → TellsReads nodes.now back row blocks.now.firsts.items blocks.now.lasts.items 0 (length blocks.now.firsts.items) masks.now → (at x : ℕ) (node : _) → get_or blocks.now.firsts.items low (length nodes.now) ≤ at → at < get_or blocks.now.firsts.items high (length nodes.now) → slice_get nodes.now at ≡ Some node → node.access ≡ Read x → x / 64 ≡ row → IsRight nodes.now back marks.new at x }
    ensures kept { (at x : ℕ) (node : _) → slice_get nodes.now at ≡ Some node → node.access ≡ Read x → (x / 64 ≡ row → ⊥) → get_or marks.new at false ≡ get_or marks.old at false }
{
    let mut bound = latest;
    let mut block = high;
    'window: while block > low {
        block -= 1;
        bound = mark_block(
            nodes, blocks, earlier, row, handed, block, bound, masks, marks,
        );
    }
}
