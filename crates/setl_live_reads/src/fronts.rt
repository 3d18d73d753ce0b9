//! The words of the blocks for a row of 64 slots: what each of them reads first, and what it lets pass.

ghost use Rattle.std.specs.Prelude.{◌≡◌, ◌+◌, ◌-◌, ◌*◌, ◌<◌, ◌≤◌, ◌^◌, ℕ, List, Bool, Some, get_or, length, slice_get, bit_or};
ghost use Rattle.setl_live_reads.specs.declared.node.Access.TheVariants.{HandBack};
ghost use Rattle.setl_live_reads.specs.Blocks.{AreBlocks};
ghost use Rattle.setl_live_reads.specs.Chains.{IsLatest, Chained};
ghost use Rattle.setl_live_reads.specs.Fronts.{IsFront, HasFronts};
ghost use Rattle.setl_live_reads.specs.Masks.{IsHanded};

use crate::blocks::{Blocks, first_of};
use crate::masks::before;
use crate::node::{Access, Node};

/// The set at the last step of a block, from the set behind it, if that step hands back; otherwise the set behind it.
pub(crate) fn handing(access: Access, handed: u64, behind: u64) -> u64
    ensures back { access ≡ HandBack → result ≡ bit_or behind handed }
    ensures others { (access ≡ HandBack → ⊥) → result ≡ behind }
{
    match access {
        Access::HandBack => behind | handed,
        Access::Nothing | Access::Read(_) | Access::Write(_) => behind,
    }
}

/// The words of a block of these steps, and the step before it in the chain of the row.
fn fronts(
    nodes: &[Node],
    earlier: &[u32],
    row: u32,
    handed: u64,
    first: usize,
    end: usize,
    access: Access,
    latest: usize,
) -> (u64, u64, usize)
    requires base { row * 64 < 2 ^ 32 }
    requires block { (first < end) × (end ≤ length nodes.now) }
    requires last { (node : _) → slice_get nodes.now (end - 1) ≡ Some node → access ≡ node.access }
    requires plain { (at : ℕ) (node : _) → first ≤ at → at + 1 < end → slice_get nodes.now at ≡ Some node → node.access ≡ HandBack → ⊥ }
    requires sizes { length earlier.now ≡ length nodes.now }
    requires chained { Chained nodes.now row (length nodes.now) earlier.now }
    requires latest { IsLatest nodes.now row end latest }
    ensures reads { (back : List Bool) → IsHanded back (row * 64) handed → IsFront nodes.now back row end 0 first result.0 }
    ensures passes { (back : List Bool) → IsHanded back (row * 64) handed → IsFront nodes.now back row end 18446744073709551615 first result.1 }
    ensures latest { IsLatest nodes.now row first result.2 }
{
    let base = row * 64;
    let mut read = handing(access, handed, 0);
    let mut passed = handing(access, handed, u64::MAX);
    let mut bound = latest;
    'steps: while bound > first {
        let access = nodes[bound - 1].access;
        read = before(access, handed, base, read);
        passed = before(access, handed, base, passed);
        bound = earlier[bound - 1] as usize;
    }
    (read, passed, bound)
}

/// Gives the blocks of a window their words.
pub(crate) fn fill(
    nodes: &[Node],
    blocks: &Blocks,
    earlier: &[u32],
    row: u32,
    handed: u64,
    low: usize,
    high: usize,
    latest: usize,
    gens: &mut [u64],
    passes: &mut [u64],
)
    requires base { row * 64 < 2 ^ 32 }
    requires blocks { AreBlocks nodes.now blocks.now.firsts.items blocks.now.blocks.items blocks.now.lasts.items }
    requires window { (low ≤ high) × (high ≤ length blocks.now.firsts.items) }
    requires sizes { length earlier.now ≡ length nodes.now }
    requires gens { length gens.old ≡ length blocks.now.firsts.items }
    requires passes { length passes.old ≡ length blocks.now.firsts.items }
    requires chained { Chained nodes.now row (length nodes.now) earlier.now }
    requires latest { IsLatest nodes.now row (get_or blocks.now.firsts.items high (length nodes.now)) latest }
    ensures gens { length gens.new ≡ length gens.old }
    ensures passes { length passes.new ≡ length passes.old }
    ensures fronts { (back : List Bool) → IsHanded back (row * 64) handed → (b : ℕ) → low ≤ b → b < high → HasFronts nodes.now back row blocks.now.firsts.items gens.new passes.new b }
{
    let mut bound = latest;
    let mut end = first_of(&blocks.firsts, high, nodes.len());
    let mut block = high;
    'window: while block > low {
        block -= 1;
        let first = first_of(&blocks.firsts, block, nodes.len());
        let access = blocks.lasts[block].access;
        let (read, passed, rest) = fronts(nodes, earlier, row, handed, first, end, access, bound);
        gens[block] = read;
        passes[block] = passed;
        bound = rest;
        end = first;
    }
}
