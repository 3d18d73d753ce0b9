//! Sets of 64 slots in a row, as words: which slots are read later, step by step.

ghost use Rattle.std.specs.Prelude.{◌≡◌, ◌+◌, ◌<◌, ◌≤◌, ◌^◌, ◌⊎◌, ℕ, List, Bool, true, false, get_or, length, slice_get, Some};
ghost use Rattle.std.specs.Int.{bit_at};
ghost use Rattle.std.specs.List.{Contains};
ghost use Rattle.setl_live_reads.specs.Paths.{reads_slot, writes_slot, ways};
ghost use Rattle.setl_live_reads.specs.Masks.{Has};

use crate::node::{Access, Node, Way};

/// The set of one slot, or of none where the slot isn't in the row that begins at `base`.
#[inline(always)]
pub(crate) fn bit(slot: u32, base: u32) -> u64
    ensures slot { (k : ℕ) → k < 64 → slot ≡ base + k → bit_at result k ≡ 1 }
    ensures others { (k : ℕ) → k < 64 → bit_at result k ≡ 1 → slot ≡ base + k }
{
    if slot < base || slot - base >= 64 {
        return 0;
    }
    1u64 << (slot - base)
}

/// The set at a step, which is empty where there is no step.
#[inline(always)]
pub(crate) fn at(masks: &[u64], step: usize) -> u64
    ensures { result ≡ get_or masks.now step 0 }
{
    match masks.get(step) {
        Some(mask) => *mask,
        None => 0,
    }
}

/// The set behind a step.
#[inline(always)]
pub(crate) fn behind(way: Way, step: usize, masks: &[u64]) -> u64
    requires { step + 1 < 2 ^ 64 }
    ensures all { (k to : ℕ) → k < 64 → Contains (ways way (step + 1)) to → Has masks.now to k → bit_at result k ≡ 1 }
    ensures only { (k : ℕ) → k < 64 → bit_at result k ≡ 1 → (to : ℕ) × Contains (ways way (step + 1)) to × Has masks.now to k }
{
    match way {
        Way::On => at(masks, step + 1),
        Way::To(to) => at(masks, to as usize),
        Way::Either(to) => at(masks, step + 1) | at(masks, to as usize),
        Way::Nowhere => 0,
    }
}

/// The set at a step, from the set behind it. `handed` are the slots of the row that are handed back.
#[inline(always)]
pub(crate) fn before(access: Access, handed: u64, base: u32, behind: u64) -> u64
    ensures reads { (back : List Bool) → ((k : ℕ) → k < 64 → get_or back (base + k) false ≡ true → bit_at handed k ≡ 1) → (k : ℕ) → k < 64 → reads_slot back access (base + k) ≡ true → bit_at result k ≡ 1 }
    ensures passes { (k : ℕ) → k < 64 → writes_slot access (base + k) ≡ false → bit_at behind k ≡ 1 → bit_at result k ≡ 1 }
    ensures only { (back : List Bool) → ((k : ℕ) → k < 64 → bit_at handed k ≡ 1 → get_or back (base + k) false ≡ true) → (k : ℕ) → k < 64 → bit_at result k ≡ 1 → (reads_slot back access (base + k) ≡ true) ⊎ ((writes_slot access (base + k) ≡ false) × (bit_at behind k ≡ 1)) }
{
    match access {
        Access::Nothing => behind,
        Access::Read(slot) => behind | bit(slot, base),
        Access::Write(slot) => behind & !bit(slot, base),
        Access::HandBack => behind | handed,
    }
}
