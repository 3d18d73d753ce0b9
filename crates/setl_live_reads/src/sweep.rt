//! Sweeps over the blocks of a window from the last to the first, until no set changes.

ghost use Rattle.std.specs.Prelude.{◌≡◌, ◌+◌, ◌<◌, ◌≤◌, ◌^◌, ◌⊎◌, ℕ, List, Bool, true, false, get_or, length};
ghost use Rattle.setl_live_reads.specs.Masks.{Justified, ClosedAt, ClosedIn, EmptyOutside, AllEmpty, Outside, room_left};

use crate::masks::{at, behind};
use crate::node::Node;

/// Adds to the set at a block what belongs there. Says whether the set changed.
fn grow(lasts: &[Node], gens: &[u64], passes: &[u64], masks: &mut [u64], block: usize) -> bool
    requires within { block < length lasts.now }
    requires gens { length gens.now ≡ length lasts.now }
    requires passes { length passes.now ≡ length lasts.now }
    requires sizes { length masks.old ≡ length lasts.now }
    ensures sizes { length masks.new ≡ length masks.old }
    ensures justified { (low high : ℕ) → low ≤ block → block < high → Justified lasts.now gens.now passes.now low high masks.old → Justified lasts.now gens.now passes.now low high masks.new }
    ensures others { (at : ℕ) → (at ≡ block → ⊥) → get_or masks.new at 0 ≡ get_or masks.old at 0 }
    ensures same { result ≡ false → masks.new ≡ masks.old }
    ensures less { result ≡ true → room_left masks.new < room_left masks.old }
    ensures closed { result ≡ false → ClosedAt lasts.now gens.now passes.now masks.new block }
{
    let last = lasts[block];
    let now = gens[block] | (behind(last.way, block, masks) & passes[block]);
    let old = at(masks, block);
    let all = old | now;
    if all == old {
        return false;
    }
    masks[block] = all;
    true
}

/// One sweep over the blocks of a window, from the last to the first. Says whether a set changed.
fn sweep(
    lasts: &[Node],
    gens: &[u64],
    passes: &[u64],
    low: usize,
    high: usize,
    masks: &mut [u64],
) -> bool
    requires window { (low ≤ high) × (high ≤ length lasts.now) }
    requires gens { length gens.now ≡ length lasts.now }
    requires passes { length passes.now ≡ length lasts.now }
    requires sizes { length masks.old ≡ length lasts.now }
    ensures sizes { length masks.new ≡ length masks.old }
    ensures justified { Justified lasts.now gens.now passes.now low high masks.old → Justified lasts.now gens.now passes.now low high masks.new }
    ensures outside { (b : ℕ) → Outside low high b → get_or masks.new b 0 ≡ get_or masks.old b 0 }
    ensures closed { result ≡ false → ClosedIn lasts.now gens.now passes.now low high masks.new }
    ensures room { room_left masks.new ≤ room_left masks.old }
    ensures less { result ≡ true → room_left masks.new < room_left masks.old }
{
    let mut changed = false;
    let mut block = high;
    'window: while block > low {
        block -= 1;
        if grow(lasts, gens, passes, masks, block) {
            changed = true;
        }
    }
    changed
}

/// The sets of the blocks in a window, by sweeps until nothing changes. They are empty before.
pub(crate) fn settle(
    lasts: &[Node],
    gens: &[u64],
    passes: &[u64],
    low: usize,
    high: usize,
    masks: &mut [u64],
)
    requires window { (low ≤ high) × (high ≤ length lasts.now) }
    requires gens { length gens.now ≡ length lasts.now }
    requires passes { length passes.now ≡ length lasts.now }
    requires sizes { length masks.old ≡ length lasts.now }
    requires empty { AllEmpty masks.old }
    ensures sizes { length masks.new ≡ length masks.old }
    ensures justified { Justified lasts.now gens.now passes.now low high masks.new }
    ensures outside { EmptyOutside low high masks.new }
    ensures closed { ClosedIn lasts.now gens.now passes.now low high masks.new }
{
    let mut changed = true;
    'sweeps: while changed {
        changed = sweep(lasts, gens, passes, low, high, masks);
    }
}
