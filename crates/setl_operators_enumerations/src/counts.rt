//! How many members ranges and sets of subsets have, up to a bound.

ghost use Rattle.std.specs.Prelude.{◌≡◌, ◌^◌, ◌<◌, ◌≤◌, ◌+◌};
ghost use Rattle.setl_operators_table.specs.Ranges.{range_size, step_size};
ghost use Rattle.setl_operators_enumerations.specs.Counts.{IsCount, choose};

use setl_operators_table::ranges::is_past;

/// How many integers there are from a to b, and None where they are more than `turns`.
pub(crate) fn range_count(a: i128, b: i128, turns: u64) -> Option<u64>
    ensures { IsCount result turns (range_size a b) }
{
    if b < a {
        return Some(0);
    }
    one_more(b.abs_diff(a), turns)
}

/// How many of a, b and on by the step b - a aren't past c, and None where they are more than `turns`.
pub(crate) fn step_count(a: i128, b: i128, c: i128, turns: u64) -> Option<u64>
    requires { a ≡ b → ⊥ }
    ensures { IsCount result turns (step_size a b c) }
{
    if is_past(a, b, c) {
        return Some(0);
    }
    one_more(c.abs_diff(a) / b.abs_diff(a), turns)
}

// One more than n, and None where that is more than `turns`.
fn one_more(n: u128, turns: u64) -> Option<u64>
    ensures { IsCount result turns (n + 1) }
{
    if n < u128::from(turns) {
        Some(n as u64 + 1)
    } else {
        None
    }
}

/// The number 2^n, and None where it is more than `turns`.
pub(crate) fn power_count(n: usize, turns: u64) -> Option<u64>
    ensures { IsCount result turns (2 ^ n) }
{
    if n >= 64 || turns < 1 << n {
        return None;
    }
    Some(1 << n)
}

/// How many subsets with n members a set with m members has, and None where they are more than `turns`.
pub(crate) fn subset_count(m: usize, n: usize, turns: u64) -> Option<u64>
    requires { n ≤ m }
    ensures { IsCount result turns (choose m n) }
{
    if turns == 0 {
        return None;
    }
    let others = m - n;
    let mut count = 1;
    for i in 0..n {
        count = next_count(count, others + i, i, turns)?;
    }
    Some(count)
}

// The number of subsets with i + 1 members of a set with m + 1 members, from the number of those with i members of a
// set with m members, and None where it is more than `turns`.
fn next_count(count: u64, m: usize, i: usize, turns: u64) -> Option<u64>
    requires { (count ≡ choose m i) × (i ≤ m) × (m + 1 < 2 ^ 64) }
    ensures { IsCount result turns (choose (m + 1) (i + 1)) }
{
    let next = u128::from(count) * (m as u128 + 1) / (i as u128 + 1);
    if next <= u128::from(turns) {
        Some(next as u64)
    } else {
        None
    }
}
