//! The search for the next store at a line.

ghost use Rattle.std.specs.Prelude.{◌≡◌, ◌<◌, ◌≤◌, ◌-◌, ◌^◌, IfOk, MatchOption};
ghost use Rattle.setl_debug.specs.Sessions.{FirstHit, NoHit, far_end};
ghost use Rattle.setl_debug.specs.code.Hits.{HasHits, IsHigh, IsLow, Rises};

use setl_debug_target::Target;
use std::alloc::AllocError;

/// The greatest number of turns.
pub(crate) const MOST_TURNS: u64 = (1 << 63) - 1;

/// How far `until` looks ahead.
const FAR: u64 = 1 << 20;

/// How far it looks turn by turn, which takes no turn twice, before it looks by halves.
const NEAR: u64 = 1 << 10;

/// How often a line was stored at after so many turns. The error is want of memory.
fn hits_at<T: Target>(target: &mut T, line: u32, turns: u64) -> Result<u64, AllocError>
    requires { turns < 2 ^ 63 }
    ensures hits { IfOk result (λ hits. HasHits (T.shows (T.run target.old)) line hits turns) }
    ensures run { T.run target.new ≡ T.run target.old }
{
    target.go(turns, line)?;
    Ok(target.hits())
}

/// The first number of turns at which there are more stores than `hits`, where there are no more at `low` and more at
/// `high`. It is found by halves. The error is want of memory.
fn by_halves<T: Target>(
    target: &mut T,
    line: u32,
    hits: u64,
    low: u64,
    high: u64,
) -> Result<u64, AllocError>
    requires order { low < high }
    requires small { high < 2 ^ 63 }
    requires low { IsLow (T.shows (T.run target.old)) line hits low }
    requires high { IsHigh (T.shows (T.run target.old)) line hits high }
    ensures rises { IfOk result (Rises (T.shows (T.run target.old)) line hits low high) }
    ensures run { T.run target.new ≡ T.run target.old }
{
    let mut under = low;
    let mut over = high;
    while over - under > 1 {
        let middle = under + (over - under) / 2;
        if hits_at(target, line, middle)? > hits {
            over = middle;
        } else {
            under = middle;
        }
    }
    Ok(over)
}

/// The first number of turns above `low` and up to `end` at which there are more stores than `hits`, where there are no
/// more at `low`. `None` comes exactly where there are no more at `end`; the error is want of memory.
fn search<T: Target>(
    target: &mut T,
    line: u32,
    hits: u64,
    low: u64,
    end: u64,
) -> Result<Option<u64>, AllocError>
    requires order { low ≤ end }
    requires small { end < 2 ^ 63 }
    requires low { IsLow (T.shows (T.run target.old)) line hits low }
    ensures found { IfOk result (λ o. MatchOption o (IsLow (T.shows (T.run target.old)) line hits end) (Rises (T.shows (T.run target.old)) line hits low end)) }
    ensures run { T.run target.new ≡ T.run target.old }
{
    let near = end.min(low + NEAR);
    for k in low..near {
        if hits_at(target, line, k + 1)? > hits {
            return Ok(Some(k + 1));
        }
    }
    if hits_at(target, line, end)? <= hits {
        return Ok(None);
    }
    Ok(Some(by_halves(target, line, hits, near, end)?))
}

/// The first number of turns above this one, up to 2^20 more and below 2^63, at which a line was stored at more often.
/// `None` comes exactly where there is none; the error is want of memory.
pub(crate) fn until<T: Target>(
    target: &mut T,
    line: u32,
    turns: u64,
) -> Result<Option<u64>, AllocError>
    requires { turns < 2 ^ 63 }
    ensures found { IfOk result (λ o. MatchOption o (NoHit (T.shows (T.run target.old)) line turns) (FirstHit (T.shows (T.run target.old)) line turns)) }
    ensures run { T.run target.new ≡ T.run target.old }
{
    let hits = hits_at(target, line, turns)?;
    search(target, line, hits, turns, (turns + FAR).min(MOST_TURNS))
}
