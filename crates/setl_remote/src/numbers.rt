//! The numbers whose bits are on, as a list.
ghost use Rattle.std.specs.Prelude.{◌≡◌, ℕ, ◌+◌, ◌*◌, ◌^◌, ◌<◌, ◌++◌, ◌∷◌, [], length, if◌then◌else◌, IfOk, OnOk};
ghost use Rattle.std.specs.List.Sorted.{IsStrictlyIncreasing};
ghost use Rattle.std.specs.FinSet as set;
ghost use Rattle.setl_remote.specs.Words.{has_bit, members, ones};

use crate::words::is_on;
use std::alloc::{AllocError, Global};

/// The numbers whose bits are on, rising.
pub(crate) fn numbers(alloc: Global, words: &[u64]) -> Result<Vec<u64>, AllocError>
    requires { length words.now < 2 ^ 58 }
    ensures rising { IfOk result (λ list. IsStrictlyIncreasing list.items) }
    ensures members { IfOk result (λ list. set.from_list list.items ≡ members words.now) }
{
    let mut list = Vec::new(alloc);
    for i in 0..words.len() {
        push_ones(words, i, &mut list)?;
    }
    Ok(list)
}

/// Puts the numbers of the i-th word whose bits are on at the end of those of the words before it.
fn push_ones(words: &[u64], i: usize, list: &mut Vec<u64>) -> Result<(), AllocError>
    requires few { length words.now < 2 ^ 58 }
    requires there { i < length words.now }
    requires front { list.old.items ≡ ones words.now (64 * i) }
    ensures { OnOk result (list.new.items ≡ ones words.now (64 * (i + 1))) }
{
    if words[i] == 0 {
        return Ok(());
    }
    let first = i as u64 * 64;
    for k in 0..64 {
        push_one(words, first + k, list)?;
    }
    Ok(())
}

/// Puts the number at the end, if its bit is on.
fn push_one(words: &[u64], n: u64, list: &mut Vec<u64>) -> Result<(), AllocError>
    ensures { OnOk result (list.new.items ≡ (if has_bit words.now n then list.old.items ++ n ∷ [] else list.old.items)) }
{
    if is_on(words, n) {
        list.push(n)?;
    }
    Ok(())
}
