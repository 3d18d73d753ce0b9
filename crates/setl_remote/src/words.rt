//! Words of 64 bits. The n-th bit, 64 to a word, the lowest first, belongs to the number n.
ghost use Rattle.std.specs.Prelude.{◌≡◌, ℕ, ◌^◌, ◌<◌, true, false, length, slice_index, OnOk, OnErr};
ghost use Rattle.std.specs.FinSet as set;
ghost use Rattle.setl_remote.specs.Words.{Writes, has_bit, members};

use std::alloc::AllocError;
use std::rc::Rc;

/// The most words of a vector, so that the numbers in it can be counted by a `u64`.
pub(crate) const MOST_WORDS: usize = (1 << 58) - 1;

/// The word at a place, and 0 past the end.
pub(crate) fn word(words: &[u64], i: usize) -> u64
    ensures { result ≡ slice_index words.now i }
{
    match words.get(i) {
        Some(word) => *word,
        None => 0,
    }
}

/// Whether the bit of the number is on.
pub(crate) fn is_on(words: &[u64], block: u64) -> bool
    ensures { result ≡ has_bit words.now block }
{
    word(words, (block / 64) as usize) >> (block % 64) & 1 == 1
}

/// How many bits are on.
pub(crate) fn count(words: &[u64]) -> u64
    requires { length words.now < 2 ^ 58 }
    ensures { result ≡ set.len (members words.now) }
{
    let mut count = 0;
    for word in words {
        count += u64::from(word.count_ones());
    }
    count
}

/// Puts words that are 0 at the end, so that the i-th is there. The error is want of memory, or that there would be more
/// than 2^58 - 1 words.
fn lengthen(words: &mut Vec<u64>, i: usize) -> Result<(), AllocError>
    requires { length words.old.items < 2 ^ 58 }
    ensures short { length words.new.items < 2 ^ 58 }
    ensures long { OnOk result (i < length words.new.items) }
    ensures same { (k : ℕ) → slice_index words.new.items k ≡ slice_index words.old.items k }
    ensures err { OnErr result (words.new.items ≡ words.old.items) }
{
    if i < words.len() {
        return Ok(());
    }
    if i >= MOST_WORDS {
        return Err(AllocError);
    }
    words.resize(i + 1, 0)
}

/// Turns the bit of the number on.
fn turn_on(words: &mut Vec<u64>, block: u64) -> Result<(), AllocError>
    requires { length words.old.items < 2 ^ 58 }
    ensures short { length words.new.items < 2 ^ 58 }
    ensures ok { OnOk result (Writes block true words.old.items words.new.items) }
    ensures err { OnErr result (words.new.items ≡ words.old.items) }
{
    let i = (block / 64) as usize;
    lengthen(words, i)?;
    words[i] |= 1 << (block % 64);
    Ok(())
}

/// Turns the bit of the number off.
fn turn_off(words: &mut Vec<u64>, block: u64)
    ensures len { length words.new.items ≡ length words.old.items }
    ensures off { Writes block false words.old.items words.new.items }
{
    let i = (block / 64) as usize;
    if i < words.len() {
        words[i] &= !(1 << (block % 64));
    }
}

/// Gives the number its bit, in words of its own.
pub(crate) fn write(words: &mut Rc<Vec<u64>>, block: u64, on: bool) -> Result<(), AllocError>
    requires { length words.old.value.items < 2 ^ 58 }
    ensures short { length words.new.value.items < 2 ^ 58 }
    ensures ok { OnOk result (Writes block on words.old.value.items words.new.value.items) }
    ensures err { OnErr result (words.new.value.items ≡ words.old.value.items) }
{
    let words = Rc::make_mut(words)?;
    if on {
        turn_on(words, block)
    } else {
        turn_off(words, block);
        Ok(())
    }
}
