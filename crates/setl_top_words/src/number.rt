//! Numbers in the words.
ghost use Rattle.std.specs.Prelude.{◌≡◌, ◌≢◌, ◌<◌, ◌^◌, ℕ, decimal, IfSome, IfNone};

use itoa::Buffer;

/// The number below 2^63 that the word spells in decimal digits, without sign and without a leading zero. `None` comes
/// exactly where the word spells none.
pub(crate) fn read_number(word: &str) -> Option<u64>
    ensures number { IfSome result (λ n. (word.now ≡ decimal n) × (n < 2 ^ 63)) }
    ensures none { IfNone result ((n : ℕ) → n < 2 ^ 63 → word.now ≢ decimal n) }
{
    let Ok(number) = word.parse::<u64>() else {
        return None;
    };
    if number < 1 << 63 && Buffer::new().format(number) == word {
        Some(number)
    } else {
        None
    }
}
