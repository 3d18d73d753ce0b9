//! Numbers of a script.

ghost use Rattle.std.specs.Prelude.{◌≡◌, ◌≢◌, ◌<◌, ◌^◌, ℕ, decimal, IfSome, IfNone};

use itoa::Buffer;
use std::str::from_utf8;

/// The number below 2^63 that these bytes spell in decimal digits, without a leading zero. `None` comes exactly where they
/// spell none.
pub(crate) fn read_number(digits: &[u8]) -> Option<u64>
    ensures number { IfSome result (λ n. (digits.now ≡ decimal n) × (n < 2 ^ 63)) }
    ensures none { IfNone result ((n : ℕ) → n < 2 ^ 63 → digits.now ≢ decimal n) }
{
    let Ok(word) = from_utf8(digits) else {
        return None;
    };
    let Ok(number) = word.parse::<u64>() else {
        return None;
    };
    if number < 1 << 63 && Buffer::new().format(number) == word {
        Some(number)
    } else {
        None
    }
}
