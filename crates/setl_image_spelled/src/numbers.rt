//! Numbers and lengths.

ghost use Rattle.std.specs.Prelude.{◌≡◌};
ghost use Rattle.setl_image_spelled.specs.Spelled.{is_number};

/// Whether a number has a spelling: each one of 32 bits has.
pub(crate) fn is_number(n: u32) -> bool
    ensures { result ≡ is_number n }
{
    true
}

/// Whether the length of a list or a text has a spelling.
pub(crate) fn is_length(n: usize) -> bool
    ensures { result ≡ is_number n }
{
    n < 1 << 32
}
