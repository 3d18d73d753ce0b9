//! Integers in two halves.

ghost use Rattle.std.specs.Prelude.{◌≡◌};

use std::marker::Model;

/// An integer in two halves, so that it takes 16 bytes at any multiple of eight. Contracts see the integer.
#[derive(Drop)]
pub struct Literal {
    upper: u64,
    lower: u64,
}

impl Model for Literal {
    ghost use Rattle.std.specs.Prelude.{ℤ, ◌+◌, ◌*◌, ◌^◌};
    ghost use Rattle.std.specs.Int.{cast_signed, w128};

    ghost Value = { ℤ };

    ghost view = { λ l. cast_signed w128 (l.upper * 2 ^ 64 + l.lower) };
}

impl Literal {
    /// This integer.
    pub fn new(value: i128) -> Literal
        ensures { result ≡ value }
    {
        let bits = value.cast_unsigned();
        Literal {
            upper: (bits / (1 << 64)) as u64,
            lower: (bits % (1 << 64)) as u64,
        }
    }

    /// The integer.
    pub fn get(&self) -> i128
        ensures { result ≡ self.now }
    {
        (u128::from(self.upper) * (1 << 64) + u128::from(self.lower)).cast_signed()
    }
}
