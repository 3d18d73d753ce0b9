//! What the calls on ranges of integers share.

ghost use Rattle.std.specs.Prelude.{◌≡◌, ◌-ℤ◌};
ghost use Rattle.setl_operators_table.specs.Ranges.{is_past};

/// Whether c lies on the other side of a than b does, so that a range from a over b up to c is empty.
pub fn is_past(a: i128, b: i128, c: i128) -> bool
    requires { a ≡ b → ⊥ }
    ensures { result ≡ is_past a (b -ℤ a) c }
{
    if a < b { c < a } else { a < c }
}
