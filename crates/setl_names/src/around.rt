//! Where a statement stands.

ghost use Rattle.std.specs.Prelude.{◌≡◌};
ghost use Rattle.setl_names.specs.Places as spec;

/// Whether a statement stands in a loop of its body, and whether it stands in a procedure.
#[derive(Clone, Copy)]
pub struct Around {
    pub in_loop: bool,
    pub in_procedure: bool,
}

impl Around {
    /// Where the statements of a loop stand.
    pub fn in_a_loop(self) -> Around
        ensures { result ≡ spec.in_a_loop self }
    {
        Around {
            in_loop: true,
            in_procedure: self.in_procedure,
        }
    }
}
