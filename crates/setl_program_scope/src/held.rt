//! Parts that wait while the next one is made.

ghost use Rattle.std.specs.Prelude.{◌≡◌, Ok, IfOk};

use std::alloc::AllocError;

/// What was made before, and what is made now. An error is that of the second.
pub fn beside<T: Drop, U: Drop>(held: T, other: Result<U, AllocError>) -> Result<(T, U), AllocError>
    ensures held { IfOk result (λ both. both.0 ≡ held) }
    ensures other { IfOk result (λ both. other ≡ Ok both.1) }
{
    let other = other?;
    Ok((held, other))
}
