//! The operators on strings.
ghost use Rattle.std.specs.Prelude.{◌≡◌, ◌++◌, ◌↔◌, ◌⊎◌, IfOk, IfErr, Ok, Err};
ghost use Rattle.setl_value.specs.Copies.{copies};
ghost use Rattle.setl_scalar.specs.Texts.{repeat_of, slice_of};

use crate::ScalarFault;
use setl_value::Text;
use std::alloc::{AllocError, Global};

/// The bytes of `a`, then those of `b`. The only fault is NoMemory.
pub fn cat(alloc: Global, a: &Text, b: &Text) -> Result<Text, ScalarFault>
    ensures joined { IfOk result (λ t. t ≡ a.now ++ b.now) }
    ensures faults { IfErr result (λ e. e ≡ ScalarFault.NoMemory) }
{
    a.learn();
    b.learn();
    let bytes = joined(alloc, a.bytes(), b.bytes())?;
    Ok(Text::from_bytes(alloc, bytes)?)
}

/// The bytes of `left`, then those of `right`.
fn joined(alloc: Global, left: &[u8], right: &[u8]) -> Result<Vec<u8>, AllocError>
    ensures { IfOk result (λ v. v.items ≡ left.now ++ right.now) }
{
    let mut all = Vec::with_capacity(alloc, left.len().saturating_add(right.len()))?;
    all.extend_from_slice(left)?;
    all.extend_from_slice(right)?;
    Ok(all)
}

/// `n` copies of `a`, one after another. Range exactly where `n` is below 0; the only other fault is
/// NoMemory, which also comes where the copies have 2^64 bytes or more, which no memory holds. Copies of the empty string
/// cost nothing.
pub fn repeat(alloc: Global, a: &Text, n: i128) -> Result<Text, ScalarFault>
    ensures copied { IfOk result (λ t. repeat_of a.now n ≡ Ok t) }
    ensures range { (result ≡ Err ScalarFault.Range) ↔ (repeat_of a.now n ≡ Err ScalarFault.Range) }
    ensures faults { IfErr result (λ e. (e ≡ ScalarFault.Range) ⊎ (e ≡ ScalarFault.NoMemory)) }
{
    if n < 0 {
        return Err(ScalarFault::Range);
    }
    a.learn();
    let bytes = copied(alloc, a.bytes(), n.unsigned_abs())?;
    Ok(Text::from_bytes(alloc, bytes)?)
}

/// `n` copies of `bytes`, one after another.
fn copied(alloc: Global, bytes: &[u8], n: u128) -> Result<Vec<u8>, AllocError>
    ensures { IfOk result (λ v. v.items ≡ copies n bytes.now) }
{
    if bytes.is_empty() {
        return Ok(Vec::new(alloc));
    }
    let Ok(n) = usize::try_from(n) else {
        return Err(AllocError);
    };
    let Some(len) = n.checked_mul(bytes.len()) else {
        return Err(AllocError);
    };
    let mut all = Vec::with_capacity(alloc, len)?;
    for _ in 0..n {
        all.extend_from_slice(bytes)?;
    }
    Ok(all)
}

/// The bytes of `a` at places `i` to `j`, counted from 1; none where `i` is `j + 1`. Range exactly
/// unless 1 <= i <= j + 1 and j is at most the length; the only other fault is NoMemory.
pub fn slice(alloc: Global, a: &Text, i: i128, j: i128) -> Result<Text, ScalarFault>
    ensures part { IfOk result (λ t. slice_of a.now i j ≡ Ok t) }
    ensures range { (result ≡ Err ScalarFault.Range) ↔ (slice_of a.now i j ≡ Err ScalarFault.Range) }
    ensures faults { IfErr result (λ e. (e ≡ ScalarFault.Range) ⊎ (e ≡ ScalarFault.NoMemory)) }
{
    a.learn();
    let bytes = a.bytes();
    if i < 1 || j < i - 1 || (bytes.len() as i128) < j {
        return Err(ScalarFault::Range);
    }
    Ok(Text::of(alloc, &bytes[(i - 1) as usize..j as usize])?)
}
