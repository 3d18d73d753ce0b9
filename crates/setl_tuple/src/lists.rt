//! Whole tuples: joined, repeated and cut.
ghost use Rattle.std.specs.Prelude.{◌≡◌, ◌≤◌, ◌<◌, ◌++◌, ◌↔◌, length, map, Some, None, slice_get, replicate, slice_range, IfOk, OnOk, Ok, Err};
ghost use Rattle.setl_value.specs.code.DatumOf.{part};
ghost use Rattle.setl_value.specs.Copies.{copies};
ghost use Rattle.setl_tuple.specs.Tuples.{repeat_of, slice_of};

use crate::TupleFault;
use setl_value::{TupleBody, Value};
use std::alloc::{AllocError, Global};

/// The components of `a`, then those of `b`.
pub fn cat(alloc: Global, a: &TupleBody, b: &TupleBody) -> Result<TupleBody, AllocError>
    ensures joined { IfOk result (λ t. t ≡ a.now ++ b.now) }
{
    a.learn();
    b.learn();
    let mut parts = Vec::with_capacity(alloc, a.len().saturating_add(b.len()))?;
    push_all(&mut parts, a)?;
    push_all(&mut parts, b)?;
    TupleBody::of(alloc, parts)
}

/// `n` copies of `a`, one after another. Range exactly where `n` is below 0; the only other fault is
/// NoMemory, which also comes where the copies have 2^64 components or more, which no memory holds. Copies of the empty
/// tuple cost nothing.
pub fn repeat(alloc: Global, a: &TupleBody, n: i128) -> Result<TupleBody, TupleFault>
    ensures copied { IfOk result (λ t. repeat_of a.now n ≡ Ok t) }
    ensures range { (result ≡ Err TupleFault.Range) ↔ (repeat_of a.now n ≡ Err TupleFault.Range) }
    ensures never_deep { result ≡ Err TupleFault.Deep → ⊥ }
{
    if n < 0 {
        return Err(TupleFault::Range);
    }
    a.learn();
    let parts = copied(alloc, a, n.unsigned_abs())?;
    Ok(TupleBody::of(alloc, parts)?)
}

/// The components of `n` copies of `a`.
fn copied(alloc: Global, a: &TupleBody, n: u128) -> Result<Vec<Option<Value>>, AllocError>
    ensures { IfOk result (λ parts. map part parts.items ≡ copies n a.now) }
{
    if a.len() == 0 {
        return Ok(Vec::new(alloc));
    }
    let Ok(n) = usize::try_from(n) else {
        return Err(AllocError);
    };
    let Some(len) = n.checked_mul(a.len()) else {
        return Err(AllocError);
    };
    let mut parts = Vec::with_capacity(alloc, len)?;
    for _ in 0..n {
        push_all(&mut parts, a)?;
    }
    Ok(parts)
}

/// The components of `t` at places `i` to `j`, counted from 1, without the `om` at their end; none
/// where `i` is `j + 1`. Range exactly unless 1 <= i <= j + 1 and j is at most the length; the only
/// other fault is NoMemory.
pub fn slice(alloc: Global, t: &TupleBody, i: i128, j: i128) -> Result<TupleBody, TupleFault>
    ensures part { IfOk result (λ s. slice_of t.now i j ≡ Ok s) }
    ensures range { (result ≡ Err TupleFault.Range) ↔ (slice_of t.now i j ≡ Err TupleFault.Range) }
    ensures never_deep { result ≡ Err TupleFault.Deep → ⊥ }
{
    if i < 1 || j < i - 1 || (t.len() as i128) < j {
        return Err(TupleFault::Range);
    }
    t.learn();
    let from = (i - 1) as usize;
    let to = j as usize;
    let mut parts = Vec::with_capacity(alloc, to - from)?;
    push_part(&mut parts, t, from, to)?;
    Ok(TupleBody::of(alloc, parts)?)
}

/// Pushes the components of `t`.
fn push_all(parts: &mut Vec<Option<Value>>, t: &TupleBody) -> Result<(), AllocError>
    ensures { OnOk result (map part parts.new.items ≡ map part parts.old.items ++ t.now) }
{
    push_part(parts, t, 0, t.len())
}

/// Pushes the components of `t` from index `from` to below `to`.
fn push_part(
    parts: &mut Vec<Option<Value>>,
    t: &TupleBody,
    from: usize,
    to: usize,
) -> Result<(), AllocError>
    requires ordered { from ≤ to }
    requires inside { to ≤ length t.now }
    ensures { OnOk result (map part parts.new.items ≡ map part parts.old.items ++ slice_range t.now from to) }
{
    for i in from..to {
        parts.push(component(t, i)?)?;
    }
    Ok(())
}

/// A copy of the component at index `i`.
fn component(t: &TupleBody, i: usize) -> Result<Option<Value>, AllocError>
    requires { i < length t.now }
    ensures { IfOk result (λ p. slice_get t.now i ≡ Some (part p)) }
{
    match t.at(i) {
        None => Ok(None),
        Some(v) => Ok(Some(v.copy()?)),
    }
}

/// Pushes `om` `n` times.
pub(crate) fn push_om(parts: &mut Vec<Option<Value>>, n: usize) -> Result<(), AllocError>
    ensures { OnOk result (map part parts.new.items ≡ map part parts.old.items ++ replicate n None) }
{
    for _ in 0..n {
        parts.push(None)?;
    }
    Ok(())
}
