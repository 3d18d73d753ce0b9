//! Parts: values that may be `om`, which is None.

ghost use Rattle.std.specs.Prelude.{◌≡◌, IfOk};
ghost use Rattle.setl_value.specs.code.DatumOf.{lent, part};

use crate::Value;
use std::alloc::AllocError;

/// The same part, lent.
#[inline]
pub fn lend(p: &Option<Value>) -> Option<&Value>
    ensures { lent result ≡ part p.now }
{
    match p {
        None => None,
        Some(v) => Some(v),
    }
}

/// A copy of a part that is lent, which shares its body. The error is want of memory.
#[inline]
pub fn copied(p: Option<&Value>) -> Result<Option<Value>, AllocError>
    ensures { IfOk result (λ copy. part copy ≡ lent p.entry) }
{
    match p {
        None => Ok(None),
        Some(v) => Ok(Some(v.copy()?)),
    }
}

/// A copy of a part, which shares its body. The error is want of memory.
#[inline]
pub fn copied_part(p: &Option<Value>) -> Result<Option<Value>, AllocError>
    ensures { IfOk result (λ copy. copy ≡ p.now) }
{
    match p {
        None => Ok(None),
        Some(v) => Ok(Some(v.copy()?)),
    }
}
