//! Integers that are one step apart.

ghost use Rattle.std.specs.Prelude.{◌≡◌, ℤ, map, IfOk};
ghost use Rattle.std.specs.Int.{int_wrap, w128};
ghost use Rattle.setl_value.specs.Datum.{elements_depth, elements_of};
ghost use Rattle.setl_value.specs.code.DatumOf.{datum};
ghost use Rattle.setl_operators_table.specs.Ranges.{spread};
ghost use Rattle.setl_operators_enumerations.specs.Integers.{AreWide};

use setl_value::Value;
use std::alloc::{AllocError, Global};

/// n integers from a on, each `step` more than the one before. The step stands for one that may lie outside 128 bits.
pub(crate) fn integers(alloc: Global, a: i128, step: i128, n: u64) -> Result<Vec<Value>, AllocError>
    ensures spread { IfOk result (λ vs. (by : ℤ) → step ≡ int_wrap w128 by → AreWide a by n → map datum vs.items ≡ spread a by n) }
    ensures shallow { IfOk result (λ vs. elements_depth (elements_of (map datum vs.items)) ≡ 0) }
{
    let mut values = Vec::with_capacity(alloc, n as usize)?;
    let mut next = a;
    for i in 0..n {
        values.push(Value::Int(next))?;
        next = next.wrapping_add(step);
    }
    Ok(values)
}
