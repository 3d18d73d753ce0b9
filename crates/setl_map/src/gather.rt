//! Sets of values that come in any order and with repeats.

ghost use Rattle.std.specs.Prelude.{◌≡◌, ◌≤◌, map, IfOk};
ghost use Rattle.setl_value.specs.code.Body.{Members};
ghost use Rattle.setl_value.specs.Datum.{depth, set_of};
ghost use Rattle.setl_value.specs.code.DatumOf.{datum};
ghost use Rattle.setl_set.specs.Sets.{set_from};

use setl_set::laws;
use setl_value::{SetBody, Value};
use std::alloc::{AllocError, Global};

/// The set of these values, which may come in any order and with repeats. They are sorted once. The set is at most 500
/// deep.
pub fn gathered(alloc: Global, values: Vec<Value>) -> Result<SetBody, AllocError>
    requires { depth (set_of (map datum values.items)) ≤ 500 }
    ensures { IfOk result (λ s. Members s ≡ set_from (map datum values.items)) }
{
    laws::rising_lists_agree();
    laws::tests_are_exact();
    laws::operations_have_their_members();
    let mut values = values;
    values.sort()?;
    values.dedup();
    let set = SetBody::from_rising(alloc, values)?;
    Ok(set)
}
