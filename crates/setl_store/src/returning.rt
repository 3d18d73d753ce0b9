//! What a return hands back.

ghost use Rattle.std.specs.Prelude.{◌<◌, ◌+◌, ◌≤◌, ◌≡◌, ◌∷◌, map, drop, length, reverse, slice_get, IfOk};
ghost use Rattle.std.specs.Option.{option_map};
ghost use Rattle.setl_code.specs.CodeCore.{Result as Holds};
ghost use Rattle.setl_value.specs.code.DatumOf.{part};
ghost use Rattle.setl_store.specs.Flat.{helds, body_in, slots_in};
ghost use Rattle.setl_store_slots.specs.Slots.{AreStanding};
ghost use Rattle.setl_store.specs.Returning.{handed, handed_in, parameter_count_of, pushed_on};

use crate::activations::innermost;
use crate::cells::Contents;
use setl_code::Code;
use setl_rep_bases::Bases;
use setl_tree::Param;
use setl_value::Value;
use std::alloc::{AllocError, Global};

/// The result of the innermost activation, and behind it what its `wr` and `rw` parameters hold, the first one last; or
/// None where no activation waits for it, or one of these was taken.
pub(crate) fn handed_back(
    alloc: Global,
    code: &Code,
    environment: &Contents,
    bases: &Bases,
    value: Option<Value>,
) -> Result<Option<Vec<Option<Value>>>, AllocError>
    requires some { 0 < length environment.now.now.activations }
    requires slots { slots_in (reverse environment.now.now.activations) + parameter_count_of (slice_get code.now.bodies (body_in (reverse environment.now.now.activations))) ≤ length environment.now.now.slots }
    requires standing { AreStanding bases.now environment.now.now.slots }
    ensures { IfOk result (λ all. (xs : _) → handed_in code.now.bodies (reverse environment.now.now.activations) (helds bases.now environment.now.now) (Holds (part value) ∷ xs) ≡ option_map (λ values. pushed_on (map part values.items) xs) all) }
{
    if environment.activations() == 1 {
        return Ok(None);
    }
    let frame = innermost(environment);
    let Some(body) = code.bodies.as_slice().get(frame.body as usize) else {
        return Ok(None);
    };
    from_slots(
        alloc,
        body.parameters.as_slice(),
        environment,
        bases,
        frame.slots,
        value,
    )
}

// The same, where the parameters have the slots from this one on.
fn from_slots(
    alloc: Global,
    parameters: &[Param],
    environment: &Contents,
    bases: &Bases,
    lowest: usize,
    value: Option<Value>,
) -> Result<Option<Vec<Option<Value>>>, AllocError>
    requires slots { lowest + length parameters.now ≤ length environment.now.now.slots }
    requires standing { AreStanding bases.now environment.now.now.slots }
    ensures { IfOk result (λ all. (xs : _) → handed parameters.now (drop lowest (helds bases.now environment.now.now)) (Holds (part value) ∷ xs) ≡ option_map (λ values. pushed_on (map part values.items) xs) all) }
{
    setl_store_slots::handed_back(alloc, parameters, environment, bases, lowest, value)
}
