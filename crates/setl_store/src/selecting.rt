//! What operators select from maps that are held in forms.

ghost use Rattle.std.specs.Prelude.{◌≡◌, ℕ, [], ◌∷◌, IfOk, IfSome, OnErr};
ghost use Rattle.setl_operators_table.specs.Operators.{op_of};
ghost use Rattle.setl_operators_table.specs.Outcome.{Gives};
ghost use Rattle.setl_rep_plain.specs.Standing.{held_value, IsHeldOver};
ghost use Rattle.setl_store.specs.Forms.{SelectsFreely};
ghost use Rattle.setl_store_operands.specs.Lending.{value_as, IsOverAs};

use crate::changes::put_for_two;
use crate::lent::held_below;
use crate::store::Store;
use setl_operators_table::Operator;
use setl_rep_bases::Bases;
use setl_rep_forms::Held;
use setl_rep_images::{image, images};
use setl_store_operands::{AsHeld, operand_of_form, plain_as};
use std::alloc::{AllocError, Global};

impl<'c> Store<'c> {
    /// Puts `f(x)`, or `f{x}`, as the operator says, in the place of the two on top, which are a map in a form and `x`: an image
    /// in the form in which the map has it. The answer is whether the two are so and the operator selects from this form, and
    /// else all is as before.
    ///
    /// The error is want of memory, and then all is as before. Where the map keeps its images as they are asked for, the cost is
    /// near linear in the size of `x` alone.
    pub fn select(&mut self, what: Operator) -> Result<bool, AllocError>
        ensures done { IfOk result (SelectsFreely what self.old self.new) }
        ensures refused { OnErr result (self.new ≡ self.old) }
    {
        let Some(upper) = held_below(&self.environment, 0) else {
            return Ok(false);
        };
        let Some(lower) = held_below(&self.environment, 1) else {
            return Ok(false);
        };
        let Some(form) = selected(self.alloc, what, lower, upper, &self.bases)? else {
            return Ok(false);
        };
        let operand = operand_of_form(self.alloc, form, &self.bases)?;
        put_for_two(&mut self.environment, operand)?;
        Ok(true)
    }
}

// What an operator selects at a value from a map in a form, in a form; None where there is no kernel for it. An error is want of
// memory.
fn selected(
    alloc: Global,
    what: Operator,
    map: AsHeld<'_>,
    at: AsHeld<'_>,
    bases: &Bases,
) -> Result<Option<Held>, AllocError>
    requires map { IsOverAs bases.now map }
    requires at { IsOverAs bases.now at }
    ensures gives { IfOk result (λ o. IfSome o (λ h. (left : ℕ) → op_of what (value_as bases.now map.entry ∷ value_as bases.now at.entry ∷ []) left ≡ Gives (held_value bases.now h) 0)) }
    ensures over { IfOk result (λ o. IfSome o (IsHeldOver bases.now)) }
{
    let AsHeld::Based(map) = map else {
        return Ok(None);
    };
    let Some(x) = plain_as(at, bases) else {
        return Ok(None);
    };
    match what {
        Operator::Get => image(alloc, map, x, bases),
        Operator::Images => images(alloc, map, x, bases),
        _ => Ok(None),
    }
}
