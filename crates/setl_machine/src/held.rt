//! Operators on sets that are held in forms, by the kernels of these.

ghost use Rattle.std.specs.Prelude.{◌≡◌, ℕ, [], ◌∷◌, IfOk, IfSome};
ghost use Rattle.setl_machine.specs.Held.{GivesOfOne, TellsOfTwo};
ghost use Rattle.setl_operators_table.specs.declared.Operator.TheVariants.{In};
ghost use Rattle.setl_operators_table.specs.Operators.{op_of};
ghost use Rattle.setl_operators_table.specs.Outcome.{truth};
ghost use Rattle.setl_rep_plain.specs.Standing.{held_value, IsHeldOver};
ghost use Rattle.setl_store_operands.specs.Lending.{value_as, IsOverAs};
ghost use Rattle.setl_value.specs.code.DatumOf.{datum};

use setl_operators::Operator;
use setl_rep_bases::Bases;
use setl_rep_forms::Held;
use setl_rep_kernels::{is_in, size};
use setl_store::Store;
use setl_store_operands::AsHeld;
use setl_value::Value;
use std::alloc::AllocError;

/// What `in` and `notin` give of the two on top, where the upper one is a set in a form; None where it is something else. The error
/// is want of memory.
pub(crate) fn tested_in_form(what: Operator, store: &Store<'_>) -> Result<Option<bool>, AllocError>
    ensures { IfOk result (λ o. IfSome o (TellsOfTwo what store.now.core.now.operands)) }
{
    let Some((lower, upper, bases)) = store.two_held() else {
        return Ok(None);
    };
    let AsHeld::Based(set) = upper else {
        return Ok(None);
    };
    match what {
        Operator::In => is_member(lower, set, bases),
        Operator::NotIn => match is_member(lower, set, bases)? {
            Some(t) => Ok(Some(!t)),
            None => Ok(None),
        },
        _ => Ok(None),
    }
}

// Whether a value is a member of a set in a form; None where there is no kernel for it. The error is want of memory.
fn is_member(value: AsHeld<'_>, set: &Held, bases: &Bases) -> Result<Option<bool>, AllocError>
    requires value { IsOverAs bases.now value }
    requires set { IsHeldOver bases.now set.now }
    ensures { IfOk result (λ o. IfSome o (λ t. (left : ℕ) → op_of In (value_as bases.now value.entry ∷ held_value bases.now set.now ∷ []) left ≡ truth t)) }
{
    match value {
        AsHeld::Plain(value) => {
            let element = Held::Plain(value.copy()?);
            Ok(is_in(&element, set, bases))
        }
        AsHeld::Based(element) => Ok(is_in(element, set, bases)),
    }
}

/// How many members the set on top has, where it is in a form that tells it, and `#` is asked for; None where it is something else.
/// It takes no memory.
pub(crate) fn counted_in_form(what: Operator, store: &Store<'_>) -> Option<Value>
    ensures { IfSome result (λ v. GivesOfOne what store.now.core.now.operands (datum v)) }
{
    let Operator::Size = what else {
        return None;
    };
    let Some((top, bases)) = store.one_held() else {
        return None;
    };
    let AsHeld::Based(set) = top else {
        return None;
    };
    match size(set, bases) {
        Some(n) => Some(Value::Int(i128::from(n))),
        None => None,
    }
}
