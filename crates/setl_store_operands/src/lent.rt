//! Operands, and what their forms stand for, where these can be lent.

ghost use Rattle.std.specs.Prelude.{◌≡◌, ◌∷◌, Some, IfOk, IfSome};
ghost use Rattle.setl_value.specs.code.DatumOf.{datum};
ghost use Rattle.setl_code.specs.CodeCore.{Result as Holds};
ghost use Rattle.setl_rep_forms.specs.FormOf.{form};
ghost use Rattle.setl_rep_forms.specs.Stands.{IsOver};
ghost use Rattle.setl_rep_plain.specs.Standing.{held_value, IsHeldOver};
ghost use Rattle.setl_store_operands.specs.Lending.{value_as, IsLent, IsLentValue, IsOverAs};
ghost use Rattle.setl_store_operands.specs.Operands.{operand_of, HasMembers, IsOperandOver};

use crate::cells::Operand;
use setl_rep_bases::Bases;
use setl_rep_forms::Held;
use setl_store_slots::Shared;
use setl_value::Value;
use std::alloc::{AllocError, Global};

/// What a form stands for.
#[derive(Clone, Copy)]
pub enum Lent<'a> {
    Om,
    Value(&'a Value),
    /// A set or a tuple, which is nowhere as a plain value.
    Whole,
}

/// What a form stands for: a value that lies plain, in the form or in its base, is lent. It takes no memory.
pub fn lend<'a>(held: &'a Held, bases: &'a Bases) -> Lent<'a>
    requires { IsOver bases.now (form held.now) }
    ensures { IsLent (held_value bases.now held.now) result }
{
    match held {
        Held::Om => Lent::Om,
        Held::Plain(value) => Lent::Value(value),
        Held::Elt(base, element) => lent_value(bases.at(*base).value(*element)),
        Held::Remote(_, _) => Lent::Whole,
        Held::Sparse(_, _) => Lent::Whole,
        Held::RemoteMap(_, _, _) => Lent::Whole,
        Held::SparseMap(_, _, _) => Lent::Whole,
        Held::EltTuple(_, _) => Lent::Whole,
    }
}

// A value that may not be there.
fn lent_value(value: Option<&Value>) -> Lent<'_>
    ensures { IsLentValue value.entry result }
{
    match value {
        None => Lent::Om,
        Some(value) => Lent::Value(value),
    }
}

/// The value that an operand is, where it lies plain, in the operand or in a base; None where it lies nowhere so, or the
/// operand is `om`, an iterator or a collection. It takes no memory.
#[inline(always)]
pub fn plain_in<'a>(operand: &'a Operand, bases: &'a Bases) -> Option<&'a Value>
    requires { IsOperandOver bases.now operand.now }
    ensures { IfSome result (λ value. (members : _) → operand_of bases.now members operand.now ≡ Holds (Some (datum value.now))) }
{
    match operand {
        Operand::Value(value) => Some(value),
        Operand::Based(form) => match lend(form.get(), bases) {
            Lent::Value(value) => Some(value),
            _ => None,
        },
        _ => None,
    }
}

/// A value as it is held.
#[derive(Clone, Copy)]
pub enum AsHeld<'a> {
    Plain(&'a Value),
    /// In a form over bases.
    Based(&'a Held),
}

/// The value that an operand is, as it is held; None where it is `om` as it is, an iterator or a collection. It takes no memory.
pub fn in_form(operand: &Operand) -> Option<AsHeld<'_>>
    ensures value { IfSome result (λ held. (bs : _) (members : _) → operand_of bs members operand.now ≡ Holds (value_as bs held)) }
    ensures over { IfSome result (λ held. (bs : _) → IsOperandOver bs operand.now → IsOverAs bs held) }
{
    match operand {
        Operand::Value(value) => Some(AsHeld::Plain(value)),
        Operand::Based(form) => Some(AsHeld::Based(form.get())),
        _ => None,
    }
}

/// The value that is held so, where it lies plain; None where it lies nowhere so, or it is `om`. It takes no memory.
pub fn plain_as<'a>(held: AsHeld<'a>, bases: &'a Bases) -> Option<&'a Value>
    requires { IsOverAs bases.now held }
    ensures { IfSome result (λ value. value_as bases.now held.entry ≡ Some (datum value.now)) }
{
    match held {
        AsHeld::Plain(value) => Some(value),
        AsHeld::Based(form) => match lend(form, bases) {
            Lent::Value(value) => Some(value),
            _ => None,
        },
    }
}

/// The operand that is what a form stands for: a copy of the value where that lies plain, and else the form.
///
/// The error is want of memory.
pub fn operand_of_form(alloc: Global, form: Held, bases: &Bases) -> Result<Operand, AllocError>
    requires { IsHeldOver bases.now form }
    ensures stands { IfOk result (λ operand. (members : _) → operand_of bases.now members operand ≡ Holds (held_value bases.now form)) }
    ensures over { IfOk result (IsOperandOver bases.now) }
    ensures alone { IfOk result (λ operand. (os : _) (n : _) → HasMembers os n → HasMembers (operand ∷ os) n) }
{
    match lend(&form, bases) {
        Lent::Om => Ok(Operand::Om),
        Lent::Value(value) => Ok(Operand::Value(value.copy()?)),
        Lent::Whole => Ok(Operand::Based(Shared::new(alloc, form)?)),
    }
}
