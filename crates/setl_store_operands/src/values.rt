//! Operands as values.

ghost use Rattle.std.specs.Prelude.{◌≡◌, ◌∷◌, is_some, Some, IfOk};
ghost use Rattle.setl_value.specs.code.DatumOf.{part};
ghost use Rattle.setl_code.specs.CodeCore.{Result as Holds, value_of};
ghost use Rattle.setl_store_operands.specs.Operands.{operand_by, operand_in, operand_of, HasMembers, IsOperandOver, IsPlain, Serves};

use crate::cells::{Member, Operand};
use crate::collections::collection;
use setl_rep_bases::Bases;
use setl_rep_plain::plain;
use setl_store_environment::Environment;
use setl_store_slots::Held;
use setl_value::Value;
use std::alloc::{AllocError, Global};

/// An operand that is this value.
#[inline(always)]
pub fn operand(value: Option<Value>) -> Operand
    ensures is { result ≡ operand_by value }
    ensures stands { (bs : _) (members : _) → operand_of bs members result ≡ Holds (part value) }
    ensures over { (bs : _) → IsOperandOver bs result }
    ensures alone { (os : _) (n : _) → HasMembers os n → HasMembers (result ∷ os) n }
{
    match value {
        Some(value) => Operand::Value(value),
        None => Operand::Om,
    }
}

/// The operand that is what a slot holds, in its form, which both then share.
///
/// The error is want of memory.
pub fn operand_in(slot: &Held) -> Result<Operand, AllocError>
    ensures { IfOk result (λ operand. operand ≡ operand_in slot.now) }
{
    match slot {
        Held::Om | Held::Taken => Ok(Operand::Om),
        Held::Value(value) => Ok(Operand::Value(value.copy()?)),
        Held::Based(_, form) => Ok(Operand::Based(form.copy()?)),
    }
}

/// Whether an operand serves as a value, so that it is no iterator.
#[inline]
pub fn is_value(operand: &Operand) -> bool
    ensures { (bs : _) (members : _) → result ≡ is_some (value_of (operand_of bs members operand.now)) }
{
    !matches!(operand, Operand::Iterator(_))
}

/// The value of an operand that is one as it is, or `om`.
#[inline(always)]
pub fn value(operand: Operand) -> Option<Value>
    requires { IsPlain operand }
    ensures { (bs : _) (members : _) → operand_of bs members operand ≡ Holds (part result) }
{
    match operand {
        Operand::Value(value) => Some(value),
        _ => None,
    }
}

/// A copy of the result that an operand is, as a plain value, or the set or tuple of a collection's members.
///
/// The error is want of memory.
pub fn served<S: Drop, A: Drop, F: Drop, K: Drop>(
    alloc: Global,
    environment: &Environment<S, Operand, A, Member, F, K>,
    bases: &Bases,
    operand: &Operand,
) -> Result<Option<Value>, AllocError>
    requires { Serves bases.now environment.now.now.members operand.now }
    ensures { IfOk result (λ value. value_of (operand_of bases.now environment.now.now.members operand.now) ≡ Some (part value)) }
{
    match operand {
        Operand::Value(value) => Ok(Some(value.copy()?)),
        Operand::Based(form) => plain(alloc, form.get(), bases),
        Operand::Collection(what, lowest, count) => {
            let members = environment.copied_members(*lowest, *count)?;
            Ok(Some(collection(alloc, *what, members)?))
        }
        Operand::Om | Operand::Iterator(_) => Ok(None),
    }
}
