//! Operands that are lent, dropped, or replaced where they stand.

ghost use Rattle.std.specs.Prelude.{◌≡◌, ◌<◌, ◌≤◌, ◌∷◌, ◌+◌, drop, length, reverse, Some, IsSome, IfSome};
ghost use Rattle.setl_code.specs.CodeCore.{Result as Holds};
ghost use Rattle.setl_value.specs.code.DatumOf.{datum, lent, part};
ghost use Rattle.setl_store_operands.specs.Operands.{members_below, operand_of, IsOperandOver};
ghost use Rattle.setl_store.specs.Flat.{lowest_in, IsHeldBelow};
ghost use Rattle.setl_store.specs.Operands.{IsPlainTop};
ghost use Rattle.setl_store_operands.specs.Lending.{value_as, IsOverAs};
ghost use Rattle.setl_store.specs.Standing.{over, top_of, Becomes};

use crate::cells::Contents;
use crate::changes::{drop_operand, put_operand};
use crate::store::{Store, lowest};
use setl_rep_bases::Bases;
use setl_store_operands::{AsHeld, Operand, in_form, operand, plain_in};
use setl_value::Value;
use std::alloc::AllocError;

impl<'c> Store<'c> {
    /// The value on top; None where none is there, or it is `om`, a collection, an iterator, or a set or a tuple in a form. It
    /// takes no memory.
    #[inline(always)]
    pub fn one(&self) -> Option<&Value>
        ensures { IfSome result (λ value. self.now.core.now.operands ≡ Holds (Some (datum value.now)) ∷ drop 1 self.now.core.now.operands) }
    {
        self.value_below(0)
    }

    /// The two values on top, the upper one last; None where one of the two isn't there, or is `om`, a collection, an
    /// iterator, or a set or a tuple in a form. It takes no memory.
    #[inline(always)]
    pub fn two(&self) -> Option<(&Value, &Value)>
        ensures { IfSome result (λ both. self.now.core.now.operands ≡ Holds (Some (datum both.1.now)) ∷ Holds (Some (datum both.0.now)) ∷ drop 2 self.now.core.now.operands) }
    {
        let Some(upper) = self.value_below(0) else {
            return None;
        };
        let Some(lower) = self.value_below(1) else {
            return None;
        };
        Some((lower, upper))
    }

    /// The two results on top, the upper one last, where None is `om`; None where one of the two isn't there, or is a
    /// collection, an iterator, or a set or a tuple in a form. It takes no memory.
    pub fn two_parts(&self) -> Option<(Option<&Value>, Option<&Value>)>
        ensures { IfSome result (λ both. self.now.core.now.operands ≡ Holds (lent both.1) ∷ Holds (lent both.0) ∷ drop 2 self.now.core.now.operands) }
    {
        let Some(upper) = self.part_below(0) else {
            return None;
        };
        let Some(lower) = self.part_below(1) else {
            return None;
        };
        Some((lower, upper))
    }

    /// The value on top as it is held, and the bases of its form; None where none is there, or it is `om`, a collection or
    /// an iterator. It takes no memory.
    pub fn one_held(&self) -> Option<(AsHeld<'_>, &Bases)>
        ensures value { IfSome result (λ held. self.now.core.now.operands ≡ Holds (value_as held.1.now held.0) ∷ drop 1 self.now.core.now.operands) }
        ensures over { IfSome result (λ held. IsOverAs held.1.now held.0) }
    {
        let Some(held) = held_below(&self.environment, 0) else {
            return None;
        };
        Some((held, &self.bases))
    }

    /// The two values on top as they are held, the lower one first, and the bases of their forms; None where one of the two
    /// isn't there, or is `om`, a collection or an iterator. It takes no memory.
    pub fn two_held(&self) -> Option<(AsHeld<'_>, AsHeld<'_>, &Bases)>
        ensures values { IfSome result (λ held. self.now.core.now.operands ≡ Holds (value_as held.2.now held.1) ∷ Holds (value_as held.2.now held.0) ∷ drop 2 self.now.core.now.operands) }
        ensures lower { IfSome result (λ held. IsOverAs held.2.now held.0) }
        ensures upper { IfSome result (λ held. IsOverAs held.2.now held.1) }
    {
        let Some(upper) = held_below(&self.environment, 0) else {
            return None;
        };
        let Some(lower) = held_below(&self.environment, 1) else {
            return None;
        };
        Some((lower, upper, &self.bases))
    }

    // The value that so many operands stand above; None where none is there, or it is `om`, a collection, an iterator, or a
    // set or a tuple in a form.
    #[inline(always)]
    fn value_below(&self, count: usize) -> Option<&Value>
        ensures { IfSome result (λ value. drop count self.now.core.now.operands ≡ Holds (Some (datum value.now)) ∷ drop (count + 1) self.now.core.now.operands) }
    {
        let operands = self.environment.operands();
        if operands - lowest(&self.environment) <= count {
            return None;
        }
        let operand = self.environment.operand(operands - 1 - count);
        let Some(value) = plain_in(operand, &self.bases) else {
            return None;
        };
        Some(value)
    }

    // The same of a result that may be `om`.
    fn part_below(&self, count: usize) -> Option<Option<&Value>>
        ensures { IfSome result (λ value. drop count self.now.core.now.operands ≡ Holds (lent value) ∷ drop (count + 1) self.now.core.now.operands) }
    {
        let operands = self.environment.operands();
        if operands - lowest(&self.environment) <= count {
            return None;
        }
        let operand = self.environment.operand(operands - 1 - count);
        let Some(value) = part_in(operand, &self.bases) else {
            return None;
        };
        Some(value)
    }

    /// Drops the top: a result, or a collection with its members.
    ///
    /// The error is want of memory, and then all is as before.
    #[inline(always)]
    pub fn drop_top(&mut self) -> Result<(), AllocError>
        requires { IsSome (top_of self.old.core.now.operands) }
        ensures { Becomes result self.old self.new (record self.old { core = over (drop 1 self.old.core.now.operands) self.old.core }) }
    {
        let last = self.environment.operands() - 1;
        let members = self.environment.members();
        let lowest = members_below(self.environment.operand(last), members);
        drop_operand(&mut self.environment, lowest)?;
        Ok(())
    }

    /// Puts a value, or `om`, in the place of the result on top, which is no collection.
    ///
    /// The error is want of memory, and then all is as before.
    #[inline(always)]
    pub fn put_top(&mut self, value: Option<Value>) -> Result<(), AllocError>
        requires { IsPlainTop self.old.core.now.operands }
        ensures { Becomes result self.old self.new (record self.old { core = over (Holds (part value) ∷ drop 1 self.old.core.now.operands) self.old.core }) }
    {
        put_operand(&mut self.environment, operand(value))?;
        Ok(())
    }
}

/// How many of so many members are left without this operand.
pub(crate) fn members_below(operand: &Operand, members: usize) -> usize
    ensures { result ≡ members_below operand.now members }
{
    match operand {
        Operand::Collection(_, lowest, _) => *lowest,
        _ => members,
    }
}

// The result that an operand is, where None is `om`; None where its value lies nowhere plain, or the operand is an iterator or
// a collection.
fn part_in<'a>(operand: &'a Operand, bases: &'a Bases) -> Option<Option<&'a Value>>
    requires { IsOperandOver bases.now operand.now }
    ensures { IfSome result (λ value. (members : _) → operand_of bases.now members operand.now ≡ Holds (lent value)) }
{
    match operand {
        Operand::Om => Some(None),
        _ => match plain_in(operand, bases) {
            Some(value) => Some(Some(value)),
            None => None,
        },
    }
}

/// The value that so many operands stand above, as it is held; None where none is there, or it is `om`, a collection or an
/// iterator. It takes no memory.
pub(crate) fn held_below(environment: &Contents, count: usize) -> Option<AsHeld<'_>>
    requires some { 0 < length environment.now.now.activations }
    requires low { lowest_in (reverse environment.now.now.activations) ≤ length environment.now.now.operands }
    ensures { IfSome result (IsHeldBelow environment.now.now count) }
{
    let operands = environment.operands();
    if operands - lowest(environment) <= count {
        return None;
    }
    let Some(held) = in_form(environment.operand(operands - 1 - count)) else {
        return None;
    };
    Some(held)
}
