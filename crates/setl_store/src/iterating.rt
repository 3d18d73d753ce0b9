//! Iterators at work, and collections that are being built below them.

ghost use Rattle.std.specs.Prelude.{◌≡◌, ◌<◌, ◌≤◌, ◌-◌, ◌+◌, ◌∷◌, ◌++◌, [], Some, None, length, drop, reverse, slice_get, slice_set, IfSome, IfNone, IfOk, IfErr, OnOk, OnErr, true, false};
ghost use Rattle.setl_model.specs.Collections.{refusal};
ghost use Rattle.setl_code.specs.Machine.{added, Nowhere};
ghost use Rattle.setl_value.specs.code.DatumOf.{part};
ghost use Rattle.setl_store_operands.specs.Operands.{operand_of};
ghost use Rattle.setl_store.specs.Flat.{lowest_in, now_operands};
ghost use Rattle.setl_store.specs.Iterating.{IsAtItem, IsFirst, advanced, with_item, AreIterators, Refuses};
ghost use Rattle.setl_store.specs.Operands.{IsAhead, Advances, TellsAdded};
ghost use Rattle.setl_store.specs.Standing.{over};
ghost use Rattle.setl_store_operands.specs.declared.cells.Operand.TheVariants.{Iterator as at_work};
ghost use Rattle.setl_store.specs.declared.iterating.Ahead.TheVariants as ahead;

use crate::cells::Contents;
use crate::changes::put_back;
use crate::store::{Store, lowest};
use setl_operators_table::OpFault;
use setl_program::Collection;
use setl_store_iterator::{Item, Iterator};
use setl_store_operands::{Member, Operand, operand};
use setl_value::Value;
use std::alloc::{AllocError, Global};

/// What is ahead of the iterator on top.
#[derive(Clone, Copy, Debug, PartialEq, Eq)]
pub enum Ahead {
    /// No iterator is on top.
    NoIterator,
    /// Nothing: it is at its end.
    AtEnd,
    /// An item.
    AtItem,
}

impl<'c> Store<'c> {
    /// What is ahead of the iterator on top, if one is. It takes no memory.
    pub fn ahead(&self) -> Ahead
        ensures { IsAhead self.now.core.now.operands result }
    {
        let count = self.environment.operands();
        if count == lowest(&self.environment) {
            return Ahead::NoIterator;
        }
        match self.environment.operand(count - 1) {
            Operand::Iterator(iterator) => {
                if iterator.is_at_end() {
                    Ahead::AtEnd
                } else {
                    Ahead::AtItem
                }
            }
            _ => Ahead::NoIterator,
        }
    }

    /// Takes the first item of the iterator on top, and pushes it: a member, or an image and on it its argument.
    ///
    /// The error is want of memory, and then all is as before.
    pub fn advance(&mut self) -> Result<(), AllocError>
        requires { IsAhead self.old.core.now.operands ahead.AtItem }
        ensures item { OnOk result (Advances self.old.core.now.operands self.new.core.now.operands) }
        ensures rest { OnOk result (self.new ≡ record self.old { core = over self.new.core.now.operands self.old.core }) }
        ensures refused { OnErr result (self.new ≡ self.old) }
    {
        let item = take_item(self.alloc, &mut self.environment)?;
        push_item(&mut self.environment, item);
        Ok(())
    }

    /// Adds a value to the collection below so many iterators. Its answer is whether there is one, and else all is as
    /// before.
    ///
    /// `Om` comes for `om` and a set, `Deep` for a value of depth 500, `NoMemory` for want of memory, or where the
    /// collection has 2^64 - 1 values already, which no memory holds; then all is as before.
    pub fn add_below(&mut self, count: usize, value: Option<Value>) -> Result<bool, OpFault>
        ensures told { TellsAdded (added count (part value) self.old.core.now.operands) result self.new.core.now.operands }
        ensures rest { self.new ≡ record self.old { core = over self.new.core.now.operands self.old.core } }
        ensures nowhere { IfOk result (λ is_added. is_added ≡ false → self.new ≡ self.old) }
        ensures refused { OnErr result (self.new ≡ self.old) }
    {
        let Some(at) = below_iterators(&self.environment, count) else {
            return Ok(false);
        };
        let Operand::Collection(what, lowest, got) = *self.environment.operand(at) else {
            return Ok(false);
        };
        check_member(what, &value)?;
        let Some(more) = got.checked_add(1) else {
            return Err(OpFault::NoMemory);
        };
        let collection = Operand::Collection(what, lowest, more);
        add_member(&mut self.environment, Member { value }, at, collection)?;
        Ok(true)
    }
}

/// Takes the first item of the iterator that is the last operand, and makes two more operands ready.
///
/// The error is want of memory.
fn take_item(alloc: Global, environment: &mut Contents) -> Result<Item, AllocError>
    requires { IsAtItem (slice_get environment.old.now.operands (length environment.old.now.operands - 1)) }
    ensures first { IfOk result (λ item. IsFirst (slice_get environment.old.now.operands (length environment.old.now.operands - 1)) item) }
    ensures now { OnOk result (environment.new.now ≡ record environment.old.now { operands = slice_set environment.old.now.operands (length environment.old.now.operands - 1) (advanced (slice_get environment.old.now.operands (length environment.old.now.operands - 1))) }) }
    ensures kept { environment.new.kept ≡ environment.old.kept }
    ensures ready { OnOk result (2 ≤ environment.new.ready) }
    ensures room { OnOk result (2 ≤ environment.new.room.operands) }
    ensures refused { OnErr result (environment.new.now ≡ environment.old.now) }
{
    let at = environment.operands() - 1;
    environment.reserve(4)?;
    environment.reserve_operands(2)?;
    let mut iterator = iterator_in(environment.replace_operand(at, Operand::Om)?);
    let item = iterator.advance(alloc);
    put_back(environment, at, Operand::Iterator(iterator));
    item
}

/// The iterator that an operand is.
fn iterator_in(operand: Operand) -> Iterator
    requires { IsAtItem (Some operand) }
    ensures { operand ≡ at_work result }
{
    match operand {
        Operand::Iterator(iterator) => iterator,
        _ => unreachable!(),
    }
}

/// Adds an item to the operands: a member, or an image and behind it its argument.
fn push_item(environment: &mut Contents, item: Item)
    requires ready { 2 ≤ environment.old.ready }
    requires room { 2 ≤ environment.old.room.operands }
    ensures now { environment.new.now ≡ with_item environment.old.now item }
    ensures kept { environment.new.kept ≡ environment.old.kept }
{
    match item {
        Item::One(member) => environment.push_operand(operand(member)),
        Item::Two { argument, image } => {
            environment.push_operand(operand(image));
            environment.push_operand(operand(argument));
        }
    }
}

/// The place of the operand of the body at work that lies below so many iterators, if there is one.
fn below_iterators(environment: &Contents, count: usize) -> Option<usize>
    requires some { 0 < length environment.now.now.activations }
    requires low { lowest_in (reverse environment.now.now.activations) ≤ length environment.now.now.operands }
    ensures place { IfSome result (λ at. (at + count + 1 ≡ length environment.now.now.operands) × (lowest_in (reverse environment.now.now.activations) ≤ at)) }
    ensures above { IfSome result (λ at. AreIterators (drop (at + 1) environment.now.now.operands)) }
    ensures nowhere { IfNone result ((bs : _) (value : _) → added count value (now_operands bs environment.now.now) ≡ Nowhere) }
{
    let all = environment.operands();
    if all - lowest(environment) <= count {
        return None;
    }
    let above = all - count;
    for at in (above..all).rev() {
        if !is_iterator(environment.operand(at)) {
            return None;
        }
    }
    Some(above - 1)
}

/// Whether a collection takes a value.
///
/// The error is `Om` for `om` and a set, and `Deep` for a value of depth 500.
fn check_member(what: Collection, value: &Option<Value>) -> Result<(), OpFault>
    ensures taken { OnOk result (refusal what (part value.now) ≡ None) }
    ensures refused { IfErr result (λ fault. Refuses fault (refusal what (part value.now))) }
{
    match (what, value) {
        (Collection::OfSet, None) => Err(OpFault::Om),
        (Collection::OfTuple, None) => Ok(()),
        (_, Some(value)) => {
            if value.depth() >= 500 {
                Err(OpFault::Deep)
            } else {
                Ok(())
            }
        }
    }
}

/// Adds a member, and puts its collection in the place of an operand.
///
/// The error is want of memory.
fn add_member(
    environment: &mut Contents,
    member: Member,
    at: usize,
    collection: Operand,
) -> Result<(), AllocError>
    requires { at < length environment.old.now.operands }
    ensures now { OnOk result (environment.new.now ≡ record environment.old.now { operands = slice_set environment.old.now.operands at collection; members = environment.old.now.members ++ member ∷ [] }) }
    ensures kept { environment.new.kept ≡ environment.old.kept }
    ensures refused { OnErr result (environment.new.now ≡ environment.old.now) }
{
    environment.reserve(2)?;
    environment.reserve_members(1)?;
    environment.push_member(member);
    environment.set_operand(at, collection);
    Ok(())
}

/// Whether an operand is an iterator.
fn is_iterator(operand: &Operand) -> bool
    ensures is { result ≡ true → AreIterators (operand.now ∷ []) }
    ensures is_not { result ≡ false → (n : _) (value : _) (bs : _) (members : _) (xs : _) → added (n + 1) value (operand_of bs members operand.now ∷ xs) ≡ Nowhere }
{
    matches!(operand, Operand::Iterator(_))
}
