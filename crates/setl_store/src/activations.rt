//! Activations of an environment, with the memory that they take.

ghost use Rattle.std.specs.Prelude.{◌≡◌, ◌<◌, ◌-◌, ◌+◌, ◌≤◌, [], ◌∷◌, ◌++◌, map, length, take, reverse, replicate, OnOk, OnErr};
ghost use Rattle.setl_store_operands.specs.Operands.{HasMembers, operand_by};
ghost use Rattle.setl_store.specs.Flat.{without};
ghost use Rattle.setl_store.specs.Returning.{held_by};
ghost use Rattle.setl_store_slots.specs.declared.cells.Held.TheVariants as slot;

use crate::cells::{Contents, Frame};
use crate::changes::{reserve_one_more, reserve_sum};
use crate::lent::members_below;
use crate::store::held;
use setl_store_operands::operand;
use setl_store_slots::Held;
use setl_value::Value;
use std::alloc::AllocError;

/// The innermost activation.
pub(crate) fn innermost(environment: &Contents) -> Frame
    requires { 0 < length environment.now.now.activations }
    ensures { reverse environment.now.now.activations ≡ result ∷ reverse (take (length environment.now.now.activations - 1) environment.now.now.activations) }
{
    *environment.activation(environment.activations() - 1)
}

/// Adds so many slots that are `om`.
pub(crate) fn add_cleared(environment: &mut Contents, count: usize) -> Result<(), AllocError>
    ensures slots { OnOk result (environment.new.now.slots ≡ environment.old.now.slots ++ replicate count slot.Om) }
    ensures rest { OnOk result (environment.new.now ≡ record environment.old.now { slots = environment.new.now.slots }) }
    ensures kept { environment.new.kept ≡ environment.old.kept }
{
    environment.reserve(count)?;
    environment.reserve_slots(count)?;
    push_cleared(environment, count);
    Ok(())
}

/// Adds an activation, and slots that hold these values and, behind them, so many that are `om`.
pub(crate) fn add_activation(
    environment: &mut Contents,
    frame: Frame,
    values: Vec<Option<Value>>,
    names: usize,
) -> Result<(), AllocError>
    ensures slots { OnOk result (environment.new.now.slots ≡ environment.old.now.slots ++ (map held_by values.items ++ replicate names slot.Om)) }
    ensures rest { OnOk result (environment.new.now ≡ record environment.old.now { slots = environment.new.now.slots; activations = environment.old.now.activations ++ frame ∷ [] }) }
    ensures kept { environment.new.kept ≡ environment.old.kept }
    ensures refused { OnErr result (environment.new.now ≡ environment.old.now) }
{
    reserve_activation(environment, values.len(), names)?;
    push_values(environment, values);
    push_cleared(environment, names);
    environment.push_activation(frame);
    Ok(())
}

// Makes sure of memory for an activation with so many slots. The error is want of memory, or that these are 2^64 or more,
// which no memory holds.
fn reserve_activation(
    environment: &mut Contents,
    values: usize,
    names: usize,
) -> Result<(), AllocError>
    ensures now { environment.new.now ≡ environment.old.now }
    ensures kept { environment.new.kept ≡ environment.old.kept }
    ensures ready { OnOk result (values + names + 1 ≤ environment.new.ready) }
    ensures slots { OnOk result (values + names ≤ environment.new.room.slots) }
    ensures activations { OnOk result (1 ≤ environment.new.room.activations) }
{
    let Some(slots) = values.checked_add(names) else {
        return Err(AllocError);
    };
    reserve_one_more(environment, slots)?;
    environment.reserve_slots(slots)?;
    environment.reserve_activations(1)
}

// Adds slots that hold these values, for which there is memory.
fn push_values(environment: &mut Contents, values: Vec<Option<Value>>)
    requires each { length values.items ≤ environment.old.ready }
    requires places { length values.items ≤ environment.old.room.slots }
    ensures slots { environment.new.now.slots ≡ environment.old.now.slots ++ map held_by values.items }
    ensures rest { environment.new.now ≡ record environment.old.now { slots = environment.new.now.slots } }
    ensures kept { environment.new.kept ≡ environment.old.kept }
    ensures ready { environment.old.ready ≤ environment.new.ready + length values.items }
    ensures room { environment.new.room ≡ record environment.old.room { slots = environment.old.room.slots - length values.items } }
{
    for value in values {
        environment.push_slot(held(value));
    }
}

// Adds so many slots that are `om`, for which there is memory.
fn push_cleared(environment: &mut Contents, count: usize)
    requires each { count ≤ environment.old.ready }
    requires places { count ≤ environment.old.room.slots }
    ensures slots { environment.new.now.slots ≡ environment.old.now.slots ++ replicate count slot.Om }
    ensures rest { environment.new.now ≡ record environment.old.now { slots = environment.new.now.slots } }
    ensures kept { environment.new.kept ≡ environment.old.kept }
    ensures ready { environment.old.ready ≤ environment.new.ready + count }
    ensures room { environment.new.room ≡ record environment.old.room { slots = environment.old.room.slots - count } }
{
    for _i in 0..count {
        environment.push_slot(Held::Om);
    }
}

/// How many members the operands below this one have.
pub(crate) fn members_of_lower(environment: &Contents, lowest: usize) -> usize
    requires members { HasMembers (reverse environment.now.now.operands) (length environment.now.now.members) }
    requires there { lowest ≤ length environment.now.now.operands }
    ensures has { HasMembers (reverse (take lowest environment.now.now.operands)) result }
    ensures fewer { result ≤ length environment.now.now.members }
{
    let count = environment.operands();
    let mut members = environment.members();
    for i in 0..count - lowest {
        members = members_below(environment.operand(count - 1 - i), members);
    }
    members
}

/// Drops the innermost activation, and all from its lowest slot and operand and this member on, and adds operands that are
/// these values, the last one on top.
pub(crate) fn end_activation(
    environment: &mut Contents,
    frame: Frame,
    members: usize,
    values: Vec<Option<Value>>,
) -> Result<(), AllocError>
    requires some { 0 < length environment.old.now.activations }
    requires slots { frame.slots ≤ length environment.old.now.slots }
    requires operands { frame.operands ≤ length environment.old.now.operands }
    requires members { members ≤ length environment.old.now.members }
    ensures now { OnOk result (environment.new.now ≡ record (without environment.old.now frame members) { operands = take frame.operands environment.old.now.operands ++ map operand_by values.items }) }
    ensures kept { environment.new.kept ≡ environment.old.kept }
    ensures refused { OnErr result (environment.new.now ≡ environment.old.now) }
{
    reserve_sum(
        environment,
        environment.slots() - frame.slots,
        environment.operands() - frame.operands,
        environment.members() - members,
        values.len(),
    )?;
    environment.reserve_operands(values.len())?;
    drop_activation(environment, frame, members);
    push_operands(environment, values);
    Ok(())
}

// Drops the innermost activation, and all from its lowest slot and operand and this member on.
fn drop_activation(environment: &mut Contents, frame: Frame, members: usize)
    requires some { 0 < length environment.old.now.activations }
    requires slots { frame.slots ≤ length environment.old.now.slots }
    requires operands { frame.operands ≤ length environment.old.now.operands }
    requires members { members ≤ length environment.old.now.members }
    requires each { (length environment.old.now.slots - frame.slots) + (length environment.old.now.operands - frame.operands) + (length environment.old.now.members - members) + 1 ≤ environment.old.ready }
    ensures now { environment.new.now ≡ without environment.old.now frame members }
    ensures kept { environment.new.kept ≡ environment.old.kept }
    ensures ready { environment.old.ready ≤ environment.new.ready + ((length environment.old.now.slots - frame.slots) + (length environment.old.now.operands - frame.operands) + (length environment.old.now.members - members) + 1) }
    ensures room { environment.old.room.operands ≤ environment.new.room.operands }
{
    environment.cut_members(members);
    environment.cut_operands(frame.operands);
    environment.cut_slots(frame.slots);
    environment.drop_activation();
}

// Adds operands for which there is memory.
fn push_operands(environment: &mut Contents, values: Vec<Option<Value>>)
    requires each { length values.items ≤ environment.old.ready }
    requires places { length values.items ≤ environment.old.room.operands }
    ensures now { environment.new.now ≡ record environment.old.now { operands = environment.old.now.operands ++ map operand_by values.items } }
    ensures kept { environment.new.kept ≡ environment.old.kept }
{
    for value in values {
        environment.push_operand(operand(value));
    }
}
