//! Sweeps over conditions.

ghost use Rattle.std.specs.Prelude.{◌≡◌, ◌<◌, true, false, IfOk, OnOk};
ghost use Rattle.setl_program.specs.Formed.{Formed};
ghost use Rattle.setl_program.specs.code.Plain.{plain_program};
ghost use Rattle.setl_advise_flows.specs.Expressions.{Flows, Solves};
ghost use Rattle.setl_advise_conditions.specs.Conditions.{MeetsAll};
ghost use Rattle.setl_advise_conditions.specs.Grown.{Grown};
ghost use Rattle.setl_advise_conditions.specs.Parts.{conditions_of};
ghost use Rattle.setl_advise_conditions.specs.Rank.{room};
ghost use Rattle.setl_advise_gathering.specs.code.Plain.{listed};
ghost use Rattle.setl_advise_terms.specs.code.Plain.{flows_of};
ghost use Rattle.setl_advise_order.specs.Order.{AreBelow, AreWithin};
ghost use Rattle.setl_advise_solving.specs.Advised.{NeverUnfit};

use crate::looking::hastened;
use crate::meet::meet;
use setl_advise_conditions::{conditions_are_enough, conditions_are_needed};
use setl_advise_flows::values_stay_in_their_flows;
use setl_advise_gathering::{Condition, gathered};
use setl_advise_order::grown_flows_are_least;
use setl_advise_terms::Table;
use setl_program::Program;
use std::alloc::{AllocError, Global};

/// Lets the targets of some conditions have what these store, one by one, and tells whether a flow changed. An error is want of memory.
fn sweep<'p>(
    alloc: Global,
    conditions: &[Condition<'p>],
    table: &mut Table<'p>,
) -> Result<bool, AllocError>
    ensures met { IfOk result (λ changed. changed ≡ false → MeetsAll (flows_of table.new) (listed conditions.now)) }
    ensures grown { OnOk result (Grown (listed conditions.now) (flows_of table.old) → Grown (listed conditions.now) (flows_of table.new)) }
    ensures less { IfOk result (λ changed. changed ≡ true → room (listed conditions.now) (flows_of table.new) < room (listed conditions.now) (flows_of table.old)) }
{
    let mut changed = false;
    for c in conditions {
        if meet(alloc, table, *c)? {
            changed = true;
        }
    }
    Ok(changed)
}

/// Flows that meet these conditions, and have no more than what the conditions store in turn. An error is want of memory.
///
/// The flows come from rounds over conditions whose flows changed. Then it sweeps over all conditions until none changes a
/// flow, so that nothing rests on what the rounds looked at: where they left nothing out, one sweep is all. Each sweep but the
/// last raises a flow, and a flow rises at most 106 times.
pub fn settled<'p>(alloc: Global, conditions: &[Condition<'p>]) -> Result<Table<'p>, AllocError>
    ensures met { IfOk result (λ t. MeetsAll (flows_of t) (listed conditions.now)) }
    ensures grown { IfOk result (λ t. Grown (listed conditions.now) (flows_of t)) }
{
    let mut table = hastened(alloc, conditions)?;
    'sweeps: loop {
        let changed = sweep(alloc, conditions, &mut table)?;
        if !changed {
            return Ok(table);
        }
    }
}

/// The flows of a program: they meet all that a formed program asks, and so no run of it with the modes that are advised for
/// them ends for a value that doesn't fit. They are the least of all such flows of at most three constructors inside one
/// another, since they have no more than what the program's conditions store in turn. An error is want of memory.
pub fn solved<'p>(alloc: Global, p: &'p Program) -> Result<Table<'p>, AllocError>
    ensures solves { IfOk result (λ t. Formed (plain_program p.now) → Solves (plain_program p.now) (flows_of t)) }
    ensures fits { IfOk result (λ t. Formed (plain_program p.now) → NeverUnfit (plain_program p.now) (flows_of t)) }
    ensures least { IfOk result (λ t. (u : Flows) → AreWithin u → Solves (plain_program p.now) u → AreBelow (flows_of t) u) }
    ensures grown { IfOk result (λ t. Grown (conditions_of (plain_program p.now)) (flows_of t)) }
{
    conditions_are_enough();
    conditions_are_needed();
    grown_flows_are_least();
    values_stay_in_their_flows();
    let conditions = gathered(alloc, p)?;
    settled(alloc, conditions.as_slice())
}
