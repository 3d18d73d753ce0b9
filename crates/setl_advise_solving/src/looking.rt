//! Rounds over conditions whose flows changed.

ghost use Rattle.std.specs.Prelude.{IfOk};
ghost use Rattle.setl_advise_conditions.specs.Grown.{Grown};
ghost use Rattle.setl_advise_gathering.specs.code.Plain.{listed};
ghost use Rattle.setl_advise_terms.specs.code.Plain.{flows_of};
ghost use Rattle.setl_advise_solving.specs.Worked.{Worked};

use crate::meet::meet;
use crate::readers::Reader;
use crate::worklist::Worklist;
use setl_advise_gathering::Condition;
use setl_advise_terms::Table;
use std::alloc::{AllocError, Global};

/// Looks at a condition. Where it changes the flow of its target, which is told, all conditions wait that need this flow. An
/// error is want of memory.
fn look<'p>(
    alloc: Global,
    conditions: &[Condition<'p>],
    k: Reader,
    list: &mut Worklist<'p>,
    table: &mut Table<'p>,
) -> Result<bool, AllocError>
    ensures { IfOk result (λ rose. Worked (listed conditions.now) rose (flows_of table.old) (flows_of table.new)) }
{
    list.begin(k);
    let Some(c) = conditions.get(k) else {
        return Ok(false);
    };
    if !meet(alloc, table, *c)? {
        return Ok(false);
    }
    list.wake(c.target)?;
    Ok(true)
}

/// Looks at some conditions, one by one, and tells whether a flow changed. An error is want of memory.
fn round<'p>(
    alloc: Global,
    conditions: &[Condition<'p>],
    some: &[Reader],
    list: &mut Worklist<'p>,
    table: &mut Table<'p>,
) -> Result<bool, AllocError>
    ensures { IfOk result (λ rose. Worked (listed conditions.now) rose (flows_of table.old) (flows_of table.new)) }
{
    let mut rose = false;
    for k in some {
        if look(alloc, conditions, *k, list, table)? {
            rose = true;
        }
    }
    Ok(rose)
}

/// Looks at the conditions that wait and need few flows; where no flow changes, also at those that need many. It tells
/// whether a flow changed. An error is want of memory.
fn next_round<'p>(
    alloc: Global,
    conditions: &[Condition<'p>],
    list: &mut Worklist<'p>,
    table: &mut Table<'p>,
) -> Result<bool, AllocError>
    ensures { IfOk result (λ rose. Worked (listed conditions.now) rose (flows_of table.old) (flows_of table.new)) }
{
    let narrow = list.take_narrow();
    if round(alloc, conditions, &narrow, list, table)? {
        return Ok(true);
    }
    let wide = list.take_wide();
    round(alloc, conditions, &wide, list, table)
}

/// Flows that have no more than what these conditions store in turn, and mostly all of it. An error is want of memory.
///
/// All conditions are looked at once, and then, round by round, those that need a flow that changed.
pub(crate) fn hastened<'p>(
    alloc: Global,
    conditions: &[Condition<'p>],
) -> Result<Table<'p>, AllocError>
    ensures { IfOk result (λ t. Grown (listed conditions.now) (flows_of t)) }
{
    let mut table = Table::new(alloc);
    let mut list = Worklist::new(alloc, conditions)?;
    'rounds: loop {
        if !next_round(alloc, conditions, &mut list, &mut table)? {
            return Ok(table);
        }
    }
}
