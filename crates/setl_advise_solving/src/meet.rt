//! A condition that is looked at.

ghost use Rattle.std.specs.Prelude.{◌≡◌, ◌<◌, true, false, IfOk};
ghost use Rattle.setl_advise_flows.specs.Flow as plain;
ghost use Rattle.setl_advise_conditions.specs.Conditions.{Meets, target_flow, term_flow};
ghost use Rattle.setl_advise_conditions.specs.Grown.{raised_by};
ghost use Rattle.setl_advise_conditions.specs.Rank.{rank};
ghost use Rattle.setl_advise_gathering.specs.code.Plain.{plain_condition};
ghost use Rattle.setl_advise_terms.specs.code.Plain.{flows_of};

use setl_advise_gathering::Condition;
use setl_advise_terms::{Table, term};
use std::alloc::{AllocError, Global};

/// Lets the target of a condition have what the condition stores, and tells whether it had not. An error is want of memory.
pub(crate) fn meet<'p>(
    alloc: Global,
    table: &mut Table<'p>,
    c: Condition<'p>,
) -> Result<bool, AllocError>
    ensures stays { IfOk result (λ rose. rose ≡ false → table.new ≡ table.old) }
    ensures met { IfOk result (λ rose. rose ≡ false → Meets (flows_of table.old) (plain_condition c.entry)) }
    ensures raised { IfOk result (λ rose. rose ≡ true → flows_of table.new ≡ raised_by (flows_of table.old) (plain_condition c.entry)) }
    ensures rises { IfOk result (λ rose. rose ≡ true → rank 3 (target_flow (flows_of table.old) (plain_condition c.entry).target) < rank 3 (plain.join (term_flow (flows_of table.old) (plain_condition c.entry).term) (target_flow (flows_of table.old) (plain_condition c.entry).target))) }
{
    let f = term(alloc, table, c.term)?;
    table.raise(c.target, f)
}
