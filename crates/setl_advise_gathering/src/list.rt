//! Lists of conditions that grow.

ghost use Rattle.std.specs.Prelude.{◌≡◌, ◌++◌, ◌∷◌, [], OnOk};
ghost use Rattle.setl_advise_conditions.specs.Parts.{stored};
ghost use Rattle.setl_advise_gathering.specs.code.Plain.{listed, plain_condition, plain_name, plain_term};

use crate::condition::{Condition, Name, Target, Term};
use std::alloc::AllocError;

/// One more condition. An error is want of memory.
pub fn push<'p>(all: &mut Vec<Condition<'p>>, c: Condition<'p>) -> Result<(), AllocError>
    ensures { OnOk result (listed all.new.items ≡ listed all.old.items ++ plain_condition c.entry ∷ []) }
{
    all.push(c)?;
    Ok(())
}

/// One more: a variable has what is stored in it. An error is want of memory.
pub fn store<'p>(
    all: &mut Vec<Condition<'p>>,
    x: Name<'p>,
    term: Term<'p>,
) -> Result<(), AllocError>
    ensures { OnOk result (listed all.new.items ≡ listed all.old.items ++ stored (plain_name x.entry) (plain_term term.entry) ∷ []) }
{
    push(
        all,
        Condition {
            target: Target::Into(x),
            term,
        },
    )
}
