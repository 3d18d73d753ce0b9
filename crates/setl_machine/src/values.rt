//! Constants that are pushed.

ghost use Rattle.std.specs.Prelude.{◌≡◌, ℕ, IfOk};
ghost use Rattle.setl_code.specs.Plain.{plain_instr};
ghost use Rattle.setl_store.specs.Standing.{variables, CanGoOn};
ghost use Rattle.setl_machine_control.specs.Working.{Works};
ghost use Rattle.setl_machine.specs.Families.{family_of};
ghost use Rattle.setl_machine.specs.declared.families.Family.{Family};

use setl_code::Instr;
use setl_machine_control::End;
use setl_machine_variables::{push, push_integer, push_text};
use setl_store::Store;
use setl_value::Value;
use std::alloc::{AllocError, Global};

/// Pushes a constant. The error is want of memory.
pub(crate) fn do_value(
    what: &Instr,
    store: &mut Store<'_>,
    alloc: Global,
) -> Result<End, AllocError>
    requires is { family_of what.now ≡ Family.Values }
    requires few { CanGoOn store.old }
    ensures { (line : ℕ) → IfOk result (λ end. Works store.old line (plain_instr (variables store.old.core) what.now) store.new end) }
{
    match what {
        Instr::Integer(n) => push_integer(n, store),
        Instr::Text(bytes) => push_text(alloc, bytes, store),
        Instr::Truth(truth) => push(Some(Value::Bool(*truth)), store),
        Instr::Undefined => push(None, store),
        _ => unreachable!(),
    }
}
