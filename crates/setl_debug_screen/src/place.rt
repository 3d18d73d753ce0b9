//! Where a run is, and how it stands.

ghost use Rattle.std.specs.Prelude.{◌≡◌, ◌++◌, map, OnOk};
ghost use Rattle.setl_program.specs.code.Plain.{plain_declared};
ghost use Rattle.setl_debug_screen.specs.Lines.{place_text};
ghost use Rattle.setl_debug_screen.specs.code.Standing.{state_by};

use crate::stop::stop_line;
use setl_machine_control::End;
use setl_program::Declared;
use setl_top_status::push_number;
use std::alloc::{AllocError, Global};

/// Adds how a run stands, where these variables are declared: no turn is left, it is done, or it stopped. The error is want
/// of memory.
fn push_state(
    alloc: Global,
    declared: &[Declared],
    end: End,
    into: &mut Vec<u8>,
) -> Result<(), AllocError>
    ensures { OnOk result (into.new.items ≡ into.old.items ++ state_by (map plain_declared declared.now) end) }
{
    match end {
        End::Spent => into.extend_from_slice(b"running\n"),
        End::Done => into.extend_from_slice(b"done\n"),
        End::Stopped(kind, line) => {
            let line = stop_line(alloc, declared, kind, line)?;
            into.extend_from_slice(&line)
        }
        _ => Ok(()),
    }
}

/// Adds after how many turns a run is, in the body with this name, and how it stands where these variables are declared.
/// The error is want of memory, and some may have been added then.
pub fn push_place(
    alloc: Global,
    turns: u64,
    name: &[u8],
    declared: &[Declared],
    end: End,
    into: &mut Vec<u8>,
) -> Result<(), AllocError>
    ensures { OnOk result (into.new.items ≡ into.old.items ++ place_text turns name.now (state_by (map plain_declared declared.now) end)) }
{
    into.extend_from_slice(b"turn ")?;
    push_number(into, turns)?;
    into.extend_from_slice(b" in ")?;
    into.extend_from_slice(name)?;
    into.extend_from_slice(b": ")?;
    push_state(alloc, declared, end, into)
}
