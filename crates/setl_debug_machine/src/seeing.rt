//! A walk to a state that is looked at.

ghost use Rattle.std.specs.Prelude.{◌≡◌, ◌<◌, ◌^◌, IfOk, IfSome};
ghost use Rattle.setl_debug_machine.specs.code.Walks.{IsReady, IsWalk, IsAtTurns, Sees, run_by};

use crate::subject::Subject;
use crate::walk::{Walk, walk_to};
use setl_debug_screen::slots_show_the_state;
use std::alloc::AllocError;

/// A walk at the last state with so many turns, with the stores at this line counted, as `walk_to` gives it: what it tells
/// is what is seen of the meaning. The error is want of memory.
pub(crate) fn walk_seeing<'p>(
    subject: &Subject<'p>,
    walk: Option<Walk<'p>>,
    turns: u64,
    line: u32,
) -> Result<Walk<'p>, AllocError>
    requires ready { IsReady subject.now }
    requires walk { IfSome walk (IsWalk subject.now.declarations subject.now.input.items) }
    requires turns { turns < 2 ^ 63 }
    ensures walk { IfOk result (IsWalk subject.now.declarations subject.now.input.items) }
    ensures there { IfOk result (IsAtTurns turns) }
    ensures sees { IfOk result (Sees (run_by subject.now) turns) }
    ensures line { IfOk result (λ w. w.tally.line ≡ line) }
{
    setl_code_simulation::code_means_what_the_program_means();
    setl_code_simulation::code_ends_in_the_same_state();
    setl_code_turns::fewer_turns_cut();
    setl_machine::ends_change_nothing();
    slots_show_the_state();
    walk_to(subject, walk, turns, line)
}
