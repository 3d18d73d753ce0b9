//! What a state has written, and its profile.

ghost use Rattle.std.specs.Prelude.{◌≡◌, ◌<◌, ◌^◌, OnErr, OnOk};
ghost use Rattle.setl_debug_machine.specs.code.Walks.{AddsPart, IsReady, StandsThere, run_by};

use crate::seeing::walk_seeing;
use crate::subject::Subject;
use crate::walk::{Place, Walk, written};
use setl_watch::Watcher;
use std::alloc::AllocError;

/// Adds what was written up to the state at a place, where the walk stands if there is one. The error is want of memory,
/// and then `into` is as before.
pub(crate) fn push_written<'p>(
    subject: &Subject<'p>,
    walk: &Option<Walk<'p>>,
    place: Place,
    into: &mut Vec<u8>,
) -> Result<(), AllocError>
    requires ready { IsReady subject.now }
    requires few { place.turns < 2 ^ 63 }
    requires there { StandsThere (run_by subject.now) walk.now place }
    ensures ok { OnOk result (AddsPart (run_by subject.now) place.turns (λ s. s.written) into.old.items into.new.items) }
    ensures err { OnErr result (into.new.items ≡ into.old.items) }
{
    match walk {
        Some(walk) => into.extend_from_slice(written(walk)),
        None => {
            let walk = walk_seeing(subject, None, place.turns, place.line)?;
            into.extend_from_slice(written(&walk))
        }
    }
}

/// Adds the calls of procedures up to the state at a place, where the walk stands if there is one. The error is want of
/// memory, and then `into` is as before.
pub(crate) fn push_profile<'p>(
    subject: &Subject<'p>,
    walk: &Option<Walk<'p>>,
    place: Place,
    into: &mut Vec<u8>,
) -> Result<(), AllocError>
    requires ready { IsReady subject.now }
    requires few { place.turns < 2 ^ 63 }
    requires there { StandsThere (run_by subject.now) walk.now place }
    ensures ok { OnOk result (AddsPart (run_by subject.now) place.turns (λ s. s.profile) into.old.items into.new.items) }
    ensures err { OnErr result (into.new.items ≡ into.old.items) }
{
    match walk {
        Some(walk) => walk.tally.profile.report(into),
        None => {
            let walk = walk_seeing(subject, None, place.turns, place.line)?;
            walk.tally.profile.report(into)
        }
    }
}
