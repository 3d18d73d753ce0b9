//! Telling one watcher.

ghost use Rattle.std.specs.Prelude.{◌≡◌, map, OnOk};
ghost use Rattle.setl_watch.specs.code.NoticeOf.{notice_of};
ghost use Rattle.setl_debug_machine.specs.Screens.{after_all};

use setl_watch::{Event, Wants, Watcher};
use std::alloc::AllocError;

/// Tells a watcher some events in their order, also behind the one where it has enough. The error is want of memory, of
/// the watcher.
pub(crate) fn tell_all<W: Watcher>(watcher: &mut W, events: &[Event]) -> Result<(), AllocError>
    ensures { OnOk result (W.watch watcher.new ≡ after_all (W.watch watcher.old) (map notice_of events.now)) }
{
    for e in events {
        match watcher.event(e) {
            Wants::More | Wants::Enough => {}
            Wants::NoMemory => return Err(AllocError),
        }
    }
    Ok(())
}
