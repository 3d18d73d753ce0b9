//! `ok`, `fail` and `succeed`.

ghost use Rattle.std.specs.Prelude.{◌≡◌, ℕ, IfOk, IsOk};
ghost use Rattle.setl_code.specs.Code.{KeepAll, GoBack, ForgetKept};
ghost use Rattle.setl_machine_control.specs.Gaining.{BasesAre};
ghost use Rattle.setl_machine_control.specs.Working.{WorksApart, DoesApart};
ghost use Rattle.setl_store.specs.Gained.{with_kept, cut_to_kept, without_kept};
ghost use Rattle.setl_store.specs.Standing.{CanGoOn};

use crate::control::Control;
use crate::end::{End, StopKind};
use setl_store::Store;
use std::alloc::AllocError;

/// `ok`: keeps all that `fail` brings back. The error is want of memory.
#[inline(never)]
pub fn keep(store: &mut Store<'_>) -> Result<End, AllocError>
    requires { CanGoOn store.old }
    ensures did { (line : ℕ) → IfOk result (λ end. WorksApart store.old line KeepAll store.new end) }
    ensures gained { IfOk result (BasesAre (with_kept store.old.bases) store.old.bases store.new.bases) }
{
    store.keep()?;
    Ok(End::Paused)
}

/// `fail`: takes one turn and brings back what was kept last; where nothing is, the run stops at this line. No error comes.
#[inline(never)]
pub fn back(line: u32, store: &mut Store<'_>, control: &mut Control) -> Result<End, AllocError>
    ensures did { IfOk result (λ end. DoesApart store.old control.old line GoBack store.new control.new end) }
    ensures gained { IfOk result (BasesAre (cut_to_kept store.old.bases) store.old.bases store.new.bases) }
    ensures reader { control.new.reader ≡ control.old.reader }
    ensures sure { IsOk result }
{
    if !store.is_kept() {
        return Ok(End::Stopped(StopKind::Nothing, line));
    }
    if !control.turn() {
        return Ok(End::Spent);
    }
    if store.back() {
        Ok(End::Paused)
    } else {
        Ok(End::Stuck)
    }
}

/// `succeed`: forgets what was kept last and keeps all changes; where nothing is kept, the run stops at this line. No error
/// comes.
#[inline(never)]
pub fn forget(line: u32, store: &mut Store<'_>) -> Result<End, AllocError>
    requires { CanGoOn store.old }
    ensures did { IfOk result (λ end. WorksApart store.old line ForgetKept store.new end) }
    ensures gained { IfOk result (BasesAre (without_kept store.old.bases) store.old.bases store.new.bases) }
    ensures sure { IsOk result }
{
    if store.forget() {
        Ok(End::Paused)
    } else {
        Ok(End::Stopped(StopKind::Nothing, line))
    }
}
