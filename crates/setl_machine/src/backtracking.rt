//! `ok`, `fail` and `succeed`.

ghost use Rattle.std.specs.Prelude.{◌≡◌, ℕ, IfOk};
ghost use Rattle.setl_code.specs.CodeCore.{CodeCore};
ghost use Rattle.setl_code.specs.Plain.{Variables, plain_code, plain_instr};
ghost use Rattle.setl_code.specs.Code.{Code};
ghost use Rattle.setl_store.specs.Standing.{variables, CanGoOn};
ghost use Rattle.setl_machine_control.specs.Declaring.{Modes};
ghost use Rattle.setl_machine_control.specs.Working.{DoesApart};
ghost use Rattle.setl_machine.specs.Families.{family_of};
ghost use Rattle.setl_machine.specs.Gaining.{Gains};
ghost use Rattle.setl_machine.specs.Hearing.{Tells};
ghost use Rattle.setl_machine.specs.declared.families.Family.{Family};

use crate::telling::one;
use setl_code::Instr;
use setl_machine_control::{Control, End, back, forget, keep};
use setl_store::Store;
use setl_watch::Event;
use std::alloc::{AllocError, Global};

/// Does `ok`, `fail` or `succeed`. The error is want of memory.
pub(crate) fn do_backtracking(
    what: &Instr,
    line: u32,
    store: &mut Store<'_>,
    control: &mut Control,
) -> Result<End, AllocError>
    requires is { family_of what.now ≡ Family.Backtracking }
    requires few { CanGoOn store.old }
    ensures did { IfOk result (λ end. DoesApart store.old control.old line (plain_instr (variables store.old.core) what.now) store.new control.new end) }
    ensures gained { (modes : Modes) (k d : CodeCore) → IfOk result (λ end. Gains modes (plain_code store.old.code) line (plain_instr (variables store.old.core) what.now) k d store.old.bases store.new.bases end) }
    ensures reader { control.new.reader ≡ control.old.reader }
{
    match what {
        Instr::Keep => keep(store),
        Instr::Back => back(line, store, control),
        Instr::Forget => forget(line, store),
        _ => unreachable!(),
    }
}

/// The event of `ok`, `fail` or `succeed`.
pub(crate) fn backtracking_events(what: &Instr, alloc: Global) -> Result<Vec<Event>, AllocError>
    requires is { family_of what.now ≡ Family.Backtracking }
    ensures { (code : Code) (line : ℕ) (xs : Variables) (k d : CodeCore) → IfOk result (λ es. Tells code line (plain_instr xs what.now) k d es.items) }
{
    match what {
        Instr::Keep => one(alloc, Event::Kept),
        Instr::Back => one(alloc, Event::Back),
        Instr::Forget => one(alloc, Event::Forgot),
        _ => unreachable!(),
    }
}
