//! How an update of a variable ends.

ghost use Rattle.std.specs.Prelude.{◌≡◌, cond, length, option_map, IfOk, OnOk};
ghost use Rattle.setl_code.specs.CodeCore.{There, write};
ghost use Rattle.setl_code.specs.MayRun.{HasSlot};
ghost use Rattle.setl_code.specs.Plain.{plain_slot};
ghost use Rattle.setl_model_runs.specs.Variable.{Variable};
ghost use Rattle.setl_store.specs.Standing.{variables, CanGoOn};
ghost use Rattle.setl_value.specs.code.DatumOf.{part};
ghost use Rattle.setl_machine_control.specs.Declaring.{Modes, mode_by, IsDeclared};
ghost use Rattle.setl_machine_control.specs.Gaining.{gained_by, BasesAre};
ghost use Rattle.setl_machine_control.specs.Settling.{Settles, StoresWhole, EndsUpdate};

use crate::control::Control;
use crate::declaration::{Declaration, refusal};
use crate::end::{End, StopKind};
use crate::operands::{end_by, go_on};
use setl_code::Slot;
use setl_modes_fit::fits;
use setl_operators_table::OpFault;
use setl_store::Store;
use setl_value::Value;
use std::alloc::AllocError;

/// The variable of an update, with its declaration where it has one.
#[derive(Clone, Copy)]
pub struct Target<'p> {
    pub slot: Slot,
    pub declared: Option<Declaration<'p>>,
}

/// Stores the whole of a variable, or what was kept of it where its declaration refuses the whole, and goes on with so
/// many turns left; or after a fault ends the run. `stored` says whether the whole is a new one, whose values at the places of
/// bases are entered. The error is want of memory.
pub fn end_update(
    left: Result<u64, OpFault>,
    whole: Option<Value>,
    kept: Option<Option<Value>>,
    stored: bool,
    target: Target<'_>,
    line: u32,
    store: &mut Store<'_>,
    control: &mut Control,
) -> Result<End, AllocError>
    requires few { CanGoOn store.old }
    requires there { HasSlot (length store.old.core.globals) (length store.old.core.now.own) target.slot }
    ensures did { (modes : Modes) → IsDeclared modes (plain_slot (variables store.old.core) target.entry.slot) target.entry.declared → IfOk result (λ end. EndsUpdate modes left line (plain_slot (variables store.old.core) target.entry.slot) (part whole) (option_map part kept) store.old control.old store.new control.new end) }
    ensures gained { IfOk result (BasesAre (cond stored (gained_by (mode_by target.entry.declared) (part whole) store.old.bases) store.old.bases) store.old.bases store.new.bases) }
    ensures reader { control.new.reader ≡ control.old.reader }
{
    match left {
        Ok(left) => {
            control.charge(control.turns.saturating_sub(left));
            go_on(store);
            store_whole(whole, kept, stored, target, line, store)
        }
        Err(fault) => {
            store.set_slot(target.slot, whole)?;
            end_by(fault, line)
        }
    }
}

/// What a variable holds after an update, and how the run stands.
#[derive(Drop)]
struct Settled {
    holds: Option<Value>,
    end: End,
}

/// Stores the whole of a variable; or what was kept of it, where something was and its declaration refuses the whole, and
/// then the run stops.
fn store_whole(
    whole: Option<Value>,
    kept: Option<Option<Value>>,
    stored: bool,
    target: Target<'_>,
    line: u32,
    store: &mut Store<'_>,
) -> Result<End, AllocError>
    requires { HasSlot (length store.old.core.globals) (length store.old.core.now.own) target.slot }
    ensures did { (modes : Modes) → IsDeclared modes (plain_slot (variables store.old.core) target.entry.slot) target.entry.declared → IfOk result (λ end. StoresWhole modes line (plain_slot (variables store.old.core) target.entry.slot) (part whole) (option_map part kept) store.old store.new end) }
    ensures gained { IfOk result (BasesAre (cond stored (gained_by (mode_by target.entry.declared) (part whole) store.old.bases) store.old.bases) store.old.bases store.new.bases) }
{
    let Settled { holds, end } = settle(whole, kept, target.declared, line);
    match end {
        End::Paused => put_whole(stored, target, holds, store)?,
        _ => store.set_slot(target.slot, holds)?,
    }
    Ok(end)
}

/// Stores the whole of a variable, which is new or not. The error is want of memory.
fn put_whole(
    new: bool,
    target: Target<'_>,
    whole: Option<Value>,
    store: &mut Store<'_>,
) -> Result<(), AllocError>
    requires { HasSlot (length store.old.core.globals) (length store.old.core.now.own) target.slot }
    ensures put { OnOk result (record store.new { bases = store.old.bases } ≡ record store.old { core = write (plain_slot (variables store.old.core) target.entry.slot) (There (part whole)) store.old.core }) }
    ensures gained { OnOk result (store.new.bases ≡ cond new (gained_by (mode_by target.entry.declared) (part whole) store.old.bases) store.old.bases) }
{
    if new {
        put_new(target, whole, store)
    } else {
        store.set_slot(target.slot, whole)
    }
}

/// Stores the new whole of a variable, in the form of its mode where the store tells its bases. The error is want of memory.
fn put_new(
    target: Target<'_>,
    whole: Option<Value>,
    store: &mut Store<'_>,
) -> Result<(), AllocError>
    requires { HasSlot (length store.old.core.globals) (length store.old.core.now.own) target.slot }
    ensures put { OnOk result (record store.new { bases = store.old.bases } ≡ record store.old { core = write (plain_slot (variables store.old.core) target.entry.slot) (There (part whole)) store.old.core }) }
    ensures gained { OnOk result (store.new.bases ≡ gained_by (mode_by target.entry.declared) (part whole) store.old.bases) }
{
    let Some(declaration) = target.declared else {
        return store.set_slot(target.slot, whole);
    };
    if !store.tells() {
        return store.set_slot(target.slot, whole);
    }
    if !fits(declaration.mode, &whole) {
        // An update whose whole doesn't fit comes here only where its part decided that it does.
        return Err(AllocError);
    }
    let Some(value) = whole else {
        return store.set_slot(target.slot, None);
    };
    store.assign(target.slot, declaration.mode, value)
}

/// The whole, or what was kept where something was and the declaration refuses the whole.
fn settle(
    whole: Option<Value>,
    kept: Option<Option<Value>>,
    declared: Option<Declaration<'_>>,
    line: u32,
) -> Settled
    ensures settles { (modes : Modes) (x : Variable) → IsDeclared modes x declared.entry → Settles modes line x (part whole) (option_map part kept) (part result.holds) result.end }
    ensures whole { result.end ≡ End.Paused → part result.holds ≡ part whole }
{
    let Some(kept) = kept else {
        return Settled {
            holds: whole,
            end: End::Paused,
        };
    };
    match refusal(declared, &whole) {
        None => Settled {
            holds: whole,
            end: End::Paused,
        },
        Some(place) => Settled {
            holds: kept,
            end: End::Stopped(StopKind::Unfit(place), line),
        },
    }
}
