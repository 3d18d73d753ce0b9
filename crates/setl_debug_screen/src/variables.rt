//! What variables hold.

ghost use Rattle.std.specs.Prelude.{◌≡◌, ◌<◌, ◌++◌, ℕ, List, length, map, slice_get, Some, None, IfSome, IfNone, IfOk, OnOk};
ghost use Rattle.setl_value.specs.code.DatumOf.{part};
ghost use Rattle.setl_code.specs.CodeCore.{held};
ghost use Rattle.setl_code.specs.MayRun.{HasSlot};
ghost use Rattle.setl_code.specs.Plain.{own_variables, plain_name, plain_slot};
ghost use Rattle.setl_model_runs.specs.Variable.{Variable, Global as OfAll, Own};
ghost use Rattle.setl_store.specs.Operands.{IsThere};
ghost use Rattle.setl_store.specs.Standing.{variables};
ghost use Rattle.setl_debug_screen.specs.Lines.{shown_value};
ghost use Rattle.setl_debug_screen.specs.code.Standing.{named_line, held_line, held_lines};

use setl_code::{Body, Code, OwnName, Slot};
use setl_store::Store;
use setl_text::text;
use setl_tree::{Param, Text};
use setl_value::Value;
use std::alloc::{AllocError, Global};

/// Adds a value as it stands inside another one, or `*` for `om`. The error is want of memory.
fn push_value(alloc: Global, value: &Option<Value>, into: &mut Vec<u8>) -> Result<(), AllocError>
    ensures { OnOk result (into.new.items ≡ into.old.items ++ shown_value (part value.now)) }
{
    match value {
        None => into.extend_from_slice(b"*"),
        Some(value) => {
            let text = text(alloc, value)?;
            into.extend_from_slice(&text)
        }
    }
}

/// Adds the name of a variable and what its slot holds. The error is want of memory.
fn push_line(
    alloc: Global,
    store: &Store<'_>,
    slot: Slot,
    name: &[u8],
    into: &mut Vec<u8>,
) -> Result<(), AllocError>
    requires slot { HasSlot (length store.now.core.globals) (length store.now.core.now.own) slot }
    requires there { IsThere (held (plain_slot (variables store.now.core) slot) store.now.core) }
    ensures { OnOk result (into.new.items ≡ into.old.items ++ named_line name.now (held (plain_slot (variables store.now.core) slot) store.now.core)) }
{
    let value = store.value(slot)?;
    into.extend_from_slice(name)?;
    into.push(b' ')?;
    push_value(alloc, &value, into)?;
    into.push(b'\n')?;
    Ok(())
}

/// Adds the line of a variable that all bodies see, at a place from 0. The error is want of memory.
fn push_global(
    alloc: Global,
    store: &Store<'_>,
    at: u32,
    name: &Text,
    into: &mut Vec<u8>,
) -> Result<(), AllocError>
    requires there { (x : Variable) → IsThere (held x store.now.core) }
    requires here { slice_get (variables store.now.core).global at ≡ Some (OfAll name.now) }
    ensures { OnOk result (into.new.items ≡ into.old.items ++ held_line store.now.core (OfAll name.now)) }
{
    push_line(alloc, store, Slot::Global(at), name.bytes(), into)
}

/// Adds the line of a variable of the body at work, at a place from 0. The error is want of memory.
fn push_own(
    alloc: Global,
    store: &Store<'_>,
    at: u32,
    name: &Text,
    into: &mut Vec<u8>,
) -> Result<(), AllocError>
    requires there { (x : Variable) → IsThere (held x store.now.core) }
    requires here { slice_get (variables store.now.core).own at ≡ Some (Own store.now.core.now.body name.now) }
    ensures { OnOk result (into.new.items ≡ into.old.items ++ held_line store.now.core (Own store.now.core.now.body name.now)) }
{
    push_line(alloc, store, Slot::Own(at), name.bytes(), into)
}

/// Adds the line of a name of the body at work, at a place from 0; a former's has none. The error is want of memory.
fn push_name(
    alloc: Global,
    store: &Store<'_>,
    at: u32,
    name: &OwnName,
    into: &mut Vec<u8>,
) -> Result<(), AllocError>
    requires there { (x : Variable) → IsThere (held x store.now.core) }
    requires here { slice_get (variables store.now.core).own at ≡ Some (plain_name store.now.core.now.body name.now) }
    ensures { OnOk result (into.new.items ≡ into.old.items ++ held_line store.now.core (plain_name store.now.core.now.body name.now)) }
{
    match name {
        OwnName::Body(name) => push_own(alloc, store, at, name, into),
        OwnName::Former(_, _) => Ok(()),
    }
}

/// Adds the lines of the variables that all bodies see, in their order. The error is want of memory.
fn push_globals(
    alloc: Global,
    store: &Store<'_>,
    names: &[Text],
    into: &mut Vec<u8>,
) -> Result<(), AllocError>
    requires there { (x : Variable) → IsThere (held x store.now.core) }
    requires names { (variables store.now.core).global ≡ map OfAll names.now }
    ensures { OnOk result (into.new.items ≡ into.old.items ++ held_lines (map OfAll names.now) store.now.core) }
{
    let mut at = 0u32;
    for name in names {
        push_global(alloc, store, at, name, into)?;
        at = at.checked_add(1).ok_or(AllocError)?;
    }
    Ok(())
}

/// Adds the lines of the parameters of the body at work, in their order, and gives how many these are. The error is want
/// of memory.
fn push_parameters(
    alloc: Global,
    store: &Store<'_>,
    params: &[Param],
    into: &mut Vec<u8>,
) -> Result<u32, AllocError>
    requires there { (x : Variable) → IsThere (held x store.now.core) }
    requires names { (names : List Variable) × ((variables store.now.core).own ≡ map (λ p. Own store.now.core.now.body p.name) params.now ++ names) }
    ensures added { OnOk result (into.new.items ≡ into.old.items ++ held_lines (map (λ p. Own store.now.core.now.body p.name) params.now) store.now.core) }
    ensures count { IfOk result (λ count. count ≡ length params.now) }
{
    let mut at = 0u32;
    for param in params {
        push_own(alloc, store, at, &param.name, into)?;
        at = at.checked_add(1).ok_or(AllocError)?;
    }
    Ok(at)
}

/// Adds the lines of the names of the body at work behind so many parameters, in their order. The error is want of memory.
fn push_names(
    alloc: Global,
    store: &Store<'_>,
    params: u32,
    names: &[OwnName],
    into: &mut Vec<u8>,
) -> Result<(), AllocError>
    requires there { (x : Variable) → IsThere (held x store.now.core) }
    requires names { (before : List Variable) × ((variables store.now.core).own ≡ before ++ map (plain_name store.now.core.now.body) names.now) × (length before ≡ params) }
    ensures { OnOk result (into.new.items ≡ into.old.items ++ held_lines (map (plain_name store.now.core.now.body) names.now) store.now.core) }
{
    let mut at = params;
    for name in names {
        push_name(alloc, store, at, name, into)?;
        at = at.checked_add(1).ok_or(AllocError)?;
    }
    Ok(())
}

/// Adds the lines of the own variables of the body at work. The error is want of memory.
fn push_body(
    alloc: Global,
    store: &Store<'_>,
    body: &Body,
    into: &mut Vec<u8>,
) -> Result<(), AllocError>
    requires there { (x : Variable) → IsThere (held x store.now.core) }
    requires names { (variables store.now.core).own ≡ own_variables store.now.core.now.body body.now.parameters body.now.names }
    ensures { OnOk result (into.new.items ≡ into.old.items ++ held_lines (variables store.now.core).own store.now.core) }
{
    let params = push_parameters(alloc, store, body.parameters.as_slice(), into)?;
    push_names(alloc, store, params, body.names.as_slice(), into)
}

/// The body of this number, if there is one.
fn body_of(code: &Code, body: u32) -> Option<&Body>
    ensures some { IfSome result (λ b. slice_get code.now.bodies body ≡ Some b.now) }
    ensures none { IfNone result (slice_get code.now.bodies body ≡ None) }
{
    code.bodies.as_slice().get(body as usize)
}

/// Adds the lines of the variables that all bodies see, and those of the body at work, with what they hold. The error is
/// want of memory, and some may have been added then.
pub fn push_variables(
    alloc: Global,
    store: &Store<'_>,
    into: &mut Vec<u8>,
) -> Result<(), AllocError>
    requires { (x : Variable) → IsThere (held x store.now.core) }
    ensures { OnOk result (into.new.items ≡ into.old.items ++ (held_lines (variables store.now.core).global store.now.core ++ held_lines (variables store.now.core).own store.now.core)) }
{
    let code = store.code();
    let body = store.body();
    push_globals(alloc, store, code.vars.as_slice(), into)?;
    match body_of(code, body) {
        None => Ok(()),
        Some(body) => push_body(alloc, store, body, into),
    }
}
