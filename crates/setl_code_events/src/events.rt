//! The events of calls, returns and stores.

ghost use Rattle.std.specs.Prelude.{◌≡◌, ◌++◌, ◌∷◌, [], Option, Some, None, map, slice_get, option_map, IfOk, IfSome, IfNone, OnOk};
ghost use Rattle.setl_value.specs.code.DatumOf.{part};
ghost use Rattle.setl_program.specs.ProgramOf.{parameter_of};
ghost use Rattle.setl_code.specs.Plain.{plain_code};
ghost use Rattle.setl_model.specs.Calls.{bindings};
ghost use Rattle.setl_watch.specs.Notices.{Called as CallNotice, noticed};
ghost use Rattle.setl_watch.specs.code.NoticeOf.{notice_of};
ghost use Rattle.setl_code_events.specs.Told.{return_told, stores_told};
ghost use Rattle.setl_code_events.specs.Notes.{told_name, variable_of, own_told, slot_told, store_notices, call_notices};

use setl_code::{Body, Code, OwnName, Slot};
use setl_tree::{Param, Text};
use setl_value::Value;
use setl_watch::Event;
use std::alloc::{AllocError, Global};

/// The events of a store of this value in a slot of the body of this number: one, or none where the slot is a former's
/// own name. The error is want of memory.
pub fn store_events(
    alloc: Global,
    code: &Code,
    body: u32,
    line: u32,
    slot: Slot,
    value: Option<Value>,
) -> Result<Vec<Event>, AllocError>
    ensures { IfOk result (λ es. map notice_of es.items ≡ store_notices line (told_name (variable_of (plain_code code.now) body slot)) (part value)) }
{
    let mut events = Vec::new(alloc);
    if let Some(name) = name_of(code, body, slot) {
        let name = name.copy()?;
        events.push(Event::Stored { line, name, value })?;
    }
    Ok(events)
}

/// The events of a call of the body of this number: the call, and the stores of these values in its parameters. The error
/// is want of memory.
#[tactic(auto, using(crate::proofs::Names::call_there, crate::proofs::Names::call_none))]
pub fn call_events(
    alloc: Global,
    code: &Code,
    body: u32,
    line: u32,
    values: Vec<Option<Value>>,
) -> Result<Vec<Event>, AllocError>
    ensures { IfOk result (λ es. map notice_of es.items ≡ call_notices body (slice_get (plain_code code.now).bodies body) line (map part values.items)) }
{
    let mut events = Vec::new(alloc);
    let Some(called) = body_of(code, body) else {
        return Ok(events);
    };
    let name = called.name.copy()?;
    events.push(Event::Called { line, name })?;
    push_bindings(&mut events, called.parameters.as_slice(), line, values)?;
    Ok(events)
}

/// Adds the stores of values in parameters; one without a value is `om`.
fn push_bindings(
    events: &mut Vec<Event>,
    parameters: &[Param],
    line: u32,
    values: Vec<Option<Value>>,
) -> Result<(), AllocError>
    ensures { (n : _) → OnOk result (map notice_of events.new.items ≡ map notice_of events.old.items ++ map noticed (stores_told line (bindings n (map parameter_of parameters.now) (map part values.items)))) }
{
    let mut values = values.into_iter();
    for parameter in parameters {
        let value = match values.next() {
            Some(value) => value,
            None => None,
        };
        let name = parameter.name.copy()?;
        events.push(Event::Stored { line, name, value })?;
    }
    Ok(())
}

/// The event of a return of the body of this number. The error is want of memory.
#[tactic(auto, using(crate::proofs::Names::return_there, crate::proofs::Names::return_none))]
pub fn return_events(alloc: Global, code: &Code, body: u32) -> Result<Vec<Event>, AllocError>
    ensures { IfOk result (λ es. map notice_of es.items ≡ map noticed (return_told (slice_get (plain_code code.now).bodies body))) }
{
    let mut events = Vec::new(alloc);
    let Some(returns) = body_of(code, body) else {
        return Ok(events);
    };
    let name = returns.name.copy()?;
    events.push(Event::Returned { name })?;
    Ok(events)
}

/// The body of this number, if there is one.
fn body_of(code: &Code, body: u32) -> Option<&Body>
    ensures some { IfSome result (λ b. slice_get code.now.bodies body ≡ Some b.now) }
    ensures none { IfNone result (slice_get code.now.bodies body ≡ None) }
{
    code.bodies.as_slice().get(body as usize)
}

/// The name by which stores of a slot are told, in the body of this number.
fn name_of(code: &Code, body: u32, slot: Slot) -> Option<&Text>
    ensures { option_map (λ t. t.now) result ≡ told_name (variable_of (plain_code code.now) body slot) }
{
    match slot {
        Slot::Global(k) => global_name(code, k),
        Slot::Own(k) => match body_of(code, body) {
            None => None,
            Some(body) => own_name(body, k as usize),
        },
    }
}

/// The same of a slot that all bodies see.
fn global_name(code: &Code, k: u32) -> Option<&Text>
    ensures { option_map (λ t. t.now) result ≡ slice_get code.now.vars k }
{
    code.vars.as_slice().get(k as usize)
}

/// The same of a body's own slot.
fn own_name(body: &Body, k: usize) -> Option<&Text>
    ensures { option_map (λ t. t.now) result ≡ slot_told body.now.parameters body.now.names k }
{
    let parameters = body.parameters.as_slice();
    if k < parameters.len() {
        Some(&parameters[k].name)
    } else {
        name_told(body.names.as_slice(), k - parameters.len())
    }
}

/// The same of a name that is no parameter, by its place among them.
fn name_told(names: &[OwnName], k: usize) -> Option<&Text>
    ensures { option_map (λ t. t.now) result ≡ own_told (slice_get names.now k) }
{
    match names.get(k) {
        Some(OwnName::Body(name)) => Some(name),
        Some(OwnName::Former(_, _)) => None,
        None => None,
    }
}
