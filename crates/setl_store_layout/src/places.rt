//! The slots of the main program's variables, by their names.

ghost use Rattle.std.specs.Prelude.{◌≡◌, ◌<◌, ◌+◌, cond, map, length, bytes_eq, false, List, ℕ, Some, IfOk, OnOk, IfSome, IfNone};
ghost use Rattle.setl_code.specs.Plain.{own_variables, plain_slot, variable_at};
ghost use Rattle.setl_model_runs.specs.Variable as run;
ghost use Rattle.setl_model_runs.specs.Variable.{Own, is_variable};
ghost use Rattle.setl_names.specs.ByName.{value_at};
ghost use Rattle.setl_program.specs.code.Plain.{plain_variable};
ghost use Rattle.setl_store.specs.MainProgram.{main_variables, HasMainSlot, IsMissing};
ghost use Rattle.setl_store_layout.specs.Layout.{IsOfMain};
ghost use Rattle.setl_store_layout.specs.Places.{Finds, Knows};

use indexmap::IndexMap;
use setl_code::{Body, Code, OwnName, Slot};
use setl_program::Variable;
use setl_tree::{Param, Text};
use std::alloc::{AllocError, Global};

/// For the names of the variables that all bodies see, and for those of the main body's own, their slots.
#[derive(Drop)]
pub(crate) struct Places {
    pub globals: IndexMap<Vec<u8>, u32>,
    pub own: IndexMap<Vec<u8>, u32>,
}

/// The slots of a code's main program. The error is want of memory, which is also that there are more than 2^32 variables.
pub(crate) fn places_of(alloc: Global, code: &Code) -> Result<Places, AllocError>
    ensures { IfOk result (Knows code.now) }
{
    let globals = global_places(alloc, code.vars.as_slice())?;
    let own = main_places(alloc, code)?;
    Ok(Places { globals, own })
}

// The places of the variables that all bodies see.
fn global_places(alloc: Global, names: &[Text]) -> Result<IndexMap<Vec<u8>, u32>, AllocError>
    ensures { IfOk result (Finds run.Global 0 (map run.Global names.now)) }
{
    let mut table = IndexMap::new(alloc);
    let mut at = names.len();
    while at > 0 {
        at -= 1;
        put_name(alloc, &names[at], at, &mut table)?;
    }
    Ok(table)
}

// The places of the main body's own variables.
fn main_places(alloc: Global, code: &Code) -> Result<IndexMap<Vec<u8>, u32>, AllocError>
    ensures { IfOk result (Finds (Own 0) 0 (main_variables code.now).own) }
{
    match code.bodies.as_slice().get(0) {
        None => Ok(IndexMap::new(alloc)),
        Some(body) => own_places(alloc, body.parameters.as_slice(), body.names.as_slice()),
    }
}

// The places of own variables with these parameters and, behind them, these names.
fn own_places(
    alloc: Global,
    parameters: &[Param],
    names: &[OwnName],
) -> Result<IndexMap<Vec<u8>, u32>, AllocError>
    ensures { IfOk result (Finds (Own 0) 0 (own_variables 0 parameters.now names.now)) }
{
    let mut table = IndexMap::new(alloc);
    let Some(mut at) = parameters.len().checked_add(names.len()) else {
        return Err(AllocError);
    };
    while at > 0 {
        at -= 1;
        if let Some(name) = own_name(parameters, names, at) {
            put_name(alloc, name, at, &mut table)?;
        }
    }
    Ok(table)
}

// The name of the own variable at a place; None where that is a former's.
fn own_name<'a>(parameters: &'a [Param], names: &'a [OwnName], at: usize) -> Option<&'a Text>
    requires { at < length parameters.now + length names.now }
    ensures some { IfSome result (λ name. variable_at (own_variables 0 parameters.now names.now) at ≡ Own 0 name.now) }
    ensures none { IfNone result ((x : List ℕ) → is_variable (Own 0 x) (variable_at (own_variables 0 parameters.now names.now) at) ≡ false) }
{
    let count = parameters.len();
    if at < count {
        return Some(&parameters[at].name);
    }
    match &names[at - count] {
        OwnName::Body(name) => Some(name),
        OwnName::Former(_, _) => None,
    }
}

// Puts a place into a table, at a name.
fn put_name(
    alloc: Global,
    name: &Text,
    at: usize,
    table: &mut IndexMap<Vec<u8>, u32>,
) -> Result<(), AllocError>
    ensures { OnOk result ((x : List ℕ) → value_at table.new x ≡ cond (bytes_eq x name.now) (Some at) (value_at table.old x)) }
{
    let place = narrow(at)?;
    let key = Vec::from_slice(alloc, name.bytes())?;
    table.insert(key, place)?;
    Ok(())
}

// A place as a slot has it. The error is that it is 2^32 or more, where no memory was refused.
fn narrow(at: usize) -> Result<u32, AllocError>
    ensures { IfOk result (λ place. place ≡ at) }
{
    match u32::try_from(at) {
        Ok(place) => Ok(place),
        Err(_) => Err(AllocError),
    }
}

/// The slot of a variable of the main program, if it has one.
pub(crate) fn slot_of(places: &Places, code: &Code, variable: &Variable) -> Option<Slot>
    requires knows { Knows code.now places.now }
    requires main { IsOfMain (plain_variable variable.now) }
    ensures there { IfSome result (λ slot. HasMainSlot code.now slot) }
    ensures named { IfSome result (λ slot. plain_slot (main_variables code.now) slot ≡ plain_variable variable.now) }
    ensures none { IfNone result (IsMissing code.now (plain_variable variable.now)) }
{
    match variable {
        Variable::Global(name) => global_slot(places, code, name),
        Variable::Own(_, name) => own_slot(places, code, name),
        Variable::Former(_, _) => unreachable!(),
    }
}

// The slot of the variable of this name that all bodies see.
fn global_slot(places: &Places, code: &Code, name: &Text) -> Option<Slot>
    requires { Knows code.now places.now }
    ensures there { IfSome result (λ slot. HasMainSlot code.now slot) }
    ensures named { IfSome result (λ slot. plain_slot (main_variables code.now) slot ≡ run.Global name.now) }
    ensures none { IfNone result (IsMissing code.now (run.Global name.now)) }
{
    match place_at(&places.globals, name) {
        None => None,
        Some(place) => Some(Slot::Global(place)),
    }
}

// The slot of the variable of this name of the main body's own.
fn own_slot(places: &Places, code: &Code, name: &Text) -> Option<Slot>
    requires { Knows code.now places.now }
    ensures there { IfSome result (λ slot. HasMainSlot code.now slot) }
    ensures named { IfSome result (λ slot. plain_slot (main_variables code.now) slot ≡ Own 0 name.now) }
    ensures none { IfNone result (IsMissing code.now (Own 0 name.now)) }
{
    match place_at(&places.own, name) {
        None => None,
        Some(place) => Some(Slot::Own(place)),
    }
}

// What a table has at a name.
fn place_at(table: &IndexMap<Vec<u8>, u32>, name: &Text) -> Option<u32>
    ensures { result ≡ value_at table.now name.now }
{
    table.get(name.bytes()).copied()
}
