//! The names of variables and of bodies.

ghost use Rattle.std.specs.Prelude.{◌≡◌, ◌++◌, [], map, OnOk};
ghost use Rattle.setl_model_runs.specs.Variable.{Bound, Global};
ghost use Rattle.setl_code.specs.Listing.{name_at, variable_text};
ghost use Rattle.setl_code.specs.Plain.{own_variables, plain_name, plain_slot, variable_at};
ghost use Rattle.setl_code_listing.specs.Parts.{bodies_of, variables_of};

use setl_code::{Body, Code, OwnName, Slot};
use setl_text::push_decimal;
use setl_tree::Text;
use std::alloc::AllocError;

/// Adds the name of a slot of a body. A slot behind all names, which the code of a program never has, is written `.0`.
pub fn push_variable(
    into: &mut Vec<u8>,
    code: &Code,
    body: &Body,
    slot: Slot,
) -> Result<(), AllocError>
    ensures { OnOk result (into.new.items ≡ into.old.items ++ variable_text (plain_slot (variables_of code.now body.now) slot)) }
{
    match slot {
        Slot::Global(k) => push_global(into, code.vars.as_slice(), k as usize),
        Slot::Own(k) => push_own(into, body, k as usize),
    }
}

// Adds the name of a variable that all bodies see.
fn push_global(into: &mut Vec<u8>, vars: &[Text], k: usize) -> Result<(), AllocError>
    ensures { OnOk result (into.new.items ≡ into.old.items ++ variable_text (variable_at (map Global vars.now) k)) }
{
    if k < vars.len() {
        into.extend_from_slice(vars[k].bytes())
    } else {
        push_missing(into)
    }
}

// Adds the name of a variable of a body.
fn push_own(into: &mut Vec<u8>, body: &Body, k: usize) -> Result<(), AllocError>
    ensures { OnOk result (into.new.items ≡ into.old.items ++ variable_text (variable_at (own_variables 0 body.now.parameters body.now.names) k)) }
{
    let parameters = body.parameters.as_slice();
    if k < parameters.len() {
        into.extend_from_slice(parameters[k].name.bytes())
    } else {
        push_name_at(into, body.names.as_slice(), k - parameters.len())
    }
}

// Adds the name at a place.
fn push_name_at(into: &mut Vec<u8>, names: &[OwnName], k: usize) -> Result<(), AllocError>
    ensures { OnOk result (into.new.items ≡ into.old.items ++ variable_text (variable_at (map (plain_name 0) names.now) k)) }
{
    if k < names.len() {
        push_name(into, &names[k])
    } else {
        push_missing(into)
    }
}

// Adds what stands for the name of a slot behind all names.
fn push_missing(into: &mut Vec<u8>) -> Result<(), AllocError>
    ensures { OnOk result (into.new.items ≡ into.old.items ++ variable_text (Bound 0 [])) }
{
    into.extend_from_slice(b".0")
}

// Adds a name; that of a former's variable has the number of the former behind it.
fn push_name(into: &mut Vec<u8>, name: &OwnName) -> Result<(), AllocError>
    ensures { OnOk result (into.new.items ≡ into.old.items ++ variable_text (plain_name 0 name.now)) }
{
    match name {
        OwnName::Body(x) => into.extend_from_slice(x.bytes()),
        OwnName::Former(former, x) => {
            into.extend_from_slice(x.bytes())?;
            into.push(b'.')?;
            push_decimal(into, u64::from(*former))
        }
    }
}

/// Adds the name of the body of this number. A number behind all bodies has none.
pub fn push_body_name(into: &mut Vec<u8>, code: &Code, n: u32) -> Result<(), AllocError>
    ensures { OnOk result (into.new.items ≡ into.old.items ++ name_at n (bodies_of code.now)) }
{
    let bodies = code.bodies.as_slice();
    let n = n as usize;
    if n < bodies.len() {
        into.extend_from_slice(bodies[n].name.bytes())
    } else {
        Ok(())
    }
}
