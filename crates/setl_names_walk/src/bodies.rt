//! The names of a body, from what stands in its statements.

ghost use Rattle.std.specs.Prelude.{◌≡◌, [], IfOk, OnOk};
ghost use Rattle.setl_names.specs.Names.{in_order, with_names};
ghost use Rattle.setl_names.specs.Procedures.{param_names};
ghost use Rattle.setl_names.specs.Variables as spec;
ghost use Rattle.setl_names_walk.specs.Own as found;

use setl_names::{BodyNames, Name, Names, Occurrence, Procs, What};
use setl_tree::{Items, Param, Text, copied_items};
use std::alloc::{AllocError, Global};

/// The name that stands in a statement and is no former's own name.
fn free_name<'t>(what: &What<'t>) -> Option<Name<'t>>
    ensures { result ≡ spec.free_name what.now }
{
    match what {
        What::Name(name, own) => {
            if *own {
                None
            } else {
                Some(Name::new(name.text()))
            }
        }
        What::Applied(name, own, _) => {
            if *own {
                None
            } else {
                Some(Name::new(name.text()))
            }
        }
        What::CallStatement(_) => None,
        What::EmptyList => None,
        What::Bound(_) => None,
        What::Quantified(_, _) => None,
        What::Target(_) => None,
        What::Quit(_) => None,
        What::Return(_) => None,
    }
}

/// Whether a name means a variable of the body's own, in a body with these parameters.
fn is_of_body(name: &[u8], procs: &Procs<'_>, vars: &Names, params: &Names) -> bool
    ensures { result ≡ found.is_own_name procs.now params.now vars.now name.now }
{
    !procs.has(name) && !params.has(name) && !vars.has(name)
}

/// Puts a name among the body's own, if it means a variable of the body's own and isn't there. Both lists hold the same
/// names.
fn add_slot(
    alloc: Global,
    procs: &Procs<'_>,
    vars: &Names,
    params: &Names,
    name: &Text,
    seen: &mut Names,
    all: &mut Items<Text>,
) -> Result<(), AllocError>
    requires { all.now ≡ seen.now }
    ensures seen { OnOk result (seen.new ≡ found.with_own_name procs.now params.now vars.now seen.old name.now) }
    ensures all { OnOk result (all.new ≡ seen.new) }
{
    if is_of_body(name.bytes(), procs, vars, params) && seen.put(name.bytes())? {
        return all.push(name.copy()?);
    }
    Ok(())
}

/// Puts the body's own names among these occurrences behind those that were seen before.
#[tactic(auto, using(crate::proofs::Own::own_step))]
fn add_slots(
    alloc: Global,
    procs: &Procs<'_>,
    vars: &Names,
    params: &Names,
    occurrences: &[Occurrence<'_>],
    seen: &mut Names,
    all: &mut Items<Text>,
) -> Result<(), AllocError>
    requires { all.now ≡ seen.now }
    ensures seen { OnOk result (seen.new ≡ with_names seen.old (spec.of_body params.now vars.now (spec.variables procs.now occurrences.now))) }
    ensures all { OnOk result (all.new ≡ seen.new) }
{
    for occurrence in occurrences {
        if let Some(name) = free_name(&occurrence.what) {
            add_slot(alloc, procs, vars, params, name.text(), seen, all)?;
        }
    }
    Ok(())
}

/// Adds the own names of a body with these parameters in the order of their first appearance. An error is want of
/// memory.
fn add_body_slots(
    alloc: Global,
    procs: &Procs<'_>,
    vars: &Names,
    params: &[Param],
    occurrences: &[Occurrence<'_>],
    all: &mut Items<Text>,
) -> Result<(), AllocError>
    requires { all.now ≡ [] }
    ensures { OnOk result (all.new ≡ spec.slots_among procs.now (in_order (param_names params.now)) vars.now occurrences.now) }
{
    let names = Names::declared(alloc, params)?;
    let mut seen = Names::new(alloc);
    add_slots(alloc, procs, vars, &names, occurrences, &mut seen, all)
}

/// The names of a body without its slots. An error is want of memory.
fn without_slots(alloc: Global, name: &Text, params: &[Param]) -> Result<BodyNames, AllocError>
    ensures { IfOk result (λ b. b ≡ spec.names_with name.now params.now []) }
{
    let params = copied_items(alloc, params)?;
    Ok(BodyNames {
        name: name.copy()?,
        params,
        slots: Items::new(alloc),
    })
}

/// The names of a body. An error is want of memory.
pub fn body_names(
    alloc: Global,
    procs: &Procs<'_>,
    vars: &Names,
    name: &Text,
    params: &[Param],
    occurrences: &[Occurrence<'_>],
) -> Result<BodyNames, AllocError>
    ensures { IfOk result (λ b. b ≡ spec.names_with name.now params.now (spec.slots_among procs.now (in_order (param_names params.now)) vars.now occurrences.now)) }
{
    let mut names = without_slots(alloc, name, params)?;
    add_body_slots(alloc, procs, vars, params, occurrences, &mut names.slots)?;
    Ok(names)
}
