//! Rules 9 to 18: what stands in statements.

ghost use Rattle.std.specs.Prelude.{◌≡◌, fold, IfOk, OnOk};
ghost use Rattle.setl_names.specs.Breaks as spec;
ghost use Rattle.setl_names.specs.Breaks.{earlier};
ghost use Rattle.setl_names.specs.Names.{has_repeat};
ghost use Rattle.setl_names.specs.Rules as rules;
ghost use Rattle.setl_names.specs.code.Stores as found;
ghost use Rattle.setl_names.specs.code.Stores.{stores_of};

use crate::broken::{Break, noted, noted_if};
use crate::name::Name;
use crate::names::has_repeat;
use crate::occurrence::{Argument, Occurrence, What};
use crate::procs::Procs;
use setl_tree::{Items, Param, Passing, Text};
use std::alloc::{AllocError, Global};

/// The arguments of a call for `wr` and `rw` parameters, as far as the rules ask for them: whether one is no name of a
/// variable, whether a former around binds one, and the names.
#[derive(Drop)]
pub struct Stores<'t> {
    pub no_variable: bool,
    pub bound_around: bool,
    pub names: Items<Name<'t>>,
}

/// Whether the argument is a variable that the call stores to.
fn is_stored(passing: Passing) -> bool
    ensures { result ≡ rules.is_stored passing }
{
    match passing {
        Passing::Rd => false,
        Passing::Wr => true,
        Passing::Rw => true,
    }
}

/// Adds an argument for a `wr` or `rw` parameter.
fn add_store<'t>(stores: &mut Stores<'t>, argument: &Argument<'t>) -> Result<(), AllocError>
    ensures { OnOk result (stores.new ≡ found.with_store stores.old argument.now) }
{
    match argument {
        Argument::Other => {
            stores.no_variable = true;
            Ok(())
        }
        Argument::Name(name, own, inside) => {
            stores.names.push(Name::new(name.text()))?;
            stores.no_variable = stores.no_variable || *own;
            stores.bound_around = stores.bound_around || *inside;
            Ok(())
        }
    }
}

/// Adds an argument if it is for a `wr` or `rw` parameter.
fn add_argument<'t>(
    stores: &mut Stores<'t>,
    param: &Param,
    argument: &Argument<'t>,
) -> Result<(), AllocError>
    ensures { OnOk result (stores.new ≡ found.with_argument stores.old param.now argument.now) }
{
    if is_stored(param.passing) {
        add_store(stores, argument)?;
        return Ok(());
    }
    Ok(())
}

/// The arguments for the `wr` and `rw` parameters.
fn find_stores<'t>(
    alloc: Global,
    params: &[Param],
    arguments: &[Argument<'t>],
) -> Result<Stores<'t>, AllocError>
    ensures { IfOk result (λ s. s ≡ stores_of (rules.stored params.now arguments.now)) }
{
    let mut all = Stores {
        no_variable: false,
        bound_around: false,
        names: Items::new(alloc),
    };
    for i in 0..params.len() {
        if i >= arguments.len() {
            return Ok(all);
        }
        add_argument(&mut all, &params[i], &arguments[i])?;
    }
    Ok(all)
}

/// The first break so far and of the rules on the arguments for the `wr` and `rw` parameters of a call.
fn store_break(
    alloc: Global,
    first: Option<Break>,
    line: u32,
    stores: &Stores<'_>,
) -> Result<Option<Break>, AllocError>
    ensures { IfOk result (λ f. f ≡ fold earlier first (found.store_breaks line stores.now)) }
{
    let twice = has_repeat(alloc, stores.names.as_slice())?;
    let first = noted_if(first, line, 11, stores.no_variable);
    let first = noted_if(first, line, 16, stores.bound_around);
    Ok(noted_if(first, line, 18, twice))
}

/// The first break so far and of the rules on a call of a procedure with these parameters.
fn call_break(
    alloc: Global,
    first: Option<Break>,
    line: u32,
    params: &[Param],
    arguments: &[Argument<'_>],
) -> Result<Option<Break>, AllocError>
    ensures { IfOk result (λ f. f ≡ fold earlier first (found.call_breaks line params.now arguments.now)) }
{
    let first = noted_if(first, line, 10, arguments.len() != params.len());
    let stores = find_stores(alloc, params, arguments)?;
    store_break(alloc, first, line, &stores)
}

/// The first break so far and of the rules on a name before a list in round brackets.
fn applied_break(
    alloc: Global,
    first: Option<Break>,
    line: u32,
    procs: &Procs<'_>,
    name: &Text,
    arguments: &[Argument<'_>],
) -> Result<Option<Break>, AllocError>
    ensures { IfOk result (λ f. f ≡ fold earlier first (found.applied_breaks procs.now line name.now arguments.now)) }
{
    match procs.params_of(name.bytes()) {
        None => Ok(noted_if(first, line, 12, arguments.is_empty())),
        Some(params) => call_break(alloc, first, line, params, arguments),
    }
}

/// The first break so far and of a rule that names break if one stands twice among them.
fn repeat_break(
    alloc: Global,
    first: Option<Break>,
    line: u32,
    rule: u8,
    names: &[Name<'_>],
) -> Result<Option<Break>, AllocError>
    ensures { IfOk result (λ f. f ≡ fold earlier first (spec.broken line rule (has_repeat names.now))) }
{
    let is_broken = has_repeat(alloc, names)?;
    Ok(noted_if(first, line, rule, is_broken))
}

/// The first break so far and of one thing that stands in a statement.
#[tactic(auto, using(crate::proofs::Calls::applied_as))]
fn occurrence_break(
    alloc: Global,
    first: Option<Break>,
    procs: &Procs<'_>,
    occurrence: &Occurrence<'_>,
) -> Result<Option<Break>, AllocError>
    ensures { IfOk result (λ f. f ≡ fold earlier first (spec.occurrence_breaks procs.now occurrence.now)) }
{
    let line = occurrence.line;
    match &occurrence.what {
        What::Name(name, _) => Ok(noted_if(first, line, 9, procs.has(name.text().bytes()))),
        What::Applied(name, _, arguments) => applied_break(
            alloc,
            first,
            line,
            procs,
            name.text(),
            arguments.as_slice(),
        ),
        What::CallStatement(name) => Ok(noted_if(first, line, 12, !procs.has(name.text().bytes()))),
        What::EmptyList => Ok(noted(first, line, 12)),
        What::Bound(names) => repeat_break(alloc, first, line, 15, names.as_slice()),
        What::Quantified(_, inside) => Ok(noted_if(first, line, 16, *inside)),
        What::Target(names) => repeat_break(alloc, first, line, 17, names.as_slice()),
        What::Quit(in_loop) => Ok(noted_if(first, line, 13, !*in_loop)),
        What::Return(in_procedure) => Ok(noted_if(first, line, 14, !*in_procedure)),
    }
}

/// The first break so far and of what stands in the statements of a body.
pub fn body_break(
    alloc: Global,
    first: Option<Break>,
    procs: &Procs<'_>,
    occurrences: &[Occurrence<'_>],
) -> Result<Option<Break>, AllocError>
    ensures { IfOk result (λ f. f ≡ fold earlier first (spec.all_occurrence_breaks procs.now occurrences.now)) }
{
    let mut first = first;
    for occurrence in occurrences {
        first = occurrence_break(alloc, first, procs, occurrence)?;
    }
    Ok(first)
}
