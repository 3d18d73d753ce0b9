//! The variables that advice declares, with their flows.

ghost use Rattle.std.specs.Prelude.{◌≡◌, ◌++◌, ◌∷◌, [], map, IfOk, OnOk};
ghost use Rattle.setl_names.specs.Variables.{var_names};
ghost use Rattle.setl_model_runs.specs.Variable as run;
ghost use Rattle.setl_program.specs.Scope as spec;
ghost use Rattle.setl_program.specs.Formed.{Formed};
ghost use Rattle.setl_program.specs.code.Plain.{plain_program, plain_variable};
ghost use Rattle.setl_advise_section.specs.code.Numbers.{plain_variables};
ghost use Rattle.setl_advise_section.specs.code.Numbers as section;
ghost use Rattle.setl_advise_terms.specs.code.Plain.{flows_of};
ghost use Rattle.setl_advise.specs.Advice.{main_slots, main_variables, with_flow, with_flows};
ghost use Rattle.setl_advise.specs.code.Flows.{HaveLeastFlows};

use setl_advise_gathering::{Target, name_of};
use setl_advise_section::Variable as Declared;
use setl_advise_solving::{Table, solved};
use setl_names::BodyNames;
use setl_names_walk::resolve_all;
use setl_program::{Program, Variable};
use setl_program_scope::Scope;
use setl_tree::{Declared as Listed, Items, Text, Tree};
use std::alloc::{AllocError, Global};

/// Adds the variable that a name stands for. The error is want of memory.
fn push_variable(
    scope: &Scope<'_>,
    name: &Text,
    all: &mut Items<Variable>,
) -> Result<(), AllocError>
    ensures { OnOk result (map plain_variable all.new ≡ map plain_variable all.old ++ spec.variable_of scope.now name.now ∷ []) }
{
    let variable = scope.variable(name)?;
    all.push(variable)
}

/// Adds the variables in `var`. The error is want of memory.
fn push_listed(
    scope: &Scope<'_>,
    listed: &[Listed],
    all: &mut Items<Variable>,
) -> Result<(), AllocError>
    ensures { OnOk result (map plain_variable all.new ≡ map plain_variable all.old ++ map (spec.variable_of scope.now) (var_names listed.now)) }
{
    for name in listed {
        push_variable(scope, &name.name, all)?;
    }
    Ok(())
}

/// Adds the variables of some names. The error is want of memory.
fn push_named(
    scope: &Scope<'_>,
    names: &[Text],
    all: &mut Items<Variable>,
) -> Result<(), AllocError>
    ensures { OnOk result (map plain_variable all.new ≡ map plain_variable all.old ++ map (spec.variable_of scope.now) names.now) }
{
    for name in names {
        push_variable(scope, name, all)?;
    }
    Ok(())
}

/// Adds the variables of the first body. The error is want of memory.
fn push_first(
    scope: &Scope<'_>,
    bodies: &[BodyNames],
    all: &mut Items<Variable>,
) -> Result<(), AllocError>
    ensures { OnOk result (map plain_variable all.new ≡ map plain_variable all.old ++ map (spec.variable_of scope.now) (main_slots bodies.now)) }
{
    match bodies.first() {
        None => Ok(()),
        Some(body) => push_named(scope, body.slots.as_slice(), all),
    }
}

/// The variables of the main program: those in `var`, then the others in the order of their first appearance. The error is
/// want of memory.
pub fn main_variables(alloc: Global, tree: &Tree) -> Result<Items<Variable>, AllocError>
    ensures { IfOk result (λ all. map plain_variable all ≡ main_variables tree.now) }
{
    let scope = Scope::main(alloc, tree)?;
    let found = resolve_all(alloc, tree)?;
    let mut all = Items::new(alloc);
    push_listed(&scope, tree.vars.as_slice(), &mut all)?;
    push_first(&scope, found.names.as_slice(), &mut all)?;
    Ok(all)
}

/// The bytes of the name of a variable.
fn bytes_of<'p>(x: &'p Variable) -> &'p [u8]
    ensures { result.now ≡ run.name_of (plain_variable x.now) }
{
    match x {
        Variable::Global(name) => name.bytes(),
        Variable::Own(_, name) => name.bytes(),
        Variable::Former(_, name) => name.bytes(),
    }
}

/// A variable by its name, with its flow.
fn with_flow<'p>(x: &'p Variable, table: &Table<'p>) -> Declared<'p>
    ensures { section.plain_variable result ≡ with_flow (flows_of table.now) (plain_variable x.now) }
{
    Declared {
        name: bytes_of(x),
        flow: table.get(Target::Into(name_of(x))),
    }
}

/// Variables by their names, with their flows. The error is want of memory.
fn with_flows<'p>(
    alloc: Global,
    variables: &'p [Variable],
    table: &Table<'p>,
) -> Result<Vec<Declared<'p>>, AllocError>
    ensures { IfOk result (λ all. plain_variables all.items ≡ with_flows (flows_of table.now) (map plain_variable variables.now)) }
{
    let mut all = Vec::new(alloc);
    for x in variables {
        all.push(with_flow(x, table))?;
    }
    Ok(all)
}

/// Some variables by their names, with their flows among the least of a program. The error is want of memory.
pub fn with_least_flows<'p>(
    alloc: Global,
    program: &'p Program,
    variables: &'p [Variable],
) -> Result<Vec<Declared<'p>>, AllocError>
    ensures { IfOk result (λ all. Formed (plain_program program.now) → HaveLeastFlows (plain_program program.now) (map plain_variable variables.now) (plain_variables all.items)) }
{
    setl_advise_order::joins_are_least();
    let table = solved(alloc, program)?;
    with_flows(alloc, variables, &table)
}
