//! Name resolution of a program.

ghost use Rattle.std.specs.Prelude.{◌≡◌, ◌∷◌, map, IfOk, OnOk, OnErr};
ghost use Rattle.setl_names.specs.Breaks.{breaks, first_break};
ghost use Rattle.setl_names.specs.Bodies.{main_body, proc_body, bodies, occurrences};
ghost use Rattle.setl_names.specs.Resolves.{Resolves, all_names};
ghost use Rattle.setl_names_walk.specs.Found.{body_of, with_occurrences, with_body, with_bodies, heads_found, whole_program};

use crate::bodies::body_names;
use crate::head::head_break;
use crate::statements::stmts;
use crate::walk::Walk;
use setl_names::{Around, BodyNames, Break, Names, Occurrence, Procs, RuleFault, body_break};
use setl_tree::{Items, Param, Proc, Stmt, Text, Tree};
use std::alloc::{AllocError, Global};

/// What resolving the names of a program finds, or has found so far: the first break of a rule, if one is broken, and the
/// names of bodies.
#[derive(Drop)]
pub struct Resolution {
    pub first: Option<Break>,
    pub names: Items<BodyNames>,
}

/// The main program or a procedure, as it stands in a tree.
#[derive(Clone, Copy)]
pub struct BodyParts<'t> {
    pub name: &'t Text,
    pub params: &'t [Param],
    pub statements: &'t [Stmt],
    pub in_procedure: bool,
}

/// What stands in the statements of a body. An error is want of memory.
pub fn occurrences_of<'t>(
    alloc: Global,
    body: BodyParts<'t>,
) -> Result<Items<Occurrence<'t>>, AllocError>
    ensures { IfOk result (λ us. us ≡ occurrences (body_of body.entry.name.now body.entry.params.now body.entry.statements.now body.entry.in_procedure)) }
{
    let around = Around {
        in_loop: false,
        in_procedure: body.in_procedure,
    };
    let mut walk = Walk::new(alloc);
    stmts(body.statements, around, &mut walk)?;
    Ok(walk.into_found())
}

/// Adds the first break and the names of a body, in whose statements this stands. An error is want of memory, and
/// nothing is changed then.
fn note_body(
    alloc: Global,
    procs: &Procs<'_>,
    vars: &Names,
    body: BodyParts<'_>,
    occurrences: &[Occurrence<'_>],
    found: &mut Resolution,
) -> Result<(), AllocError>
    ensures ok { OnOk result (found.new ≡ with_occurrences procs.now vars.now body.entry.name.now body.entry.params.now occurrences.now found.old) }
    ensures err { OnErr result (found.new ≡ found.old) }
{
    let first = body_break(alloc, found.first, procs, occurrences)?;
    let names = body_names(alloc, procs, vars, body.name, body.params, occurrences)?;
    found.names.push(names)?;
    found.first = first;
    Ok(())
}

/// Resolves a body. An error is want of memory, and nothing is changed then.
fn resolve_body(
    alloc: Global,
    procs: &Procs<'_>,
    vars: &Names,
    body: BodyParts<'_>,
    found: &mut Resolution,
) -> Result<(), AllocError>
    ensures ok { OnOk result (found.new ≡ with_body procs.now vars.now (body_of body.entry.name.now body.entry.params.now body.entry.statements.now body.entry.in_procedure) found.old) }
    ensures err { OnErr result (found.new ≡ found.old) }
{
    let occurrences = occurrences_of(alloc, body)?;
    note_body(alloc, procs, vars, body, occurrences.as_slice(), found)
}

/// Resolves the procedures.
fn resolve_procs(
    alloc: Global,
    table: &Procs<'_>,
    vars: &Names,
    procs: &[Proc],
    found: &mut Resolution,
) -> Result<(), AllocError>
    ensures { OnOk result (found.new ≡ with_bodies table.now vars.now (map proc_body procs.now) found.old) }
{
    for proc in procs {
        let body = BodyParts {
            name: &proc.name,
            params: proc.params.as_slice(),
            statements: proc.body.as_slice(),
            in_procedure: true,
        };
        resolve_body(alloc, table, vars, body, found)?;
    }
    Ok(())
}

/// Resolves the main program and the procedures.
fn resolve_bodies(
    alloc: Global,
    tree: &Tree,
    table: &Procs<'_>,
    vars: &Names,
    found: &mut Resolution,
) -> Result<(), AllocError>
    ensures { OnOk result (found.new ≡ with_bodies table.now vars.now (main_body tree.now ∷ map proc_body tree.now.procs) found.old) }
{
    let body = BodyParts {
        name: &tree.name,
        params: &[],
        statements: tree.body.as_slice(),
        in_procedure: false,
    };
    resolve_body(alloc, table, vars, body, found)?;
    resolve_procs(alloc, table, vars, tree.procs.as_slice(), found)
}

/// What resolving finds in a program with these procedures and these names in `var`.
fn resolve_within(
    alloc: Global,
    tree: &Tree,
    table: &Procs<'_>,
    vars: &Names,
) -> Result<Resolution, AllocError>
    requires { table.now ≡ tree.now.procs }
    ensures { IfOk result (λ found. found ≡ with_bodies table.now vars.now (bodies tree.now) (heads_found tree.now)) }
{
    let first = head_break(alloc, tree, table)?;
    let mut found = Resolution {
        first,
        names: Items::new(alloc),
    };
    resolve_bodies(alloc, tree, table, vars, &mut found)?;
    Ok(found)
}

/// What resolving finds in a program with these procedures.
fn resolve_with(alloc: Global, tree: &Tree, table: &Procs<'_>) -> Result<Resolution, AllocError>
    requires { table.now ≡ tree.now.procs }
    ensures { IfOk result (λ found. found ≡ whole_program tree.now) }
{
    let vars = Names::declared(alloc, tree.vars.as_slice())?;
    resolve_within(alloc, tree, table, &vars)
}

/// Resolves the names of a program.
///
/// It gives the first break of the rules 1 to 18 by line, and of one line that of the lowest number, and, whether a rule is
/// broken or not, the names of each body, the main program first, then the procedures in their order. The error is want
/// of memory.
pub fn resolve_all(alloc: Global, tree: &Tree) -> Result<Resolution, AllocError>
    ensures first { IfOk result (λ found. found.first ≡ first_break (breaks tree.now)) }
    ensures names { IfOk result (λ found. found.names ≡ all_names tree.now) }
{
    let table = Procs::new(alloc, tree.procs.as_slice())?;
    resolve_with(alloc, tree, &table)
}

/// The names of each body of a program, the main program first, then the procedures in their order.
///
/// Where a rule of 1 to 18 is broken, the error is `Broken` with the first break by line, and of one line that of the
/// lowest number. `NoMemory` is want of memory.
pub fn resolve(alloc: Global, tree: &Tree) -> Result<Items<BodyNames>, RuleFault>
    ensures { Resolves tree.now result }
{
    let found = resolve_all(alloc, tree)?;
    let Resolution { first, names } = found;
    match first {
        None => Ok(names),
        Some(first) => Err(RuleFault::Broken {
            rule: first.rule,
            line: first.line,
        }),
    }
}
