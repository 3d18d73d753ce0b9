//! The name by which a rule is broken.

ghost use Rattle.std.specs.Prelude.{◌≡◌, ◌≤◌, ◌∷◌, [], map, Some, IfOk};
ghost use Rattle.setl_names.specs.Bodies.{proc_body, bodies, occurrences};
ghost use Rattle.setl_names.specs.Procedures.{is_procedure};
ghost use Rattle.setl_names_walk.specs.Breaking as spec;
ghost use Rattle.setl_names_walk.specs.Found.{body_of};

use crate::head::is_other;
use crate::program::{BodyParts, occurrences_of};
use setl_names::{Break, Declares, Name, Names, Occurrence, Procs, What, body_break};
use setl_tree::{Items, Param, Proc, Text, Tree};
use std::alloc::{AllocError, Global};

/// A name again, if there is one. The error is want of memory.
fn copied(name: &Option<Text>) -> Result<Option<Text>, AllocError>
    ensures { IfOk result (λ x. x ≡ name.now) }
{
    match name {
        None => Ok(None),
        Some(name) => Ok(Some(name.copy()?)),
    }
}

/// The first name that stands earlier among what declares names, of one that is declared on this line. The error is want of
/// memory.
pub fn again_at<T: Declares>(
    alloc: Global,
    line: u32,
    items: &[T],
) -> Result<Option<Text>, AllocError>
    ensures { IfOk result (λ x. x ≡ spec.again_at line [] (map T.entry_of items.now)) }
{
    let mut seen = Names::new(alloc);
    for item in items {
        let entry = item.entry();
        let is_new = seen.put(entry.name.text().bytes())?;
        if !is_new && entry.line == line {
            return Ok(Some(entry.name.text().copy()?));
        }
    }
    Ok(None)
}

/// The first name of a procedure that is declared on this line. The error is want of memory.
fn procedure_at<T: Declares>(
    procs: &Procs<'_>,
    line: u32,
    items: &[T],
) -> Result<Option<Text>, AllocError>
    ensures { IfOk result (λ x. x ≡ spec.first_at (is_procedure procs.now) line (map T.entry_of items.now)) }
{
    for item in items {
        let entry = item.entry();
        if procs.has(entry.name.text().bytes()) && entry.line == line {
            return Ok(Some(entry.name.text().copy()?));
        }
    }
    Ok(None)
}

/// The first name behind an `end proc` of this line that isn't the procedure's. The error is want of memory.
fn end_at(line: u32, procs: &[Proc]) -> Result<Option<Text>, AllocError>
    ensures { IfOk result (λ x. x ≡ spec.end_at line procs.now) }
{
    for proc in procs {
        if is_other(&proc.end_name, &proc.name) && proc.end_line == line {
            return copied(&proc.end_name);
        }
    }
    Ok(None)
}

/// The first parameter of this line that stands earlier in its list. The error is want of memory.
fn parameter_again(alloc: Global, line: u32, procs: &[Proc]) -> Result<Option<Text>, AllocError>
    ensures { IfOk result (λ x. x ≡ spec.parameter_again line procs.now) }
{
    for proc in procs {
        let name = again_at(alloc, line, proc.params.as_slice())?;
        if name.is_some() {
            return Ok(name);
        }
    }
    Ok(None)
}

/// The first parameter of this line that has a procedure's name. The error is want of memory.
fn parameter_taken(table: &Procs<'_>, line: u32, procs: &[Proc]) -> Result<Option<Text>, AllocError>
    ensures { IfOk result (λ x. x ≡ spec.parameter_taken table.now line procs.now) }
{
    for proc in procs {
        let name = procedure_at(table, line, proc.params.as_slice())?;
        if name.is_some() {
            return Ok(name);
        }
    }
    Ok(None)
}

/// The name by which a rule on the names of procedures is broken. The error is want of memory.
fn in_procs(alloc: Global, tree: &Tree, found: Break) -> Result<Option<Text>, AllocError>
    requires { found.rule ≤ 4 }
    ensures { IfOk result (λ x. x ≡ spec.in_heads tree.now found) }
{
    if found.rule == 1 {
        return copied(&tree.end_name);
    }
    if found.rule == 2 {
        return end_at(found.line, tree.procs.as_slice());
    }
    if found.rule == 3 {
        return again_at(alloc, found.line, tree.procs.as_slice());
    }
    if found.rule == 4 {
        return Ok(Some(tree.name.copy()?));
    }
    Ok(None)
}

/// The name by which a rule of 1 to 8 is broken. The error is want of memory.
fn in_heads(
    alloc: Global,
    tree: &Tree,
    procs: &Procs<'_>,
    found: Break,
) -> Result<Option<Text>, AllocError>
    requires { procs.now ≡ tree.now.procs }
    ensures { IfOk result (λ x. x ≡ spec.in_heads tree.now found) }
{
    if found.rule <= 4 {
        return in_procs(alloc, tree, found);
    }
    if found.rule == 5 {
        return again_at(alloc, found.line, tree.vars.as_slice());
    }
    if found.rule == 6 {
        return procedure_at(procs, found.line, tree.vars.as_slice());
    }
    if found.rule == 7 {
        return parameter_again(alloc, found.line, tree.procs.as_slice());
    }
    if found.rule == 8 {
        return parameter_taken(procs, found.line, tree.procs.as_slice());
    }
    Ok(None)
}

/// The first name that stands earlier in a list. The error is want of memory.
fn repeated(alloc: Global, names: &[Name<'_>]) -> Result<Option<Text>, AllocError>
    ensures { IfOk result (λ x. x ≡ spec.repeated [] names.now) }
{
    let mut seen = Names::new(alloc);
    for name in names {
        if !seen.put(name.text().bytes())? {
            return Ok(Some(name.text().copy()?));
        }
    }
    Ok(None)
}

/// The name again. The error is want of memory.
fn again(name: &Name<'_>) -> Result<Option<Text>, AllocError>
    ensures { IfOk result (λ x. x ≡ Some name.now) }
{
    Ok(Some(name.text().copy()?))
}

/// The name that something in a statement is about. The error is want of memory.
fn about(alloc: Global, what: &What<'_>) -> Result<Option<Text>, AllocError>
    ensures { IfOk result (λ x. x ≡ spec.about what.now) }
{
    match what {
        What::Name(name, _) => again(name),
        What::Applied(name, _, _) => again(name),
        What::CallStatement(name) => again(name),
        What::Quantified(name, _) => again(name),
        What::Bound(names) => repeated(alloc, names.as_slice()),
        What::Target(names) => repeated(alloc, names.as_slice()),
        What::EmptyList => Ok(None),
        What::Quit(_) => Ok(None),
        What::Return(_) => Ok(None),
    }
}

/// Whether a break that may not be there is this one.
fn is_break(found: Break, first: Option<Break>) -> bool
    ensures { result ≡ spec.is_break found first }
{
    match first {
        None => false,
        Some(first) => first.line == found.line && first.rule == found.rule,
    }
}

/// The name that the first of some things in statements is about, if its own first break is this one. The error is want of
/// memory.
fn in_first(
    alloc: Global,
    procs: &Procs<'_>,
    found: Break,
    first: &Occurrence<'_>,
    alone: &[Occurrence<'_>],
) -> Result<Option<Text>, AllocError>
    requires { alone.now ≡ first.now ∷ [] }
    ensures { IfOk result (λ x. x ≡ spec.in_occurrence procs.now found first.now) }
{
    let broken = body_break(alloc, None, procs, alone)?;
    if is_break(found, broken) {
        return about(alloc, &first.what);
    }
    Ok(None)
}

/// The first name of something in these statements that breaks this rule on this line. The error is want of memory.
#[tactic(auto, using(crate::proofs::Alone::alone_at, crate::proofs::Alone::one_more))]
fn in_occurrences(
    alloc: Global,
    procs: &Procs<'_>,
    found: Break,
    occurrences: &[Occurrence<'_>],
) -> Result<Option<Text>, AllocError>
    ensures { IfOk result (λ x. x ≡ spec.in_occurrences procs.now found occurrences.now) }
{
    for i in 0..occurrences.len() {
        let name = in_first(alloc, procs, found, &occurrences[i], &occurrences[i..i + 1])?;
        if name.is_some() {
            return Ok(name);
        }
    }
    Ok(None)
}

/// The first name of something in a body's statements that breaks this rule on this line. The error is want of memory.
fn in_body(
    alloc: Global,
    procs: &Procs<'_>,
    found: Break,
    body: BodyParts<'_>,
) -> Result<Option<Text>, AllocError>
    ensures { IfOk result (λ x. x ≡ spec.in_occurrences procs.now found (occurrences (body_of body.entry.name.now body.entry.params.now body.entry.statements.now body.entry.in_procedure))) }
{
    let occurrences = occurrences_of(alloc, body)?;
    in_occurrences(alloc, procs, found, occurrences.as_slice())
}

/// The first such name in the statements of procedures. The error is want of memory.
fn in_procedures(
    alloc: Global,
    table: &Procs<'_>,
    found: Break,
    procs: &[Proc],
) -> Result<Option<Text>, AllocError>
    ensures { IfOk result (λ x. x ≡ spec.in_bodies table.now found (map proc_body procs.now)) }
{
    for proc in procs {
        let body = BodyParts {
            name: &proc.name,
            params: proc.params.as_slice(),
            statements: proc.body.as_slice(),
            in_procedure: true,
        };
        let name = in_body(alloc, table, found, body)?;
        if name.is_some() {
            return Ok(name);
        }
    }
    Ok(None)
}

/// The first such name in the statements of a program. The error is want of memory.
fn in_bodies(
    alloc: Global,
    tree: &Tree,
    procs: &Procs<'_>,
    found: Break,
) -> Result<Option<Text>, AllocError>
    ensures { IfOk result (λ x. x ≡ spec.in_bodies procs.now found (bodies tree.now)) }
{
    let body = BodyParts {
        name: &tree.name,
        params: &[],
        statements: tree.body.as_slice(),
        in_procedure: false,
    };
    let name = in_body(alloc, procs, found, body)?;
    if name.is_some() {
        return Ok(name);
    }
    in_procedures(alloc, procs, found, tree.procs.as_slice())
}

/// The name by which a rule of 1 to 18 is broken on a line, where it is by a name: that of the first thing on this line that
/// breaks it there. For a call it is the procedure's, and for names that are bound together or assigned to together the one
/// that stands there twice. There is none for a list in round brackets that stands behind no name, nor for `quit`,
/// `continue` and `return`. The error is want of memory.
pub fn breaking_name(alloc: Global, tree: &Tree, found: Break) -> Result<Option<Text>, AllocError>
    ensures { IfOk result (λ x. x ≡ spec.breaking_name tree.now found) }
{
    let procs = Procs::new(alloc, tree.procs.as_slice())?;
    let name = in_heads(alloc, tree, &procs, found)?;
    if name.is_some() {
        return Ok(name);
    }
    in_bodies(alloc, tree, &procs, found)
}
