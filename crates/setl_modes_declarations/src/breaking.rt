//! The name by which a rule on declarations is broken.

ghost use Rattle.std.specs.Prelude.{◌≡◌, [], Option, map, IfOk};
ghost use Rattle.std.specs.Option.{option_map};
ghost use Rattle.setl_tree.specs.declared.mode.Attribute.{Attribute as TreeAttribute};
ghost use Rattle.setl_names.specs.Heads.{declared_entry};
ghost use Rattle.setl_names.specs.Resolves.{all_names};
ghost use Rattle.setl_names_walk.specs.Breaking.{again_at, first_at};
ghost use Rattle.setl_modes_declarations.specs.Breaking as spec;
ghost use Rattle.setl_modes_declarations.specs.Rules as rules;
ghost use Rattle.setl_modes_declarations.specs.Rules.{line_parts, is_taken};
ghost use Rattle.setl_modes_declarations.specs.code.Taken.{is_among, is_none_of};
ghost use Rattle.setl_modes_written.specs.Written.{written, parts};
ghost use Rattle.setl_modes_written.specs.code.Tests.{core_written};

use crate::listed::{Listed, declared_bases, declared_variables};
use crate::rules::put_bases;
use crate::taken::variable_names;
use setl_names::{BodyNames, Break, Names, Procs};
use setl_names_walk::again_at;
use setl_tree::{Boxed, Core, Items, ReprLine, Text, Tree, WrittenMode};
use std::alloc::{AllocError, Global};

/// The first base that an `elmt` of this line names in a mode and that isn't known.
#[cycle(unknown_names)]
fn unknown_at<'t>(line: u32, known: &Names, m: &'t WrittenMode) -> Option<&'t Text>
    ensures { option_map (λ x. x.now) result ≡ spec.unknown_at line known.now (parts (written m.now)) }
{
    unknown_in_core(line, known, &m.core)
}

/// The first base that an `elmt` of this line names in a mode and that isn't known, where the mode's attribute changes
/// nothing.
#[cycle(unknown_names)]
fn unknown_in_core<'t>(line: u32, known: &Names, x: &'t Core) -> Option<&'t Text>
    ensures { (a : Option TreeAttribute) → option_map (λ x. x.now) result ≡ spec.unknown_at line known.now (parts (core_written x.now a)) }
{
    match x {
        Core::Elmt(at, base) => {
            if !known.has(base.bytes()) && *at == line {
                Some(base)
            } else {
                None
            }
        }
        Core::Set(m) => unknown_at(line, known, m.get()),
        Core::Tuple(m) => unknown_at(line, known, m.get()),
        Core::Smap(domain, range) => match unknown_at(line, known, domain.get()) {
            None => unknown_at(line, known, range.get()),
            Some(found) => Some(found),
        },
        Core::Mmap(domain, images) => match unknown_at(line, known, domain.get()) {
            None => unknown_at(line, known, images.get()),
            Some(found) => Some(found),
        },
        _ => None,
    }
}

/// The first base that an `elmt` of this line names in a `repr` line and that isn't known.
fn unknown_in_line<'t>(at: u32, known: &Names, line: &'t ReprLine) -> Option<&'t Text>
    ensures { option_map (λ x. x.now) result ≡ spec.unknown_at at known.now (line_parts line.now) }
{
    match line {
        ReprLine::Base(_, _, None) => None,
        ReprLine::Base(_, _, Some(m)) => unknown_at(at, known, m),
        ReprLine::Variables(_, _, m) => unknown_at(at, known, m),
    }
}

/// The first base that an `elmt` of this line names and that no earlier `repr` line declares. The error is want of memory.
fn unknown_base(alloc: Global, at: u32, lines: &[ReprLine]) -> Result<Option<Text>, AllocError>
    ensures { IfOk result (λ x. x ≡ spec.unknown_from at [] lines.now) }
{
    let mut known = Names::new(alloc);
    for line in lines {
        if let Some(base) = unknown_in_line(at, &known, line) {
            return Ok(Some(base.copy()?));
        }
        put_bases(&mut known, line)?;
    }
    Ok(None)
}

/// The first base declared on this line that is the name of a procedure or one of these. The error is want of memory.
fn taken_at(
    line: u32,
    procs: &Procs<'_>,
    others: &Names,
    bases: &[Listed<'_>],
) -> Result<Option<Text>, AllocError>
    ensures { IfOk result (λ x. x ≡ first_at (is_among procs.now others.now) line (map declared_entry bases.now)) }
{
    for base in bases {
        let name = base.name();
        if (procs.has(name.bytes()) || others.has(name.bytes())) && base.line() == line {
            return Ok(Some(name.copy()?));
        }
    }
    Ok(None)
}

/// The first variable declared on this line that is none of these, or the name of a procedure. The error is want of memory.
fn undeclarable_at(
    line: u32,
    procs: &Procs<'_>,
    main: &Names,
    variables: &[Listed<'_>],
) -> Result<Option<Text>, AllocError>
    ensures { IfOk result (λ x. x ≡ first_at (is_none_of procs.now main.now) line (map declared_entry variables.now)) }
{
    for variable in variables {
        let name = variable.name();
        if !(main.has(name.bytes()) && !procs.has(name.bytes())) && variable.line() == line {
            return Ok(Some(name.copy()?));
        }
    }
    Ok(None)
}

/// The first base of this line that is declared before. The error is want of memory.
fn base_again(alloc: Global, line: u32, lines: &[ReprLine]) -> Result<Option<Text>, AllocError>
    ensures { IfOk result (λ x. x ≡ again_at line [] (map declared_entry (rules.declared_bases lines.now))) }
{
    let bases = declared_bases(alloc, lines)?;
    again_at(alloc, line, bases.as_slice())
}

/// The first variable of this line that is declared before. The error is want of memory.
fn variable_again(alloc: Global, line: u32, lines: &[ReprLine]) -> Result<Option<Text>, AllocError>
    ensures { IfOk result (λ x. x ≡ again_at line [] (map declared_entry (rules.declared_variables lines.now))) }
{
    let variables = declared_variables(alloc, lines)?;
    again_at(alloc, line, variables.as_slice())
}

/// The first base of this line whose name the program has. The error is want of memory.
#[tactic(auto, using(crate::proofs::Among::taken_names))]
fn taken_base(
    alloc: Global,
    line: u32,
    tree: &Tree,
    procs: &Procs<'_>,
    bodies: &[BodyNames],
) -> Result<Option<Text>, AllocError>
    requires procs { procs.now ≡ tree.now.procs }
    requires bodies { bodies.now ≡ all_names tree.now }
    ensures { IfOk result (λ x. x ≡ first_at (is_taken tree.now) line (map declared_entry (rules.declared_bases tree.now.modes))) }
{
    let bases = declared_bases(alloc, tree.modes.as_slice())?;
    let others = variable_names(alloc, tree.vars.as_slice(), bodies)?;
    taken_at(line, procs, &others, bases.as_slice())
}

/// The first declared variable of this line that is none of the main program. The error is want of memory.
#[tactic(auto, using(crate::proofs::Among::undeclarable_names))]
fn undeclarable_variable(
    alloc: Global,
    line: u32,
    tree: &Tree,
    procs: &Procs<'_>,
    bodies: &[BodyNames],
) -> Result<Option<Text>, AllocError>
    requires procs { procs.now ≡ tree.now.procs }
    requires bodies { bodies.now ≡ all_names tree.now }
    ensures { IfOk result (λ x. x ≡ first_at (spec.is_undeclarable tree.now) line (map declared_entry (rules.declared_variables tree.now.modes))) }
{
    let variables = declared_variables(alloc, tree.modes.as_slice())?;
    let main = variable_names(alloc, tree.vars.as_slice(), &bodies[..1])?;
    undeclarable_at(line, procs, &main, variables.as_slice())
}

/// The name by which a rule of 19 to 28 is broken, by the tree's procedures. The error is want of memory.
fn breaking_name_by(
    alloc: Global,
    tree: &Tree,
    procs: &Procs<'_>,
    bodies: &[BodyNames],
    found: Break,
) -> Result<Option<Text>, AllocError>
    requires procs { procs.now ≡ tree.now.procs }
    requires bodies { bodies.now ≡ all_names tree.now }
    ensures { IfOk result (λ x. x ≡ spec.breaking_name tree.now found) }
{
    if found.rule == 19 {
        return base_again(alloc, found.line, tree.modes.as_slice());
    }
    if found.rule == 20 {
        return taken_base(alloc, found.line, tree, procs, bodies);
    }
    if found.rule == 21 {
        return unknown_base(alloc, found.line, tree.modes.as_slice());
    }
    if found.rule == 23 {
        return variable_again(alloc, found.line, tree.modes.as_slice());
    }
    if found.rule == 24 {
        return undeclarable_variable(alloc, found.line, tree, procs, bodies);
    }
    Ok(None)
}

/// The name by which a rule of 19 to 28 is broken on a line, where it is by a name: that of the first thing on this line that
/// breaks it there. The rules on modes alone are broken by no name. The bodies' names are those of the tree. The error is
/// want of memory.
pub fn breaking_name(
    alloc: Global,
    tree: &Tree,
    bodies: &[BodyNames],
    found: Break,
) -> Result<Option<Text>, AllocError>
    requires { bodies.now ≡ all_names tree.now }
    ensures { IfOk result (λ x. x ≡ spec.breaking_name tree.now found) }
{
    let procs = Procs::new(alloc, tree.procs.as_slice())?;
    breaking_name_by(alloc, tree, &procs, bodies, found)
}
