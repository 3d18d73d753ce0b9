//! Rules 19, 20, 23 and 24: the names that a section declares.

ghost use Rattle.std.specs.Prelude.{◌≡◌, fold, IfOk};
ghost use Rattle.setl_names.specs.Breaks.{earlier, tagged, first_break};
ghost use Rattle.setl_names.specs.Resolves.{all_names};
ghost use Rattle.setl_modes_declarations.specs.Declares.{name_breaks};
ghost use Rattle.setl_modes_declarations.specs.Rules as rules;
ghost use Rattle.setl_modes_declarations.specs.Rules.{lines_of_names};
ghost use Rattle.setl_modes_declarations.specs.code.Taken.{is_among, is_none_of};

use crate::listed::{Listed, declared_bases, declared_variables};
use crate::taken::variable_names;
use setl_names::{BodyNames, Break, Names, Procs, noted, noted_again};
use setl_tree::{Items, Tree};
use std::alloc::{AllocError, Global};

/// The first break so far and of the rule that no base has a name that the program has.
fn taken(
    first: Option<Break>,
    procs: &Procs<'_>,
    others: &Names,
    bases: &[Listed<'_>],
) -> Option<Break>
    ensures { result ≡ fold earlier first (tagged 20 (lines_of_names (is_among procs.now others.now) bases.now)) }
{
    let mut first = first;
    for base in bases {
        let name = base.name();
        if procs.has(name.bytes()) || others.has(name.bytes()) {
            first = noted(first, base.line(), 20);
        }
    }
    first
}

/// The first break so far and of the rule that a declared variable is one of the main program.
fn undeclarable(
    first: Option<Break>,
    procs: &Procs<'_>,
    main: &Names,
    variables: &[Listed<'_>],
) -> Option<Break>
    ensures { result ≡ fold earlier first (tagged 24 (lines_of_names (is_none_of procs.now main.now) variables.now)) }
{
    let mut first = first;
    for variable in variables {
        let name = variable.name();
        if !(main.has(name.bytes()) && !procs.has(name.bytes())) {
            first = noted(first, variable.line(), 24);
        }
    }
    first
}

/// The first break so far and of the rules on the names of bases. An error is want of memory.
#[tactic(auto, using(crate::proofs::Among::taken_alike))]
fn base_breaks(
    alloc: Global,
    first: Option<Break>,
    tree: &Tree,
    procs: &Procs<'_>,
    bodies: &[BodyNames],
) -> Result<Option<Break>, AllocError>
    requires procs { procs.now ≡ tree.now.procs }
    requires bodies { bodies.now ≡ all_names tree.now }
    ensures { IfOk result (λ f. f ≡ fold earlier (fold earlier first (tagged 19 (rules.rule_19 tree.now))) (tagged 20 (rules.rule_20 tree.now))) }
{
    let bases = declared_bases(alloc, tree.modes.as_slice())?;
    let first = noted_again(alloc, first, 19, bases.as_slice())?;
    let others = variable_names(alloc, tree.vars.as_slice(), bodies)?;
    Ok(taken(first, procs, &others, bases.as_slice()))
}

/// The first break so far and of the rules on the names of declared variables. An error is want of memory.
#[tactic(auto, using(crate::proofs::Among::declarable_alike))]
fn variable_breaks(
    alloc: Global,
    first: Option<Break>,
    tree: &Tree,
    procs: &Procs<'_>,
    bodies: &[BodyNames],
) -> Result<Option<Break>, AllocError>
    requires procs { procs.now ≡ tree.now.procs }
    requires bodies { bodies.now ≡ all_names tree.now }
    ensures { IfOk result (λ f. f ≡ fold earlier (fold earlier first (tagged 23 (rules.rule_23 tree.now))) (tagged 24 (rules.rule_24 tree.now))) }
{
    let variables = declared_variables(alloc, tree.modes.as_slice())?;
    let first = noted_again(alloc, first, 23, variables.as_slice())?;
    let main = variable_names(alloc, tree.vars.as_slice(), &bodies[..1])?;
    Ok(undeclarable(first, procs, &main, variables.as_slice()))
}

/// The first break of the rules on declared names, by the tree's procedures and the bodies' names. An error is want of
/// memory.
fn name_break_by(
    alloc: Global,
    tree: &Tree,
    procs: &Procs<'_>,
    bodies: &[BodyNames],
) -> Result<Option<Break>, AllocError>
    requires procs { procs.now ≡ tree.now.procs }
    requires bodies { bodies.now ≡ all_names tree.now }
    ensures { IfOk result (λ f. f ≡ first_break (name_breaks tree.now)) }
{
    let first = base_breaks(alloc, None, tree, procs, bodies)?;
    variable_breaks(alloc, first, tree, procs, bodies)
}

/// The first break of the rules on declared names. The bodies' names are those of the tree. An error is want of memory.
pub fn name_break(
    alloc: Global,
    tree: &Tree,
    bodies: &[BodyNames],
) -> Result<Option<Break>, AllocError>
    requires { bodies.now ≡ all_names tree.now }
    ensures { IfOk result (λ f. f ≡ first_break (name_breaks tree.now)) }
{
    let procs = Procs::new(alloc, tree.procs.as_slice())?;
    name_break_by(alloc, tree, &procs, bodies)
}
