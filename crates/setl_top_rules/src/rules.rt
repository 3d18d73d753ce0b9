//! The rules of a program.
ghost use Rattle.std.specs.Prelude.{◌≡◌, None, IfOk};
ghost use Rattle.setl_names.specs.Breaks.{first_break};
ghost use Rattle.setl_names.specs.Resolves.{all_names};
ghost use Rattle.setl_modes_declarations.specs.Declares as declarations;
ghost use Rattle.setl_top_rules.specs.Rules.{AreModes, KeepsRules, breaking_name, earlier_of};

use setl_modes::NamedMode;
use setl_modes_declarations::modes;
use setl_names::{BodyNames, Break, RuleFault, noted};
use setl_names_walk::resolve_all;
use setl_tree::{Items, Text, Tree};
use std::alloc::{AllocError, Global};

/// The first break of the rules of declarations, if there is one, and otherwise the declared variables of a program with
/// their modes. The bodies' names are those of the tree. The error is want of memory.
fn first_of_declarations(
    alloc: Global,
    tree: &Tree,
    bodies: &[BodyNames],
) -> Result<(Option<Break>, Items<NamedMode>), AllocError>
    requires { bodies.now ≡ all_names tree.now }
    ensures first { IfOk result (λ found. found.0 ≡ first_break (declarations.breaks tree.now)) }
    ensures modes { IfOk result (λ found. found.0 ≡ None → AreModes tree.now found.1) }
{
    match modes(alloc, tree, bodies) {
        Ok(table) => Ok((None, table.vars)),
        Err(RuleFault::Broken { rule, line }) => {
            Ok((Some(Break { line, rule }), Items::new(alloc)))
        }
        Err(RuleFault::NoMemory) => Err(AllocError),
    }
}

/// The earlier of two breaks that may not be there.
fn earlier_of(first: Option<Break>, second: Option<Break>) -> Option<Break>
    ensures { result ≡ earlier_of first second }
{
    match second {
        None => first,
        Some(found) => noted(first, found.line, found.rule),
    }
}

/// The declared variables of a program that keeps the rules, with their modes. A break is the first by line, and then by
/// rule, of the rules of names and of those of declarations.
pub fn sound(alloc: Global, tree: &Tree) -> Result<Items<NamedMode>, RuleFault>
    ensures { KeepsRules tree.now result }
{
    let resolved = resolve_all(alloc, tree)?;
    let (second, modes) = first_of_declarations(alloc, tree, resolved.names.as_slice())?;
    match earlier_of(resolved.first, second) {
        None => Ok(modes),
        Some(found) => Err(RuleFault::Broken {
            rule: found.rule,
            line: found.line,
        }),
    }
}

/// The name by which a rule is broken on a line, where it is by a name: that of the first thing on this line that breaks it
/// there. The error is want of memory.
pub fn breaking_name(alloc: Global, tree: &Tree, found: Break) -> Result<Option<Text>, AllocError>
    ensures { IfOk result (λ x. x ≡ breaking_name tree.now found) }
{
    if found.rule < 19 {
        return setl_names_walk::breaking_name(alloc, tree, found);
    }
    let resolved = resolve_all(alloc, tree)?;
    setl_modes_declarations::breaking_name(alloc, tree, resolved.names.as_slice(), found)
}
