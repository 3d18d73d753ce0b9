//! The names that a program has beside its section.

ghost use Rattle.std.specs.Prelude.{◌≡◌, ◌∷◌, [], OnOk, IfOk};
ghost use Rattle.setl_names.specs.Names.{with_names};
ghost use Rattle.setl_modes_declarations.specs.code.Taken as spec;

use setl_names::{BodyNames, Names};
use setl_tree::{Declared, Text};
use std::alloc::{AllocError, Global};

/// Puts slots among names. An error is want of memory.
fn put_slots(names: &mut Names, slots: &[Text]) -> Result<(), AllocError>
    ensures { OnOk result (names.new ≡ with_names names.old slots.now) }
{
    for slot in slots {
        names.put(slot.bytes())?;
    }
    Ok(())
}

/// Puts the parameters and the slots of a body among names. An error is want of memory.
#[tactic(auto, using(crate::proofs::NameLists::with_names_append))]
fn put_body(names: &mut Names, body: &BodyNames) -> Result<(), AllocError>
    ensures { OnOk result (names.new ≡ with_names names.old (spec.names_of_body body.now)) }
{
    names.put_declared(body.params.as_slice())?;
    put_slots(names, body.slots.as_slice())
}

/// The names in `var` and those of some bodies. An error is want of memory.
pub fn variable_names(
    alloc: Global,
    vars: &[Declared],
    bodies: &[BodyNames],
) -> Result<Names, AllocError>
    ensures { IfOk result (λ names. names ≡ spec.variable_names vars.now bodies.now) }
{
    let mut names = Names::declared(alloc, vars)?;
    for body in bodies {
        put_body(&mut names, body)?;
    }
    Ok(names)
}
