//! Programs whose declarations are advised ones.

ghost use Rattle.std.specs.Prelude.{◌≡◌, true, map, IfOk};
ghost use Rattle.setl_program.specs.Formed.{Formed};
ghost use Rattle.setl_program.specs.code.Plain.{plain_declared, plain_program};
ghost use Rattle.setl_advise_section.specs.code.Numbers.{bases_of};
ghost use Rattle.setl_advise_terms.specs.code.Plain.{flows_of};
ghost use Rattle.setl_advise_checked.specs.Checked.{AreAdvised, RunsFit};

use crate::based::is_advised;
use setl_advise_flows::values_stay_in_their_flows;
use setl_advise_gathering::{Target, name_of};
use setl_advise_lattice::Kind;
use setl_advise_section::{Numbers, Variable, is_used};
use setl_advise_solving::{Table, solved};
use setl_program::{Declared, Program};
use std::alloc::{AllocError, Global};

/// The flows of declared variables. The error is want of memory.
fn flows<'p>(
    alloc: Global,
    declared: &'p [Declared],
    table: &Table<'p>,
) -> Result<Vec<Variable<'p>>, AllocError> {
    let mut all = Vec::new(alloc);
    for d in declared {
        let flow = table.get(Target::Into(name_of(&d.variable)));
        all.push(Variable { name: b"", flow })?;
    }
    Ok(all)
}

/// The numbers of bases that are declared in the order integers, strings, atoms, where they are used.
fn numbers(variables: &[Variable<'_>]) -> Numbers {
    let letters = u64::from(is_used(Kind::Whole, variables));
    Numbers {
        whole: 0,
        letters,
        token: letters + u64::from(is_used(Kind::Letters, variables)),
    }
}

/// Whether all declared variables have the modes that are advised for their flows.
fn are_advised<'p>(declared: &'p [Declared], table: &Table<'p>, numbers: Numbers) -> bool
    ensures { result ≡ true → AreAdvised (bases_of numbers) (flows_of table.now) (map plain_declared declared.now) }
{
    for d in declared {
        if !is_advised(
            table.get(Target::Into(name_of(&d.variable))),
            numbers,
            &d.mode,
        ) {
            return false;
        }
    }
    true
}

/// Whether the declared variables of a program have the modes that are advised for its least flows, over bases of the
/// integers, the strings and the atoms in this order. Where they have, no run of the program ends for a value that doesn't
/// fit, whatever its input and its bound on turns. The error is want of memory.
pub fn has_advised_modes(alloc: Global, program: &Program) -> Result<bool, AllocError>
    ensures { IfOk result (λ so. so ≡ true → Formed (plain_program program.now) → RunsFit (plain_program program.now)) }
{
    values_stay_in_their_flows();
    let table = solved(alloc, program)?;
    let declared = program.declared.as_slice();
    let variables = flows(alloc, declared, &table)?;
    Ok(are_advised(declared, &table, numbers(&variables)))
}
