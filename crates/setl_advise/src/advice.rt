//! Advice.

ghost use Rattle.std.specs.Prelude.{◌≡◌, [], IfOk};
ghost use Rattle.setl_program.specs.ProgramOf.{program_of};
ghost use Rattle.setl_program_laws.specs.Claims.{IsAccepted};
ghost use Rattle.setl_advise_solving.specs.Advised.{NeverUnfit};
ghost use Rattle.setl_advise.specs.Advice.{IsAdvice};

use crate::numbers::numbers;
use crate::variables::{main_variables, with_least_flows};
use setl_advise_section::section;
use setl_names::Names;
use setl_program_elaborate::elaborate;
use setl_tree::{Items, Tree};
use std::alloc::{AllocError, Global};

/// The text of the `repr` section that is advised for a program that has none. It declares the variables of the main program
/// by the least flows that meet the program's conditions, over bases whose names aren't among these names; and where the
/// declared variables have the modes of these flows, no run of the program ends for a value that doesn't fit.
///
/// The error is want of memory, or that all names of bases are taken up to that of number 2^64 - 1.
pub fn advise(alloc: Global, names: &Names, tree: &Tree) -> Result<Vec<u8>, AllocError>
    requires accepted { IsAccepted tree.now }
    requires bare { tree.now.modes ≡ [] }
    ensures advice { IfOk result (λ text. IsAdvice names.now tree.now text.items) }
    ensures fits { IfOk result (λ text. (a : IsAdvice names.now tree.now text.items) → NeverUnfit (program_of tree.now) a.flows) }
{
    setl_program_laws::accepted_is_formed();
    crate::laws::advice_always_fits();
    let program = elaborate(alloc, tree, Items::new(alloc))?;
    let variables = main_variables(alloc, tree)?;
    let declared = with_least_flows(alloc, &program, variables.as_slice())?;
    let numbers = numbers(alloc, names, &declared)?;
    section(alloc, &declared, numbers)
}
