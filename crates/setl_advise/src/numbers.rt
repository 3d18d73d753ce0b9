//! The names of the bases.

ghost use Rattle.std.specs.Prelude.{◌≡◌, IfOk};
ghost use Rattle.setl_advise_lattice.specs.code.Levels.{kind_of};
ghost use Rattle.setl_advise_names.specs.Free.{IsFirstFree};
ghost use Rattle.setl_advise_section.specs.Section.{is_used};
ghost use Rattle.setl_advise_section.specs.code.Numbers.{plain_variables};
ghost use Rattle.setl_advise.specs.Advice.{AreFirstFree, behind};

use setl_advise_lattice::Kind;
use setl_advise_names::first_free;
use setl_advise_section::{Numbers, Variable, is_used};
use setl_names::Names;
use std::alloc::{AllocError, Global};

/// The number of the next base, behind the base of a kind. The error is want of memory.
fn next(
    alloc: Global,
    names: &Names,
    variables: &[Variable<'_>],
    k: Kind,
    number: u64,
) -> Result<u64, AllocError>
    ensures { IfOk result (IsFirstFree names.now (behind (is_used (kind_of k) (plain_variables variables.now)) number)) }
{
    if is_used(k, variables) {
        let from = number.checked_add(1).ok_or(AllocError)?;
        first_free(alloc, names, from)
    } else {
        first_free(alloc, names, number)
    }
}

/// The numbers of the bases, so that each base that is used has the next name that isn't among these names. The error is
/// want of memory.
pub fn numbers(
    alloc: Global,
    names: &Names,
    variables: &[Variable<'_>],
) -> Result<Numbers, AllocError>
    ensures { IfOk result (λ n. AreFirstFree names.now n (plain_variables variables.now)) }
{
    let whole = first_free(alloc, names, 1)?;
    let letters = next(alloc, names, variables, Kind::Whole, whole)?;
    let token = next(alloc, names, variables, Kind::Letters, letters)?;
    Ok(Numbers {
        whole,
        letters,
        token,
    })
}
