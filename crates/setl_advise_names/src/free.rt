//! Names of bases that are free.

ghost use Rattle.std.specs.Prelude.{◌≡◌, IfOk};
ghost use Rattle.setl_advise_names.specs.Free.{IsFirstFree};
ghost use Rattle.setl_advise_section.specs.Text.{base_name};

use setl_advise_section::push_name;
use setl_names::Names;
use std::alloc::{AllocError, Global};

/// The name of the base with a number. The error is want of memory.
fn name(alloc: Global, number: u64) -> Result<Vec<u8>, AllocError>
    ensures { IfOk result (λ name. name.items ≡ base_name number) }
{
    let mut name = Vec::new(alloc);
    push_name(number, &mut name)?;
    Ok(name)
}

/// The first number from `from` on whose base has a name that isn't among these. The error is want of memory, or that there
/// is no such number below 2^64.
pub fn first_free(alloc: Global, names: &Names, from: u64) -> Result<u64, AllocError>
    ensures { IfOk result (IsFirstFree names.now from) }
{
    let mut number = from;
    'numbers: loop {
        let name = name(alloc, number)?;
        if !names.has(&name) {
            return Ok(number);
        }
        number = number.checked_add(1).ok_or(AllocError)?;
    }
}
