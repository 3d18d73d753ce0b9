//! Copies of modes.

ghost use Rattle.std.specs.Prelude.{◌≡◌, IfOk};
ghost use Rattle.setl_modes.specs.Modes.{mode_of};

use crate::Mode;
use setl_tree::Boxed;
use std::alloc::{AllocError, Global};

/// The same mode again. The error is want of memory.
#[cycle(copies)]
pub fn copied(alloc: Global, m: &Mode) -> Result<Mode, AllocError>
    ensures { IfOk result (λ again. mode_of again ≡ mode_of m.now) }
{
    match m {
        Mode::General => Ok(Mode::General),
        Mode::Int => Ok(Mode::Int),
        Mode::Str => Ok(Mode::Str),
        Mode::Boolean => Ok(Mode::Boolean),
        Mode::Atom => Ok(Mode::Atom),
        Mode::Elmt(base, members) => Ok(Mode::Elmt(*base, copied_box(alloc, members.get())?)),
        Mode::Set(form, members) => Ok(Mode::Set(*form, copied_box(alloc, members.get())?)),
        Mode::Tuple(parts) => Ok(Mode::Tuple(copied_box(alloc, parts.get())?)),
        Mode::Smap(form, domain, range) => {
            let domain = copied_box(alloc, domain.get())?;
            Ok(Mode::Smap(*form, domain, copied_box(alloc, range.get())?))
        }
        Mode::Mmap(form, domain, images) => {
            let domain = copied_box(alloc, domain.get())?;
            Ok(Mode::Mmap(*form, domain, copied_box(alloc, images.get())?))
        }
    }
}

/// The same mode again in a box. The error is want of memory.
#[cycle(copies)]
pub fn copied_box(alloc: Global, m: &Mode) -> Result<Boxed<Mode>, AllocError>
    ensures { IfOk result (λ again. mode_of again ≡ mode_of m.now) }
{
    let again = copied(alloc, m)?;
    Boxed::new(alloc, again)
}
