//! Names with their modes.

ghost use Rattle.std.specs.Prelude.{◌≡◌, ◌∷◌, ◌++◌, [], OnOk};
ghost use Rattle.setl_modes.specs.Modes.{mode_of};
ghost use Rattle.setl_modes.specs.Declarations.{all_with};
ghost use Rattle.setl_modes_declarations.specs.Declares.{named_modes};

use setl_modes::{Mode, NamedMode, copied};
use setl_tree::{Declared, Items, Text};
use std::alloc::{AllocError, Global};

/// Puts one more name with this mode at the end. An error is want of memory.
pub fn put_mode(
    alloc: Global,
    all: &mut Items<NamedMode>,
    name: &Text,
    mode: &Mode,
) -> Result<(), AllocError>
    ensures { OnOk result (named_modes all.new ≡ named_modes all.old ++ (name.now, mode_of mode.now) ∷ []) }
{
    let name = name.copy()?;
    let mode = copied(alloc, mode)?;
    all.push(NamedMode { name, mode })
}

/// Puts names with one mode at the end. An error is want of memory.
pub fn put_modes(
    alloc: Global,
    all: &mut Items<NamedMode>,
    names: &[Declared],
    mode: &Mode,
) -> Result<(), AllocError>
    ensures { OnOk result (named_modes all.new ≡ named_modes all.old ++ all_with (mode_of mode.now) names.now) }
{
    for name in names {
        put_mode(alloc, all, &name.name, mode)?;
    }
    Ok(())
}
