//! Modes, and sections of bases and declared variables.

ghost use Rattle.std.specs.Prelude.{◌≡◌, []};
ghost use Rattle.std.specs.List.{list_all};
ghost use Rattle.setl_modes.specs.Modes.{mode_of};
ghost use Rattle.setl_image_modes.specs.SoundModes.{modes_of};
ghost use Rattle.setl_image_spelled.specs.Spelled.{mode_fits, named_fits, section_fits};

use crate::names::name_fits;
use crate::numbers::{is_length, is_number};
use setl_image_modes::is_of_base;
use setl_modes::{Mode, ModeTable, NamedMode};

// How many of the modes `set`, `tuple`, `smap` and `mmap` may stand inside each other.
const DEEPEST: u32 = 200;

/// Whether bases and declared variables have a spelling.
pub(crate) fn section_fits(table: &ModeTable) -> bool
    ensures { result ≡ section_fits table.now }
{
    let bases = table.bases.as_slice();
    let vars = table.vars.as_slice();
    is_length(bases.len())
        && all_named(&[], bases)
        && is_length(vars.len())
        && all_named(bases, vars)
}

// Whether each of these names with modes, which may name these bases, has a spelling.
fn all_named(bases: &[NamedMode], named: &[NamedMode]) -> bool
    ensures { result ≡ list_all (named_fits (modes_of bases.now)) named.now }
{
    for one in named {
        if !named_fits(bases, one) {
            return false;
        }
    }
    true
}

// Whether a name with a mode has a spelling.
fn named_fits(bases: &[NamedMode], named: &NamedMode) -> bool
    ensures { result ≡ named_fits (modes_of bases.now) named.now }
{
    name_fits(&named.name) && mode_fits(DEEPEST, bases, &named.mode)
}

// Whether a mode has a spelling where so many modes may still stand inside each other.
fn mode_fits(left: u32, bases: &[NamedMode], mode: &Mode) -> bool
    ensures { result ≡ mode_fits left (modes_of bases.now) (mode_of mode.now) }
{
    match mode {
        Mode::Elmt(k, m) => is_of_base(bases, *k, m.get()) && is_number(*k),
        Mode::Set(_, m) | Mode::Tuple(m) => left > 0 && mode_fits(left - 1, bases, m.get()),
        Mode::Smap(_, d, r) | Mode::Mmap(_, d, r) => {
            left > 0 && mode_fits(left - 1, bases, d.get()) && mode_fits(left - 1, bases, r.get())
        }
        _ => true,
    }
}
