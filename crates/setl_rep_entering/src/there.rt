//! Whether the bases of a mode are there.

ghost use Rattle.std.specs.Prelude.{◌≡◌, ◌↔◌, true};
ghost use Rattle.setl_modes.specs.Modes.{mode_of};
ghost use Rattle.setl_rep_entering.specs.Entering.{BasesAreThere};

use setl_modes::Mode;
use setl_rep_bases::Bases;

/// Whether each base that a mode names has its instance in an activation. It takes no memory.
pub fn bases_are_there(mode: &Mode, instance: u64, bases: &Bases) -> bool
    ensures { (result ≡ true) ↔ BasesAreThere bases.now instance (mode_of mode.now) }
{
    match mode {
        Mode::Elmt(b, _) => bases.has(bases.named(instance, *b)),
        Mode::Set(_, m) | Mode::Tuple(m) => bases_are_there(m.get(), instance, bases),
        Mode::Smap(_, d, r) | Mode::Mmap(_, d, r) => {
            bases_are_there(d.get(), instance, bases) && bases_are_there(r.get(), instance, bases)
        }
        _ => true,
    }
}
