//! The modes of the parts that selectors select.

ghost use Rattle.std.specs.Prelude.{◌≡◌};
ghost use Rattle.std.specs.Option.{option_map};
ghost use Rattle.setl_value.specs.code.DatumOf.{part};
ghost use Rattle.setl_modes.specs.Modes.{mode_of};
ghost use Rattle.setl_modes_parts.specs.Parts.{member_mode, takes_sets, value_mode, images_mode};

use setl_modes::Mode;
use setl_modes_fit::fits;
use setl_value::Value;

/// The mode of `whole(x)` where the whole fits a mode, by its selector: a new part that fits it keeps that the whole fits.
///
/// In a tuple it is the mode of the components. In a map it is the mode of the images where x fits the mode of the points.
/// None where the part alone doesn't tell. It takes no memory, and costs the test of x.
pub fn value_mode<'m>(mode: &'m Mode, x: &Option<Value>) -> Option<&'m Mode>
    ensures { option_map (λ m. mode_of m.now) result ≡ value_mode (mode_of mode.now) (part x.now) }
{
    match mode {
        Mode::General => Some(mode),
        Mode::Elmt(_, m) => value_mode(m.get(), x),
        Mode::Tuple(m) => Some(m.get()),
        Mode::Smap(_, d, r) => {
            if fits(d.get(), x) {
                Some(r.get())
            } else {
                None
            }
        }
        Mode::Mmap(_, d, s) => {
            if fits(d.get(), x) {
                member_mode(s.get())
            } else {
                None
            }
        }
        _ => None,
    }
}

/// The same of `whole{x}`: in a map of sets of images it is the mode of these where x fits the mode of the points.
pub fn images_mode<'m>(mode: &'m Mode, x: &Option<Value>) -> Option<&'m Mode>
    ensures { option_map (λ m. mode_of m.now) result ≡ images_mode (mode_of mode.now) (part x.now) }
{
    match mode {
        Mode::General => Some(mode),
        Mode::Elmt(_, m) => images_mode(m.get(), x),
        Mode::Mmap(_, d, s) => {
            if takes_sets(s.get()) && fits(d.get(), x) {
                Some(s.get())
            } else {
                None
            }
        }
        _ => None,
    }
}

// The mode of the members of sets of this mode, where these are tested one by one.
fn member_mode(mode: &Mode) -> Option<&Mode>
    ensures { option_map (λ m. mode_of m.now) result ≡ member_mode (mode_of mode.now) }
{
    match mode {
        Mode::General => Some(mode),
        Mode::Elmt(_, m) => member_mode(m.get()),
        Mode::Set(_, m) => Some(m.get()),
        _ => None,
    }
}

// Whether the mode takes sets.
fn takes_sets(mode: &Mode) -> bool
    ensures { result ≡ takes_sets (mode_of mode.now) }
{
    match mode {
        Mode::General => true,
        Mode::Elmt(_, m) => takes_sets(m.get()),
        Mode::Set(_, _) => true,
        Mode::Smap(_, _, _) => true,
        Mode::Mmap(_, _, _) => true,
        _ => false,
    }
}
