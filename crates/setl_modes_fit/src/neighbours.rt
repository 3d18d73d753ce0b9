//! Neighbours in a set.

ghost use Rattle.std.specs.Prelude.{◌≡◌};
ghost use Rattle.std.specs.Option.{option_map};
ghost use Rattle.setl_value.specs.code.DatumOf.{datum, lent};
ghost use Rattle.setl_value.specs.Pairs.{pair_parts};
ghost use Rattle.setl_map.specs.code.Points.{pair_data};
ghost use Rattle.setl_modes.specs.Modes.{mode_of};
ghost use Rattle.setl_modes_fit.specs.Neighbours.{follows, go_together, images_at_one_point};

use setl_map::parts;
use setl_modes::Mode;
use setl_value::Value;

/// Whether a member fits together with the one before it, if there is one.
pub(crate) fn follows(mode: &Mode, before: Option<&Value>, v: &Value) -> bool
    ensures { result ≡ follows (go_together (mode_of mode.now)) (lent before.entry) (datum v.now) }
{
    match before {
        None => true,
        Some(a) => go_together(mode, a, v),
    }
}

// Whether two neighbours fit together in a set of this mode. In a map of single images their first parts differ. In a
// map of sets of images they differ, or else the two images fit together in such a set.
fn go_together(mode: &Mode, a: &Value, b: &Value) -> bool
    ensures { result ≡ go_together (mode_of mode.now) (datum a.now) (datum b.now) }
{
    match mode {
        Mode::Elmt(_, m) => go_together(m.get(), a, b),
        Mode::Smap(_, _, _) => images_at_one_point(a, b).is_none(),
        Mode::Mmap(_, _, s) => match images_at_one_point(a, b) {
            None => true,
            Some((y, z)) => go_together(s.get(), y, z),
        },
        _ => true,
    }
}

// The second parts of two pairs that have one first part, and None where the values aren't such pairs.
fn images_at_one_point<'a>(a: &'a Value, b: &'a Value) -> Option<(&'a Value, &'a Value)>
    ensures { option_map pair_data result ≡ images_at_one_point (pair_parts (datum a.now)) (pair_parts (datum b.now)) }
{
    let (x, y) = parts(a)?;
    let (z, w) = parts(b)?;
    if x.compare(z).is_eq() {
        Some((y, w))
    } else {
        None
    }
}
