//! Values, members and components against a mode.

ghost use Rattle.std.specs.Prelude.{◌≡◌, slice_get, None};
ghost use Rattle.std.specs.List.{list_all};
ghost use Rattle.std.specs.Option.{unwrap_or};
ghost use Rattle.setl_value.specs.code.Body.{Members};
ghost use Rattle.setl_value.specs.code.DatumOf.{datum};
ghost use Rattle.setl_value.specs.Order.{IsRising};
ghost use Rattle.setl_modes.specs.Fits.{datum_fits, part_fits};
ghost use Rattle.setl_modes.specs.Modes.{mode_of};
ghost use Rattle.setl_modes_fit.specs.Neighbours.{all_follow, member_fits, go_together};

use crate::neighbours::follows;
use setl_map::parts;
use setl_modes::Mode;
use setl_value::{SetBody, TupleBody, Value};

/// Whether a value fits a mode.
#[cycle(fitting)]
pub(crate) fn value_fits(mode: &Mode, v: &Value) -> bool
    ensures { result ≡ datum_fits (mode_of mode.now) (datum v.now) }
{
    match (mode, v) {
        (Mode::General, _) => true,
        (Mode::Int, Value::Int(_)) => true,
        (Mode::Str, Value::Text(_)) => true,
        (Mode::Boolean, Value::Bool(_)) => true,
        (Mode::Atom, Value::Atom(_)) => true,
        (Mode::Elmt(_, m), _) => value_fits(m.get(), v),
        (Mode::Tuple(m), Value::Tuple(t)) => parts_fit(m.get(), t),
        (Mode::Set(_, _), Value::Set(s)) => members_fit(mode, s),
        (Mode::Smap(_, _, _), Value::Set(s)) => members_fit(mode, s),
        (Mode::Mmap(_, _, _), Value::Set(s)) => members_fit(mode, s),
        _ => false,
    }
}

// Whether each component of a tuple is `om` or fits the mode.
#[cycle(fitting)]
#[tactic(auto, using(crate::proofs::Components::all_from))]
fn parts_fit(mode: &Mode, t: &TupleBody) -> bool
    ensures { result ≡ list_all (part_fits (datum_fits (mode_of mode.now))) t.now }
{
    for i in 0..t.len() {
        if !part_fits(mode, t, i) {
            return false;
        }
    }
    true
}

// Whether the i-th component is `om` or fits the mode.
#[cycle(fitting)]
fn part_fits(mode: &Mode, t: &TupleBody, i: usize) -> bool
    ensures { result ≡ part_fits (datum_fits (mode_of mode.now)) (unwrap_or (slice_get t.now i) None) }
{
    match t.at(i) {
        None => true,
        Some(v) => value_fits(mode, v),
    }
}

// Whether each member fits by itself in a set of this mode, and fits together with the one before it.
#[cycle(fitting)]
fn members_fit(mode: &Mode, s: &SetBody) -> bool
    ensures rising { IsRising (Members s.now) }
    ensures walked { result ≡ all_follow (member_fits (mode_of mode.now)) (go_together (mode_of mode.now)) None (Members s.now) }
{
    s.learn();
    let mut before: Option<&Value> = None;
    for v in s.members() {
        if !member_fits(mode, v) || !follows(mode, before, v) {
            return false;
        }
        before = Some(v);
    }
    true
}

// Whether a member fits by itself in a set of this mode: in a map it is a pair, and its parts fit.
#[cycle(fitting)]
fn member_fits(mode: &Mode, v: &Value) -> bool
    ensures { result ≡ member_fits (mode_of mode.now) (datum v.now) }
{
    match mode {
        Mode::General => true,
        Mode::Elmt(_, m) => member_fits(m.get(), v),
        Mode::Set(_, m) => value_fits(m.get(), v),
        Mode::Smap(_, d, r) => match parts(v) {
            None => false,
            Some((x, y)) => value_fits(d.get(), x) && value_fits(r.get(), y),
        },
        Mode::Mmap(_, d, s) => match parts(v) {
            None => false,
            Some((x, y)) => value_fits(d.get(), x) && member_fits(s.get(), y),
        },
        _ => false,
    }
}
