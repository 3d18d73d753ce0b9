//! The rules of modes.

ghost use Rattle.std.specs.Prelude.{◌≡◌, ◌↔◌, ◌&&◌, ◌||◌, not, IsTrue, map};
ghost use Rattle.setl_modes.specs.Modes.{mode_of};
ghost use Rattle.setl_modes.specs.Modes as plain;
ghost use Rattle.setl_image_modes.specs.SoundModes.{SoundModes, BasesAreTold, named_of, is_element, is_set, has_element, form_fits, keeps_rules, names_bases, bases_fit, vars_fit, modes_of};

use setl_modes::{Form, Mode, ModeTable, NamedMode};
use setl_modes_same::same_mode;

/// Whether the modes of bases and declared variables keep the rules of a section.
///
/// A base's mode has no `elmt`. In a variable's mode each `elmt` has the number of a base and the mode of that base. A form
/// other than the plain one stands exactly before the sets and maps whose first mode is an `elmt`, and `local` only as the
/// first word. An `elmt` stands inside a set or map only where its first mode is one, and inside a tuple only as its whole
/// mode. The second mode of an `mmap` is a set.
#[tactic(auto, using(crate::proofs::Telling::sound_by))]
pub fn modes_are_sound(table: &ModeTable) -> bool
    ensures { IsTrue result ↔ SoundModes (map named_of table.now.bases) (map named_of table.now.vars) }
{
    let bases = bases_fit(table.bases.as_slice());
    let vars = vars_fit(table.bases.as_slice(), table.vars.as_slice());
    bases && vars
}

// Whether bases have modes that they may have.
fn bases_fit(bases: &[NamedMode]) -> bool
    ensures { result ≡ bases_fit bases.now }
{
    for base in bases {
        let found = look(false, &base.mode);
        if found.element || !found.keeps {
            return false;
        }
    }
    true
}

// Whether variables have modes that they may have, over these bases.
fn vars_fit(bases: &[NamedMode], vars: &[NamedMode]) -> bool
    ensures { result ≡ vars_fit (modes_of bases.now) vars.now }
{
    for variable in vars {
        if !names_bases(bases, &variable.mode) || !look(true, &variable.mode).keeps {
            return false;
        }
    }
    true
}

// Whether each `elmt` in a mode names a base and has its mode.
fn names_bases(bases: &[NamedMode], mode: &Mode) -> bool
    ensures { result ≡ names_bases (modes_of bases.now) (mode_of mode.now) }
{
    match mode {
        Mode::Elmt(k, m) => is_of_base(bases, *k, m.get()),
        Mode::Set(_, m) => names_bases(bases, m.get()),
        Mode::Tuple(m) => names_bases(bases, m.get()),
        Mode::Smap(_, d, r) => names_bases(bases, d.get()) && names_bases(bases, r.get()),
        Mode::Mmap(_, d, s) => names_bases(bases, d.get()) && names_bases(bases, s.get()),
        _ => true,
    }
}

/// Whether the base of this number, counted from 0, is there and has this mode.
pub fn is_of_base(bases: &[NamedMode], k: u32, mode: &Mode) -> bool
    ensures { result ≡ names_bases (modes_of bases.now) (plain.Elements k (mode_of mode.now)) }
{
    match bases.get(k as usize) {
        None => false,
        Some(base) => same_mode(&base.mode, mode),
    }
}

/// The test of one base in definitions tells whether it is there and has a mode.
pub fn bases_are_told()
    ensures { BasesAreTold }
{}

// What is seen of a mode: whether an `elmt` stands in it, and whether it keeps the rules.
#[derive(Clone, Copy)]
struct Seen {
    element: bool,
    keeps: bool,
}

// What is seen of a mode; `whole` tells that it is the whole mode of a variable.
fn look(whole: bool, mode: &Mode) -> Seen
    ensures element { result.element ≡ has_element (mode_of mode.now) }
    ensures keeps { result.keeps ≡ keeps_rules whole (mode_of mode.now) }
{
    match mode {
        Mode::Elmt(_, _) => Seen {
            element: true,
            keeps: true,
        },
        Mode::Set(form, m) => {
            let inner = look(false, m.get());
            set_seen(whole, *form, is_element(m.get()), inner)
        }
        Mode::Tuple(m) => {
            let inner = look(false, m.get());
            tuple_seen(is_element(m.get()), inner)
        }
        Mode::Smap(form, d, r) => {
            let first = look(false, d.get());
            let second = look(false, r.get());
            map_seen(whole, *form, is_element(d.get()), first, second)
        }
        Mode::Mmap(form, d, s) => {
            let first = look(false, d.get());
            let second = look(false, s.get());
            images_seen(
                whole,
                *form,
                is_element(d.get()),
                first,
                is_set(s.get()),
                second,
            )
        }
        _ => Seen {
            element: false,
            keeps: true,
        },
    }
}

// What is seen of a set, by what is seen of the mode of its members.
fn set_seen(whole: bool, form: Form, based: bool, inner: Seen) -> Seen
    ensures element { result.element ≡ inner.element }
    ensures keeps { result.keeps ≡ (form_fits whole based form && (based || not inner.element) && inner.keeps) }
{
    Seen {
        element: inner.element,
        keeps: form_fits(whole, based, form) && (based || !inner.element) && inner.keeps,
    }
}

// What is seen of a tuple.
fn tuple_seen(based: bool, inner: Seen) -> Seen
    ensures element { result.element ≡ inner.element }
    ensures keeps { result.keeps ≡ ((based || not inner.element) && inner.keeps) }
{
    Seen {
        element: inner.element,
        keeps: (based || !inner.element) && inner.keeps,
    }
}

// What is seen of an `smap`.
fn map_seen(whole: bool, form: Form, based: bool, first: Seen, second: Seen) -> Seen
    ensures element { result.element ≡ (first.element || second.element) }
    ensures keeps { result.keeps ≡ (form_fits whole based form && (based || not (first.element || second.element)) && first.keeps && second.keeps) }
{
    let element = first.element || second.element;
    let fits = form_fits(whole, based, form) && (based || !element);
    Seen {
        element,
        keeps: fits && first.keeps && second.keeps,
    }
}

// What is seen of an `mmap`, whose second mode is a set or isn't.
fn images_seen(whole: bool, form: Form, based: bool, first: Seen, set: bool, second: Seen) -> Seen
    ensures element { result.element ≡ (first.element || second.element) }
    ensures keeps { result.keeps ≡ (form_fits whole based form && (based || not (first.element || second.element)) && set && first.keeps && second.keeps) }
{
    let element = first.element || second.element;
    let fits = form_fits(whole, based, form) && (based || !element);
    Seen {
        element,
        keeps: fits && set && first.keeps && second.keeps,
    }
}

fn is_element(mode: &Mode) -> bool
    ensures { result ≡ is_element (mode_of mode.now) }
{
    matches!(mode, Mode::Elmt(_, _))
}

fn is_set(mode: &Mode) -> bool
    ensures { result ≡ is_set (mode_of mode.now) }
{
    matches!(mode, Mode::Set(_, _))
}

// Whether a set or map may have a form.
fn form_fits(whole: bool, based: bool, form: Form) -> bool
    ensures { result ≡ form_fits whole based form }
{
    match form {
        Form::Plain => !based,
        Form::Local => whole && based,
        Form::Remote | Form::Sparse => based,
    }
}
