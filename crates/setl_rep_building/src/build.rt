//! Values whose places are members of their bases go into the form of their mode.

ghost use Rattle.std.specs.Prelude.{◌≡◌, true, IfOk, OnOk, IsSome, Some};
ghost use Rattle.std.specs.Option.{option_map};
ghost use Rattle.setl_value.specs.Datum.{set_of, tuple_of};
ghost use Rattle.setl_value.specs.Pairs.{is_map, images};
ghost use Rattle.setl_value.specs.code.Body.{Members};
ghost use Rattle.setl_value.specs.code.DatumOf.{datum};
ghost use Rattle.setl_set.specs.Sets.{has_datum};
ghost use Rattle.setl_map.specs.Maps.{domain_of, image};
ghost use Rattle.setl_modes.specs.Fits.{datum_fits};
ghost use Rattle.setl_modes.specs.Modes.{mode_of, Sets, Tuples};
ghost use Rattle.setl_rep_bases.specs.Bases.{base_at, named, IsThere};
ghost use Rattle.setl_base.specs.Base.{find};
ghost use Rattle.setl_value.specs.Order.{IsRising};
ghost use Rattle.setl_rep_forms.specs.FormOf.{form};
ghost use Rattle.setl_rep_forms.specs.Stands.{stands, IsOver};
ghost use Rattle.setl_rep_building.specs.Contents.{layout, place, IsContentOf};
ghost use Rattle.setl_rep_building.specs.HasForm.{base_of, keeps_sets, place_of, table_of, HasForm, IsElementOf, IsMapMode};
ghost use Rattle.setl_rep_building.specs.Places.{HasBases, PlacesAreFound};

use crate::table::{Lying, Table};
use setl_map::{domain, image, images};
use setl_modes::{Form, Mode};
use setl_rep_based::{handle, handles, remote_set, sparse_set};
use setl_rep_bases::Bases;
use setl_rep_forms::Held;
use setl_value::{SetBody, TupleBody, Value};
use std::alloc::{AllocError, Global};
use std::rc::Rc;

/// A value in the form of its mode, in the activation with the number `instance`. An error is want of memory.
///
/// The value fits the mode, the mode's bases are there, and each value at a place of a base is a member of it. Its cost is
/// near linear in the size of the value.
#[cycle(building)]
pub fn in_form(
    alloc: Global,
    mode: &Mode,
    v: &Value,
    bases: &Bases,
    instance: u64,
) -> Result<Held, AllocError>
    requires fits { datum_fits (mode_of mode.now) (datum v.now) ≡ true }
    requires found { PlacesAreFound bases.now (named bases.now instance) (mode_of mode.now) (datum v.now) }
    requires there { HasBases bases.now (named bases.now instance) (mode_of mode.now) }
    ensures over { IfOk result (λ h. IsOver bases.now (form h)) }
    ensures stands { IfOk result (λ h. stands bases.now (form h) ≡ Some (datum v.now)) }
    ensures form { IfOk result (λ h. HasForm (named bases.now instance) (mode_of mode.now) (form h)) }
{
    match (mode, v) {
        (Mode::Elmt(b, _), _) => Ok(element(*b, v, bases, instance)),
        (Mode::Set(f, m), Value::Set(s)) => set_in_form(alloc, *f, m.get(), s, bases, instance),
        (Mode::Tuple(m), Value::Tuple(t)) => tuple_in_form(alloc, m.get(), t, bases, instance),
        (Mode::Smap(_, _, _), Value::Set(s)) => map_in_form(alloc, mode, s, bases, instance),
        (Mode::Mmap(_, _, _), Value::Set(s)) => map_in_form(alloc, mode, s, bases, instance),
        _ => Ok(Held::Plain(v.copy()?)),
    }
}

// The base on which values of a mode are elements.
fn base_of(mode: &Mode) -> Option<u32>
    ensures { result ≡ base_of (mode_of mode.now) }
{
    match mode {
        Mode::Elmt(b, _) => Some(*b),
        _ => None,
    }
}

// Where the numbers of a set of members of this mode lie, or those of a map with this domain.
fn place_of(f: Form, m: &Mode) -> Option<(Lying, u32)>
    ensures { option_map place result ≡ place_of f (mode_of m.now) }
{
    match (f, base_of(m)) {
        (Form::Sparse, Some(b)) => Some((Lying::Sparse, b)),
        (Form::Remote, Some(b)) => Some((Lying::Remote, b)),
        (Form::Local, Some(b)) => Some((Lying::Remote, b)),
        _ => None,
    }
}

// Where the numbers of a map lie.
fn table_of(mode: &Mode) -> Option<(Lying, u32)>
    ensures { option_map place result ≡ table_of (mode_of mode.now) }
{
    match mode {
        Mode::Smap(f, d, _) => place_of(*f, d.get()),
        Mode::Mmap(f, d, _) => place_of(*f, d.get()),
        _ => None,
    }
}

// Whether the images of a point are kept as a set.
fn keeps_sets(mode: &Mode) -> bool
    ensures { result ≡ keeps_sets (mode_of mode.now) }
{
    match mode {
        Mode::Mmap(_, _, _) => true,
        _ => false,
    }
}

// A member of a base as an element.
fn element(b: u32, v: &Value, bases: &Bases, instance: u64) -> Held
    requires there { IsThere bases.now (named bases.now instance b) }
    requires found { IsSome (find (base_at bases.now (named bases.now instance b)) (datum v.now)) }
    ensures over { IsOver bases.now (form result) }
    ensures stands { stands bases.now (form result) ≡ Some (datum v.now) }
    ensures form { IsElementOf (named bases.now instance b) (form result) }
{
    let i = bases.named(instance, b);
    Held::Elt(i, handle(bases.at(i), v))
}

// A set in the form of its mode.
fn set_in_form(
    alloc: Global,
    f: Form,
    m: &Mode,
    s: &SetBody,
    bases: &Bases,
    instance: u64,
) -> Result<Held, AllocError>
    requires found { PlacesAreFound bases.now (named bases.now instance) (Sets f (mode_of m.now)) (set_of (Members s.now)) }
    requires there { HasBases bases.now (named bases.now instance) (mode_of m.now) }
    ensures over { IfOk result (λ h. IsOver bases.now (form h)) }
    ensures stands { IfOk result (λ h. stands bases.now (form h) ≡ Some (set_of (Members s.now))) }
    ensures form { IfOk result (λ h. HasForm (named bases.now instance) (Sets f (mode_of m.now)) (form h)) }
{
    match place_of(f, m) {
        None => Ok(Held::Plain(Value::Set(s.copy()?))),
        Some((Lying::Remote, b)) => {
            let i = bases.named(instance, b);
            Ok(Held::Remote(i, remote_set(alloc, bases.at(i), s)?))
        }
        Some((Lying::Sparse, b)) => {
            let i = bases.named(instance, b);
            let numbers = sparse_set(alloc, bases.at(i), s)?;
            Ok(Held::Sparse(i, Rc::new(alloc, numbers)?))
        }
    }
}

// A tuple in the form of its mode.
fn tuple_in_form(
    alloc: Global,
    m: &Mode,
    t: &TupleBody,
    bases: &Bases,
    instance: u64,
) -> Result<Held, AllocError>
    requires found { PlacesAreFound bases.now (named bases.now instance) (Tuples (mode_of m.now)) (tuple_of t.now) }
    requires there { HasBases bases.now (named bases.now instance) (mode_of m.now) }
    ensures over { IfOk result (λ h. IsOver bases.now (form h)) }
    ensures stands { IfOk result (λ h. stands bases.now (form h) ≡ Some (tuple_of t.now)) }
    ensures form { IfOk result (λ h. HasForm (named bases.now instance) (Tuples (mode_of m.now)) (form h)) }
{
    match base_of(m) {
        None => Ok(Held::Plain(Value::Tuple(t.copy()?))),
        Some(b) => {
            t.learn();
            let i = bases.named(instance, b);
            let list = handles(alloc, bases.at(i), t)?;
            Ok(Held::EltTuple(i, Rc::new(alloc, list)?))
        }
    }
}

// A map in the form of its mode.
#[cycle(building)]
fn map_in_form(
    alloc: Global,
    mode: &Mode,
    s: &SetBody,
    bases: &Bases,
    instance: u64,
) -> Result<Held, AllocError>
    requires map { IsMapMode (mode_of mode.now) }
    requires fits { datum_fits (mode_of mode.now) (set_of (Members s.now)) ≡ true }
    requires found { PlacesAreFound bases.now (named bases.now instance) (mode_of mode.now) (set_of (Members s.now)) }
    requires there { HasBases bases.now (named bases.now instance) (mode_of mode.now) }
    ensures over { IfOk result (λ h. IsOver bases.now (form h)) }
    ensures stands { IfOk result (λ h. stands bases.now (form h) ≡ Some (set_of (Members s.now))) }
    ensures form { IfOk result (λ h. HasForm (named bases.now instance) (mode_of mode.now) (form h)) }
{
    match table_of(mode) {
        None => Ok(Held::Plain(Value::Set(s.copy()?))),
        Some((lying, b)) => table_in_form(alloc, mode, lying, b, s, bases, instance),
    }
}

// A map on a base in the form of its mode: a content for each point.
#[cycle(building)]
fn table_in_form(
    alloc: Global,
    mode: &Mode,
    lying: Lying,
    b: u32,
    s: &SetBody,
    bases: &Bases,
    instance: u64,
) -> Result<Held, AllocError>
    requires table { table_of (mode_of mode.now) ≡ Some (layout lying, b) }
    requires fits { datum_fits (mode_of mode.now) (set_of (Members s.now)) ≡ true }
    requires found { PlacesAreFound bases.now (named bases.now instance) (mode_of mode.now) (set_of (Members s.now)) }
    requires there { HasBases bases.now (named bases.now instance) (mode_of mode.now) }
    ensures over { IfOk result (λ h. IsOver bases.now (form h)) }
    ensures stands { IfOk result (λ h. stands bases.now (form h) ≡ Some (set_of (Members s.now))) }
    ensures form { IfOk result (λ h. HasForm (named bases.now instance) (mode_of mode.now) (form h)) }
{
    setl_set::laws::rising_lists_agree();
    setl_set::laws::tests_are_exact();
    setl_set::laws::operations_have_their_members();
    setl_map::laws::images_are_by_pairs();
    setl_rep_tables::laws::tables_have_their_pairs();
    s.learn();
    let i = bases.named(instance, b);
    let all = points(alloc, s)?;
    let mut table = Table::new(alloc, lying)?;
    for x in all.members() {
        let content = content_in_form(alloc, mode, x, s, bases, instance)?;
        table.put(handle(bases.at(i), x).block, content)?;
    }
    table.learn();
    table.held(alloc, i, keeps_sets(mode))
}

// The content for a point of a map: its one image, or the set of its images, in the form of the second mode.
#[cycle(building)]
fn content_in_form(
    alloc: Global,
    mode: &Mode,
    x: &Value,
    s: &SetBody,
    bases: &Bases,
    instance: u64,
) -> Result<Held, AllocError>
    requires map { IsMapMode (mode_of mode.now) }
    requires point { has_datum (datum x.now) (domain_of (Members s.now)) ≡ true }
    requires fits { datum_fits (mode_of mode.now) (set_of (Members s.now)) ≡ true }
    requires found { PlacesAreFound bases.now (named bases.now instance) (mode_of mode.now) (set_of (Members s.now)) }
    requires there { HasBases bases.now (named bases.now instance) (mode_of mode.now) }
    ensures { IfOk result (λ c. IsContentOf bases.now (named bases.now instance) (mode_of mode.now) (Members s.now) (datum x.now) (form c)) }
{
    setl_set::laws::tests_are_exact();
    setl_set::laws::operations_have_their_members();
    setl_map::laws::images_are_by_pairs();
    match mode {
        Mode::Smap(_, _, r) => {
            let y = the_image(s, x)?;
            in_form(alloc, r.get(), &y, bases, instance)
        }
        Mode::Mmap(_, _, r) => {
            let ys = all_images(alloc, s, x)?;
            in_form(alloc, r.get(), &Value::Set(ys), bases, instance)
        }
        _ => Ok(Held::Om),
    }
}

// The points of a map. An error is want of memory.
fn points(alloc: Global, s: &SetBody) -> Result<SetBody, AllocError>
    requires { is_map (Members s.now) ≡ true }
    ensures { IfOk result (λ xs. Members xs ≡ domain_of (Members s.now)) }
{
    match domain(alloc, s) {
        Ok(xs) => Ok(xs),
        Err(_) => Err(AllocError),
    }
}

// The one image of a point of a map. An error is want of memory.
fn the_image(s: &SetBody, x: &Value) -> Result<Value, AllocError>
    requires { IsSome (image (datum x.now) (Members s.now)) }
    ensures { IfOk result (λ y. image (datum x.now) (Members s.now) ≡ Some (datum y)) }
{
    match image(s, x) {
        Ok(Some(y)) => Ok(y),
        _ => Err(AllocError),
    }
}

// The set of the images of a point of a map. An error is want of memory.
fn all_images(alloc: Global, s: &SetBody, x: &Value) -> Result<SetBody, AllocError>
    requires { is_map (Members s.now) ≡ true }
    ensures images { IfOk result (λ ys. Members ys ≡ images (datum x.now) (Members s.now)) }
    ensures rising { OnOk result (IsRising (images (datum x.now) (Members s.now))) }
{
    match images(alloc, s, x) {
        Ok(ys) => {
            ys.learn();
            Ok(ys)
        }
        Err(_) => Err(AllocError),
    }
}
