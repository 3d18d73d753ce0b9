//! The values at the places of bases that aren't members of these.

ghost use Rattle.std.specs.Prelude.{◌≡◌, ◌↔◌, true, [], ◌∷◌, ◌++◌, ◌==◌, cond, slice_get, OnOk, IfOk, None};
ghost use Rattle.std.specs.List.Sorted.{IsStrictlySortedBy};
ghost use Rattle.std.specs.Option.{unwrap_or};
ghost use Rattle.std.specs.List.{flat_map};
ghost use Rattle.setl_value.specs.code.Body.{Members};
ghost use Rattle.setl_value.specs.code.DatumOf.{datum, lent};
ghost use Rattle.setl_value.specs.Datum.{set_of};
ghost use Rattle.setl_value.specs.Pairs.{images, pair_parts};
ghost use Rattle.setl_map.specs.code.Points.{part_at};
ghost use Rattle.setl_modes.specs.Modes.{mode_of};
ghost use Rattle.setl_modes_places.specs.Places.{at_part, elements_at};
ghost use Rattle.setl_rep_bases.specs.Bases.{named, IsThere};
ghost use Rattle.setl_rep_entering.specs.Entering.{BasesAreThere};
ghost use Rattle.setl_rep_entering.specs.Laws.{PlacesAreFound};
ghost use Rattle.setl_rep_entering.specs.code.Finding.{Gains, HaveSamePlaces, at_firsts, at_images, at_map, at_neighbour, at_seconds, has_places, is_at_point, place_cmp};

use setl_map::{images, parts};
use setl_modes::Mode;
use setl_rep_bases::{BaseId, Bases};
use setl_value::{SetBody, TupleBody, Value};
use std::alloc::{AllocError, Global};

/// A value at a place, with the instance of its base.
#[derive(PartialEq, Eq, PartialOrd, Ord, Drop)]
pub(crate) struct Place {
    pub base: BaseId,
    pub value: Value,
}

/// The bases as an activation names them.
#[derive(Clone, Copy)]
pub(crate) struct Activation<'a> {
    pub alloc: Global,
    pub bases: &'a Bases,
    pub instance: u64,
}

// Whether a mode has places.
fn has_places(mode: &Mode) -> bool
    ensures { result ≡ has_places (mode_of mode.now) }
{
    match mode {
        Mode::Elmt(_, _) => true,
        Mode::Set(_, m) | Mode::Tuple(m) => has_places(m.get()),
        Mode::Smap(_, d, r) | Mode::Mmap(_, d, r) => has_places(d.get()) || has_places(r.get()),
        _ => false,
    }
}

// Puts the values at the places of a value that aren't members of their bases yet at the end, in no order and perhaps
// several times. What has no places isn't walked.
//
// The map in a value of an `mmap` is one where the value fits its mode, so the error is want of memory.
#[cycle(finding)]
fn find_places(
    a: &Activation<'_>,
    mode: &Mode,
    v: &Value,
    found: &mut Vec<Place>,
) -> Result<(), AllocError>
    requires { BasesAreThere a.now.bases.now a.now.instance (mode_of mode.now) }
    ensures { OnOk result (Gains a.now.bases.now a.now.instance (λ b. elements_at b (mode_of mode.now) (datum v.now)) found.old.items found.new.items) }
{
    setl_modes_places::places_are_named();
    if !has_places(mode) {
        return Ok(());
    }
    match (mode, v) {
        (Mode::Elmt(b, _), _) => push_new(a, *b, v, found),
        (Mode::Set(_, m), Value::Set(s)) => in_members(a, m.get(), s, found),
        (Mode::Tuple(m), Value::Tuple(t)) => in_parts(a, m.get(), t, found),
        (Mode::Smap(_, _, _), _) => in_map(a, mode, v, found),
        (Mode::Mmap(_, _, _), _) => in_map(a, mode, v, found),
        _ => Ok(()),
    }
}

// Puts a value at a place of the base `b` at the end, unless it is a member.
fn push_new(a: &Activation<'_>, b: u32, v: &Value, found: &mut Vec<Place>) -> Result<(), AllocError>
    requires { IsThere a.now.bases.now (named a.now.bases.now a.now.instance b) }
    ensures { OnOk result (Gains a.now.bases.now a.now.instance (λ c. cond (b == c) (datum v.now ∷ []) []) found.old.items found.new.items) }
{
    setl_rep_bases::laws::instances_are_read();
    let base = a.bases.named(a.instance, b);
    if a.bases.at(base).find(v).is_none() {
        let value = v.copy()?;
        found.push(Place { base, value })?;
    }
    Ok(())
}

// Those of each member of a set.
#[cycle(finding)]
fn in_members(
    a: &Activation<'_>,
    mode: &Mode,
    s: &SetBody,
    found: &mut Vec<Place>,
) -> Result<(), AllocError>
    requires { BasesAreThere a.now.bases.now a.now.instance (mode_of mode.now) }
    ensures { OnOk result (Gains a.now.bases.now a.now.instance (λ b. flat_map (elements_at b (mode_of mode.now)) (Members s.now)) found.old.items found.new.items) }
{
    for v in s.members() {
        find_places(a, mode, v, found)?;
    }
    Ok(())
}

// Those of each component of a tuple.
#[cycle(finding)]
fn in_parts(
    a: &Activation<'_>,
    mode: &Mode,
    t: &TupleBody,
    found: &mut Vec<Place>,
) -> Result<(), AllocError>
    requires { BasesAreThere a.now.bases.now a.now.instance (mode_of mode.now) }
    ensures { OnOk result (Gains a.now.bases.now a.now.instance (λ b. flat_map (at_part (elements_at b (mode_of mode.now))) t.now) found.old.items found.new.items) }
{
    for i in 0..t.len() {
        in_part(a, mode, t, i, found)?;
    }
    Ok(())
}

// Those of the i-th component.
#[cycle(finding)]
fn in_part(
    a: &Activation<'_>,
    mode: &Mode,
    t: &TupleBody,
    i: usize,
    found: &mut Vec<Place>,
) -> Result<(), AllocError>
    requires { BasesAreThere a.now.bases.now a.now.instance (mode_of mode.now) }
    ensures { OnOk result (Gains a.now.bases.now a.now.instance (λ b. at_part (elements_at b (mode_of mode.now)) (unwrap_or (slice_get t.now i) None)) found.old.items found.new.items) }
{
    match t.at(i) {
        None => Ok(()),
        Some(v) => find_places(a, mode, v, found),
    }
}

// Those of a map.
#[cycle(finding)]
fn in_map(
    a: &Activation<'_>,
    mode: &Mode,
    v: &Value,
    found: &mut Vec<Place>,
) -> Result<(), AllocError>
    requires { BasesAreThere a.now.bases.now a.now.instance (mode_of mode.now) }
    ensures { OnOk result (Gains a.now.bases.now a.now.instance (λ b. at_map b (mode_of mode.now) (datum v.now)) found.old.items found.new.items) }
{
    match v {
        Value::Set(f) => in_pairs(a, mode, f, found),
        _ => Ok(()),
    }
}

// Those of the pairs of a map: of their first parts, and then of their images.
#[cycle(finding)]
fn in_pairs(
    a: &Activation<'_>,
    mode: &Mode,
    f: &SetBody,
    found: &mut Vec<Place>,
) -> Result<(), AllocError>
    requires { BasesAreThere a.now.bases.now a.now.instance (mode_of mode.now) }
    ensures { OnOk result (Gains a.now.bases.now a.now.instance (λ b. at_firsts b (mode_of mode.now) (Members f.now) ++ at_seconds b (mode_of mode.now) (Members f.now)) found.old.items found.new.items) }
{
    in_firsts(a, mode, f, found)?;
    in_seconds(a, mode, f, found)?;
    Ok(())
}

// Those of the first parts of the pairs of a map.
#[cycle(finding)]
fn in_firsts(
    a: &Activation<'_>,
    mode: &Mode,
    f: &SetBody,
    found: &mut Vec<Place>,
) -> Result<(), AllocError>
    requires { BasesAreThere a.now.bases.now a.now.instance (mode_of mode.now) }
    ensures { OnOk result (Gains a.now.bases.now a.now.instance (λ b. at_firsts b (mode_of mode.now) (Members f.now)) found.old.items found.new.items) }
{
    match mode {
        Mode::Smap(_, d, _) => in_sides(a, d.get(), f, true, found),
        Mode::Mmap(_, d, _) => in_sides(a, d.get(), f, true, found),
        _ => Ok(()),
    }
}

// Those of the images in a map.
#[cycle(finding)]
fn in_seconds(
    a: &Activation<'_>,
    mode: &Mode,
    f: &SetBody,
    found: &mut Vec<Place>,
) -> Result<(), AllocError>
    requires { BasesAreThere a.now.bases.now a.now.instance (mode_of mode.now) }
    ensures { OnOk result (Gains a.now.bases.now a.now.instance (λ b. at_seconds b (mode_of mode.now) (Members f.now)) found.old.items found.new.items) }
{
    match mode {
        Mode::Smap(_, _, r) => in_sides(a, r.get(), f, false, found),
        Mode::Mmap(_, _, s) => in_images(a, s.get(), f, found),
        _ => Ok(()),
    }
}

// Those of the first part of each pair of a map, or else of the second part.
#[cycle(finding)]
fn in_sides(
    a: &Activation<'_>,
    mode: &Mode,
    f: &SetBody,
    first: bool,
    found: &mut Vec<Place>,
) -> Result<(), AllocError>
    requires { BasesAreThere a.now.bases.now a.now.instance (mode_of mode.now) }
    ensures { OnOk result (Gains a.now.bases.now a.now.instance (λ b. flat_map (λ p. at_part (elements_at b (mode_of mode.now)) (part_at first p)) (Members f.now)) found.old.items found.new.items) }
{
    for p in f.members() {
        in_side(a, mode, p, first, found)?;
    }
    Ok(())
}

// Those of the first part of a pair, or else of the second part.
#[cycle(finding)]
fn in_side(
    a: &Activation<'_>,
    mode: &Mode,
    p: &Value,
    first: bool,
    found: &mut Vec<Place>,
) -> Result<(), AllocError>
    requires { BasesAreThere a.now.bases.now a.now.instance (mode_of mode.now) }
    ensures { OnOk result (Gains a.now.bases.now a.now.instance (λ b. at_part (elements_at b (mode_of mode.now)) (part_at first (datum p.now))) found.old.items found.new.items) }
{
    match side(p, first) {
        None => Ok(()),
        Some(x) => find_places(a, mode, x, found),
    }
}

// The first part of a pair, or else the second, and None for what is no pair.
fn side(p: &Value, first: bool) -> Option<&Value>
    ensures { lent result ≡ part_at first (datum p.now) }
{
    let (x, y) = parts(p)?;
    Some(if first { x } else { y })
}

// Those of the set of images of each point of a map. The pairs of one point stand one after the other.
#[cycle(finding)]
fn in_images(
    a: &Activation<'_>,
    mode: &Mode,
    f: &SetBody,
    found: &mut Vec<Place>,
) -> Result<(), AllocError>
    requires { BasesAreThere a.now.bases.now a.now.instance (mode_of mode.now) }
    ensures { OnOk result (Gains a.now.bases.now a.now.instance (λ b. flat_map (λ p. at_images (elements_at b (mode_of mode.now)) (Members f.now) (pair_parts p)) (Members f.now)) found.old.items found.new.items) }
{
    let mut before: Option<&Value> = None;
    for p in f.members() {
        in_next_images(a, mode, f, before, p, found)?;
        before = Some(p);
    }
    Ok(())
}

// Those of the set of images of a pair's point, where those of the pair before it are there.
#[cycle(finding)]
fn in_next_images(
    a: &Activation<'_>,
    mode: &Mode,
    f: &SetBody,
    before: Option<&Value>,
    p: &Value,
    found: &mut Vec<Place>,
) -> Result<(), AllocError>
    requires there { BasesAreThere a.now.bases.now a.now.instance (mode_of mode.now) }
    requires before { Gains a.now.bases.now a.now.instance (λ b. at_neighbour (elements_at b (mode_of mode.now)) (Members f.now) (lent before)) found.old.items found.old.items }
    ensures { OnOk result (Gains a.now.bases.now a.now.instance (λ b. at_images (elements_at b (mode_of mode.now)) (Members f.now) (pair_parts (datum p.now))) found.old.items found.new.items) }
{
    if is_at_point(before, p) {
        return Ok(());
    }
    match side(p, true) {
        None => Ok(()),
        Some(x) => in_images_of(a, mode, f, x, found),
    }
}

// Whether a pair has the first part of the one before it, if there is one.
fn is_at_point(before: Option<&Value>, p: &Value) -> bool
    ensures { result ≡ is_at_point (lent before.entry) (datum p.now) }
{
    let Some(before) = before else {
        return false;
    };
    match (parts(before), parts(p)) {
        (Some((x, _)), Some((z, _))) => x.compare(z).is_eq(),
        _ => false,
    }
}

// Those of the set of images of a point.
#[cycle(finding)]
fn in_images_of(
    a: &Activation<'_>,
    mode: &Mode,
    f: &SetBody,
    x: &Value,
    found: &mut Vec<Place>,
) -> Result<(), AllocError>
    requires { BasesAreThere a.now.bases.now a.now.instance (mode_of mode.now) }
    ensures { OnOk result (Gains a.now.bases.now a.now.instance (λ b. elements_at b (mode_of mode.now) (set_of (images (datum x.now) (Members f.now)))) found.old.items found.new.items) }
{
    match images(a.alloc, f, x) {
        Ok(s) => find_places(a, mode, &Value::Set(s), found),
        Err(_) => Err(AllocError),
    }
}

/// Whether each value at a place of a value is a member of its base in an activation, so that there is nothing to enter.
///
/// The error is want of memory. Its time is near linear in the size of the value.
pub fn are_entered(
    alloc: Global,
    mode: &Mode,
    v: &Value,
    instance: u64,
    bases: &Bases,
) -> Result<bool, AllocError>
    requires { BasesAreThere bases.now instance (mode_of mode.now) }
    ensures { IfOk result (λ t. (t ≡ true) ↔ PlacesAreFound bases.now instance (mode_of mode.now) (datum v.now)) }
{
    setl_rep_bases::laws::instances_are_read();
    let a = Activation {
        alloc,
        bases,
        instance,
    };
    let mut found = Vec::new(alloc);
    find_places(&a, mode, v, &mut found)?;
    Ok(found.is_empty())
}

/// The values at the places of a value that aren't members of their bases yet: by instances, and in each in canonical
/// order.
pub(crate) fn new_places(
    a: &Activation<'_>,
    mode: &Mode,
    v: &Value,
) -> Result<Vec<Place>, AllocError>
    requires { BasesAreThere a.now.bases.now a.now.instance (mode_of mode.now) }
    ensures found { IfOk result (λ ps. Gains a.now.bases.now a.now.instance (λ b. elements_at b (mode_of mode.now) (datum v.now)) [] ps.items) }
    ensures rising { IfOk result (λ ps. IsStrictlySortedBy place_cmp ps.items) }
{
    let mut found = Vec::new(a.alloc);
    find_places(a, mode, v, &mut found)?;
    sorted(found)
}

// These places, each once: by instances, and in each by value.
fn sorted(places: Vec<Place>) -> Result<Vec<Place>, AllocError>
    ensures same { IfOk result (λ ps. HaveSamePlaces places.items ps.items) }
    ensures rising { IfOk result (λ ps. IsStrictlySortedBy place_cmp ps.items) }
{
    setl_rep_bases::laws::instances_are_read();
    let mut places = places;
    places.sort()?;
    places.dedup();
    Ok(places)
}
