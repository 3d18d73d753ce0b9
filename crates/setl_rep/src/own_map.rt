//! Maps that are held in the form of a mode already.

ghost use Rattle.std.specs.Prelude.{◌≡◌, ℕ, true, nat_eq, is_some, IfOk, IfSome};
ghost use Rattle.std.specs.List.{list_any, AllByRecursion};
ghost use Rattle.setl_modes.specs.Modes.{mode_of, Elements};
ghost use Rattle.setl_base.specs.Base.{IsBase};
ghost use Rattle.setl_rep_bases.specs.declared.BaseId.{BaseId};
ghost use Rattle.setl_rep_forms.specs.FormOf.{form};
ghost use Rattle.setl_rep_forms.specs.Stands.{IsOver};
ghost use Rattle.setl_rep_building.specs.HasForm.{layout_of};
ghost use Rattle.setl_rep_maps.specs.Contents.{content_of};
ghost use Rattle.setl_rep.specs.OwnForm.{map_mode, HasNumbers, IsEntryReady, IsReady, IsTableAt};

use crate::own_form::{element, is_ready, member_fits};
use setl_base::Base;
use setl_modes::{Form, Mode};
use setl_rep_bases::{BaseId, Bases};
use setl_rep_forms::Held;
use setl_rep_images::domain;
use setl_rep_maps::{content, learn};
use std::alloc::{AllocError, Global};

/// Whether a map is held as a table in the form of a mode, and fits the mode. No plain map is made of it. The error is want of
/// memory.
#[cycle(ready)]
pub(crate) fn is_map_ready(
    alloc: Global,
    mode: &Mode,
    f: &Held,
    bases: &Bases,
    instance: u64,
) -> Result<bool, AllocError>
    requires { IsOver bases.now (form f.now) }
    ensures { IfOk result (λ t. t ≡ true → IsReady bases.now instance (mode_of mode.now) (form f.now)) }
{
    setl_set::laws::tests_are_exact();
    setl_rep_tables::laws::tables_have_their_pairs();
    learn(f);
    let Some((a, c, k, r, many)) = map_parts(mode) else {
        return Ok(false);
    };
    let b = bases.named(instance, c);
    if !is_table_at(f, a, b, many) {
        return Ok(false);
    }
    let list = points(alloc, f, bases)?;
    all_entries_ready(
        alloc,
        k,
        r,
        f,
        bases.at(b),
        list.as_slice(),
        bases,
        instance,
    )
}

// Whether the contents that a map has at these numbers, and their points, are in the form of the mode of a map. The base has the
// points.
#[cycle(ready)]
fn all_entries_ready(
    alloc: Global,
    k: &Mode,
    r: &Mode,
    f: &Held,
    base: &Base,
    list: &[u64],
    bases: &Bases,
    instance: u64,
) -> Result<bool, AllocError>
    requires { IsOver bases.now (form f.now) }
    ensures { IfOk result (λ t. t ≡ true → AllByRecursion (IsEntryReady bases.now instance base.now (mode_of k.now) (mode_of r.now) (form f.now)) list.now) }
{
    for q in list {
        if !is_entry_ready(alloc, k, r, f, base, *q, bases, instance)? {
            return Ok(false);
        }
    }
    Ok(true)
}

// The same of one number.
#[cycle(ready)]
fn is_entry_ready(
    alloc: Global,
    k: &Mode,
    r: &Mode,
    f: &Held,
    base: &Base,
    q: u64,
    bases: &Bases,
    instance: u64,
) -> Result<bool, AllocError>
    requires { IsOver bases.now (form f.now) }
    ensures { IfOk result (λ t. t ≡ true → IsEntryReady bases.now instance base.now (mode_of k.now) (mode_of r.now) (form f.now) q) }
{
    if !member_fits(k, base, q)? {
        return Ok(false);
    }
    match content(f, q) {
        None => Ok(true),
        Some(c) => is_ready(alloc, r, c, bases, instance),
    }
}

// The attribute of a mode of maps on a base, the base, the mode of its members, that of the contents, and whether the images are
// kept as sets.
fn map_parts(mode: &Mode) -> Option<(Form, u32, &Mode, &Mode, bool)>
    ensures { IfSome result (λ p. mode_of mode.now ≡ map_mode p.4 p.0 (Elements p.1 (mode_of p.2.now)) (mode_of p.3.now)) }
{
    match mode {
        Mode::Smap(a, d, r) => {
            let (c, k) = element(d.get())?;
            Some((*a, c, k, r.get(), false))
        }
        Mode::Mmap(a, d, s) => {
            let (c, k) = element(d.get())?;
            Some((*a, c, k, s.get(), true))
        }
        _ => None,
    }
}

// Whether a map is a table on this base that lies as an attribute says.
fn is_table_at(f: &Held, a: Form, b: BaseId, many: bool) -> bool
    ensures { result ≡ true → IsTableAt (layout_of a) b many (form f.now) }
{
    match (f, a) {
        (Held::RemoteMap(c, sets, _), Form::Remote) => *c == b && *sets == many,
        (Held::RemoteMap(c, sets, _), Form::Local) => *c == b && *sets == many,
        (Held::SparseMap(c, sets, _), Form::Sparse) => *c == b && *sets == many,
        _ => false,
    }
}

// The numbers of the points of a map.
fn points(alloc: Global, f: &Held, bases: &Bases) -> Result<Vec<u64>, AllocError>
    requires { IsOver bases.now (form f.now) }
    ensures { IfOk result (λ ns. (q : ℕ) → is_some (content_of (form f.now) q) ≡ true → list_any (λ y. nat_eq y q) ns.items ≡ true) }
{
    let Some(g) = domain(alloc, f, bases)? else {
        return Ok(Vec::new(alloc));
    };
    numbers_of(alloc, &g)
}

// The numbers of a set, and none for other forms.
fn numbers_of(alloc: Global, g: &Held) -> Result<Vec<u64>, AllocError>
    ensures { IfOk result (λ ns. HasNumbers (form g.now) ns.items) }
{
    match g {
        Held::Remote(_, bits) => bits.numbers(alloc),
        Held::Sparse(_, table) => table.numbers(alloc),
        _ => Ok(Vec::new(alloc)),
    }
}
