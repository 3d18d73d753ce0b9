//! Values that are held in the form of a mode already.

ghost use Rattle.std.specs.Prelude.{◌≡◌, ℕ, true, IfOk, IfSome, Some, option_and_then};
ghost use Rattle.std.specs.FinSet as set;
ghost use Rattle.std.specs.List.{list_all};
ghost use Rattle.setl_value.specs.code.DatumOf.{datum};
ghost use Rattle.setl_base.specs.Base.{value_of, IsLiving};
ghost use Rattle.setl_modes.specs.Fits.{datum_fits, part_fits};
ghost use Rattle.setl_modes.specs.Modes.{mode_of, Elements};
ghost use Rattle.setl_rep_bases.specs.Bases.{base_at, BasesState, IsThere};
ghost use Rattle.setl_rep_forms.specs.Form.{element as element_form, handles, numbers, plain};
ghost use Rattle.setl_rep_forms.specs.FormOf.{form};
ghost use Rattle.setl_rep_forms.specs.Stands.{members_at, parts_at, value_at, AreHandles, IsOver};
ghost use Rattle.setl_rep_based.specs.Numbers.{layout_of, numbers_in};
ghost use Rattle.setl_rep_building.specs.HasForm.{layout_of as layout_of_attribute};
ghost use Rattle.setl_rep.specs.OwnForm.{IsReady, IsSimple};

use crate::own_map::is_map_ready;
use setl_base::{Base, Elt};
use setl_modes::{Form, Mode};
use setl_modes_fit::fits;
use setl_rep_based::{Numbers, member};
use setl_rep_bases::{BaseId, Bases};
use setl_rep_forms::{Held, laws};
use setl_value::Value;
use std::alloc::{AllocError, Global};

/// Whether a value is held in the form of a mode, and fits the mode: as an element, as the numbers of a set, the handles of a tuple
/// or the table of a map on the base of the mode, or plain as one without parts. No plain set, tuple or map is made of it.
/// Ok(false) comes for all other forms too, and the error is want of memory.
#[cycle(ready)]
pub(crate) fn is_ready(
    alloc: Global,
    mode: &Mode,
    h: &Held,
    bases: &Bases,
    instance: u64,
) -> Result<bool, AllocError>
    requires { IsOver bases.now (form h.now) }
    ensures { IfOk result (λ t. t ≡ true → IsReady bases.now instance (mode_of mode.now) (form h.now)) }
{
    match h {
        Held::Remote(b, bits) => {
            is_set_ready(alloc, mode, *b, Numbers::Bits(bits), bases, instance)
        }
        Held::Sparse(b, table) => {
            is_set_ready(alloc, mode, *b, Numbers::Table(table), bases, instance)
        }
        Held::Elt(b, e) => is_element_ready(mode, *b, *e, bases, instance),
        Held::EltTuple(b, list) => is_tuple_ready(mode, *b, list.as_slice(), bases, instance),
        Held::RemoteMap(_, _, _) => is_map_ready(alloc, mode, h, bases, instance),
        Held::SparseMap(_, _, _) => is_map_ready(alloc, mode, h, bases, instance),
        Held::Plain(v) => is_plain_ready(mode, v),
        Held::Om => Ok(false),
    }
}

// Whether a value that is held plain fits a mode of values without parts, in which there are no places.
#[tactic(auto, using(crate::proofs::ReadyPlain::ready_plain))]
fn is_plain_ready(mode: &Mode, v: &Value) -> Result<bool, AllocError>
    ensures { IfOk result (λ t. t ≡ true → (bs : BasesState) (n : ℕ) → IsReady bs n (mode_of mode.now) (plain (datum v.now))) }
{
    if !is_simple(mode) {
        return Ok(false);
    }
    Ok(fits(mode, &Some(v.copy()?)))
}

// Whether the values of a mode have no places.
fn is_simple(mode: &Mode) -> bool
    ensures { result ≡ true → IsSimple (mode_of mode.now) }
{
    match mode {
        Mode::General => true,
        Mode::Int => true,
        Mode::Str => true,
        Mode::Boolean => true,
        Mode::Atom => true,
        _ => false,
    }
}

// The same of a handle of the base `b`.
fn is_element_ready(
    mode: &Mode,
    b: BaseId,
    e: Elt,
    bases: &Bases,
    instance: u64,
) -> Result<bool, AllocError>
    requires there { IsThere bases.now b }
    requires living { IsLiving (base_at bases.now b) e }
    ensures { IfOk result (λ t. t ≡ true → IsReady bases.now instance (mode_of mode.now) (element_form b e)) }
{
    let Some((c, k)) = element(mode) else {
        return Ok(false);
    };
    if bases.named(instance, c) != b {
        return Ok(false);
    }
    handle_fits(k, bases.at(b), e)
}

// The same of handles of the base `b`.
fn is_tuple_ready(
    mode: &Mode,
    b: BaseId,
    list: &[Option<Elt>],
    bases: &Bases,
    instance: u64,
) -> Result<bool, AllocError>
    requires there { IsThere bases.now b }
    requires living { AreHandles (base_at bases.now b) list.now }
    ensures { IfOk result (λ t. t ≡ true → IsReady bases.now instance (mode_of mode.now) (handles b list.now)) }
{
    let Mode::Tuple(m) = mode else {
        return Ok(false);
    };
    let Some((c, k)) = element(m.get()) else {
        return Ok(false);
    };
    if bases.named(instance, c) != b {
        return Ok(false);
    }
    all_parts_fit(k, bases.at(b), list)
}

// Whether the components at these handles fit a mode.
fn all_parts_fit(k: &Mode, base: &Base, list: &[Option<Elt>]) -> Result<bool, AllocError>
    ensures { IfOk result (λ t. t ≡ true → list_all (part_fits (datum_fits (mode_of k.now))) (parts_at base.now list.now) ≡ true) }
{
    for part in list {
        if !part_fits(k, base, part)? {
            return Ok(false);
        }
    }
    Ok(true)
}

// Whether the component at a handle, where there is one, fits a mode.
fn part_fits(k: &Mode, base: &Base, part: &Option<Elt>) -> Result<bool, AllocError>
    ensures { IfOk result (λ t. t ≡ part_fits (datum_fits (mode_of k.now)) (option_and_then (value_of base.now) part.now)) }
{
    match part {
        None => Ok(true),
        Some(e) => handle_fits(k, base, *e),
    }
}

// Whether the member at a handle, where there is one, fits a mode.
fn handle_fits(k: &Mode, base: &Base, e: Elt) -> Result<bool, AllocError>
    ensures { IfOk result (λ t. t ≡ part_fits (datum_fits (mode_of k.now)) (value_of base.now e)) }
{
    match base.value(e) {
        None => Ok(true),
        Some(v) => Ok(fits(k, &Some(v.copy()?))),
    }
}

// The same of numbers on the base `b`.
#[tactic(auto, using(crate::proofs::Ready::ready_set))]
fn is_set_ready(
    alloc: Global,
    mode: &Mode,
    b: BaseId,
    held: Numbers<'_>,
    bases: &Bases,
    instance: u64,
) -> Result<bool, AllocError>
    requires there { IsThere bases.now b }
    ensures { IfOk result (λ t. t ≡ true → IsReady bases.now instance (mode_of mode.now) (numbers (layout_of held.entry) b (numbers_in held.entry))) }
{
    laws::sets_have_their_members();
    let Mode::Set(f, m) = mode else {
        return Ok(false);
    };
    let Some((c, k)) = element(m.get()) else {
        return Ok(false);
    };
    if !lies_so(*f, held) || bases.named(instance, c) != b {
        return Ok(false);
    }
    let list = held.list(alloc)?;
    all_fit(k, bases.at(b), list.as_slice())
}

/// The base of a mode of elements, with the mode of its members.
pub(crate) fn element(m: &Mode) -> Option<(u32, &Mode)>
    ensures { IfSome result (λ p. mode_of m.now ≡ Elements p.0 (mode_of p.1.now)) }
{
    match m {
        Mode::Elmt(b, k) => Some((*b, k.get())),
        _ => None,
    }
}

// Whether numbers lie as an attribute says.
fn lies_so(f: Form, held: Numbers<'_>) -> bool
    ensures { result ≡ true → layout_of_attribute f ≡ Some (layout_of held.entry) }
{
    match (f, held) {
        (Form::Remote, Numbers::Bits(_)) | (Form::Local, Numbers::Bits(_)) => true,
        (Form::Sparse, Numbers::Table(_)) => true,
        _ => false,
    }
}

// Whether the members at these numbers fit a mode.
#[tactic(auto, using(crate::proofs::Ready::all_in_set))]
fn all_fit(k: &Mode, base: &Base, list: &[u64]) -> Result<bool, AllocError>
    ensures { IfOk result (λ t. t ≡ true → list_all (datum_fits (mode_of k.now)) (members_at base.now (set.from_list list.now)) ≡ true) }
{
    laws::sets_have_their_members();
    for n in list {
        if !member_fits(k, base, *n)? {
            return Ok(false);
        }
    }
    Ok(true)
}

/// Whether the member at a number, where there is one, fits a mode.
pub(crate) fn member_fits(k: &Mode, base: &Base, n: u64) -> Result<bool, AllocError>
    ensures { IfOk result (λ t. t ≡ part_fits (datum_fits (mode_of k.now)) (value_at base.now n)) }
{
    match member(base, n) {
        None => Ok(true),
        Some(v) => Ok(fits(k, &Some(v.copy()?))),
    }
}
