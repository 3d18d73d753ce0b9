//! What is left of the source of an iterator.

ghost use Rattle.std.specs.Prelude.{◌≡◌, ◌∷◌, ◌+◌, ◌<◌, ◌==◌, [], true, false, drop, length, get_or, slice_get, Some, IfOk, OnOk, OnErr};
ghost use Rattle.setl_value.specs.code.Body.{Members};
ghost use Rattle.setl_value.specs.Datum.{text};
ghost use Rattle.setl_value.specs.code.DatumOf.{datum};
ghost use Rattle.setl_model.specs.Iterations.{members, singles, letters, place_points};
ghost use Rattle.setl_store_iterator.specs.Items.{plain_item, is_pair};
ghost use Rattle.setl_store_iterator.specs.Rests.{IsSound, Stands, left_of, pairs_of, state_of};

use crate::integers::Steps;
use crate::iterator::Item;
use setl_value::{Cursor, SetBody, Text, TupleBody, Value, copied};
use std::alloc::{AllocError, Global};

/// An index of a set, and the place of the member there.
#[derive(Clone, Copy)]
pub(crate) struct MemberAt {
    pub(crate) index: usize,
    pub(crate) place: Cursor,
}

/// What is left: of a set, a tuple or a string what stands from an index on.
#[derive(Drop)]
pub(crate) enum Rest {
    Members(SetBody, MemberAt),
    Components(TupleBody, usize),
    Letters(Text, usize),
    Integers(Option<Steps>),
    /// The arguments of a map, whose pairs stand one after the other, with their images.
    Points(SetBody, MemberAt),
    /// Places with what stands there.
    Places(TupleBody, usize),
    LetterPlaces(Text, usize),
}

/// Whether nothing is left.
pub(crate) fn is_over(rest: &Rest) -> bool
    requires { IsSound rest.now }
    ensures { result ≡ (length (left_of rest.now) == 0) }
{
    match rest {
        Rest::Members(s, at) | Rest::Points(s, at) => at.index >= s.len(),
        Rest::Components(t, at) | Rest::Places(t, at) => *at >= t.len(),
        Rest::Letters(t, at) | Rest::LetterPlaces(t, at) => *at >= t.bytes().len(),
        Rest::Integers(steps) => steps.is_none(),
    }
}

/// Whether it is of arguments with their images.
pub(crate) fn is_paired(rest: &Rest) -> bool
    ensures { result ≡ pairs_of rest.now }
{
    matches!(
        rest,
        Rest::Points(_, _) | Rest::Places(_, _) | Rest::LetterPlaces(_, _)
    )
}

/// The same, which shares its body.
pub(crate) fn copied_rest(rest: &Rest) -> Result<Rest, AllocError>
    requires { IsSound rest.now }
    ensures { IfOk result (λ copy. IsSound copy × (state_of copy ≡ state_of rest.now)) }
{
    match rest {
        Rest::Members(s, at) => Ok(Rest::Members(s.copy()?, *at)),
        Rest::Components(t, at) => Ok(Rest::Components(t.copy()?, *at)),
        Rest::Letters(t, at) => Ok(Rest::Letters(t.copy()?, *at)),
        Rest::Integers(steps) => Ok(Rest::Integers(*steps)),
        Rest::Points(f, at) => Ok(Rest::Points(f.copy()?, *at)),
        Rest::Places(t, at) => Ok(Rest::Places(t.copy()?, *at)),
        Rest::LetterPlaces(t, at) => Ok(Rest::LetterPlaces(t.copy()?, *at)),
    }
}

/// Takes the first of the members that are left.
pub(crate) fn next_member(s: &SetBody, at: &mut MemberAt) -> Result<Item, AllocError>
    requires inside { at.old.index < length (Members s.now) }
    requires stands { Stands s.now at.old }
    ensures first { IfOk result (λ item. members (drop at.old.index (Members s.now)) ≡ plain_item item ∷ members (drop at.new.index (Members s.now))) }
    ensures kind { IfOk result (λ item. is_pair item ≡ false) }
    ensures stands { OnOk result (Stands s.now at.new) }
    ensures refused { OnErr result (at.new ≡ at.old) }
{
    let member = member_at(s, *at).copy()?;
    *at = after(s, *at);
    Ok(Item::One(Some(member)))
}

/// The member at an index.
pub(crate) fn member_at(s: &SetBody, at: MemberAt) -> &Value
    requires inside { at.index < length (Members s.now) }
    requires stands { Stands s.now at }
    ensures { slice_get (Members s.now) at.index ≡ Some (datum result.now) }
{
    let Some(v) = s.member(at.place) else {
        unreachable!();
    };
    v
}

/// The next index.
pub(crate) fn after(s: &SetBody, at: MemberAt) -> MemberAt
    requires inside { at.index < length (Members s.now) }
    requires stands { Stands s.now at }
    ensures index { result.index ≡ at.index + 1 }
    ensures stands { Stands s.now result }
{
    prove!(at.index < s.len());
    MemberAt {
        index: at.index + 1,
        place: s.after(at.place),
    }
}

/// Takes the first of the components that are left.
pub(crate) fn next_component(t: &TupleBody, at: &mut usize) -> Result<Item, AllocError>
    requires { at.old < length t.now }
    ensures first { IfOk result (λ item. singles (drop at.old t.now) ≡ plain_item item ∷ singles (drop at.new t.now)) }
    ensures kind { IfOk result (λ item. is_pair item ≡ false) }
    ensures refused { OnErr result (at.new ≡ at.old) }
{
    prove!(*at < t.len());
    let component = copied(t.at(*at))?;
    *at += 1;
    Ok(Item::One(component))
}

/// Takes the first of the places that are left, with its component.
pub(crate) fn next_place(t: &TupleBody, at: &mut usize) -> Result<Item, AllocError>
    requires { at.old < length t.now }
    ensures first { IfOk result (λ item. place_points (at.old + 1) (drop at.old t.now) ≡ plain_item item ∷ place_points (at.new + 1) (drop at.new t.now)) }
    ensures kind { IfOk result (λ item. is_pair item ≡ true) }
    ensures refused { OnErr result (at.new ≡ at.old) }
{
    prove!(*at < t.len());
    let component = copied(t.at(*at))?;
    *at += 1;
    Ok(Item::Two {
        argument: Some(Value::Int(*at as i128)),
        image: component,
    })
}

/// Takes the first of the bytes that are left, as a string of length 1.
pub(crate) fn next_letter(alloc: Global, t: &Text, at: &mut usize) -> Result<Item, AllocError>
    requires { at.old < length t.now }
    ensures first { IfOk result (λ item. singles (letters (drop at.old t.now)) ≡ plain_item item ∷ singles (letters (drop at.new t.now))) }
    ensures kind { IfOk result (λ item. is_pair item ≡ false) }
    ensures refused { OnErr result (at.new ≡ at.old) }
{
    prove!(*at < t.bytes().len());
    let letter = letter(alloc, t, *at)?;
    *at += 1;
    Ok(Item::One(Some(letter)))
}

/// Takes the first of the places that are left, with its byte as a string of length 1.
pub(crate) fn next_letter_place(alloc: Global, t: &Text, at: &mut usize) -> Result<Item, AllocError>
    requires { at.old < length t.now }
    ensures first { IfOk result (λ item. place_points (at.old + 1) (letters (drop at.old t.now)) ≡ plain_item item ∷ place_points (at.new + 1) (letters (drop at.new t.now))) }
    ensures kind { IfOk result (λ item. is_pair item ≡ true) }
    ensures refused { OnErr result (at.new ≡ at.old) }
{
    prove!(*at < t.bytes().len());
    let letter = letter(alloc, t, *at)?;
    *at += 1;
    Ok(Item::Two {
        argument: Some(Value::Int(*at as i128)),
        image: Some(letter),
    })
}

// The byte at an index, as a string.
fn letter(alloc: Global, t: &Text, at: usize) -> Result<Value, AllocError>
    requires { at < length t.now }
    ensures { IfOk result (λ v. datum v ≡ text (get_or t.now at 0 ∷ [])) }
{
    t.learn();
    let bytes = t.bytes();
    Ok(Value::Text(Text::of(alloc, &bytes[at..at + 1])?))
}
