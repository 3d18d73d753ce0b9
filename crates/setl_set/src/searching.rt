//! Operations on a large set and a small one, by a search in the large one for each member of the small one.

ghost use Rattle.std.specs.Prelude.{◌≡◌, [], not, if◌then◌else◌, map, IfOk, OnOk, OnErr};
ghost use Rattle.std.specs.List.{filter};
ghost use Rattle.setl_value.specs.code.Body.{Members};
ghost use Rattle.setl_value.specs.code.DatumOf.{datum};
ghost use Rattle.setl_set.specs.Sets.{has_datum, insert_datum, is_subset, minus_of, union_of};

use crate::SetFault;
use crate::member::{has, less, with};
use crate::merge::keep_if;
use setl_value::{SetBody, Value};
use std::alloc::{AllocError, Global};

/// Whether a search in the large set for each member of the small one costs less than a walk over both.
pub(crate) fn is_small(small: &SetBody, large: &SetBody) -> bool {
    small.len() < large.len() / 16
}

/// The members of both sets: those of the small one are put into a copy of the large one, which shares its pages.
pub(crate) fn union_by_search(
    alloc: Global,
    large: &SetBody,
    small: &SetBody,
) -> Result<SetBody, AllocError>
    ensures { IfOk result (λ s. Members s ≡ union_of (Members large.now) (Members small.now)) }
{
    let mut s = large.copy()?;
    add_all(alloc, &mut s, small)?;
    s.learn();
    Ok(s)
}

/// Makes all members of `small` members.
#[tactic(auto, using(crate::proofs::BySearch::union_more))]
fn add_all(alloc: Global, s: &mut SetBody, small: &SetBody) -> Result<(), AllocError>
    ensures { OnOk result (union_of (Members s.new) [] ≡ union_of (Members s.old) (Members small.now)) }
{
    for v in small.members() {
        add(alloc, s, v)?;
    }
    Ok(())
}

/// Makes `v` a member. No member of a set makes another set too deep, so the error is want of memory. The set is then as
/// before.
pub(crate) fn add(alloc: Global, s: &mut SetBody, v: &Value) -> Result<(), AllocError>
    ensures added { OnOk result (Members s.new ≡ insert_datum (datum v.now) (Members s.old)) }
    ensures refused { OnErr result (s.new ≡ s.old) }
{
    match with(alloc, s, v.copy()?) {
        Ok(()) => Ok(()),
        Err(SetFault::Deep | SetFault::NoMemory) => Err(AllocError),
    }
}

/// The members of the large set that aren't in the small one: those of the small one are taken out of a copy of the large
/// one, which shares its pages.
pub(crate) fn minus_by_search(large: &SetBody, small: &SetBody) -> Result<SetBody, AllocError>
    ensures { IfOk result (λ s. Members s ≡ minus_of (Members large.now) (Members small.now)) }
{
    let mut s = large.copy()?;
    remove_all(&mut s, small)?;
    Ok(s)
}

/// Takes all members of `small` out.
#[tactic(auto, using(crate::proofs::BySearch::minus_more, crate::proofs::BySearch::minus_none))]
fn remove_all(s: &mut SetBody, small: &SetBody) -> Result<(), AllocError>
    ensures { OnOk result (Members s.new ≡ minus_of (Members s.old) (Members small.now)) }
{
    for v in small.members() {
        less(s, v)?;
    }
    Ok(())
}

/// Whether each member of the small set is a member of the large one.
pub(crate) fn subset_by_search(small: &SetBody, large: &SetBody) -> bool
    ensures { result ≡ is_subset (Members small.now) (Members large.now) }
{
    for v in small.members() {
        if !has(large, v) {
            return false;
        }
    }
    true
}

/// The members of the small set that are members of the large one, or those that aren't.
pub(crate) fn chosen_by_search(
    alloc: Global,
    small: &SetBody,
    large: &SetBody,
    there: bool,
) -> Result<SetBody, AllocError>
    ensures { IfOk result (λ s. Members s ≡ filter (λ x. if there then has_datum x (Members large.now) else not (has_datum x (Members large.now))) (Members small.now)) }
{
    small.learn();
    let chosen = chosen(alloc, small, large, there)?;
    SetBody::from_rising(alloc, chosen)
}

/// Copies of the members of the small set that are members of the large one, or of those that aren't.
fn chosen(
    alloc: Global,
    small: &SetBody,
    large: &SetBody,
    there: bool,
) -> Result<Vec<Value>, AllocError>
    ensures { IfOk result (λ vs. map datum vs.items ≡ filter (λ x. if there then has_datum x (Members large.now) else not (has_datum x (Members large.now))) (Members small.now)) }
{
    let mut kept = Vec::new(alloc);
    for v in small.members() {
        keep_if(has(large, v) == there, v, &mut kept)?;
    }
    Ok(kept)
}
