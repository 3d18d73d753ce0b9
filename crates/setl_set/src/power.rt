//! The sets of all subsets, and of all subsets with n members.

ghost use Rattle.std.specs.Prelude.{◌≡◌, ◌↔◌, ◌<◌, ◌≤◌, ◌∷◌, ◌++◌, [], nat_le, length, map, All, IfOk, IsTrue, OnOk};
ghost use Rattle.std.specs.Bool.{OnTrue, OnFalse};
ghost use Rattle.setl_value.specs.code.Body.{Members};
ghost use Rattle.setl_value.specs.Datum.{depth, set_of};
ghost use Rattle.setl_value.specs.code.DatumOf.{datum};
ghost use Rattle.setl_set.specs.code.Choice.{members_at, ArePlaces, IsFull};
ghost use Rattle.setl_set.specs.code.Merge.{kept_if};
ghost use Rattle.setl_set.specs.Subsets.{pow_of, npow_of, set_of_sets, subsets_between};

use crate::SetFault;
use crate::merge::copy_all;
use setl_value::{SetBody, Value};
use std::alloc::{AllocError, Global};

/// The set of all subsets. `Deep` comes exactly where its depth would be above 500, and that is where `s` has the depth
/// 500, since `s` is a subset of itself. The cost is the number of subsets times their sizes.
pub fn pow(alloc: Global, s: &SetBody) -> Result<SetBody, SetFault>
    ensures all { IfOk result (λ p. Members p ≡ pow_of (Members s.now)) }
    ensures deep { (result ≡ Err SetFault.Deep) ↔ (500 < depth (set_of (pow_of (Members s.now)))) }
{
    sized(alloc, s, 0, s.len())
}

/// The set of all subsets with `n` members, which is empty where `s` has fewer. `Deep` comes exactly where its depth
/// would be above 500. The cost is the number of these subsets times `n`.
pub fn npow(alloc: Global, n: u64, s: &SetBody) -> Result<SetBody, SetFault>
    ensures all { IfOk result (λ p. Members p ≡ npow_of n (Members s.now)) }
    ensures deep { (result ≡ Err SetFault.Deep) ↔ (500 < depth (set_of (npow_of n (Members s.now)))) }
{
    sized(alloc, s, n as usize, n as usize)
}

// The set of all subsets with at least `least` and at most `most` members.
fn sized(alloc: Global, s: &SetBody, least: usize, most: usize) -> Result<SetBody, SetFault>
    requires { least ≤ most }
    ensures all { IfOk result (λ p. Members p ≡ set_of_sets (subsets_between least most (Members s.now))) }
    ensures deep { (result ≡ Err SetFault.Deep) ↔ (500 < depth (set_of (set_of_sets (subsets_between least most (Members s.now))))) }
{
    if is_deep(s, least, most) {
        return Err(SetFault::Deep);
    }
    Ok(subsets(alloc, s, least, most)?)
}

// Whether the set of all these subsets would have a depth above 500. A subset has at most the depth of `s`, and where
// one of them has a member, each member is in one.
fn is_deep(s: &SetBody, least: usize, most: usize) -> bool
    requires { least ≤ most }
    ensures { IsTrue result ↔ (500 < depth (set_of (set_of_sets (subsets_between least most (Members s.now))))) }
{
    s.learn();
    if most == 0 || s.len() < least {
        return false;
    }
    s.depth() == 500
}

// The set of all subsets with at least `least` and at most `most` members, which are found in the canonical order:
// `chosen` has the places of the members of a subset, and the next one has one more place after them, or else a later
// one in place of the last.
fn subsets(alloc: Global, s: &SetBody, least: usize, most: usize) -> Result<SetBody, AllocError>
    requires { depth (set_of (set_of_sets (subsets_between least most (Members s.now)))) ≤ 500 }
    ensures { IfOk result (λ p. Members p ≡ set_of_sets (subsets_between least most (Members s.now))) }
{
    s.learn();
    let size = s.len();
    let mut members = Vec::with_capacity(alloc, size)?;
    copy_all(s.members(), &mut members)?;
    let members = members.as_slice();
    let mut sets = Vec::new(alloc);
    let mut chosen = Vec::new(alloc);
    let mut next = 0;
    add_chosen(alloc, s, members, least, &chosen, &mut sets)?;
    loop {
        if is_full(least, most, size, chosen.len(), next) {
            match chosen.pop() {
                Some(last) => next = last + 1,
                None => return SetBody::from_rising(alloc, sets),
            }
        } else {
            chosen.push(next)?;
            next += 1;
            add_chosen(alloc, s, members, least, &chosen, &mut sets)?;
        }
    }
}

// Whether no subset of the wanted sizes adds places from `next` on to `count` places.
fn is_full(least: usize, most: usize, size: usize, count: usize, next: usize) -> bool
    requires { next ≤ size }
    ensures full { OnTrue result (IsFull least most size count next) }
    ensures open { OnFalse result ((count < most) × (next < size)) }
{
    most <= count || size <= next || size - next < least.saturating_sub(count)
}

// Puts the set of the members at these places at the end, unless it has fewer than `least`.
fn add_chosen(
    alloc: Global,
    s: &SetBody,
    members: &[Value],
    least: usize,
    places: &[usize],
    sets: &mut Vec<Value>,
) -> Result<(), AllocError>
    requires members { map datum members.now ≡ Members s.now }
    requires places { ArePlaces 0 places.now (length (Members s.now)) }
    ensures { OnOk result (map datum sets.new.items ≡ map datum sets.old.items ++ kept_if (nat_le least (length places.now)) (set_of (members_at (Members s.now) places.now) ∷ [])) }
{
    if least <= places.len() {
        let subset = copies_at(alloc, members, places)?;
        s.learn();
        let set = SetBody::from_rising(alloc, subset)?;
        sets.push(Value::Set(set))?;
    }
    Ok(())
}

// Copies of the members at these places.
fn copies_at(alloc: Global, members: &[Value], places: &[usize]) -> Result<Vec<Value>, AllocError>
    requires { All (λ i. i < length members.now) places.now }
    ensures { IfOk result (λ subset. map datum subset.items ≡ members_at (map datum members.now) places.now) }
{
    let mut subset = Vec::with_capacity(alloc, places.len())?;
    for i in places {
        let member = &members[*i];
        subset.push(member.copy()?)?;
    }
    Ok(subset)
}
