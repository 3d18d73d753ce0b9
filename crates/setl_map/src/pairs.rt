//! The pairs of a map: their parts, and where those of one point stand.

ghost use Rattle.std.specs.Prelude.{◌≡◌, ◌<◌, ◌+◌, ◌++◌, true, false, if◌then◌else◌, take, drop, map, None, IfOk, OnOk, IsTrue};
ghost use Rattle.std.specs.List.{filter_map, prefix_len};
ghost use Rattle.std.specs.Option.{option_map, option_to_list};
ghost use Rattle.setl_value.specs.code.Body.{Members};
ghost use Rattle.setl_value.specs.Datum.{depth};
ghost use Rattle.setl_value.specs.code.DatumOf.{datum, lent};
ghost use Rattle.setl_value.specs.Pairs.{is_map, pair, pair_parts};
ghost use Rattle.setl_value.specs.code.Places.{HasPlace, rank};
ghost use Rattle.setl_map.specs.Maps.{image};
ghost use Rattle.setl_map.specs.code.Points.{begins, is_at, BeginsAt, IsBound, part_at, pair_data};

use setl_value::{Cursor, MemberIter, SetBody, TupleBody, Value};
use std::alloc::{AllocError, Global};

/// The two parts of a pair, and None for what is no pair.
pub fn parts(v: &Value) -> Option<(&Value, &Value)>
    ensures { option_map pair_data result ≡ pair_parts (datum v.now) }
{
    let Value::Tuple(t) = v else {
        return None;
    };
    if t.len() != 2 {
        return None;
    }
    let x = t.at(0)?;
    let y = t.at(1)?;
    Some((x, y))
}

// Whether a value is a pair whose first part is `x`.
fn is_at(v: &Value, x: &Value) -> bool
    ensures { result ≡ is_at (datum x.now) (datum v.now) }
{
    match parts(v) {
        None => false,
        Some((a, _)) => x.compare(a).is_eq(),
    }
}

// The second part of a pair of `x`, and None for what is no such pair.
fn image_at<'a>(v: &'a Value, x: &Value) -> Option<&'a Value>
    ensures { lent result ≡ (if is_at (datum x.now) (datum v.now) then part_at false (datum v.now) else None) }
{
    let (a, y) = parts(v)?;
    if x.compare(a).is_eq() { Some(y) } else { None }
}

/// The one image of `x` in a map, and None where it has none or several. Only the first two pairs that may be pairs of
/// `x` are looked at.
pub(crate) fn only_image<'a>(f: &'a SetBody, x: &Value) -> Option<&'a Value>
    requires { IsTrue (is_map (Members f.now)) }
    ensures { lent result ≡ image (datum x.now) (Members f.now) }
{
    image_from(f, f.search_point(x), x)
}

/// The same, of which the place is known where the pairs of `x` begin, or else would stand.
pub(crate) fn image_from<'a>(f: &'a SetBody, from: Cursor, x: &Value) -> Option<&'a Value>
    requires map { IsTrue (is_map (Members f.now)) }
    requires place { HasPlace f.now from }
    requires from { BeginsAt (datum x.now) (Members f.now) (rank f.now from) }
    ensures { lent result ≡ image (datum x.now) (Members f.now) }
{
    f.learn();
    let mut rest = f.members_from(from);
    let Some(first) = rest.next() else {
        return None;
    };
    let y = image_at(first, x)?;
    if begins(rest, x) { None } else { Some(y) }
}

// Whether the first of some members is a pair of `x`.
fn begins(members: MemberIter<'_>, x: &Value) -> bool
    ensures { result ≡ begins (datum x.now) members.entry }
{
    let mut members = members;
    match members.next() {
        Some(v) => is_at(v, x),
        None => false,
    }
}

/// Where the pairs with the first part `x` begin, and how many they are.
pub(crate) fn span(f: &SetBody, x: &Value) -> (Cursor, usize)
    requires { IsTrue (is_map (Members f.now)) }
    ensures place { HasPlace f.now result.0 }
    ensures from { IsBound false (datum x.now) (Members f.now) (rank f.now result.0) }
    ensures to { IsBound true (datum x.now) (Members f.now) (rank f.now result.0 + result.1) }
{
    let from = f.search_point(x);
    (from, count_from(f, from, x))
}

/// How many pairs with the first part `x` there are, where they begin at a place.
pub(crate) fn count_from(f: &SetBody, from: Cursor, x: &Value) -> usize
    requires map { IsTrue (is_map (Members f.now)) }
    requires place { HasPlace f.now from }
    requires from { BeginsAt (datum x.now) (Members f.now) (rank f.now from) }
    ensures from { IsBound false (datum x.now) (Members f.now) (rank f.now from) }
    ensures to { IsBound true (datum x.now) (Members f.now) (rank f.now from + result) }
{
    f.learn();
    leading(f, from, x)
}

// How many pairs of `x` stand at a place, one after the other.
fn leading(f: &SetBody, from: Cursor, x: &Value) -> usize
    requires { HasPlace f.now from }
    ensures { result ≡ prefix_len (is_at (datum x.now)) (drop (rank f.now from) (Members f.now)) }
{
    let size = f.len();
    let mut rest = f.members_from(from);
    for count in 0..size {
        let Some(v) = rest.next() else {
            return count;
        };
        if !is_at(v, x) {
            return count;
        }
    }
    size
}

/// Copies of the first parts of the first `count` members, or else of their second parts.
pub(crate) fn parts_of(
    alloc: Global,
    members: MemberIter<'_>,
    count: usize,
    first: bool,
) -> Result<Vec<Value>, AllocError>
    ensures { IfOk result (λ vs. map datum vs.items ≡ filter_map (part_at first) (take count members.entry)) }
{
    let mut rest = members;
    let mut chosen = Vec::with_capacity(alloc, count)?;
    for _ in 0..count {
        let Some(v) = rest.next() else {
            return Ok(chosen);
        };
        push_part(first, v, &mut chosen)?;
    }
    Ok(chosen)
}

// Puts a copy of the first part of a pair at the end, or else of the second part.
fn push_part(first: bool, v: &Value, chosen: &mut Vec<Value>) -> Result<(), AllocError>
    ensures { OnOk result (map datum chosen.new.items ≡ map datum chosen.old.items ++ option_to_list (part_at first (datum v.now))) }
{
    if let Some((x, y)) = parts(v) {
        let part = if first { x } else { y };
        chosen.push(part.copy()?)?;
    }
    Ok(())
}

/// The pair of two values, which are at most 499 deep.
pub(crate) fn make_pair(alloc: Global, x: Value, y: Value) -> Result<Value, AllocError>
    requires { (depth (datum x) < 500) × (depth (datum y) < 500) }
    ensures { IfOk result (λ p. datum p ≡ pair (datum x) (datum y)) }
{
    let mut parts = Vec::with_capacity(alloc, 2)?;
    parts.push(Some(x))?;
    parts.push(Some(y))?;
    Ok(Value::Tuple(TupleBody::of(alloc, parts)?))
}
