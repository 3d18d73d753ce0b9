//! The arguments of a map with their images.

ghost use Rattle.std.specs.Prelude.{◌≡◌, ◌∷◌, ◌<◌, ◌≤◌, ◌+◌, ◌==◌, true, drop, length, slice_get, if◌then◌else◌, Some, None, IfOk, OnOk, OnErr};
ghost use Rattle.std.specs.List.{prefix_len};
ghost use Rattle.setl_value.specs.code.Body.{Members};
ghost use Rattle.setl_value.specs.code.DatumOf.{datum, lent};
ghost use Rattle.setl_value.specs.Pairs.{is_map, pair};
ghost use Rattle.setl_map.specs.code.Points.{is_at};
ghost use Rattle.setl_model.specs.Core.{Two};
ghost use Rattle.setl_store_iterator.specs.Items.{plain_item, is_pair};
ghost use Rattle.setl_store_iterator.specs.Points.{points};
ghost use Rattle.setl_store_iterator.specs.Rests.{Stands};

use crate::iterator::Item;
use crate::rests::{MemberAt, after, member_at};
use setl_value::{SetBody, Value, copied};
use std::alloc::AllocError;

/// Takes the first of the arguments that are left, with its image: `om` where it has several.
pub(crate) fn next_point(f: &SetBody, at: &mut MemberAt) -> Result<Item, AllocError>
    requires inside { at.old.index < length (Members f.now) }
    requires stands { Stands f.now at.old }
    requires map { is_map (Members f.now) ≡ true }
    ensures first { IfOk result (λ item. points (drop at.old.index (Members f.now)) ≡ plain_item item ∷ points (drop at.new.index (Members f.now))) }
    ensures kind { IfOk result (λ item. is_pair item ≡ true) }
    ensures stands { OnOk result (Stands f.now at.new) }
    ensures refused { OnErr result (at.new ≡ at.old) }
{
    f.learn();
    let (x, y) = parts(f, *at);
    let end = end_of(f, *at, x);
    let item = point(x, only(y, end.index - at.index))?;
    *at = end;
    Ok(item)
}

// An argument with its image.
fn point(x: &Value, image: Option<&Value>) -> Result<Item, AllocError>
    ensures point { IfOk result (λ item. plain_item item ≡ Two (Some (datum x.now)) (lent image.entry)) }
    ensures kind { IfOk result (λ item. is_pair item ≡ true) }
{
    let argument = x.copy()?;
    Ok(Item::Two {
        argument: Some(argument),
        image: copied(image)?,
    })
}

// An image, where an argument has no other.
fn only(y: &Value, count: usize) -> Option<&Value>
    ensures { lent result ≡ (if count == 1 then Some (datum y.now) else None) }
{
    if count == 1 { Some(y) } else { None }
}

// The two parts of the pair at a place of a map.
fn parts(f: &SetBody, at: MemberAt) -> (&Value, &Value)
    requires inside { at.index < length (Members f.now) }
    requires stands { Stands f.now at }
    requires map { is_map (Members f.now) ≡ true }
    ensures { slice_get (Members f.now) at.index ≡ Some (pair (datum result.0.now) (datum result.1.now)) }
{
    let Value::Tuple(t) = member_at(f, at) else {
        unreachable!();
    };
    let Some(x) = t.at(0) else {
        unreachable!();
    };
    let Some(y) = t.at(1) else {
        unreachable!();
    };
    (x, y)
}

// Where the pairs of `x` end that stand at a place of a map, one after the other.
fn end_of(f: &SetBody, from: MemberAt, x: &Value) -> MemberAt
    requires inside { from.index < length (Members f.now) }
    requires stands { Stands f.now from }
    requires map { is_map (Members f.now) ≡ true }
    ensures end { result.index ≡ from.index + prefix_len (is_at (datum x.now)) (drop from.index (Members f.now)) }
    ensures stands { Stands f.now result }
{
    let mut end = from;
    while end.index < f.len() {
        let (a, _) = parts(f, end);
        if !x.compare(a).is_eq() {
            return end;
        }
        end = after(f, end);
    }
    end
}
