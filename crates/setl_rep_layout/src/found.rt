//! Values that may be members of a base or not: their numbers in it.

ghost use Rattle.std.specs.Prelude.{◌≡◌, ◌++◌, ◌∷◌, [], Some, map, IfOk, OnOk};
ghost use Rattle.setl_modes_dump.specs.Dump.{block_number};
ghost use Rattle.setl_rep_layout.specs.Found.{images_at, key, keys, pairs_in, AreNumbersOf, IsWith};
ghost use Rattle.setl_rep_layout.specs.Members.{values_of};
ghost use Rattle.setl_value.specs.code.Body.{Members};
ghost use Rattle.setl_value.specs.code.DatumOf.{datum, lent};

use setl_base::Base;
use setl_map::{images, parts};
use setl_sparse::SparseSet;
use setl_value::{SetBody, Value};
use std::alloc::{AllocError, Global};

/// The number of a value's block; 0 where it is no member of the base. It takes no memory.
pub(crate) fn number(base: &Base, v: &Value) -> u64
    ensures { result ≡ block_number (datum v.now) (values_of base.now) }
{
    match base.find(v) {
        None => 0,
        Some(e) => e.block,
    }
}

/// The numbers of those members of a set that are members of the base; where `first` is true, of the first parts of its
/// pairs in place of its members. The error is want of memory.
pub(crate) fn numbers_in(
    alloc: Global,
    base: &Base,
    s: &SetBody,
    first: bool,
) -> Result<SparseSet, AllocError>
    ensures { IfOk result (λ ns. AreNumbersOf base.now ns (keys first (Members s.now))) }
{
    let mut numbers = SparseSet::new(alloc)?;
    for v in s.members() {
        put(base, key(v, first), &mut numbers)?;
    }
    Ok(numbers)
}

// The value itself, or the first part of a pair.
fn key(v: &Value, first: bool) -> Option<&Value>
    ensures { lent result ≡ key first (datum v.now) }
{
    if !first {
        return Some(v);
    }
    let (x, _) = parts(v)?;
    Some(x)
}

// Puts in the number of a value, if there is a value and it is a member.
fn put(base: &Base, v: Option<&Value>, numbers: &mut SparseSet) -> Result<(), AllocError>
    ensures { OnOk result (IsWith base.now (lent v.entry) numbers.old numbers.new) }
{
    match v {
        None => Ok(()),
        Some(v) => put_value(base, v, numbers),
    }
}

// Puts in the number of a value, if it is a member.
fn put_value(base: &Base, v: &Value, numbers: &mut SparseSet) -> Result<(), AllocError>
    ensures { OnOk result (IsWith base.now (Some (datum v.now)) numbers.old numbers.new) }
{
    base.learn();
    match base.find(v) {
        None => Ok(()),
        Some(e) => numbers.put(e.block),
    }
}

/// The pairs of a set. The error is want of memory.
pub(crate) fn pairs(alloc: Global, f: &SetBody) -> Result<SetBody, AllocError>
    ensures { IfOk result (λ g. Members g ≡ pairs_in (Members f.now)) }
{
    if f.is_map() {
        return f.copy();
    }
    f.learn();
    let mut chosen = Vec::new(alloc);
    for v in f.members() {
        push_pair(v, &mut chosen)?;
    }
    SetBody::from_rising(alloc, chosen)
}

// Adds a value, if it is a pair.
fn push_pair(v: &Value, chosen: &mut Vec<Value>) -> Result<(), AllocError>
    ensures { OnOk result (map datum chosen.new.items ≡ map datum chosen.old.items ++ pairs_in (datum v.now ∷ [])) }
{
    if parts(v).is_some() {
        chosen.push(v.copy()?)?;
    }
    Ok(())
}

/// The images of a point in a map; none where there is no point. The error is want of memory.
pub(crate) fn images_of(
    alloc: Global,
    f: &SetBody,
    x: Option<&Value>,
) -> Result<SetBody, AllocError>
    ensures { IfOk result (λ s. Members s ≡ images_at (lent x.entry) (Members f.now)) }
{
    match x {
        None => SetBody::new(alloc),
        Some(x) => match images(alloc, f, x) {
            Ok(s) => Ok(s),
            Err(_) => Err(AllocError),
        },
    }
}
