//! Union, difference, intersection and symmetric difference: by one merge of two rising lists, or by searches where one
//! set is much smaller.

ghost use Rattle.std.specs.Prelude.{◌≡◌, ◌∷◌, ◌++◌, [], map, IfOk, OnOk};
ghost use Rattle.setl_value.specs.code.Body.{Members};
ghost use Rattle.setl_value.specs.code.DatumOf.{datum};
ghost use Rattle.setl_set.specs.code.Merge.{IsMerge, kept_if, front};
ghost use Rattle.setl_set.specs.Sets.{union_of, minus_of, meet_of, symm_of};

use crate::searching::{chosen_by_search, is_small, minus_by_search, union_by_search};
use setl_value::{MemberIter, SetBody, Value};
use std::alloc::{AllocError, Global};
use std::cmp::Ordering;

/// The members of `a` or `b`.
pub fn union(alloc: Global, a: &SetBody, b: &SetBody) -> Result<SetBody, AllocError>
    ensures { IfOk result (λ s. Members s ≡ union_of (Members a.now) (Members b.now)) }
{
    if is_small(b, a) {
        return union_by_search(alloc, a, b);
    }
    if is_small(a, b) {
        return union_by_search(alloc, b, a);
    }
    merge(alloc, a, b, UNION)
}

/// The members of `a` that aren't in `b`.
pub fn minus(alloc: Global, a: &SetBody, b: &SetBody) -> Result<SetBody, AllocError>
    ensures { IfOk result (λ s. Members s ≡ minus_of (Members a.now) (Members b.now)) }
{
    a.learn();
    if is_small(a, b) {
        return chosen_by_search(alloc, a, b, false);
    }
    if is_small(b, a) {
        return minus_by_search(a, b);
    }
    merge(alloc, a, b, MINUS)
}

/// The members of both `a` and `b`.
pub fn meet(alloc: Global, a: &SetBody, b: &SetBody) -> Result<SetBody, AllocError>
    ensures { IfOk result (λ s. Members s ≡ meet_of (Members a.now) (Members b.now)) }
{
    a.learn();
    b.learn();
    if is_small(a, b) {
        return chosen_by_search(alloc, a, b, true);
    }
    if is_small(b, a) {
        return chosen_by_search(alloc, b, a, true);
    }
    merge(alloc, a, b, MEET)
}

/// The members of exactly one of `a` and `b`.
pub fn symm(alloc: Global, a: &SetBody, b: &SetBody) -> Result<SetBody, AllocError>
    ensures { IfOk result (λ s. Members s ≡ symm_of (Members a.now) (Members b.now)) }
{
    if is_small(a, b) || is_small(b, a) {
        let left = minus(alloc, a, b)?;
        let right = minus(alloc, b, a)?;
        return union(alloc, &left, &right);
    }
    merge(alloc, a, b, SYMM)
}

// Which members of two sets a merge keeps: those of the left set alone, of both, of the right set alone.
#[derive(Clone, Copy)]
struct Keep {
    left: bool,
    both: bool,
    right: bool,
}

const UNION: Keep = Keep {
    left: true,
    both: true,
    right: true,
};

const MINUS: Keep = Keep {
    left: true,
    both: false,
    right: false,
};

const MEET: Keep = Keep {
    left: false,
    both: true,
    right: false,
};

const SYMM: Keep = Keep {
    left: true,
    both: false,
    right: true,
};

// The members of the two sets that are kept. Its cost is the sum of their sizes.
fn merge(alloc: Global, a: &SetBody, b: &SetBody, keep: Keep) -> Result<SetBody, AllocError>
    ensures { IfOk result (λ s. IsMerge keep (Members a.now) (Members b.now) (Members s)) }
{
    a.learn();
    b.learn();
    let mut kept = Vec::new(alloc);
    let mut left = a.members();
    let mut right = b.members();
    let mut x = left.next();
    let mut y = right.next();
    while let (Some(v), Some(w)) = (x, y) {
        match v.compare(w) {
            Ordering::Less => {
                keep_if(keep.left, v, &mut kept)?;
                x = left.next();
            }
            Ordering::Equal => {
                keep_if(keep.both, v, &mut kept)?;
                x = left.next();
                y = right.next();
            }
            Ordering::Greater => {
                keep_if(keep.right, w, &mut kept)?;
                y = right.next();
            }
        }
    }
    keep_rest(keep.left, x, left, &mut kept)?;
    keep_rest(keep.right, y, right, &mut kept)?;
    SetBody::from_rising(alloc, kept)
}

// Puts a copy of `v` at the end, if it is kept.
pub(crate) fn keep_if(keep: bool, v: &Value, kept: &mut Vec<Value>) -> Result<(), AllocError>
    ensures { OnOk result (map datum kept.new.items ≡ map datum kept.old.items ++ kept_if keep (datum v.now ∷ [])) }
{
    if keep {
        kept.push(v.copy()?)?;
    }
    Ok(())
}

// Puts copies of `first` and of what comes after it at the end, if they are kept.
fn keep_rest(
    keep: bool,
    first: Option<&Value>,
    rest: MemberIter<'_>,
    kept: &mut Vec<Value>,
) -> Result<(), AllocError>
    ensures { OnOk result (map datum kept.new.items ≡ map datum kept.old.items ++ kept_if keep (front first.entry rest.entry)) }
{
    if let Some(v) = first {
        keep_if(keep, v, kept)?;
        if keep {
            copy_all(rest, kept)?;
        }
    }
    Ok(())
}

// Puts copies of all members that are left at the end.
pub(crate) fn copy_all(rest: MemberIter<'_>, kept: &mut Vec<Value>) -> Result<(), AllocError>
    ensures { OnOk result (map datum kept.new.items ≡ map datum kept.old.items ++ rest.entry) }
{
    for v in rest {
        kept.push(v.copy()?)?;
    }
    Ok(())
}
