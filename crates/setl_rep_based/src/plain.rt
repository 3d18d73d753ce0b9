//! The sets and tuples that numbers and handles of a base stand for.

ghost use Rattle.std.specs.Prelude.{◌≡◌, ◌≤◌, ◌<◌, ◌+◌, ◌++◌, ◌∷◌, [], map, length, option_and_then, IfOk, OnOk, IsSome};
ghost use Rattle.std.specs.List.{filter_map};
ghost use Rattle.std.specs.Option.{option_to_list};
ghost use Rattle.std.specs.FinSet as set;
ghost use Rattle.setl_value.specs.Datum.{depth, set_of, tuple_of};
ghost use Rattle.setl_value.specs.WellFormed.{IsTrimmed};
ghost use Rattle.setl_value.specs.code.Body.{Members};
ghost use Rattle.setl_value.specs.code.DatumOf.{datum, lent, part};
ghost use Rattle.setl_base.specs.Base.{value_of};
ghost use Rattle.setl_rep_forms.specs.Stands.{members_at, parts_at, value_at};
ghost use Rattle.setl_rep_based.specs.Numbers.{numbers_in};

use crate::numbers::Numbers;
use setl_base::{Base, Elt};
use setl_map::gathered;
use setl_rep_forms::laws;
use setl_value::{SetBody, TupleBody, Value, copied};
use std::alloc::{AllocError, Global};

/// The set of the members at these numbers, which is at most 500 deep. An error is want of memory.
pub fn set_of_numbers(
    alloc: Global,
    base: &Base,
    numbers: Numbers<'_>,
) -> Result<SetBody, AllocError>
    requires { depth (set_of (members_at base.now (numbers_in numbers))) ≤ 500 }
    ensures { IfOk result (λ s. Members s ≡ members_at base.now (numbers_in numbers.entry)) }
{
    let list = numbers.list(alloc)?;
    set_at(alloc, base, list.as_slice())
}

// The set of the members at these numbers.
fn set_at(alloc: Global, base: &Base, numbers: &[u64]) -> Result<SetBody, AllocError>
    requires { depth (set_of (members_at base.now (set.from_list numbers.now))) ≤ 500 }
    ensures { IfOk result (λ s. Members s ≡ members_at base.now (set.from_list numbers.now)) }
{
    setl_set::laws::rising_lists_agree();
    setl_set::laws::tests_are_exact();
    setl_set::laws::operations_have_their_members();
    laws::sets_have_their_members();
    let values = values_at(alloc, base, numbers)?;
    gathered(alloc, values)
}

// Copies of the members with these numbers.
fn values_at(alloc: Global, base: &Base, numbers: &[u64]) -> Result<Vec<Value>, AllocError>
    ensures { IfOk result (λ vs. map datum vs.items ≡ filter_map (value_at base.now) numbers.now) }
{
    let mut values = Vec::with_capacity(alloc, numbers.len())?;
    for n in numbers {
        push_member(base, *n, &mut values)?;
    }
    Ok(values)
}

// Puts a copy of the member of this number at the end.
fn push_member(base: &Base, n: u64, values: &mut Vec<Value>) -> Result<(), AllocError>
    ensures { OnOk result (map datum values.new.items ≡ map datum values.old.items ++ option_to_list (value_at base.now n)) }
{
    if let Some(v) = member(base, n) {
        values.push(v.copy()?)?;
    }
    Ok(())
}

/// The member of this number; None where no living block has it. It takes no memory.
pub fn member(base: &Base, n: u64) -> Option<&Value>
    ensures { lent result ≡ value_at base.now n }
{
    let e = base.elt(n)?;
    base.value(e)
}

/// The tuple of the members with these handles. An error is want of memory.
pub fn tuple_of_handles(
    alloc: Global,
    base: &Base,
    list: &[Option<Elt>],
) -> Result<TupleBody, AllocError>
    requires trimmed { IsTrimmed (parts_at base.now list.now) }
    requires shallow { depth (tuple_of (parts_at base.now list.now)) ≤ 500 }
    ensures { IfOk result (λ t. t ≡ parts_at base.now list.now) }
{
    let mut parts = Vec::with_capacity(alloc, list.len())?;
    for e in list {
        parts.push(part_of(base, e)?)?;
    }
    let tuple = TupleBody::of(alloc, parts)?;
    Ok(tuple)
}

// A copy of the member with this handle, or `om` where there is none.
fn part_of(base: &Base, e: &Option<Elt>) -> Result<Option<Value>, AllocError>
    ensures { IfOk result (λ p. part p ≡ option_and_then (value_of base.now) e.now) }
{
    match e {
        None => Ok(None),
        Some(e) => copied(base.value(*e)),
    }
}
