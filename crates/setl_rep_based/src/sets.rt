//! Sets of members of a base.

ghost use Rattle.std.specs.Prelude.{◌≡◌, ◌<◌, true, drop, length, slice_get, option_and_then, IfOk, IfSome, Some, IsSome};
ghost use Rattle.std.specs.FinSet as set;
ghost use Rattle.setl_value.specs.code.Body.{Members};
ghost use Rattle.setl_value.specs.code.DatumOf.{datum};
ghost use Rattle.setl_set.specs.Sets.{has_datum};
ghost use Rattle.setl_base.specs.Base.{find, value_of, IsLiving};
ghost use Rattle.setl_rep_forms.specs.Stands.{members_at, parts_at, AreHandles, AreLiving};
ghost use Rattle.setl_rep_based.specs.Found.{AreFound, ArePartsFound};
ghost use Rattle.setl_rep_based.specs.Numbers.{numbers_in};

use crate::numbers::Numbers;
use setl_base::{Base, Elt};
use setl_remote::Bits;
use setl_rep_forms::laws;
use setl_sparse::SparseSet;
use setl_value::{SetBody, TupleBody, Value};
use std::alloc::{AllocError, Global};

/// Whether a value is in the set of the members at these numbers. It takes no memory.
pub fn has(base: &Base, numbers: Numbers<'_>, v: &Value) -> bool
    ensures { result ≡ has_datum (datum v.now) (members_at base.now (numbers_in numbers.entry)) }
{
    laws::sets_have_their_members();
    base.learn();
    match base.find(v) {
        None => false,
        Some(e) => numbers.test(e.block),
    }
}

/// The numbers of the members of a set, which are members of the base. An error is want of memory.
pub fn remote_set(alloc: Global, base: &Base, s: &SetBody) -> Result<Bits, AllocError>
    requires { AreFound base.now (Members s.now) }
    ensures members { IfOk result (λ bits. members_at base.now bits ≡ Members s.now) }
    ensures living { IfOk result (λ bits. AreLiving base.now bits) }
{
    setl_set::laws::rising_lists_agree();
    setl_set::laws::tests_are_exact();
    laws::sets_have_their_members();
    let mut bits = Bits::new(alloc)?;
    s.learn();
    for v in s.members() {
        bits.put(handle(base, v).block, true)?;
    }
    Ok(bits)
}

/// The numbers of the members of a set, which are members of the base. An error is want of memory.
pub fn sparse_set(alloc: Global, base: &Base, s: &SetBody) -> Result<SparseSet, AllocError>
    requires { AreFound base.now (Members s.now) }
    ensures members { IfOk result (λ numbers. members_at base.now numbers ≡ Members s.now) }
    ensures living { IfOk result (λ numbers. AreLiving base.now numbers) }
{
    setl_set::laws::rising_lists_agree();
    setl_set::laws::tests_are_exact();
    laws::sets_have_their_members();
    let mut numbers = SparseSet::new(alloc)?;
    s.learn();
    for v in s.members() {
        numbers.put(handle(base, v).block)?;
    }
    Ok(numbers)
}

/// The handle of a member of the base. It takes no memory.
pub fn handle(base: &Base, v: &Value) -> Elt
    requires { IsSome (find base.now (datum v.now)) }
    ensures { value_of base.now result ≡ Some (datum v.now) }
{
    base.find(v).unwrap()
}

/// The handles of the components of a tuple, which are members of the base. An error is want of memory.
pub fn handles(alloc: Global, base: &Base, t: &TupleBody) -> Result<Vec<Option<Elt>>, AllocError>
    requires { ArePartsFound base.now t.now }
    ensures parts { IfOk result (λ es. parts_at base.now es.items ≡ t.now) }
    ensures living { IfOk result (λ es. AreHandles base.now es.items) }
{
    let mut list = Vec::with_capacity(alloc, t.len())?;
    for i in 0..t.len() {
        list.push(part_handle(base, t, i))?;
    }
    Ok(list)
}

// The handle of the i-th component; None where it is `om`.
fn part_handle(base: &Base, t: &TupleBody, i: usize) -> Option<Elt>
    requires found { ArePartsFound base.now (drop i t.now) }
    requires there { i < length t.now }
    ensures part { slice_get t.now i ≡ Some (option_and_then (value_of base.now) result) }
    ensures living { IfSome result (IsLiving base.now) }
{
    match t.at(i) {
        None => None,
        Some(v) => Some(handle(base, v)),
    }
}
