//! The plain value of a form.

ghost use Rattle.std.specs.Prelude.{◌≡◌, ◌≤◌, ◌++◌, map, IfOk, OnOk};
ghost use Rattle.setl_value.specs.Datum.{depth, part_depth, set_of};
ghost use Rattle.setl_value.specs.code.DatumOf.{datum, part};
ghost use Rattle.setl_rep_bases.specs.Bases.{base_at, IsThere};
ghost use Rattle.setl_rep_forms.specs.FormOf.{form};
ghost use Rattle.setl_rep_forms.specs.Stands.{pairs_in, pairs_of, stands, value_at, AreOver, IsOver};
ghost use Rattle.setl_set.specs.Sets.{set_from};
ghost use Rattle.setl_value.specs.code.Body.{Members};
ghost use Rattle.setl_rep_plain.specs.Entries.{remote_entries, sparse_entries, IsEntryOver};

use crate::pairs::push_pairs;
use setl_map::gathered;
use setl_remote::Slots;
use setl_rep_based::{Numbers, member, set_of_numbers, tuple_of_handles};
use setl_rep_bases::{BaseId, Bases};
use setl_rep_forms::Held;
use setl_sparse::SparseMap;
use setl_value::{SetBody, Value, copied};
use std::alloc::{AllocError, Global};

/// The plain value, or `om`, that a form stands for, which is at most 500 deep. An error is want of memory.
///
/// A plain value is shared. Otherwise its cost is near linear in the size of the value, and for a remote map also in the
/// greatest number that has a content.
#[cycle(plain)]
pub fn plain(alloc: Global, h: &Held, bases: &Bases) -> Result<Option<Value>, AllocError>
    requires over { IsOver bases.now (form h.now) }
    requires shallow { part_depth (stands bases.now (form h.now)) ≤ 500 }
    ensures { IfOk result (λ v. part v ≡ stands bases.now (form h.now)) }
{
    match h {
        Held::Om => Ok(None),
        Held::Plain(v) => Ok(Some(v.copy()?)),
        Held::Elt(b, e) => copied(bases.at(*b).value(*e)),
        Held::Remote(b, bits) => {
            let s = set_of_numbers(alloc, bases.at(*b), Numbers::Bits(bits))?;
            Ok(Some(Value::Set(s)))
        }
        Held::Sparse(b, numbers) => {
            let s = set_of_numbers(alloc, bases.at(*b), Numbers::Table(numbers))?;
            Ok(Some(Value::Set(s)))
        }
        Held::EltTuple(b, list) => {
            let t = tuple_of_handles(alloc, bases.at(*b), list.as_slice())?;
            Ok(Some(Value::Tuple(t)))
        }
        Held::RemoteMap(b, many, slots) => {
            let pairs = remote_pairs(alloc, *b, *many, slots, bases)?;
            Ok(Some(Value::Set(set_of_pairs(alloc, pairs)?)))
        }
        Held::SparseMap(b, many, entries) => {
            let pairs = sparse_pairs(alloc, *b, *many, entries, bases)?;
            Ok(Some(Value::Set(set_of_pairs(alloc, pairs)?)))
        }
    }
}

// The set of these.
fn set_of_pairs(alloc: Global, pairs: Vec<Value>) -> Result<SetBody, AllocError>
    requires { depth (set_of (set_from (map datum pairs.items))) ≤ 500 }
    ensures { IfOk result (λ s. Members s ≡ set_from (map datum pairs.items)) }
{
    setl_set::laws::tests_are_exact();
    setl_set::laws::operations_have_their_members();
    gathered(alloc, pairs)
}

// The pairs of a remote map, number by number.
#[cycle(plain)]
fn remote_pairs(
    alloc: Global,
    b: BaseId,
    many: bool,
    slots: &Slots<Held>,
    bases: &Bases,
) -> Result<Vec<Value>, AllocError>
    requires there { IsThere bases.now b }
    requires over { AreOver bases.now (base_at bases.now b) many (remote_entries slots.now) }
    requires shallow { depth (set_of (set_from (pairs_in bases.now (base_at bases.now b) many (remote_entries slots.now)))) ≤ 500 }
    ensures { IfOk result (λ ps. map datum ps.items ≡ pairs_in bases.now (base_at bases.now b) many (remote_entries slots.now)) }
{
    setl_set::laws::tests_are_exact();
    setl_set::laws::operations_have_their_members();
    let mut pairs = Vec::new(alloc);
    for n in 0..slots.len() {
        if let Some(content) = slots.get(n + 1) {
            push_entry(alloc, b, many, n + 1, content, bases, &mut pairs)?;
        }
    }
    Ok(pairs)
}

// The pairs of a sparse map, in the order of its entries.
#[cycle(plain)]
fn sparse_pairs(
    alloc: Global,
    b: BaseId,
    many: bool,
    entries: &SparseMap<Held>,
    bases: &Bases,
) -> Result<Vec<Value>, AllocError>
    requires there { IsThere bases.now b }
    requires over { AreOver bases.now (base_at bases.now b) many (sparse_entries entries.now) }
    requires shallow { depth (set_of (set_from (pairs_in bases.now (base_at bases.now b) many (sparse_entries entries.now)))) ≤ 500 }
    ensures { IfOk result (λ ps. map datum ps.items ≡ pairs_in bases.now (base_at bases.now b) many (sparse_entries entries.now)) }
{
    setl_set::laws::tests_are_exact();
    setl_set::laws::operations_have_their_members();
    let mut pairs = Vec::new(alloc);
    for i in 0..entries.len() {
        let (n, content) = entries.at(i);
        push_entry(alloc, b, many, n, content, bases, &mut pairs)?;
    }
    Ok(pairs)
}

// Puts the pairs of a number with its content at the end.
#[cycle(plain)]
fn push_entry(
    alloc: Global,
    b: BaseId,
    many: bool,
    n: u64,
    content: &Held,
    bases: &Bases,
    pairs: &mut Vec<Value>,
) -> Result<(), AllocError>
    requires there { IsThere bases.now b }
    requires over { IsEntryOver bases.now (base_at bases.now b) many n (form content.now) }
    requires shallow { depth (set_of (pairs_of many (value_at (base_at bases.now b) n) (stands bases.now (form content.now)))) ≤ 500 }
    ensures { OnOk result (map datum pairs.new.items ≡ map datum pairs.old.items ++ pairs_of many (value_at (base_at bases.now b) n) (stands bases.now (form content.now))) }
{
    let image = plain(alloc, content, bases)?;
    match (member(bases.at(b), n), image) {
        (Some(x), Some(y)) => push_pairs(alloc, many, x, &y, pairs),
        _ => Ok(()),
    }
}
