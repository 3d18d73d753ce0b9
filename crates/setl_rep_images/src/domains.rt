//! `domain f`.

ghost use Rattle.std.specs.Prelude.{◌≡◌, ℕ, ◌||◌, ◌&&◌, nat_eq, is_some, IfOk, IfSome, OnOk, [], ◌∷◌};
ghost use Rattle.std.specs.List.{list_any};
ghost use Rattle.std.specs.FinSet as set;
ghost use Rattle.setl_remote.specs.Slots.{slot_at};
ghost use Rattle.setl_sparse.specs.Entries.{content_at};
ghost use Rattle.setl_operators_table.specs.declared.Operator.TheVariants.{Domain};
ghost use Rattle.setl_operators_table.specs.Operators.{op_of};
ghost use Rattle.setl_operators_table.specs.Outcome.{Gives};
ghost use Rattle.setl_rep_forms.specs.FormOf.{form};
ghost use Rattle.setl_rep_forms.specs.Stands.{stands, IsOver};
ghost use Rattle.setl_rep_maps.specs.Contents.{table_of, IsDomain};

use setl_remote::{Bits, Slots};
use setl_rep_bases::Bases;
use setl_rep_forms::Held;
use setl_rep_maps::learn;
use setl_sparse::{SparseMap, SparseSet};
use std::alloc::{AllocError, Global};
use std::rc::Rc;

/// `domain f`: the set of the points of a map that is held as a table, as their numbers on the base of the map and in its
/// layout; None exactly for other forms. Nothing is charged.
///
/// An error is want of memory. The cost is near linear in the number of points, for a remote map in the greatest number that
/// had a content.
pub fn domain(alloc: Global, f: &Held, bases: &Bases) -> Result<Option<Held>, AllocError>
    requires { IsOver bases.now (form f.now) }
    ensures value { IfOk result (λ o. IfSome o (λ h. (left : ℕ) → op_of Domain (stands bases.now (form f.now) ∷ []) left ≡ Gives (stands bases.now (form h)) 0)) }
    ensures over { IfOk result (λ o. IfSome o (λ h. IsOver bases.now (form h))) }
    ensures form { IfOk result (λ o. IfSome o (λ h. IsDomain (form f.now) (form h))) }
    ensures kernel { IfOk result (λ o. is_some o ≡ is_some (table_of (form f.now))) }
{
    setl_rep_maps::laws::numbers_are_domains();
    learn(f);
    points(alloc, f)
}

// The numbers of the points of a map.
fn points(alloc: Global, f: &Held) -> Result<Option<Held>, AllocError>
    ensures form { IfOk result (λ o. IfSome o (λ h. IsDomain (form f.now) (form h))) }
    ensures kernel { IfOk result (λ o. is_some o ≡ is_some (table_of (form f.now))) }
{
    setl_rep_tables::laws::slots_are_keyed();
    match f {
        Held::RemoteMap(b, _, slots) => {
            let numbers = remote_points(alloc, slots)?;
            Ok(Some(Held::Remote(*b, numbers)))
        }
        Held::SparseMap(b, _, table) => {
            let numbers = sparse_points(alloc, table)?;
            let shared = Rc::new(alloc, numbers)?;
            Ok(Some(Held::Sparse(*b, shared)))
        }
        Held::Om => Ok(None),
        Held::Plain(_) => Ok(None),
        Held::Elt(_, _) => Ok(None),
        Held::Remote(_, _) => Ok(None),
        Held::Sparse(_, _) => Ok(None),
        Held::EltTuple(_, _) => Ok(None),
    }
}

// The numbers that have a content.
fn remote_points(alloc: Global, slots: &Slots<Held>) -> Result<Bits, AllocError>
    ensures { IfOk result (λ ns. (n : ℕ) → set.contains ns n ≡ is_some (slot_at slots.now n)) }
{
    let mut numbers = Bits::new(alloc)?;
    put_point(slots, 0, &mut numbers)?;
    for n in 0..slots.len() {
        put_point(slots, n + 1, &mut numbers)?;
    }
    Ok(numbers)
}

// Puts a number in where it has a content.
fn put_point(slots: &Slots<Held>, n: u64, numbers: &mut Bits) -> Result<(), AllocError>
    ensures { OnOk result ((q : ℕ) → set.contains numbers.new q ≡ ((nat_eq n q && is_some (slot_at slots.now n)) || set.contains numbers.old q)) }
{
    if slots.get(n).is_some() {
        numbers.put(n, true)?;
    }
    Ok(())
}

// The numbers that have a content.
fn sparse_points(alloc: Global, table: &SparseMap<Held>) -> Result<SparseSet, AllocError>
    ensures { IfOk result (λ ns. (n : ℕ) → set.contains ns n ≡ is_some (content_at table.now n)) }
{
    let numbers = table.numbers(alloc)?;
    set_of(alloc, numbers.as_slice())
}

// The set of the numbers of a list.
fn set_of(alloc: Global, list: &[u64]) -> Result<SparseSet, AllocError>
    ensures { IfOk result (λ ns. (n : ℕ) → set.contains ns n ≡ list_any (nat_eq n) list.now) }
{
    let mut numbers = SparseSet::new(alloc)?;
    for n in list {
        numbers.put(*n)?;
    }
    Ok(numbers)
}
