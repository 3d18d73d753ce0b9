//! A member comes into a set in its form, or goes out of it, where it stands.

ghost use Rattle.std.specs.Prelude.{◌≡◌, ◌==◌, true, length, IfOk, OnOk, OnErr, IsSome};
ghost use Rattle.setl_value.specs.declared.Value.TheVariants as value;
ghost use Rattle.setl_value.specs.code.Body.{Members};
ghost use Rattle.setl_value.specs.code.DatumOf.{datum};
ghost use Rattle.setl_set.specs.Sets.{has_datum};
ghost use Rattle.setl_base.specs.Base.{find};
ghost use Rattle.setl_rep_bases.specs.Bases.{base_at, IsThere};
ghost use Rattle.setl_rep_bases.specs.Bases.{BasesState};
ghost use Rattle.setl_rep_forms.specs.declared.held.Held.TheVariants as held;
ghost use Rattle.setl_rep_forms.specs.FormOf.{form};
ghost use Rattle.setl_rep_forms.specs.Stands.{images_in, members_at, AreLiving, IsOver};
ghost use Rattle.setl_rep_based.specs.Numbers.{numbers_in};
ghost use Rattle.setl_rep_updates.specs.code.Added.{changed, held_members, AreNumbersPut, IsMemberPut, IsSetHeld, TakesMember};

use setl_remote::Bits;
use setl_rep_based::{Numbers, handle, has, put_in_bits, put_in_table};
use setl_rep_bases::{BaseId, Bases};
use setl_rep_forms::Held;
use setl_set::{less, with};
use setl_sparse::SparseSet;
use setl_value::{SetBody, Value};
use std::alloc::{AllocError, Global};
use std::rc::Rc;

/// Puts a value into a set that is held plain, or as numbers of a base of which the value is a member, where `on` is true, and
/// takes it out where it is false. After an error, which is want of memory or that the value is 500 deep, the set is as before.
pub(crate) fn put_member(
    alloc: Global,
    set: &mut Held,
    y: &Value,
    on: bool,
    bases: &Bases,
) -> Result<(), AllocError>
    requires { TakesMember bases.now (form set.old) (datum y.now) }
    ensures put { OnOk result (IsMemberPut bases.now on (datum y.now) (form set.old) (form set.new)) }
    ensures refused { OnErr result (form set.new ≡ form set.old) }
{
    match set {
        Held::Remote(b, bits) => change_remote(*b, bits, y, on, bases),
        Held::Sparse(b, table) => change_sparse(*b, table, y, on, bases),
        Held::Plain(Value::Set(members)) => change_plain(alloc, members, y, on),
        _ => Ok(()),
    }
}

// The same in a remote set.
fn change_remote(
    b: BaseId,
    bits: &mut Bits,
    y: &Value,
    on: bool,
    bases: &Bases,
) -> Result<(), AllocError>
    requires there { IsThere bases.now b }
    requires living { AreLiving (base_at bases.now b) bits.old }
    requires found { IsSome (find (base_at bases.now b) (datum y.now)) }
    ensures put { OnOk result (IsMemberPut bases.now on (datum y.now) (form (held.Remote b bits.old)) (form (held.Remote b bits.new))) }
    ensures refused { OnErr result (bits.new ≡ bits.old) }
{
    setl_set::laws::operations_have_their_members();
    put_in_remote(b, bits, y, on, bases)?;
    Ok(())
}

// The same in a sparse set.
fn change_sparse(
    b: BaseId,
    shared: &mut Rc<SparseSet>,
    y: &Value,
    on: bool,
    bases: &Bases,
) -> Result<(), AllocError>
    requires there { IsThere bases.now b }
    requires living { AreLiving (base_at bases.now b) shared.old.value }
    requires found { IsSome (find (base_at bases.now b) (datum y.now)) }
    ensures put { OnOk result (IsMemberPut bases.now on (datum y.now) (form (held.Sparse b shared.old)) (form (held.Sparse b shared.new))) }
    ensures refused { OnErr result (shared.new.value ≡ shared.old.value) }
{
    setl_set::laws::operations_have_their_members();
    put_in_sparse(b, shared, y, on, bases)?;
    Ok(())
}

// The same in a plain set.
fn change_plain(alloc: Global, members: &mut SetBody, y: &Value, on: bool) -> Result<(), AllocError>
    ensures put { (bs : BasesState) → OnOk result (IsMemberPut bs on (datum y.now) (form (held.Plain (value.Set members.old))) (form (held.Plain (value.Set members.new)))) }
    ensures refused { OnErr result (members.new ≡ members.old) }
{
    put_in_plain(alloc, members, y, on)?;
    members.learn();
    Ok(())
}

// The same in the numbers of a remote set.
fn put_in_remote(
    b: BaseId,
    bits: &mut Bits,
    y: &Value,
    on: bool,
    bases: &Bases,
) -> Result<(), AllocError>
    requires there { IsThere bases.now b }
    requires living { AreLiving (base_at bases.now b) bits.old }
    requires found { IsSome (find (base_at bases.now b) (datum y.now)) }
    ensures put { OnOk result (AreNumbersPut bases.now b on (datum y.now) bits.old bits.new) }
    ensures refused { OnErr result (bits.new ≡ bits.old) }
{
    let base = bases.at(b);
    put_in_bits(base, bits, handle(base, y), on)
}

// The same in the numbers of a sparse set.
fn put_in_sparse(
    b: BaseId,
    shared: &mut Rc<SparseSet>,
    y: &Value,
    on: bool,
    bases: &Bases,
) -> Result<(), AllocError>
    requires there { IsThere bases.now b }
    requires living { AreLiving (base_at bases.now b) shared.old.value }
    requires found { IsSome (find (base_at bases.now b) (datum y.now)) }
    ensures put { OnOk result (AreNumbersPut bases.now b on (datum y.now) shared.old.value shared.new.value) }
    ensures refused { OnErr result (shared.new.value ≡ shared.old.value) }
{
    let base = bases.at(b);
    put_in_table(base, shared, handle(base, y), on)
}

// The same in a plain set.
fn put_in_plain(alloc: Global, members: &mut SetBody, y: &Value, on: bool) -> Result<(), AllocError>
    ensures put { OnOk result (Members members.new ≡ changed on (datum y.now) (Members members.old)) }
    ensures refused { OnErr result (members.new ≡ members.old) }
{
    if !on {
        return less(members, y);
    }
    match with(alloc, members, y.copy()?) {
        Ok(()) => Ok(()),
        Err(_) => Err(AllocError),
    }
}

/// Whether a set that is held plain or as numbers has a value. It takes no memory.
#[tactic(auto, using(crate::proofs::Removing::remote_members, crate::proofs::Removing::sparse_members, crate::proofs::Removing::plain_members))]
pub(crate) fn has_member(set: &Held, y: &Value, bases: &Bases) -> bool
    requires held { IsSetHeld (form set.now) }
    requires over { IsOver bases.now (form set.now) }
    ensures has { result ≡ has_datum (datum y.now) (held_members bases.now (form set.now)) }
    ensures takes { result ≡ true → TakesMember bases.now (form set.now) (datum y.now) }
{
    match set {
        Held::Remote(b, bits) => has_number(*b, Numbers::Bits(bits), y, bases),
        Held::Sparse(b, table) => has_number(*b, Numbers::Table(table), y, bases),
        Held::Plain(v) => has_in_plain(v, y),
        _ => false,
    }
}

// The same in the numbers of a set.
fn has_number(b: BaseId, numbers: Numbers<'_>, y: &Value, bases: &Bases) -> bool
    requires { IsThere bases.now b }
    ensures has { result ≡ has_datum (datum y.now) (members_at (base_at bases.now b) (numbers_in numbers.entry)) }
    ensures found { result ≡ true → IsSome (find (base_at bases.now b) (datum y.now)) }
{
    setl_rep_forms::laws::sets_have_their_members();
    has(bases.at(b), numbers, y)
}

// The same in a plain value; what is no set has none.
#[tactic(auto, using(crate::proofs::Removing::set_members))]
fn has_in_plain(v: &Value, y: &Value) -> bool
    ensures { result ≡ has_datum (datum y.now) (images_in (datum v.now)) }
{
    match v {
        Value::Set(members) => setl_set::has(members, y),
        _ => false,
    }
}

/// Whether such a set has one member. An error is want of memory.
#[tactic(auto, using(crate::proofs::Removing::remote_members, crate::proofs::Removing::sparse_members, crate::proofs::Removing::plain_members))]
pub(crate) fn is_one(alloc: Global, set: &Held, bases: &Bases) -> Result<bool, AllocError>
    requires held { IsSetHeld (form set.now) }
    requires over { IsOver bases.now (form set.now) }
    ensures { IfOk result (λ t. t ≡ (length (held_members bases.now (form set.now)) == 1)) }
{
    match set {
        Held::Remote(b, bits) => is_one_number(alloc, *b, Numbers::Bits(bits), bases),
        Held::Sparse(b, table) => is_one_number(alloc, *b, Numbers::Table(table), bases),
        Held::Plain(v) => Ok(is_one_plain(v)),
        _ => Ok(false),
    }
}

// The same in the numbers of a set.
fn is_one_number(
    alloc: Global,
    b: BaseId,
    numbers: Numbers<'_>,
    bases: &Bases,
) -> Result<bool, AllocError>
    requires there { IsThere bases.now b }
    requires living { AreLiving (base_at bases.now b) (numbers_in numbers) }
    ensures { IfOk result (λ t. t ≡ (length (members_at (base_at bases.now b) (numbers_in numbers.entry)) == 1)) }
{
    setl_rep_forms::laws::numbers_stand_for_members();
    let _base = bases.at(b);
    match numbers {
        Numbers::Bits(bits) => Ok(bits.count() == 1),
        Numbers::Table(table) => Ok(table.numbers(alloc)?.len() == 1),
    }
}

// The same in a plain value.
#[tactic(auto, using(crate::proofs::Removing::set_members))]
fn is_one_plain(v: &Value) -> bool
    ensures { result ≡ (length (images_in (datum v.now)) == 1) }
{
    match v {
        Value::Set(members) => members.len() == 1,
        _ => false,
    }
}
