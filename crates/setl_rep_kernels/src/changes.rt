//! One member more or less in a set in its form.

ghost use Rattle.std.specs.Prelude.{◌≡◌, ℕ, ◌≤◌, nat_le, true, false, IfOk, OnErr, ◌∷◌, []};
ghost use Rattle.setl_value.specs.Datum.{depth, part_depth, set_of};
ghost use Rattle.setl_base.specs.Base.{value_of, IsLiving};
ghost use Rattle.setl_operators_table.specs.Operators.{op_of};
ghost use Rattle.setl_rep_bases.specs.Bases.{base_at, IsThere};
ghost use Rattle.setl_rep_forms.specs.FormOf.{form};
ghost use Rattle.setl_rep_forms.specs.Stands.{members_at, stands, AreLiving, IsOver};
ghost use Rattle.setl_rep_kernels.specs.Kernels.{change_of, has_change, ChangeTells, IsAlike};
ghost use Rattle.setl_rep_kernels.specs.Changes.{IsChange, IsPlan, IsPutPlan};

use crate::parts::place_in;
use setl_base::{Base, Elt};
use setl_operators_table::OpFault;
use setl_remote::Bits;
use setl_rep_based::{put_in_bits, put_in_table};
use setl_rep_bases::{BaseId, Bases};
use setl_rep_forms::{Held, laws};
use setl_sparse::SparseSet;
use std::rc::Rc;

/// What is done to the numbers of a set.
enum Plan {
    NoKernel,
    Stays,
    Puts(Elt),
}

/// `s with x` where `on` is true, and otherwise `s less x`, in place: a remote or sparse set takes a member of its base in,
/// and any value out, that is held plain or as an element. Ok(false) exactly where the operands have other forms, or what
/// is to be put in is no member. Nothing is charged. Where nobody else holds the set, the cost is independent of its size.
///
/// The error is Deep where the set would be more than 500 deep, or want of memory, and then the set is as before.
pub fn change(s: &mut Held, x: &Held, on: bool, bases: &Bases) -> Result<bool, OpFault>
    requires set { IsOver bases.now (form s.old) }
    requires shallow { part_depth (stands bases.now (form s.old)) ≤ 500 }
    requires element { IsOver bases.now (form x.now) }
    ensures value { (left : ℕ) → ChangeTells result (op_of (change_of on) (stands bases.now (form s.old) ∷ stands bases.now (form x.now) ∷ []) left) (stands bases.now (form s.new)) }
    ensures kernel { IfOk result (λ t. t ≡ has_change bases.now on (form s.old) (form x.now)) }
    ensures over { IsOver bases.now (form s.new) }
    ensures shallow { part_depth (stands bases.now (form s.new)) ≤ 500 }
    ensures form { IsAlike (form s.old) (form s.new) }
    ensures none { IfOk result (λ t. t ≡ false → form s.new ≡ form s.old) }
    ensures refused { OnErr result (form s.new ≡ form s.old) }
{
    match s {
        Held::Remote(b, bits) => change_bits(*b, bits, x, on, bases),
        Held::Sparse(b, table) => change_table(*b, table, x, on, bases),
        Held::Om => Ok(false),
        Held::Plain(_) => Ok(false),
        Held::Elt(_, _) => Ok(false),
        Held::RemoteMap(_, _, _) => Ok(false),
        Held::SparseMap(_, _, _) => Ok(false),
        Held::EltTuple(_, _) => Ok(false),
    }
}

// The same in the numbers of a remote set.
fn change_bits(
    b: BaseId,
    bits: &mut Bits,
    x: &Held,
    on: bool,
    bases: &Bases,
) -> Result<bool, OpFault>
    requires there { IsThere bases.now b }
    requires living { AreLiving (base_at bases.now b) bits.old }
    requires shallow { depth (set_of (members_at (base_at bases.now b) bits.old)) ≤ 500 }
    requires element { IsOver bases.now (form x.now) }
    ensures { IsChange bases.now b (form x.now) on bits.old bits.new result }
{
    laws::sets_have_their_members();
    let _base = bases.at(b);
    match plan_of(b, x, on, bases)? {
        Plan::NoKernel => Ok(false),
        Plan::Stays => Ok(true),
        Plan::Puts(e) => {
            put_in_bits(bases.at(b), bits, e, on)?;
            Ok(true)
        }
    }
}

// The same in the numbers of a sparse set.
fn change_table(
    b: BaseId,
    shared: &mut Rc<SparseSet>,
    x: &Held,
    on: bool,
    bases: &Bases,
) -> Result<bool, OpFault>
    requires there { IsThere bases.now b }
    requires living { AreLiving (base_at bases.now b) shared.old.value }
    requires shallow { depth (set_of (members_at (base_at bases.now b) shared.old.value)) ≤ 500 }
    requires element { IsOver bases.now (form x.now) }
    ensures { IsChange bases.now b (form x.now) on shared.old.value shared.new.value result }
{
    laws::sets_have_their_members();
    let _base = bases.at(b);
    match plan_of(b, x, on, bases)? {
        Plan::NoKernel => Ok(false),
        Plan::Stays => Ok(true),
        Plan::Puts(e) => {
            put_in_table(bases.at(b), shared, e, on)?;
            Ok(true)
        }
    }
}

// What is done to the numbers of a set as a value comes in or goes out. It takes no memory.
fn plan_of(b: BaseId, x: &Held, on: bool, bases: &Bases) -> Result<Plan, OpFault>
    requires there { IsThere bases.now b }
    requires element { IsOver bases.now (form x.now) }
    ensures { IsPlan bases.now b (form x.now) on result }
{
    match place_in(x, b, bases) {
        None => Ok(Plan::NoKernel),
        Some(None) => Ok(if on { Plan::NoKernel } else { Plan::Stays }),
        Some(Some(e)) => plan_of_put(bases.at(b), e, on),
    }
}

// A member comes in or goes out.
fn plan_of_put(base: &Base, e: Elt, on: bool) -> Result<Plan, OpFault>
    requires { IsLiving base.now e }
    ensures { IsPutPlan base.now e on result }
{
    if on && is_deepest(base, e) {
        return Err(OpFault::Deep);
    }
    Ok(Plan::Puts(e))
}

// Whether a set of this member would be too deep.
fn is_deepest(base: &Base, e: Elt) -> bool
    requires { IsLiving base.now e }
    ensures { result ≡ nat_le 500 (part_depth (value_of base.now e)) }
{
    base.value(e).unwrap().depth() >= 500
}
