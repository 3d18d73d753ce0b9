//! Operators on forms that need no plain value of them.

ghost use Rattle.std.specs.Prelude.{◌≡◌, ◌&&◌, ℕ, true, false, is_some, map, ◌∷◌, [], Some, IfOk, IfSome, IsOk};
ghost use Rattle.setl_operators_table.specs.declared.Operator.TheVariants.{In, NotIn, Size};
ghost use Rattle.setl_value.specs.code.DatumOf.{datum};
ghost use Rattle.setl_operators_table.specs.Operators.{op_of};
ghost use Rattle.setl_operators_table.specs.Outcome.{Gives};
ghost use Rattle.setl_rep_bases.specs.Bases.{BasesState};
ghost use Rattle.setl_rep_forms.specs.FormOf.{form};
ghost use Rattle.setl_rep_forms.specs.Stands.{stands, IsOver};
ghost use Rattle.setl_rep_kernels.specs.Kernels.{are_remote_alike, is_numbered, is_remote, is_single, operator_of, IsAlike};
ghost use Rattle.setl_rep_plain.specs.Standing.{held_value, IsHeldOver};
ghost use Rattle.setl_rep.specs.ByTable.{IsAtPoint, IsByTable, IsOfMap};
ghost use Rattle.setl_rep.specs.ByKernel.{has_one, has_two, has_kernel, is_told, is_combined, IsLikeFirst};
ghost use Rattle.setl_rep.specs.Standing.{AreHeldOver};

use crate::applied::Applied;
use crate::by_table::{image_at, images_at, points_of};
use setl_operators::Operator;
use setl_rep_bases::Bases;
use setl_rep_forms::Held;
use setl_rep_kernels::{SetOperation, combined, is_in, size};
use setl_value::Value;
use std::alloc::{AllocError, Global};

/// What an operator gives of operands for which it has a kernel; None for others. An error is want of memory, which comes for
/// operations on two sets and for maps alone.
pub(crate) fn by_kernel(
    alloc: Global,
    what: Operator,
    args: &[Held],
    bases: &Bases,
) -> Result<Option<Applied>, AllocError>
    requires { AreHeldOver bases.now args.now }
    ensures value { IfOk result (λ o. IfSome o (λ a. (left : ℕ) → op_of what (map (held_value bases.now) args.now) left ≡ Gives (held_value bases.now a.held) a.charged)) }
    ensures over { IfOk result (λ o. IfSome o (λ a. IsOver bases.now (form a.held))) }
    ensures form { IfOk result (λ o. IfSome o (λ a. is_combined what ≡ true → IsLikeFirst (map form args.now) (form a.held))) }
    ensures table { IfOk result (λ o. IfSome o (λ a. IsByTable bases.now what (map form args.now) (form a.held))) }
    ensures kernel { IfOk result (λ o. is_some o ≡ has_kernel what (map form args.now)) }
    ensures free { is_told what ≡ true → IsOk result }
{
    match args {
        [s] => of_one(alloc, what, s, bases),
        [a, b] => of_two(alloc, what, a, b, bases),
        _ => Ok(None),
    }
}

// The same of one operand.
fn of_one(
    alloc: Global,
    what: Operator,
    s: &Held,
    bases: &Bases,
) -> Result<Option<Applied>, AllocError>
    requires { IsOver bases.now (form s.now) }
    ensures value { IfOk result (λ o. IfSome o (λ a. (left : ℕ) → op_of what (stands bases.now (form s.now) ∷ []) left ≡ Gives (held_value bases.now a.held) a.charged)) }
    ensures over { IfOk result (λ o. IfSome o (λ a. IsOver bases.now (form a.held))) }
    ensures form { IfOk result (λ o. IfSome o (λ a. is_combined what ≡ true → IsAlike (form s.now) (form a.held))) }
    ensures table { IfOk result (λ o. IfSome o (λ a. IsOfMap what (form s.now) (form a.held))) }
    ensures kernel { IfOk result (λ o. is_some o ≡ has_one what (form s.now)) }
    ensures free { is_told what ≡ true → IsOk result }
{
    match what {
        Operator::Size => Ok(size_of(s, bases)),
        Operator::Domain => points_of(alloc, s, bases),
        _ => Ok(None),
    }
}

// The size of a remote set.
fn size_of(s: &Held, bases: &Bases) -> Option<Applied>
    requires { IsOver bases.now (form s.now) }
    ensures value { IfSome result (λ a. (left : ℕ) → op_of Size (stands bases.now (form s.now) ∷ []) left ≡ Gives (held_value bases.now a.held) a.charged) }
    ensures over { IfSome result (λ a. IsOver bases.now (form a.held)) }
    ensures kernel { is_some result ≡ is_remote (form s.now) }
{
    match size(s, bases) {
        None => None,
        Some(n) => Some(free(Value::Int(i128::from(n)))),
    }
}

// The same of two operands.
fn of_two(
    alloc: Global,
    what: Operator,
    a: &Held,
    b: &Held,
    bases: &Bases,
) -> Result<Option<Applied>, AllocError>
    requires first { IsHeldOver bases.now a.now }
    requires second { IsOver bases.now (form b.now) }
    ensures value { IfOk result (λ o. IfSome o (λ r. (left : ℕ) → op_of what (stands bases.now (form a.now) ∷ stands bases.now (form b.now) ∷ []) left ≡ Gives (held_value bases.now r.held) r.charged)) }
    ensures over { IfOk result (λ o. IfSome o (λ r. IsOver bases.now (form r.held))) }
    ensures form { IfOk result (λ o. IfSome o (λ r. is_combined what ≡ true → IsAlike (form a.now) (form r.held))) }
    ensures table { IfOk result (λ o. IfSome o (λ r. IsAtPoint bases.now what (form a.now) (form b.now) (form r.held))) }
    ensures kernel { IfOk result (λ o. is_some o ≡ has_two what (form a.now) (form b.now)) }
    ensures free { is_told what ≡ true → IsOk result }
{
    match what {
        Operator::In => Ok(is_member(a, b, bases)),
        Operator::NotIn => Ok(is_no_member(a, b, bases)),
        Operator::Add => of_sets(alloc, SetOperation::Union, a, b, bases),
        Operator::Subtract => of_sets(alloc, SetOperation::Difference, a, b, bases),
        Operator::Multiply => of_sets(alloc, SetOperation::Intersection, a, b, bases),
        Operator::Modulo => of_sets(alloc, SetOperation::SymmetricDifference, a, b, bases),
        Operator::Get => image_at(alloc, a, b, bases),
        Operator::Images => images_at(alloc, a, b, bases),
        _ => Ok(None),
    }
}

// Whether a value is in a set.
fn is_member(x: &Held, s: &Held, bases: &Bases) -> Option<Applied>
    requires first { IsOver bases.now (form x.now) }
    requires second { IsOver bases.now (form s.now) }
    ensures value { IfSome result (λ r. (left : ℕ) → op_of In (stands bases.now (form x.now) ∷ stands bases.now (form s.now) ∷ []) left ≡ Gives (held_value bases.now r.held) r.charged) }
    ensures over { IfSome result (λ r. IsOver bases.now (form r.held)) }
    ensures kernel { is_some result ≡ (is_numbered (form s.now) && is_single (form x.now)) }
{
    match is_in(x, s, bases) {
        None => None,
        Some(t) => Some(free(Value::Bool(t))),
    }
}

// Whether it isn't.
fn is_no_member(x: &Held, s: &Held, bases: &Bases) -> Option<Applied>
    requires first { IsOver bases.now (form x.now) }
    requires second { IsOver bases.now (form s.now) }
    ensures value { IfSome result (λ r. (left : ℕ) → op_of NotIn (stands bases.now (form x.now) ∷ stands bases.now (form s.now) ∷ []) left ≡ Gives (held_value bases.now r.held) r.charged) }
    ensures over { IfSome result (λ r. IsOver bases.now (form r.held)) }
    ensures kernel { is_some result ≡ (is_numbered (form s.now) && is_single (form x.now)) }
{
    match is_in(x, s, bases) {
        None => None,
        Some(t) => Some(free(Value::Bool(!t))),
    }
}

// The operation on two remote sets on one base.
fn of_sets(
    alloc: Global,
    what: SetOperation,
    a: &Held,
    b: &Held,
    bases: &Bases,
) -> Result<Option<Applied>, AllocError>
    requires first { IsOver bases.now (form a.now) }
    requires second { IsOver bases.now (form b.now) }
    ensures value { IfOk result (λ o. IfSome o (λ r. (left : ℕ) → op_of (operator_of what) (stands bases.now (form a.now) ∷ stands bases.now (form b.now) ∷ []) left ≡ Gives (held_value bases.now r.held) r.charged)) }
    ensures over { IfOk result (λ o. IfSome o (λ r. IsOver bases.now (form r.held))) }
    ensures form { IfOk result (λ o. IfSome o (λ r. IsAlike (form a.now) (form r.held))) }
    ensures kernel { IfOk result (λ o. is_some o ≡ are_remote_alike (form a.now) (form b.now)) }
{
    match combined(alloc, what, a, b, bases)? {
        None => Ok(None),
        Some(held) => Ok(Some(Applied { held, charged: 0 })),
    }
}

// A value without a charge.
fn free(v: Value) -> Applied
    ensures value { (bs : BasesState) → held_value bs result.held ≡ Some (datum v) }
    ensures over { (bs : BasesState) → IsOver bs (form result.held) }
    ensures charge { result.charged ≡ 0 }
{
    Applied {
        held: Held::Plain(v),
        charged: 0,
    }
}
