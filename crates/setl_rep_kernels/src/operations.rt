//! Two remote sets on one base.

ghost use Rattle.std.specs.Prelude.{◌≡◌, ℕ, is_some, IfSome, IfOk, ◌∷◌, []};
ghost use Rattle.std.specs.Option.{option_map};
ghost use Rattle.setl_operators_table.specs.Operators.{op_of};
ghost use Rattle.setl_operators_table.specs.Outcome.{Gives};
ghost use Rattle.setl_rep_forms.specs.FormOf.{form};
ghost use Rattle.setl_rep_forms.specs.Stands.{stands, IsOver};
ghost use Rattle.setl_rep_kernels.specs.Kernels.{operator_of, combined_numbers, are_remote_alike, IsAlike};
ghost use Rattle.setl_rep_kernels.specs.Parts.{remote_parts, AreRemote};

use crate::parts::numbers_of;
use setl_remote::Bits;
use setl_rep_based::Numbers;
use setl_rep_bases::{BaseId, Bases};
use setl_rep_forms::{Held, laws};
use std::alloc::{AllocError, Global};

/// An operation on two sets.
#[derive(Clone, Copy, Debug, PartialEq, Eq)]
pub enum SetOperation {
    /// `+`
    Union,
    /// `-`
    Difference,
    /// `*`
    Intersection,
    /// `mod`
    SymmetricDifference,
}

/// The operation on two remote sets on one base, word by word; None exactly where the operands have other forms. The
/// result is a remote set on that base, and nothing is charged. An error is want of memory.
pub fn combined(
    alloc: Global,
    what: SetOperation,
    a: &Held,
    b: &Held,
    bases: &Bases,
) -> Result<Option<Held>, AllocError>
    requires left { IsOver bases.now (form a.now) }
    requires right { IsOver bases.now (form b.now) }
    ensures value { IfOk result (λ o. IfSome o (λ r. (left : ℕ) → op_of (operator_of what) (stands bases.now (form a.now) ∷ stands bases.now (form b.now) ∷ []) left ≡ Gives (stands bases.now (form r)) 0)) }
    ensures over { IfOk result (λ o. IfSome o (λ r. IsOver bases.now (form r))) }
    ensures form { IfOk result (λ o. IfSome o (λ r. IsAlike (form a.now) (form r))) }
    ensures kernel { IfOk result (λ o. is_some o ≡ are_remote_alike (form a.now) (form b.now)) }
{
    laws::operations_go_by_number();
    let Some((base, x, y)) = both_bits(a, b) else {
        return Ok(None);
    };
    let _base = bases.at(base);
    let bits = bits_of(alloc, what, x, y)?;
    Ok(Some(Held::Remote(base, bits)))
}

// The numbers of two remote sets on one base; None where they have other forms. It takes no memory.
fn both_bits<'a>(a: &'a Held, b: &'a Held) -> Option<(BaseId, &'a Bits, &'a Bits)>
    ensures bits { IfSome result (λ p. AreRemote (form a.now) (form b.now) p.0 p.1.now p.2.now) }
    ensures kernel { is_some result ≡ are_remote_alike (form a.now) (form b.now) }
{
    let (m, x) = remote_bits(a)?;
    let (n, y) = remote_bits(b)?;
    if m == n { Some((m, x, y)) } else { None }
}

// The numbers of a remote set, with their base; None where the form is another one. It takes no memory.
fn remote_bits(s: &Held) -> Option<(BaseId, &Bits)>
    ensures { option_map (λ p. (p.0, p.1.now)) result ≡ remote_parts (form s.now) }
{
    match numbers_of(s)? {
        (b, Numbers::Bits(bits)) => Some((b, bits)),
        (_, Numbers::Table(_)) => None,
    }
}

// The operation on two sets of numbers.
fn bits_of(alloc: Global, what: SetOperation, x: &Bits, y: &Bits) -> Result<Bits, AllocError>
    ensures { IfOk result (λ bits. bits ≡ combined_numbers what x.now y.now) }
{
    match what {
        SetOperation::Union => Bits::or(alloc, x, y),
        SetOperation::Difference => Bits::minus(alloc, x, y),
        SetOperation::Intersection => Bits::and(alloc, x, y),
        SetOperation::SymmetricDifference => Bits::xor(alloc, x, y),
    }
}
