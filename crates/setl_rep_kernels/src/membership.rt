//! Members of sets in their forms, and how many there are. Nothing here takes memory.

ghost use Rattle.std.specs.Prelude.{◌≡◌, ℕ, ◌&&◌, pos, is_some, IfSome, ◌∷◌, []};
ghost use Rattle.setl_value.specs.Datum.{int};
ghost use Rattle.setl_operators_table.specs.Operators.{op_of};
ghost use Rattle.setl_operators_table.specs.Outcome.{truth, value};
ghost use Rattle.setl_operators_table.specs.declared.Operator.TheVariants.{In, Size};
ghost use Rattle.setl_rep_forms.specs.FormOf.{form};
ghost use Rattle.setl_rep_forms.specs.Stands.{stands, IsOver};
ghost use Rattle.setl_rep_kernels.specs.Kernels.{is_numbered, is_remote, is_single};

use crate::parts::{numbers_of, place_in};
use setl_rep_based::Numbers;
use setl_rep_bases::Bases;
use setl_rep_forms::{Held, laws};

/// Whether a value, which is held plain or as an element, is in a remote or sparse set; None exactly where the operands
/// have other forms. An element of the set's base is found by its number.
pub fn is_in(x: &Held, s: &Held, bases: &Bases) -> Option<bool>
    requires element { IsOver bases.now (form x.now) }
    requires set { IsOver bases.now (form s.now) }
    ensures value { IfSome result (λ t. (left : ℕ) → op_of In (stands bases.now (form x.now) ∷ stands bases.now (form s.now) ∷ []) left ≡ truth t) }
    ensures kernel { is_some result ≡ (is_numbered (form s.now) && is_single (form x.now)) }
{
    laws::sets_have_their_members();
    let (b, numbers) = numbers_of(s)?;
    let _base = bases.at(b);
    let place = place_in(x, b, bases)?;
    match place {
        None => Some(false),
        Some(e) => Some(numbers.test(e.block)),
    }
}

/// How many members a remote set has; None exactly for other forms.
pub fn size(s: &Held, bases: &Bases) -> Option<u64>
    requires { IsOver bases.now (form s.now) }
    ensures value { IfSome result (λ n. (left : ℕ) → op_of Size (stands bases.now (form s.now) ∷ []) left ≡ value (int (pos n))) }
    ensures kernel { is_some result ≡ is_remote (form s.now) }
{
    laws::numbers_stand_for_members();
    let (b, numbers) = numbers_of(s)?;
    let _base = bases.at(b);
    match numbers {
        Numbers::Bits(bits) => Some(bits.count()),
        Numbers::Table(_) => None,
    }
}
