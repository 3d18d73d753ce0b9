//! Sets in their forms, a member at a time in the canonical order.

ghost use Rattle.std.specs.Prelude.{◌≡◌, is_some, IfSome};
ghost use Rattle.setl_rep_forms.specs.FormOf.{form};
ghost use Rattle.setl_rep_forms.specs.Stands.{IsOver};
ghost use Rattle.setl_rep_kernels.specs.Kernels.{is_numbered, IsAfter, IsStepOf};

use crate::parts::numbers_of;
use setl_base::Elt;
use setl_rep_based::next_in;
use setl_rep_bases::Bases;
use setl_rep_forms::Held;

/// The least member of a remote or sparse set that is greater than the member `after` of its base, or the least of all
/// where `after` is None; None within where there is none, and None exactly for other forms. It takes no memory.
pub fn next(s: &Held, after: Option<Elt>, bases: &Bases) -> Option<Option<Elt>>
    requires over { IsOver bases.now (form s.now) }
    requires after { IsAfter bases.now (form s.now) after }
    ensures step { IfSome result (IsStepOf bases.now (form s.now) after) }
    ensures kernel { is_some result ≡ is_numbered (form s.now) }
{
    let (b, numbers) = numbers_of(s)?;
    Some(next_in(bases.at(b), numbers, after))
}
