//! What kernels read of forms. Nothing here takes memory.

ghost use Rattle.std.specs.Prelude.{◌≡◌, Some};
ghost use Rattle.std.specs.Option.{option_map};
ghost use Rattle.setl_base.specs.Base.{value_of, IsLiving};
ghost use Rattle.setl_rep_bases.specs.Bases.{base_at, IsThere};
ghost use Rattle.setl_rep_forms.specs.FormOf.{form};
ghost use Rattle.setl_rep_forms.specs.Stands.{IsOver};
ghost use Rattle.setl_rep_based.specs.Numbers.{layout_of, numbers_in};
ghost use Rattle.setl_rep_kernels.specs.Parts.{set_parts, single_value, HasPlace};

use setl_base::Elt;
use setl_rep_based::Numbers;
use setl_rep_bases::{BaseId, Bases};
use setl_rep_forms::Held;

/// The numbers of a set, with their base; None where the form is another one.
pub(crate) fn numbers_of(s: &Held) -> Option<(BaseId, Numbers<'_>)>
    ensures { option_map (λ p. (layout_of p.1, p.0, numbers_in p.1)) result ≡ set_parts (form s.now) }
{
    match s {
        Held::Remote(b, bits) => Some((*b, Numbers::Bits(bits))),
        Held::Sparse(b, table) => Some((*b, Numbers::Table(table))),
        Held::Om => None,
        Held::Plain(_) => None,
        Held::Elt(_, _) => None,
        Held::RemoteMap(_, _, _) => None,
        Held::SparseMap(_, _, _) => None,
        Held::EltTuple(_, _) => None,
    }
}

/// The handle of a value among the members of a base, None within where it is no member; None where the value is neither
/// held plain nor as an element.
pub(crate) fn place_in(x: &Held, b: BaseId, bases: &Bases) -> Option<Option<Elt>>
    requires over { IsOver bases.now (form x.now) }
    requires base { IsThere bases.now b }
    ensures { HasPlace (base_at bases.now b) (single_value bases.now (form x.now)) result }
{
    match x {
        Held::Plain(v) => Some(bases.at(b).find(v)),
        Held::Elt(c, e) => Some(element_in(*c, *e, b, bases)),
        Held::Om => None,
        Held::Remote(_, _) => None,
        Held::Sparse(_, _) => None,
        Held::RemoteMap(_, _, _) => None,
        Held::SparseMap(_, _, _) => None,
        Held::EltTuple(_, _) => None,
    }
}

// The handle of an element of the base `c` among the members of the base `b`. It isn't looked for where the two are one.
fn element_in(c: BaseId, e: Elt, b: BaseId, bases: &Bases) -> Option<Elt>
    requires named { IsThere bases.now c }
    requires living { IsLiving (base_at bases.now c) e }
    requires base { IsThere bases.now b }
    ensures { HasPlace (base_at bases.now b) (value_of (base_at bases.now c) e) (Some result) }
{
    if c == b {
        return Some(e);
    }
    let v = bases.at(c).value(e).unwrap();
    bases.at(b).find(v)
}
