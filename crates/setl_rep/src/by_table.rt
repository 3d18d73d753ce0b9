//! Operators on maps that are held as tables: `domain f`, `f(x)`, `f{x}` and `f lessf x`.

ghost use Rattle.std.specs.Prelude.{◌≡◌, ◌&&◌, ◌∷◌, [], ℕ, true, is_some, length, map, IfOk, IfSome, Some};
ghost use Rattle.setl_value.specs.code.DatumOf.{datum};
ghost use Rattle.setl_operators_table.specs.declared.Operator.TheVariants.{Domain, Get, Images, Lessf};
ghost use Rattle.setl_operators_table.specs.Operators.{op_of};
ghost use Rattle.setl_operators_table.specs.Outcome.{Gives};
ghost use Rattle.setl_rep_forms.specs.FormOf.{form};
ghost use Rattle.setl_rep_forms.specs.Stands.{stands, IsOver};
ghost use Rattle.setl_rep_images.specs.Kinds.{keeps_one, keeps_sets};
ghost use Rattle.setl_rep_kernels.specs.Kernels.{is_single};
ghost use Rattle.setl_rep_maps.specs.Contents.{table_of, IsDomain};
ghost use Rattle.setl_rep_plain.specs.Standing.{held_value, IsHeldOver};
ghost use Rattle.setl_rep.specs.ByTable.{has_point, IsImageOf, IsLessAt, IsLikeMap, IsPointLess};
ghost use Rattle.setl_rep.specs.Standing.{AreHeldOver};
ghost use Rattle.setl_rep.specs.Telling.{TellsHeld};

use crate::applied::{Applied, by_values};
use crate::by_change::both;
use setl_operators::{OpFault, Operator};
use setl_rep_bases::Bases;
use setl_rep_forms::Held;
use setl_rep_images::{domain, image, images, without};
use setl_rep_maps::table_of;
use setl_value::Value;
use std::alloc::{AllocError, Global};

// ---- `domain f`, `f(x)` and `f{x}`

/// The domain of a map in table form; None for others.
pub(crate) fn points_of(
    alloc: Global,
    f: &Held,
    bases: &Bases,
) -> Result<Option<Applied>, AllocError>
    requires { IsOver bases.now (form f.now) }
    ensures value { IfOk result (λ o. IfSome o (λ r. (left : ℕ) → op_of Domain (stands bases.now (form f.now) ∷ []) left ≡ Gives (held_value bases.now r.held) r.charged)) }
    ensures over { IfOk result (λ o. IfSome o (λ r. IsOver bases.now (form r.held))) }
    ensures form { IfOk result (λ o. IfSome o (λ r. IsDomain (form f.now) (form r.held))) }
    ensures kernel { IfOk result (λ o. is_some o ≡ is_some (table_of (form f.now))) }
{
    match domain(alloc, f, bases)? {
        None => Ok(None),
        Some(held) => Ok(Some(Applied { held, charged: 0 })),
    }
}

/// The image of a point in a map in table form; None for others, and for points that are neither held plain nor as an element.
pub(crate) fn image_at(
    alloc: Global,
    f: &Held,
    x: &Held,
    bases: &Bases,
) -> Result<Option<Applied>, AllocError>
    requires map { IsHeldOver bases.now f.now }
    requires point { IsOver bases.now (form x.now) }
    ensures value { IfOk result (λ o. IfSome o (λ r. (left : ℕ) → op_of Get (stands bases.now (form f.now) ∷ stands bases.now (form x.now) ∷ []) left ≡ Gives (held_value bases.now r.held) r.charged)) }
    ensures over { IfOk result (λ o. IfSome o (λ r. IsOver bases.now (form r.held))) }
    ensures form { IfOk result (λ o. IfSome o (λ r. keeps_one (form f.now) ≡ true → IsImageOf bases.now (form f.now) (form x.now) (form r.held))) }
    ensures kernel { IfOk result (λ o. is_some o ≡ (is_single (form x.now) && is_some (table_of (form f.now)))) }
{
    let Some(v) = single(x, bases) else {
        return Ok(None);
    };
    match image(alloc, f, v, bases)? {
        None => Ok(None),
        Some(held) => Ok(Some(Applied { held, charged: 0 })),
    }
}

/// The set of the images of a point in a map in table form; None for others, and for points as above.
pub(crate) fn images_at(
    alloc: Global,
    f: &Held,
    x: &Held,
    bases: &Bases,
) -> Result<Option<Applied>, AllocError>
    requires map { IsHeldOver bases.now f.now }
    requires point { IsOver bases.now (form x.now) }
    ensures value { IfOk result (λ o. IfSome o (λ r. (left : ℕ) → op_of Images (stands bases.now (form f.now) ∷ stands bases.now (form x.now) ∷ []) left ≡ Gives (held_value bases.now r.held) r.charged)) }
    ensures over { IfOk result (λ o. IfSome o (λ r. IsOver bases.now (form r.held))) }
    ensures form { IfOk result (λ o. IfSome o (λ r. keeps_sets (form f.now) ≡ true → IsImageOf bases.now (form f.now) (form x.now) (form r.held))) }
    ensures kernel { IfOk result (λ o. is_some o ≡ (is_single (form x.now) && is_some (table_of (form f.now)))) }
{
    let Some(v) = single(x, bases) else {
        return Ok(None);
    };
    match images(alloc, f, v, bases)? {
        None => Ok(None),
        Some(held) => Ok(Some(Applied { held, charged: 0 })),
    }
}

// ---- `f lessf x`

/// What `f lessf x` makes of its operands. It answers as `apply` does.
pub(crate) fn less_point(
    alloc: Global,
    args: Vec<Held>,
    bases: &Bases,
    turns: u64,
) -> Result<Applied, OpFault>
    requires count { length args.items ≡ 2 }
    requires over { AreHeldOver bases.now args.items }
    ensures told { TellsHeld bases.now result (op_of Lessf (map (held_value bases.now) args.items) turns) }
    ensures over { IfOk result (λ a. IsOver bases.now (form a.held)) }
    ensures table { IfOk result (λ a. has_point (map form args.items) ≡ true → IsLikeMap (map form args.items) (form a.held)) }
{
    if !has_point(&args) {
        return by_values(alloc, Operator::Lessf, args, bases, turns);
    }
    let (f, x) = both(args);
    Ok(without_point(f, &x, bases)?)
}

// Whether these are a map in table form and a point that is held plain or as an element.
fn has_point(args: &[Held]) -> bool
    ensures { result ≡ has_point (map form args.now) }
{
    match args {
        [f, x] => is_single(x) && table_of(f).is_some(),
        _ => false,
    }
}

// A map in table form without the images of a point.
fn without_point(f: Held, x: &Held, bases: &Bases) -> Result<Applied, AllocError>
    requires map { IsHeldOver bases.now f }
    requires point { IsOver bases.now (form x.now) }
    requires table { (is_single (form x.now) && is_some (table_of (form f))) ≡ true }
    ensures less { IfOk result (λ a. IsLessAt bases.now (form f) (form x.now) (form a.held)) }
    ensures charge { IfOk result (λ a. a.charged ≡ 0) }
{
    let held = without_at(f, x, bases)?;
    Ok(Applied { held, charged: 0 })
}

// The same for the value of the point.
fn without_at(f: Held, x: &Held, bases: &Bases) -> Result<Held, AllocError>
    requires map { IsHeldOver bases.now f }
    requires point { IsOver bases.now (form x.now) }
    requires table { (is_single (form x.now) && is_some (table_of (form f))) ≡ true }
    ensures { IfOk result (λ g. IsPointLess bases.now (form f) (form x.now) (form g)) }
{
    let v = single(x, bases).unwrap();
    without(f, v, bases)
}

// ---- what is held plain or as an element

// Whether a value is held so.
fn is_single(x: &Held) -> bool
    ensures { result ≡ is_single (form x.now) }
{
    match x {
        Held::Plain(_) => true,
        Held::Elt(_, _) => true,
        Held::Om => false,
        Held::Remote(_, _) => false,
        Held::Sparse(_, _) => false,
        Held::RemoteMap(_, _, _) => false,
        Held::SparseMap(_, _, _) => false,
        Held::EltTuple(_, _) => false,
    }
}

// The value that is held so.
fn single<'a>(x: &'a Held, bases: &'a Bases) -> Option<&'a Value>
    requires { IsOver bases.now (form x.now) }
    ensures value { IfSome result (λ v. stands bases.now (form x.now) ≡ Some (datum v.now)) }
    ensures kernel { is_some result ≡ is_single (form x.now) }
{
    match x {
        Held::Plain(v) => Some(v),
        Held::Elt(b, e) => Some(bases.at(*b).value(*e).unwrap()),
        Held::Om => None,
        Held::Remote(_, _) => None,
        Held::Sparse(_, _) => None,
        Held::RemoteMap(_, _, _) => None,
        Held::SparseMap(_, _, _) => None,
        Held::EltTuple(_, _) => None,
    }
}
