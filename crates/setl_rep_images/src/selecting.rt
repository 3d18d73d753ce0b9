//! `f(x)` and `f{x}`.

ghost use Rattle.std.specs.Prelude.{◌≡◌, ◌≤◌, ℕ, Bool, true, false, is_some, IfOk, IfSome, Some, [], ◌∷◌};
ghost use Rattle.setl_value.specs.code.DatumOf.{datum, part};
ghost use Rattle.setl_value.specs.Datum.{depth, part_depth, set_of};
ghost use Rattle.setl_value.specs.code.Body.{Members};
ghost use Rattle.setl_map.specs.Maps.{only};
ghost use Rattle.setl_operators_table.specs.declared.Operator.TheVariants.{Get, Images};
ghost use Rattle.setl_operators_table.specs.Operators.{op_of};
ghost use Rattle.setl_operators_table.specs.Outcome.{Gives};
ghost use Rattle.setl_rep_bases.specs.Bases.{BasesState};
ghost use Rattle.setl_rep_forms.specs.FormOf.{form};
ghost use Rattle.setl_rep_forms.specs.Stands.{stands, IsContent, IsOver};
ghost use Rattle.setl_rep_images.specs.Kinds.{keeps_one, keeps_sets, point_content, IsOfContent};
ghost use Rattle.setl_rep_maps.specs.Contents.{table_of};
ghost use Rattle.setl_rep_plain.specs.Standing.{held_value, IsHeldOver};
ghost use Rattle.setl_rep_tables.specs.Tables.{images_of};

use crate::contents::point_content;
use setl_rep_bases::Bases;
use setl_rep_forms::Held;
use setl_rep_maps::table_of;
use setl_rep_plain::plain;
use setl_value::{SetBody, Value};
use std::alloc::{AllocError, Global};

/// `f(x)`: the one image of `x`, which is `om` where it has none or several. None exactly where the map isn't held as a table.
/// Nothing is charged.
///
/// A map that keeps one image for each point gives it in the form in which it has it, and no plain value is made. An error is
/// want of memory. For such a map the cost is near linear in the size of `x` alone, for others in that of its images too.
pub fn image(alloc: Global, f: &Held, x: &Value, bases: &Bases) -> Result<Option<Held>, AllocError>
    requires { IsHeldOver bases.now f.now }
    ensures value { IfOk result (λ o. IfSome o (λ h. (left : ℕ) → op_of Get (held_value bases.now f.now ∷ Some (datum x.now) ∷ []) left ≡ Gives (held_value bases.now h) 0)) }
    ensures over { IfOk result (λ o. IfSome o (λ h. IsOver bases.now (form h))) }
    ensures shallow { IfOk result (λ o. IfSome o (λ h. part_depth (held_value bases.now h) ≤ 500)) }
    ensures form { IfOk result (λ o. IfSome o (λ h. keeps_one (form f.now) ≡ true → IsOfContent (point_content bases.now (form f.now) (datum x.now)) (form h))) }
    ensures kernel { IfOk result (λ o. is_some o ≡ is_some (table_of (form f.now))) }
{
    let Some((b, many)) = table_of(f) else {
        return Ok(None);
    };
    match point_content(f, b, many, x, bases) {
        None => Ok(Some(Held::Om)),
        Some(c) => Ok(Some(one_of(alloc, many, c, bases)?)),
    }
}

/// `f{x}`: the set of the images of `x`. None exactly where the map isn't held as a table. Nothing is charged.
///
/// A map that keeps its images as sets gives the set in the form in which it has it, and no plain set is made of it. One that
/// keeps one image for each point gives the plain set of that image, or the empty set. An error is want of memory. The cost is
/// near linear in the size of `x`, and for a map that keeps one image for each point in that of the image too.
pub fn images(alloc: Global, f: &Held, x: &Value, bases: &Bases) -> Result<Option<Held>, AllocError>
    requires { IsHeldOver bases.now f.now }
    ensures value { IfOk result (λ o. IfSome o (λ h. (left : ℕ) → op_of Images (held_value bases.now f.now ∷ Some (datum x.now) ∷ []) left ≡ Gives (held_value bases.now h) 0)) }
    ensures over { IfOk result (λ o. IfSome o (λ h. IsOver bases.now (form h))) }
    ensures shallow { IfOk result (λ o. IfSome o (λ h. part_depth (held_value bases.now h) ≤ 500)) }
    ensures form { IfOk result (λ o. IfSome o (λ h. keeps_sets (form f.now) ≡ true → IsOfContent (point_content bases.now (form f.now) (datum x.now)) (form h))) }
    ensures kernel { IfOk result (λ o. is_some o ≡ is_some (table_of (form f.now))) }
{
    let Some((b, many)) = table_of(f) else {
        return Ok(None);
    };
    match point_content(f, b, many, x, bases) {
        None => Ok(Some(no_images(alloc)?)),
        Some(c) => Ok(Some(all_of(alloc, many, c, bases)?)),
    }
}

// The one image in a content, which stands for it or for the set of images; `om` where that has several. An error is want of
// memory.
fn one_of(alloc: Global, many: bool, c: &Held, bases: &Bases) -> Result<Held, AllocError>
    requires { IsHeldOver bases.now c.now }
    ensures value { IfOk result (λ h. held_value bases.now h ≡ only (images_of many (held_value bases.now c.now))) }
    ensures over { IfOk result (λ h. IsOver bases.now (form h)) }
    ensures shallow { IfOk result (λ h. part_depth (held_value bases.now h) ≤ 500) }
    ensures form { IfOk result (λ h. many ≡ false → form h ≡ form c.now) }
{
    if !many {
        return Ok(c.copy()?);
    }
    let content = plain(alloc, c, bases)?;
    Ok(in_plain_form(one_of_set(content)?))
}

// The one member of a set of images; None where it has several, or there is no set. An error is want of memory.
fn one_of_set(content: Option<Value>) -> Result<Option<Value>, AllocError>
    ensures { IfOk result (λ v. part v ≡ only (images_of true (part content))) }
{
    let Some(value) = content else {
        return Ok(None);
    };
    match value {
        Value::Set(s) => only_member(&s),
        Value::Bool(_) => Ok(None),
        Value::Int(_) => Ok(None),
        Value::Text(_) => Ok(None),
        Value::Atom(_) => Ok(None),
        Value::Tuple(_) => Ok(None),
    }
}

// The member of a set with one member; None for other sets. An error is want of memory.
fn only_member(s: &SetBody) -> Result<Option<Value>, AllocError>
    ensures { IfOk result (λ v. part v ≡ only (Members s.now)) }
{
    if s.len() == 1 {
        return Ok(Some(s.at(0).copy()?));
    }
    Ok(None)
}

// A value, or `om`, in the plain form.
fn in_plain_form(v: Option<Value>) -> Held
    ensures value { (bs : BasesState) → held_value bs result ≡ part v }
    ensures over { (bs : BasesState) → IsOver bs (form result) }
    ensures shallow { (bs : BasesState) → part_depth (held_value bs result) ≤ 500 }
{
    match v {
        None => Held::Om,
        Some(v) => {
            v.learn();
            Held::Plain(v)
        }
    }
}

// The set of the images in a content, which stands for it or for the one image. An error is want of memory.
fn all_of(alloc: Global, many: bool, c: &Held, bases: &Bases) -> Result<Held, AllocError>
    requires held { IsHeldOver bases.now c.now }
    requires content { IsContent many (held_value bases.now c.now) }
    requires shallow { depth (set_of (images_of many (held_value bases.now c.now))) ≤ 500 }
    ensures value { IfOk result (λ h. held_value bases.now h ≡ Some (set_of (images_of many (held_value bases.now c.now)))) }
    ensures over { IfOk result (λ h. IsOver bases.now (form h)) }
    ensures shallow { IfOk result (λ h. part_depth (held_value bases.now h) ≤ 500) }
    ensures form { IfOk result (λ h. many ≡ true → form h ≡ form c.now) }
{
    if many {
        return Ok(c.copy()?);
    }
    let image = plain(alloc, c, bases)?;
    Ok(Held::Plain(Value::Set(set_of_image(alloc, image)?)))
}

// The set of an image, which is empty where there is none. An error is want of memory.
fn set_of_image(alloc: Global, image: Option<Value>) -> Result<SetBody, AllocError>
    requires { depth (set_of (images_of false (part image))) ≤ 500 }
    ensures { IfOk result (λ s. Members s ≡ images_of false (part image)) }
{
    let Some(value) = image else {
        return SetBody::new(alloc);
    };
    let mut members = Vec::with_capacity(alloc, 1)?;
    members.push_reserved(value);
    SetBody::from_rising(alloc, members)
}

// The empty set. An error is want of memory.
fn no_images(alloc: Global) -> Result<Held, AllocError>
    ensures value { IfOk result (λ h. (bs : BasesState) → held_value bs h ≡ Some (set_of [])) }
    ensures over { IfOk result (λ h. (bs : BasesState) → IsOver bs (form h)) }
    ensures shallow { IfOk result (λ h. (bs : BasesState) → part_depth (held_value bs h) ≤ 500) }
{
    Ok(Held::Plain(Value::Set(SetBody::new(alloc)?)))
}
