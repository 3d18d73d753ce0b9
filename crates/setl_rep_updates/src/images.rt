//! One more image comes to a point of a map, or one goes.

ghost use Rattle.std.specs.Prelude.{◌≡◌, Bool, ℕ, true, IfOk, OnOk, OnErr, Some, IsSome, [], ◌∷◌};
ghost use Rattle.setl_value.specs.Datum.{set_of};
ghost use Rattle.setl_value.specs.Pairs.{pair};
ghost use Rattle.setl_value.specs.code.DatumOf.{datum};
ghost use Rattle.setl_modes.specs.declared.mode.Form.{Form as Attribute};
ghost use Rattle.setl_modes.specs.Modes.{mode_of, Mode as ModeState, MultiMaps, Sets};
ghost use Rattle.setl_modes.specs.Fits.{datum_fits};
ghost use Rattle.setl_base.specs.Base.{find};
ghost use Rattle.setl_rep_bases.specs.Bases.{base_at, named};
ghost use Rattle.setl_rep_forms.specs.Form.{Form as HeldForm};
ghost use Rattle.setl_rep_forms.specs.FormOf.{form};
ghost use Rattle.setl_rep_forms.specs.Stands.{stands, IsOver};
ghost use Rattle.setl_rep_building.specs.HasForm.{HasForm};
ghost use Rattle.setl_rep_building.specs.Places.{HasBases, PlacesAreFound};
ghost use Rattle.setl_rep_maps.specs.Contents.{content_of, table_of, IsTable};
ghost use Rattle.setl_rep_entering.specs.Entering.{AreLengthened};
ghost use Rattle.setl_rep_updates.specs.InForm.{IsInForm};
ghost use Rattle.setl_rep_updates.specs.Updates.{adds_image, adds_to, cuts_image, has_image_sets, is_part, less_image, with_image, IsUpdate};
ghost use Rattle.setl_rep_updates.specs.code.Added.{HasSeveral, IsContentCut, IsImageAdded, IsImageCut, IsImageSet, TakesMember};

use crate::maps::{is_part, set_of_pair};
use crate::members::{has_member, is_one, put_member};
use setl_modes::Mode;
use setl_rep_based::handle;
use setl_rep_bases::{BaseId, Bases};
use setl_rep_building::in_form;
use setl_rep_entering::{are_entered, base_marks, enter_places, take_back};
use setl_rep_forms::Held;
use setl_rep_maps::{change_content, content, learn, put_content, table_of};
use setl_set::with;
use setl_value::{SetBody, Value};
use std::alloc::{AllocError, Global};

/// `f{x} with:= y`, in place: a map that keeps the images of each point as a set, and is held as a table, gets the image `y` at
/// `x` beside those that are there. The values at the places of both are entered into their bases first.
///
/// Ok(false) comes where the map isn't held so, where the mode of its images isn't one of sets, or where `x` or `y` doesn't fit
/// its mode or is 499 deep or deeper. After that, and after want of memory, which is the error, the map and the bases are as
/// before. Nothing is charged. Where nobody else holds the table and the set of images, the cost is near linear in the sizes of
/// `x` and `y` alone where that set is held as numbers.
pub fn include_image(
    alloc: Global,
    mode: &Mode,
    f: &mut Held,
    x: &Value,
    y: &Value,
    bases: &mut Bases,
    instance: u64,
) -> Result<bool, AllocError>
    requires { IsInForm bases.old instance (mode_of mode.now) (form f.old) }
    ensures kernel { IfOk result (λ t. t ≡ adds_image (mode_of mode.now) (form f.old) (datum x.now) (datum y.now)) }
    ensures update { IsUpdate (mode_of mode.now) instance (with_image (stands bases.old (form f.old)) (datum x.now) (datum y.now)) bases.old bases.new (form f.old) (form f.new) result }
{
    match mode {
        Mode::Mmap(_, d, s) => include_at(alloc, mode, d.get(), s.get(), f, x, y, bases, instance),
        _ => Ok(false),
    }
}

// The same for a map from values of the mode `d` to sets of images of the mode `s`.
fn include_at(
    alloc: Global,
    mode: &Mode,
    d: &Mode,
    s: &Mode,
    f: &mut Held,
    x: &Value,
    y: &Value,
    bases: &mut Bases,
    instance: u64,
) -> Result<bool, AllocError>
    requires mode { (a : Attribute) × (mode_of mode.now ≡ MultiMaps a (mode_of d.now) (mode_of s.now)) }
    requires held { IsInForm bases.old instance (mode_of mode.now) (form f.old) }
    ensures kernel { IfOk result (λ t. t ≡ adds_to (mode_of d.now) (mode_of s.now) (form f.old) (datum x.now) (datum y.now)) }
    ensures update { IsUpdate (mode_of mode.now) instance (with_image (stands bases.old (form f.old)) (datum x.now) (datum y.now)) bases.old bases.new (form f.old) (form f.new) result }
{
    match s {
        Mode::Set(_, k) => include_in(alloc, mode, d, s, k.get(), f, x, y, bases, instance),
        _ => Ok(false),
    }
}

// The same where the images are of the mode `k`.
fn include_in(
    alloc: Global,
    mode: &Mode,
    d: &Mode,
    s: &Mode,
    k: &Mode,
    f: &mut Held,
    x: &Value,
    y: &Value,
    bases: &mut Bases,
    instance: u64,
) -> Result<bool, AllocError>
    requires mode { (a : Attribute) × (mode_of mode.now ≡ MultiMaps a (mode_of d.now) (mode_of s.now)) }
    requires images { (a : Attribute) × (mode_of s.now ≡ Sets a (mode_of k.now)) }
    requires held { IsInForm bases.old instance (mode_of mode.now) (form f.old) }
    ensures kernel { IfOk result (λ t. t ≡ adds_to (mode_of d.now) (mode_of s.now) (form f.old) (datum x.now) (datum y.now)) }
    ensures update { IsUpdate (mode_of mode.now) instance (with_image (stands bases.old (form f.old)) (datum x.now) (datum y.now)) bases.old bases.new (form f.old) (form f.new) result }
{
    setl_set::laws::operations_have_their_members();
    setl_map::laws::images_are_shallower();
    setl_modes_parts::parts_decide();
    setl_rep_forms::laws::forms_stay();
    setl_rep_maps::laws::contents_stand_for_images();
    setl_rep_maps::laws::puts_are_images();
    setl_rep_maps::laws::images_make_pairs();
    setl_rep_entering::laws::places_are_members();
    setl_rep_entering::laws::parts_lengthen_alike();
    crate::laws::forms_of_modes_stay();
    let Some((b, _)) = table_of(f) else {
        return Ok(false);
    };
    if !is_part(d, x)? || !is_part(k, y)? {
        return Ok(false);
    }
    x.learn();
    y.learn();
    include_pair(alloc, mode, d, s, k, b, f, x, y, bases, instance)?;
    Ok(true)
}

// Enters the values at the places of a pair into their bases, and the second part comes to the images of the first in a map on
// the base `b`. Where they all are members, the pair itself isn't made. After an error, which is want of memory, the bases and the
// map are as before.
fn include_pair(
    alloc: Global,
    mode: &Mode,
    d: &Mode,
    s: &Mode,
    k: &Mode,
    b: BaseId,
    f: &mut Held,
    x: &Value,
    y: &Value,
    bases: &mut Bases,
    instance: u64,
) -> Result<(), AllocError>
    requires mode { (a : Attribute) × (mode_of mode.now ≡ MultiMaps a (mode_of d.now) (mode_of s.now)) × (is_part (mode_of d.now) (datum x.now) ≡ true) }
    requires images { (a : Attribute) × (mode_of s.now ≡ Sets a (mode_of k.now)) × (is_part (mode_of k.now) (datum y.now) ≡ true) }
    requires held { IsInForm bases.old instance (mode_of mode.now) (form f.old) }
    requires table { (many : Bool) × (table_of (form f.old) ≡ Some (b, many)) }
    ensures lengthened { OnOk result (AreLengthened (mode_of mode.now) (set_of (pair (datum x.now) (datum y.now) ∷ [])) instance bases.old bases.new) }
    ensures added { OnOk result (IsImageAdded bases.new instance (mode_of s.now) (datum x.now) (datum y.now) (form f.old) (form f.new)) }
    ensures refused { OnErr result ((bases.new ≡ bases.old) × (form f.new ≡ form f.old)) }
{
    setl_rep_entering::laws::places_are_members();
    setl_rep_entering::laws::bases_are_lengthened();
    if are_entered(alloc, d, x, instance, bases)? && are_entered(alloc, k, y, instance, bases)? {
        return add_image(alloc, s, b, f, x, y, bases, instance);
    }
    enter_pair(alloc, mode, s, b, f, x, y, bases, instance)
}

// The same, where they may be no members yet.
fn enter_pair(
    alloc: Global,
    mode: &Mode,
    s: &Mode,
    b: BaseId,
    f: &mut Held,
    x: &Value,
    y: &Value,
    bases: &mut Bases,
    instance: u64,
) -> Result<(), AllocError>
    requires mode { (a : Attribute) × (d : ModeState) × (mode_of mode.now ≡ MultiMaps a d (mode_of s.now)) × (is_part d (datum x.now) ≡ true) }
    requires images { (a : Attribute) × (k : ModeState) × (mode_of s.now ≡ Sets a k) × (is_part k (datum y.now) ≡ true) }
    requires held { IsInForm bases.old instance (mode_of mode.now) (form f.old) }
    requires table { (many : Bool) × (table_of (form f.old) ≡ Some (b, many)) }
    ensures lengthened { OnOk result (AreLengthened (mode_of mode.now) (set_of (pair (datum x.now) (datum y.now) ∷ [])) instance bases.old bases.new) }
    ensures added { OnOk result (IsImageAdded bases.new instance (mode_of s.now) (datum x.now) (datum y.now) (form f.old) (form f.new)) }
    ensures refused { OnErr result ((bases.new ≡ bases.old) × (form f.new ≡ form f.old)) }
{
    setl_rep_forms::laws::forms_stay();
    setl_rep_entering::laws::places_are_members();
    setl_rep_entering::laws::bases_are_lengthened();
    let part = set_of_pair(alloc, x, y)?;
    let marks = base_marks(alloc, mode, instance, bases)?;
    enter_places(alloc, mode, &part, instance, bases)?;
    match add_image(alloc, s, b, f, x, y, bases, instance) {
        Ok(()) => Ok(()),
        Err(e) => {
            take_back(marks, bases);
            Err(e)
        }
    }
}

// Another image comes to a point of a map on the base `b`, of which the point is a member. After an error, which is want of
// memory, the map is as before.
fn add_image(
    alloc: Global,
    s: &Mode,
    b: BaseId,
    f: &mut Held,
    x: &Value,
    y: &Value,
    bases: &Bases,
    instance: u64,
) -> Result<(), AllocError>
    requires table { (many : Bool) × (table_of (form f.old) ≡ Some (b, many)) }
    requires over { IsOver bases.now (form f.old) }
    requires point { IsSome (find (base_at bases.now b) (datum x.now)) }
    requires images { (q : ℕ) (c : HeldForm) → content_of (form f.old) q ≡ Some c → TakesMember bases.now c (datum y.now) }
    requires fits { datum_fits (mode_of s.now) (set_of (datum y.now ∷ [])) ≡ true }
    requires found { PlacesAreFound bases.now (named bases.now instance) (mode_of s.now) (set_of (datum y.now ∷ [])) }
    requires there { HasBases bases.now (named bases.now instance) (mode_of s.now) }
    ensures added { OnOk result (IsImageAdded bases.now instance (mode_of s.now) (datum x.now) (datum y.now) (form f.old) (form f.new)) }
    ensures refused { OnErr result (form f.new ≡ form f.old) }
{
    let number = handle(bases.at(b), x).block;
    learn(f);
    match change_content(
        f,
        number,
        |content| put_member(alloc, content, y, true, bases),
    )? {
        Some(done) => done?,
        None => {
            let content = first_image(alloc, s, y, bases, instance)?;
            put_content(f, number, Some(content))?;
        }
    }
    learn(f);
    Ok(())
}

// The set of one image in the form of the mode `s`. An error is want of memory.
fn first_image(
    alloc: Global,
    s: &Mode,
    y: &Value,
    bases: &Bases,
    instance: u64,
) -> Result<Held, AllocError>
    requires fits { datum_fits (mode_of s.now) (set_of (datum y.now ∷ [])) ≡ true }
    requires found { PlacesAreFound bases.now (named bases.now instance) (mode_of s.now) (set_of (datum y.now ∷ [])) }
    requires there { HasBases bases.now (named bases.now instance) (mode_of s.now) }
    ensures over { IfOk result (λ h. IsOver bases.now (form h)) }
    ensures stands { IfOk result (λ h. stands bases.now (form h) ≡ Some (set_of (datum y.now ∷ []))) }
    ensures form { IfOk result (λ h. HasForm (named bases.now instance) (mode_of s.now) (form h)) }
{
    let images = set_of_one(alloc, y)?;
    in_form(alloc, s, &images, bases, instance)
}

// The set of one value. An error is want of memory, or that the value is 500 deep.
fn set_of_one(alloc: Global, y: &Value) -> Result<Value, AllocError>
    ensures { IfOk result (λ v. datum v ≡ set_of (datum y.now ∷ [])) }
{
    let mut s = SetBody::new(alloc)?;
    match with(alloc, &mut s, y.copy()?) {
        Ok(()) => Ok(Value::Set(s)),
        Err(_) => Err(AllocError),
    }
}

/// `f{x} less:= y`, in place: a map that keeps the images of each point as a set, and is held as a table, loses the image `y` at
/// `x`. A point that has no images then has no content.
///
/// Ok(false) comes where the map isn't held so, or where the mode of its images isn't one of sets. After that, and after want of
/// memory, which is the error, the map is as before. Nothing is charged, and no base changes. Where nobody else holds the table
/// and the set of images, the cost is near linear in the sizes of `x` and `y` alone where that set is remote, but for a count of
/// its words, and near linear in the set where it is sparse.
pub fn exclude_image(
    alloc: Global,
    mode: &Mode,
    f: &mut Held,
    x: &Value,
    y: &Value,
    bases: &Bases,
) -> Result<bool, AllocError>
    requires { (n : ℕ) × IsInForm bases.now n (mode_of mode.now) (form f.old) }
    ensures kernel { IfOk result (λ t. t ≡ cuts_image (mode_of mode.now) (form f.old)) }
    ensures update { (n : ℕ) → IsInForm bases.now n (mode_of mode.now) (form f.old) → IsUpdate (mode_of mode.now) n (less_image (stands bases.now (form f.old)) (datum x.now) (datum y.now)) bases.now bases.now (form f.old) (form f.new) result }
{
    setl_set::laws::rising_lists_agree();
    setl_set::laws::tests_are_exact();
    setl_set::laws::operations_have_their_members();
    setl_map::laws::images_are_by_pairs();
    setl_modes_parts::parts_decide();
    setl_rep_maps::laws::contents_stand_for_images();
    setl_rep_maps::laws::puts_are_images();
    setl_rep_entering::laws::parts_lengthen_alike();
    if !has_image_sets(mode) {
        return Ok(false);
    }
    let Some((b, _)) = table_of(f) else {
        return Ok(false);
    };
    cut_image(alloc, b, f, x, y, bases)?;
    Ok(true)
}

// Whether the mode is one of maps with sets of images that are tested one by one.
fn has_image_sets(mode: &Mode) -> bool
    ensures { result ≡ has_image_sets (mode_of mode.now) }
{
    match mode {
        Mode::Mmap(_, _, s) => matches!(s.get(), Mode::Set(_, _)),
        _ => false,
    }
}

// The image `y` of `x` goes out of a map on the base `b`. After an error, which is want of memory, the map is as before.
fn cut_image(
    alloc: Global,
    b: BaseId,
    f: &mut Held,
    x: &Value,
    y: &Value,
    bases: &Bases,
) -> Result<(), AllocError>
    requires table { (many : Bool) × (table_of (form f.old) ≡ Some (b, many)) }
    requires over { IsOver bases.now (form f.old) }
    requires images { (q : ℕ) (c : HeldForm) → content_of (form f.old) q ≡ Some c → IsImageSet bases.now c }
    ensures cut { OnOk result (IsImageCut bases.now b (datum x.now) (datum y.now) (form f.old) (form f.new)) }
    ensures refused { OnErr result (form f.new ≡ form f.old) }
{
    learn(f);
    let Some(e) = bases.at(b).find(x) else {
        return Ok(());
    };
    cut_at(alloc, e.block, f, y, bases)?;
    learn(f);
    Ok(())
}

// The same at the number of a point.
fn cut_at(
    alloc: Global,
    number: u64,
    f: &mut Held,
    y: &Value,
    bases: &Bases,
) -> Result<(), AllocError>
    requires table { IsTable (form f.old) }
    requires images { (c : HeldForm) → content_of (form f.old) number ≡ Some c → IsImageSet bases.now c }
    ensures cut { OnOk result (IsContentCut bases.now number (datum y.now) (form f.old) (form f.new)) }
    ensures refused { OnErr result (form f.new ≡ form f.old) }
{
    let Some(images) = content(f, number) else {
        return Ok(());
    };
    if !has_member(images, y, bases) {
        return Ok(());
    }
    if is_one(alloc, images, bases)? {
        return put_content(f, number, None);
    }
    cut_member(alloc, number, f, y, bases)
}

// The same where there are more images than this one.
fn cut_member(
    alloc: Global,
    number: u64,
    f: &mut Held,
    y: &Value,
    bases: &Bases,
) -> Result<(), AllocError>
    requires table { IsTable (form f.old) }
    requires several { HasSeveral bases.now (datum y.now) (content_of (form f.old) number) }
    ensures cut { OnOk result (IsContentCut bases.now number (datum y.now) (form f.old) (form f.new)) }
    ensures refused { OnErr result (form f.new ≡ form f.old) }
{
    match change_content(
        f,
        number,
        |images| put_member(alloc, images, y, false, bases),
    )? {
        Some(done) => done,
        None => Ok(()),
    }
}
