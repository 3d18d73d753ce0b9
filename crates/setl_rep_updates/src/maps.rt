//! A value comes to a point of a map.

ghost use Rattle.std.specs.Prelude.{◌≡◌, Bool, ℕ, true, ◌<◌, IfOk, OnOk, OnErr, Some, None, IsSome, [], ◌∷◌};
ghost use Rattle.std.specs.Option.{is_some};
ghost use Rattle.setl_value.specs.Datum.{depth, set_of};
ghost use Rattle.setl_value.specs.Pairs.{pair};
ghost use Rattle.setl_value.specs.code.DatumOf.{datum};
ghost use Rattle.setl_modes.specs.declared.mode.Form.{Form as Attribute};
ghost use Rattle.setl_modes.specs.Modes.{mode_of, Mode as ModeState, SingleMaps};
ghost use Rattle.setl_modes.specs.Fits.{datum_fits};
ghost use Rattle.setl_operators_table.specs.declared.Operator.TheVariants.{Lessf, Put};
ghost use Rattle.setl_operators_table.specs.Operators.{op_of};
ghost use Rattle.setl_base.specs.Base.{find};
ghost use Rattle.setl_rep_bases.specs.Bases.{base_at, named};
ghost use Rattle.setl_rep_forms.specs.FormOf.{form};
ghost use Rattle.setl_rep_forms.specs.Stands.{stands, IsOver};
ghost use Rattle.setl_rep_building.specs.Places.{HasBases, PlacesAreFound};
ghost use Rattle.setl_rep_maps.specs.Contents.{table_of};
ghost use Rattle.setl_rep_entering.specs.Entering.{AreLengthened};
ghost use Rattle.setl_rep_updates.specs.InForm.{IsInForm};
ghost use Rattle.setl_rep_updates.specs.Updates.{is_part, puts, IsUpdate};
ghost use Rattle.setl_rep_updates.specs.code.Imaged.{IsImagePut, IsPointCut};

use setl_modes::Mode;
use setl_modes_fit::fits;
use setl_rep_based::handle;
use setl_rep_bases::{BaseId, Bases};
use setl_rep_building::in_form;
use setl_rep_entering::{are_entered, base_marks, enter_places, take_back};
use setl_rep_forms::Held;
use setl_rep_maps::{learn, put_content, table_of};
use setl_value::{SetBody, Value};
use std::alloc::{AllocError, Global};

/// `f(x) := y`, in place: a map with one image for each point that is held as a table gets the image `y` at `x`. The values at
/// the places of both are entered into their bases first.
///
/// Ok(false) comes where the map isn't held so, or where `x` or `y` doesn't fit its mode or is 499 deep or deeper. After that,
/// and after want of memory, which is the error, the map and the bases are as before. Nothing is charged. Where nobody else
/// holds the table, the cost is near linear in the sizes of `x` and `y` alone.
pub fn put(
    alloc: Global,
    mode: &Mode,
    f: &mut Held,
    x: &Value,
    y: &Value,
    bases: &mut Bases,
    instance: u64,
) -> Result<bool, AllocError>
    requires { IsInForm bases.old instance (mode_of mode.now) (form f.old) }
    ensures kernel { IfOk result (λ t. t ≡ puts (mode_of mode.now) (form f.old) (datum x.now) (datum y.now)) }
    ensures update { IsUpdate (mode_of mode.now) instance (op_of Put (stands bases.old (form f.old) ∷ Some (datum x.now) ∷ Some (datum y.now) ∷ [])) bases.old bases.new (form f.old) (form f.new) result }
{
    match mode {
        Mode::Smap(_, d, r) => put_in(alloc, mode, d.get(), r.get(), f, x, y, bases, instance),
        _ => Ok(false),
    }
}

// The same for a map from values of the mode `d` to values of the mode `r`.
fn put_in(
    alloc: Global,
    mode: &Mode,
    d: &Mode,
    r: &Mode,
    f: &mut Held,
    x: &Value,
    y: &Value,
    bases: &mut Bases,
    instance: u64,
) -> Result<bool, AllocError>
    requires mode { (a : Attribute) × (mode_of mode.now ≡ SingleMaps a (mode_of d.now) (mode_of r.now)) }
    requires held { IsInForm bases.old instance (mode_of mode.now) (form f.old) }
    ensures kernel { IfOk result (λ t. t ≡ puts (mode_of mode.now) (form f.old) (datum x.now) (datum y.now)) }
    ensures update { IsUpdate (mode_of mode.now) instance (op_of Put (stands bases.old (form f.old) ∷ Some (datum x.now) ∷ Some (datum y.now) ∷ [])) bases.old bases.new (form f.old) (form f.new) result }
{
    setl_set::laws::operations_have_their_members();
    setl_modes_parts::parts_decide();
    setl_rep_forms::laws::forms_stay();
    setl_rep_maps::laws::contents_stand_for_images();
    setl_rep_maps::laws::puts_are_images();
    setl_rep_entering::laws::places_are_members();
    setl_rep_entering::laws::parts_lengthen_alike();
    crate::laws::forms_of_modes_stay();
    let Some((b, _)) = table_of(f) else {
        return Ok(false);
    };
    if !is_part(d, x)? || !is_part(r, y)? {
        return Ok(false);
    }
    x.learn();
    y.learn();
    put_pair(alloc, mode, d, r, b, f, x, y, bases, instance)?;
    Ok(true)
}

/// Whether a value is put into a map, where its mode is this one. An error is want of memory.
pub(crate) fn is_part(m: &Mode, x: &Value) -> Result<bool, AllocError>
    ensures { IfOk result (λ t. t ≡ is_part (mode_of m.now) (datum x.now)) }
{
    if x.depth() < 499 {
        return Ok(fits(m, &Some(x.copy()?)));
    }
    Ok(false)
}

// Enters the values at the places of a pair into their bases, and puts the pair into a map on the base `b`. Where they all are
// members, the pair itself isn't made. After an error, which is want of memory, the bases and the map are as before.
fn put_pair(
    alloc: Global,
    mode: &Mode,
    d: &Mode,
    r: &Mode,
    b: BaseId,
    f: &mut Held,
    x: &Value,
    y: &Value,
    bases: &mut Bases,
    instance: u64,
) -> Result<(), AllocError>
    requires mode { (a : Attribute) × (mode_of mode.now ≡ SingleMaps a (mode_of d.now) (mode_of r.now)) }
    requires held { IsInForm bases.old instance (mode_of mode.now) (form f.old) }
    requires taken { puts (mode_of mode.now) (form f.old) (datum x.now) (datum y.now) ≡ true }
    requires table { (many : Bool) × (table_of (form f.old) ≡ Some (b, many)) }
    ensures lengthened { OnOk result (AreLengthened (mode_of mode.now) (set_of (pair (datum x.now) (datum y.now) ∷ [])) instance bases.old bases.new) }
    ensures put { OnOk result (IsImagePut bases.new instance (mode_of r.now) (datum x.now) (datum y.now) (form f.old) (form f.new)) }
    ensures refused { OnErr result ((bases.new ≡ bases.old) × (form f.new ≡ form f.old)) }
{
    setl_rep_entering::laws::places_are_members();
    setl_rep_entering::laws::bases_are_lengthened();
    if are_entered(alloc, d, x, instance, bases)? && are_entered(alloc, r, y, instance, bases)? {
        return put_image(alloc, r, b, f, x, y, bases, instance);
    }
    enter_pair(alloc, mode, r, b, f, x, y, bases, instance)
}

// The same, where they may be no members yet.
fn enter_pair(
    alloc: Global,
    mode: &Mode,
    r: &Mode,
    b: BaseId,
    f: &mut Held,
    x: &Value,
    y: &Value,
    bases: &mut Bases,
    instance: u64,
) -> Result<(), AllocError>
    requires mode { (a : Attribute) × (d : ModeState) × (mode_of mode.now ≡ SingleMaps a d (mode_of r.now)) }
    requires held { IsInForm bases.old instance (mode_of mode.now) (form f.old) }
    requires taken { puts (mode_of mode.now) (form f.old) (datum x.now) (datum y.now) ≡ true }
    requires table { (many : Bool) × (table_of (form f.old) ≡ Some (b, many)) }
    ensures lengthened { OnOk result (AreLengthened (mode_of mode.now) (set_of (pair (datum x.now) (datum y.now) ∷ [])) instance bases.old bases.new) }
    ensures put { OnOk result (IsImagePut bases.new instance (mode_of r.now) (datum x.now) (datum y.now) (form f.old) (form f.new)) }
    ensures refused { OnErr result ((bases.new ≡ bases.old) × (form f.new ≡ form f.old)) }
{
    setl_rep_forms::laws::forms_stay();
    setl_rep_entering::laws::places_are_members();
    setl_rep_entering::laws::bases_are_lengthened();
    let part = set_of_pair(alloc, x, y)?;
    let marks = base_marks(alloc, mode, instance, bases)?;
    enter_places(alloc, mode, &part, instance, bases)?;
    match put_image(alloc, r, b, f, x, y, bases, instance) {
        Ok(()) => Ok(()),
        Err(e) => {
            take_back(marks, bases);
            Err(e)
        }
    }
}

/// The set of one pair. An error is want of memory.
pub(crate) fn set_of_pair(alloc: Global, x: &Value, y: &Value) -> Result<Value, AllocError>
    requires { (depth (datum x.now) < 499) × (depth (datum y.now) < 499) }
    ensures { IfOk result (λ v. datum v ≡ set_of (pair (datum x.now) (datum y.now) ∷ [])) }
{
    let mut s = SetBody::new(alloc)?;
    match setl_map::put(alloc, &mut s, x.copy()?, Some(y.copy()?)) {
        Ok(()) => Ok(Value::Set(s)),
        Err(_) => Err(AllocError),
    }
}

// Puts an image at a point of a map on the base `b`, of which the point is a member. After an error, which is want of memory,
// the map is as before.
fn put_image(
    alloc: Global,
    r: &Mode,
    b: BaseId,
    f: &mut Held,
    x: &Value,
    y: &Value,
    bases: &Bases,
    instance: u64,
) -> Result<(), AllocError>
    requires table { (many : Bool) × (table_of (form f.old) ≡ Some (b, many)) }
    requires over { IsOver bases.now (form f.old) }
    requires point { IsSome (find (base_at bases.now b) (datum x.now)) }
    requires fits { datum_fits (mode_of r.now) (datum y.now) ≡ true }
    requires found { PlacesAreFound bases.now (named bases.now instance) (mode_of r.now) (datum y.now) }
    requires there { HasBases bases.now (named bases.now instance) (mode_of r.now) }
    ensures put { OnOk result (IsImagePut bases.now instance (mode_of r.now) (datum x.now) (datum y.now) (form f.old) (form f.new)) }
    ensures refused { OnErr result (form f.new ≡ form f.old) }
{
    let content = in_form(alloc, r, y, bases, instance)?;
    let number = handle(bases.at(b), x).block;
    learn(f);
    put_content(f, number, Some(content))?;
    learn(f);
    Ok(())
}

/// `f(x) := om` and `f lessf:= x`, in place: a map that is held as a table loses its images at `x`.
///
/// Ok(false) comes where the map isn't held so. After that, and after want of memory, which is the error, the map is as before.
/// Nothing is charged, and no base changes. Where nobody else holds the table, the cost is near linear in the size of `x` alone.
pub fn cut(f: &mut Held, x: &Value, bases: &Bases) -> Result<bool, AllocError>
    requires { IsOver bases.now (form f.old) }
    ensures kernel { IfOk result (λ t. t ≡ is_some (table_of (form f.old))) }
    ensures update { (m : ModeState) (n : ℕ) → IsInForm bases.now n m (form f.old) → IsUpdate m n (op_of Put (stands bases.now (form f.old) ∷ Some (datum x.now) ∷ None ∷ [])) bases.now bases.now (form f.old) (form f.new) result }
    ensures lessf { (m : ModeState) (n : ℕ) → IsInForm bases.now n m (form f.old) → IsUpdate m n (op_of Lessf (stands bases.now (form f.old) ∷ Some (datum x.now) ∷ [])) bases.now bases.now (form f.old) (form f.new) result }
{
    setl_set::laws::rising_lists_agree();
    setl_set::laws::operations_have_their_members();
    setl_modes_parts::parts_decide();
    setl_rep_maps::laws::contents_stand_for_images();
    setl_rep_maps::laws::puts_are_images();
    setl_rep_entering::laws::parts_lengthen_alike();
    let Some((b, _)) = table_of(f) else {
        return Ok(false);
    };
    cut_point(b, f, x, bases)?;
    Ok(true)
}

// Takes the images of a point out of a map on the base `b`. After an error, which is want of memory, the map is as before.
fn cut_point(b: BaseId, f: &mut Held, x: &Value, bases: &Bases) -> Result<(), AllocError>
    requires table { (many : Bool) × (table_of (form f.old) ≡ Some (b, many)) }
    requires over { IsOver bases.now (form f.old) }
    ensures cut { OnOk result (IsPointCut bases.now b (datum x.now) (form f.old) (form f.new)) }
    ensures refused { OnErr result (form f.new ≡ form f.old) }
{
    learn(f);
    let Some(e) = bases.at(b).find(x) else {
        return Ok(());
    };
    put_content(f, e.block, None)?;
    learn(f);
    Ok(())
}
