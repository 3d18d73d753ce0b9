//! The calls on maps.

ghost use Rattle.std.specs.Prelude.{◌≡◌, ◌↔◌, ◌⊎◌, ◌<◌, ◌≤◌, ◌+◌, ◌∷◌, [], true, false, map, length, Some, None, IfOk, IfNone, IfSome, OnErr, OnOk, IsTrue, Err, nat_le, nat_lt};
ghost use Rattle.setl_value.specs.code.Body.{Members};
ghost use Rattle.setl_value.specs.Datum.{Datum, depth, set_of};
ghost use Rattle.setl_value.specs.code.Changing.{Grows};
ghost use Rattle.setl_value.specs.code.DatumOf.{datum, part};
ghost use Rattle.setl_value.specs.Pairs.{is_map, images, pair};
ghost use Rattle.setl_value.specs.code.Places.{HasPlace, rank};
ghost use Rattle.std.specs.List.{filter_map};
ghost use Rattle.setl_set.specs.Sets.{insert_datum, set_from};
ghost use Rattle.setl_map.specs.code.Changing.{ChangesImage};
ghost use Rattle.setl_map.specs.code.Points.{BeginsAt, IsBound, part_at, pair_depth};
ghost use Rattle.setl_map.specs.Maps.{image, domain_of, range_of, without_point, put_image, put_images};

use crate::MapFault;
use crate::gather::gathered;
use crate::pairs::{count_from, image_from, make_pair, only_image, parts_of, span};
use setl_set::laws;
use setl_value::{Cursor, SetBody, Value};
use std::alloc::{AllocError, Global};

/// The one image of `x`, and None where it has none or several. Kind exactly where a member is no pair. Its cost is
/// that of one search by halving, however many images there are.
pub fn image(f: &SetBody, x: &Value) -> Result<Option<Value>, MapFault>
    ensures value { IfOk result (λ y. part y ≡ image (datum x.now) (Members f.now)) }
    ensures kind { (result ≡ Err MapFault.Kind) ↔ (is_map (Members f.now) ≡ false) }
    ensures never_deep { result ≡ Err MapFault.Deep → ⊥ }
{
    if !f.is_map() {
        return Err(MapFault::Kind);
    }
    match only_image(f, x) {
        None => Ok(None),
        Some(y) => Ok(Some(y.copy()?)),
    }
}

/// The set of the images of `x`. Kind exactly where a member is no pair.
pub fn images(alloc: Global, f: &SetBody, x: &Value) -> Result<SetBody, MapFault>
    ensures value { IfOk result (λ s. Members s ≡ images (datum x.now) (Members f.now)) }
    ensures kind { (result ≡ Err MapFault.Kind) ↔ (is_map (Members f.now) ≡ false) }
    ensures never_deep { result ≡ Err MapFault.Deep → ⊥ }
{
    if !f.is_map() {
        return Err(MapFault::Kind);
    }
    Ok(all_images(alloc, f, x)?)
}

// The set of the images of `x` in a map.
fn all_images(alloc: Global, f: &SetBody, x: &Value) -> Result<SetBody, AllocError>
    requires { IsTrue (is_map (Members f.now)) }
    ensures { IfOk result (λ s. Members s ≡ images (datum x.now) (Members f.now)) }
{
    f.learn();
    let (from, count) = span(f, x);
    let images = parts_of(alloc, f.members_from(from), count, false)?;
    let set = SetBody::from_rising(alloc, images)?;
    Ok(set)
}

/// The set of first parts. Kind exactly where a member is no pair.
pub fn domain(alloc: Global, f: &SetBody) -> Result<SetBody, MapFault>
    ensures value { IfOk result (λ s. Members s ≡ domain_of (Members f.now)) }
    ensures kind { (result ≡ Err MapFault.Kind) ↔ (is_map (Members f.now) ≡ false) }
    ensures never_deep { result ≡ Err MapFault.Deep → ⊥ }
{
    if !f.is_map() {
        return Err(MapFault::Kind);
    }
    Ok(set_of_parts(alloc, f, true)?)
}

/// The set of images. Kind exactly where a member is no pair.
pub fn range(alloc: Global, f: &SetBody) -> Result<SetBody, MapFault>
    ensures value { IfOk result (λ s. Members s ≡ range_of (Members f.now)) }
    ensures kind { (result ≡ Err MapFault.Kind) ↔ (is_map (Members f.now) ≡ false) }
    ensures never_deep { result ≡ Err MapFault.Deep → ⊥ }
{
    if !f.is_map() {
        return Err(MapFault::Kind);
    }
    Ok(set_of_parts(alloc, f, false)?)
}

// The set of first parts, or else of second parts.
fn set_of_parts(alloc: Global, f: &SetBody, first: bool) -> Result<SetBody, AllocError>
    ensures { IfOk result (λ s. Members s ≡ set_from (filter_map (part_at first) (Members f.now))) }
{
    f.learn();
    let parts = parts_of(alloc, f.members(), f.len(), first)?;
    let set = gathered(alloc, parts)?;
    Ok(set)
}

/// Takes all pairs with the first part `x` out. Kind exactly where a member is no pair. After a fault the map is as
/// before.
pub fn lessf(alloc: Global, f: &mut SetBody, x: &Value) -> Result<(), MapFault>
    ensures removed { OnOk result (Members f.new ≡ without_point (datum x.now) (Members f.old)) }
    ensures refused { OnErr result (f.new ≡ f.old) }
    ensures kind { (result ≡ Err MapFault.Kind) ↔ (is_map (Members f.old) ≡ false) }
    ensures never_deep { result ≡ Err MapFault.Deep → ⊥ }
{
    if !f.is_map() {
        return Err(MapFault::Kind);
    }
    Ok(remove_point(alloc, f, x)?)
}

// Takes all pairs with the first part `x` out of a map.
fn remove_point(alloc: Global, f: &mut SetBody, x: &Value) -> Result<(), AllocError>
    requires { IsTrue (is_map (Members f.old)) }
    ensures removed { OnOk result (Members f.new ≡ without_point (datum x.now) (Members f.old)) }
    ensures refused { OnErr result (f.new ≡ f.old) }
{
    let (from, count) = span(f, x);
    f.learn();
    if count == 0 {
        return Ok(());
    }
    f.replace_in(from, count, Vec::new(alloc))
}

/// Makes `y` the one image of `x`, or leaves `x` without an image where `y` is None. Kind exactly where a member is no
/// pair, Deep exactly where the map would be more than 500 deep. After a fault the map is as before.
pub fn put(alloc: Global, f: &mut SetBody, x: Value, y: Option<Value>) -> Result<(), MapFault>
    ensures put { OnOk result (Members f.new ≡ put_image (datum x) (part y) (Members f.old)) }
    ensures refused { OnErr result (f.new ≡ f.old) }
    ensures kind { (result ≡ Err MapFault.Kind) ↔ (is_map (Members f.old) ≡ false) }
    ensures deep { (result ≡ Err MapFault.Deep) ↔ ((is_map (Members f.old) ≡ true) × (500 < depth (set_of (put_image (datum x) (part y) (Members f.old))))) }
{
    if !f.is_map() {
        return Err(MapFault::Kind);
    }
    f.learn();
    if is_deep(&x, &y) {
        return Err(MapFault::Deep);
    }
    Ok(put_shallow(alloc, f, x, y)?)
}

// Whether a map with the pair of `x` and `y` would be more than 500 deep.
fn is_deep(x: &Value, y: &Option<Value>) -> bool
    ensures { result ≡ nat_le 500 (pair_depth (datum x.now) (part y.now)) }
{
    match y {
        None => false,
        Some(y) => is_deep_pair(x, y),
    }
}

// Whether the pair of `x` and `y` is too deep for a member.
fn is_deep_pair(x: &Value, y: &Value) -> bool
    ensures { result ≡ nat_le 500 (depth (pair (datum x.now) (datum y.now))) }
{
    x.depth().max(y.depth()) >= 499
}

// Makes `y` the one image of `x` in a map, or leaves `x` without an image.
fn put_shallow(alloc: Global, f: &mut SetBody, x: Value, y: Option<Value>) -> Result<(), AllocError>
    requires map { IsTrue (is_map (Members f.old)) }
    requires shallow { nat_le 500 (pair_depth (datum x) (part y)) ≡ false }
    ensures put { OnOk result (Members f.new ≡ put_image (datum x) (part y) (Members f.old)) }
    ensures refused { OnErr result (f.new ≡ f.old) }
{
    match y {
        None => remove_point(alloc, f, &x),
        Some(y) => put_pair(alloc, f, x, y),
    }
}

// Makes `y` the one image of `x` in a map: in the pair that stands there, where that is the only one and `y` is at least
// as deep as its second part, and else in a new pair.
fn put_pair(alloc: Global, f: &mut SetBody, x: Value, y: Value) -> Result<(), AllocError>
    requires map { IsTrue (is_map (Members f.old)) }
    requires shallow { depth (pair (datum x) (datum y)) < 500 }
    ensures put { OnOk result (Members f.new ≡ put_image (datum x) (Some (datum y)) (Members f.old)) }
    ensures refused { OnErr result (f.new ≡ f.old) }
{
    let from = f.search_point(&x);
    match image_from(f, from, &x) {
        Some(old) if old.depth() <= y.depth() => overwrite(f, from, &x, y),
        _ => put_new_pair(alloc, f, from, x, y),
    }
}

// Makes `y` the one image of `x`, whose pair stands at a place.
fn overwrite(f: &mut SetBody, from: Cursor, x: &Value, y: Value) -> Result<(), AllocError>
    requires map { IsTrue (is_map (Members f.old)) }
    requires place { HasPlace f.old from }
    requires from { BeginsAt (datum x.now) (Members f.old) (rank f.old from) }
    requires there { (d : Datum) × (image (datum x.now) (Members f.old) ≡ Some d) × (depth d ≤ depth (datum y)) }
    requires shallow { depth (datum y) < 499 }
    ensures put { OnOk result (Members f.new ≡ put_image (datum x.now) (Some (datum y)) (Members f.old)) }
    ensures refused { OnErr result (f.new ≡ f.old) }
{
    change_from(f, from, x, |image| *image = y)?;
    Ok(())
}

// Makes `y` the one image of `x`, of which the place is known where its pairs begin, or else would stand.
fn put_new_pair(
    alloc: Global,
    f: &mut SetBody,
    from: Cursor,
    x: Value,
    y: Value,
) -> Result<(), AllocError>
    requires map { IsTrue (is_map (Members f.old)) }
    requires place { HasPlace f.old from }
    requires from { BeginsAt (datum x) (Members f.old) (rank f.old from) }
    requires shallow { depth (pair (datum x) (datum y)) < 500 }
    ensures put { OnOk result (Members f.new ≡ put_image (datum x) (Some (datum y)) (Members f.old)) }
    ensures refused { OnErr result (f.new ≡ f.old) }
{
    let count = count_from(f, from, &x);
    if count == 0 {
        put_first(alloc, f, from, x, y)
    } else {
        replace_pairs(alloc, f, from, count, x, y)
    }
}

// Puts the pair of `x` and `y` at a place, where `x` has no pairs.
fn put_first(
    alloc: Global,
    f: &mut SetBody,
    from: Cursor,
    x: Value,
    y: Value,
) -> Result<(), AllocError>
    requires map { IsTrue (is_map (Members f.old)) }
    requires place { HasPlace f.old from }
    requires from { IsBound false (datum x) (Members f.old) (rank f.old from) }
    requires to { IsBound true (datum x) (Members f.old) (rank f.old from) }
    requires shallow { depth (pair (datum x) (datum y)) < 500 }
    ensures put { OnOk result (Members f.new ≡ put_image (datum x) (Some (datum y)) (Members f.old)) }
    ensures refused { OnErr result (f.new ≡ f.old) }
{
    laws::operations_have_their_members();
    f.learn();
    let pair = make_pair(alloc, x, y)?;
    f.put_in(alloc, from, pair)
}

// Puts the pair of `x` and `y` in the place of all pairs of `x`, which stand at a place.
fn replace_pairs(
    alloc: Global,
    f: &mut SetBody,
    from: Cursor,
    count: usize,
    x: Value,
    y: Value,
) -> Result<(), AllocError>
    requires map { IsTrue (is_map (Members f.old)) }
    requires place { HasPlace f.old from }
    requires from { IsBound false (datum x) (Members f.old) (rank f.old from) }
    requires to { IsBound true (datum x) (Members f.old) (rank f.old from + count) }
    requires shallow { depth (pair (datum x) (datum y)) < 500 }
    ensures put { OnOk result (Members f.new ≡ put_image (datum x) (Some (datum y)) (Members f.old)) }
    ensures refused { OnErr result (f.new ≡ f.old) }
{
    laws::operations_have_their_members();
    f.learn();
    let pairs = one_pair(alloc, x, y)?;
    f.replace_in(from, count, pairs)
}

// The list of one pair.
fn one_pair(alloc: Global, x: Value, y: Value) -> Result<Vec<Value>, AllocError>
    requires { depth (pair (datum x) (datum y)) < 500 }
    ensures { IfOk result (λ ps. map datum ps.items ≡ pair (datum x) (datum y) ∷ []) }
{
    let mut pairs = Vec::with_capacity(alloc, 1)?;
    pairs.push(make_pair(alloc, x, y)?)?;
    Ok(pairs)
}

/// Makes the members of `s` the images of `x`. Kind exactly where a member of the map is no pair, Deep exactly where the
/// map would be more than 500 deep. After a fault the map is as before.
pub fn put_all(alloc: Global, f: &mut SetBody, x: Value, s: &SetBody) -> Result<(), MapFault>
    ensures put { OnOk result (Members f.new ≡ put_images (datum x) (Members s.now) (Members f.old)) }
    ensures refused { OnErr result (f.new ≡ f.old) }
    ensures kind { (result ≡ Err MapFault.Kind) ↔ (is_map (Members f.old) ≡ false) }
    ensures deep { (result ≡ Err MapFault.Deep) ↔ ((is_map (Members f.old) ≡ true) × (500 < depth (set_of (put_images (datum x) (Members s.now) (Members f.old))))) }
{
    if !f.is_map() {
        return Err(MapFault::Kind);
    }
    f.learn();
    if are_deep(&x, s) {
        return Err(MapFault::Deep);
    }
    Ok(put_shallow_images(alloc, f, &x, s)?)
}

// Whether a map with the pairs of `x` and each member of `s` would be more than 500 deep.
fn are_deep(x: &Value, s: &SetBody) -> bool
    ensures { result ≡ nat_lt 500 (depth (set_of (map (λ y. pair (datum x.now) y) (Members s.now)))) }
{
    x.learn();
    s.learn();
    s.len() != 0 && (x.depth() + 1).max(s.depth()) >= 500
}

// Makes the members of `s` the images of `x` in a map.
fn put_shallow_images(
    alloc: Global,
    f: &mut SetBody,
    x: &Value,
    s: &SetBody,
) -> Result<(), AllocError>
    requires map { IsTrue (is_map (Members f.old)) }
    requires shallow { nat_lt 500 (depth (set_of (map (λ y. pair (datum x.now) y) (Members s.now)))) ≡ false }
    ensures put { OnOk result (Members f.new ≡ put_images (datum x.now) (Members s.now) (Members f.old)) }
    ensures refused { OnErr result (f.new ≡ f.old) }
{
    laws::rising_lists_agree();
    laws::tests_are_exact();
    laws::operations_have_their_members();
    f.learn();
    s.learn();
    let (from, count) = span(f, x);
    let pairs = pairs_from(alloc, x, s)?;
    f.replace_in(from, count, pairs)
}

// The pairs of `x` and each member of `s`.
fn pairs_from(alloc: Global, x: &Value, s: &SetBody) -> Result<Vec<Value>, AllocError>
    requires { nat_lt 500 (depth (set_of (map (λ y. pair (datum x.now) y) (Members s.now)))) ≡ false }
    ensures { IfOk result (λ ps. map datum ps.items ≡ map (λ y. pair (datum x.now) y) (Members s.now)) }
{
    let mut pairs = Vec::with_capacity(alloc, s.len())?;
    for y in s.members() {
        pairs.push(make_pair(alloc, x.copy()?, y.copy()?)?)?;
    }
    Ok(pairs)
}

/// Makes `y` one more image of `x`. Kind exactly where a member of the map is no pair, Deep exactly where the map would
/// be more than 500 deep. After a fault the map is as before. Its cost is that of one search and one put, however many
/// images there are.
pub fn add_image(alloc: Global, f: &mut SetBody, x: Value, y: Value) -> Result<(), MapFault>
    ensures added { OnOk result (Members f.new ≡ put_images (datum x) (insert_datum (datum y) (images (datum x) (Members f.old))) (Members f.old)) }
    ensures refused { OnErr result (f.new ≡ f.old) }
    ensures kind { (result ≡ Err MapFault.Kind) ↔ (is_map (Members f.old) ≡ false) }
    ensures deep { (result ≡ Err MapFault.Deep) ↔ ((is_map (Members f.old) ≡ true) × (500 < depth (set_of (put_images (datum x) (insert_datum (datum y) (images (datum x) (Members f.old))) (Members f.old))))) }
{
    if !f.is_map() {
        return Err(MapFault::Kind);
    }
    f.learn();
    learn_added(f, &x, &y);
    if is_deep_pair(&x, &y) {
        return Err(MapFault::Deep);
    }
    Ok(add_pair(alloc, f, x, y)?)
}

// Has no effect: it hands a proof that one image more is one pair more.
fn learn_added(f: &SetBody, x: &Value, y: &Value)
    requires { IsTrue (is_map (Members f.now)) }
    ensures { insert_datum (pair (datum x.now) (datum y.now)) (Members f.now) ≡ put_images (datum x.now) (insert_datum (datum y.now) (images (datum x.now) (Members f.now))) (Members f.now) }
{
    laws::rising_lists_agree();
    laws::tests_are_exact();
    laws::operations_have_their_members();
    f.learn();
}

// Makes the pair of `x` and `y` a member. The error is want of memory: the condition leaves no other fault of the set.
fn add_pair(alloc: Global, f: &mut SetBody, x: Value, y: Value) -> Result<(), AllocError>
    requires { depth (pair (datum x) (datum y)) < 500 }
    ensures added { OnOk result (Members f.new ≡ insert_datum (pair (datum x) (datum y)) (Members f.old)) }
    ensures refused { OnErr result (f.new ≡ f.old) }
{
    let pair = make_pair(alloc, x, y)?;
    match setl_set::with(alloc, f, pair) {
        Ok(()) => Ok(()),
        Err(_) => Err(AllocError),
    }
}

/// Lets `change` change the one image of `x` where it stands, to one that is at least as deep and at most 498 deep, and
/// answers what `change` answers. Where a member is no pair, or `x` has no image or several, the answer is None, and
/// `change` isn't called. Where memory is refused, neither, and the map is as before. Its cost is that of one search.
pub fn change_image<R, F: FnOnce(&mut Value) -> R>(
    f: &mut SetBody,
    x: &Value,
    change: F,
) -> Result<Option<R>, AllocError>
    requires callable { F.IsAlwaysCallable change }
    requires grows { (d : Datum) → image (datum x.now) (Members f.old) ≡ Some d → depth d < 499 → Grows F.FnOnce change d 499 }
    ensures changed { IfOk result (λ o. IfSome o (λ r. ChangesImage F.FnOnce change (datum x.now) (Members f.old) r (Members f.new) (f.new ≡ f.old))) }
    ensures nothing { IfOk result (λ o. IfNone o ((is_map (Members f.old) ≡ false) ⊎ (image (datum x.now) (Members f.old) ≡ None))) }
    ensures unchanged { IfOk result (λ o. IfNone o (f.new ≡ f.old)) }
    ensures refused { OnErr result (f.new ≡ f.old) }
{
    if !f.is_map() {
        return Ok(None);
    }
    let from = f.search_point(x);
    let Some(_) = image_from(f, from, x) else {
        return Ok(None);
    };
    change_from(f, from, x, change)
}

// Lets `change` change the one image of `x`, whose pair stands at a place.
fn change_from<R, F: FnOnce(&mut Value) -> R>(
    f: &mut SetBody,
    from: Cursor,
    x: &Value,
    change: F,
) -> Result<Option<R>, AllocError>
    requires map { IsTrue (is_map (Members f.old)) }
    requires place { HasPlace f.old from }
    requires from { BeginsAt (datum x.now) (Members f.old) (rank f.old from) }
    requires there { (d : Datum) × (image (datum x.now) (Members f.old) ≡ Some d) }
    requires callable { F.IsAlwaysCallable change }
    requires grows { (d : Datum) → image (datum x.now) (Members f.old) ≡ Some d → depth d < 499 → Grows F.FnOnce change d 499 }
    ensures changed { IfOk result (λ o. IfSome o (λ r. ChangesImage F.FnOnce change (datum x.now) (Members f.old) r (Members f.new) (f.new ≡ f.old))) }
    ensures called { IfOk result (λ o. IfNone o ⊥) }
    ensures refused { OnErr result (f.new ≡ f.old) }
{
    laws::operations_have_their_members();
    f.learn();
    f.change_second(from, change)
}
