//! Changes of a list that may have several owners: it is copied first where it has others. Where memory is refused, the
//! list is as before.

ghost use Rattle.std.specs.Prelude.{◌≡◌, ◌<◌, ◌≤◌, ◌+◌, ◌++◌, ◌∷◌, ◌⊎◌, take, drop, length, slice_get, slice_set, IfOk, OnErr, OnOk, Some, None};
ghost use Rattle.std.specs.List.{insert, remove};

use std::alloc::AllocError;
use std::rc::Rc;

/// Puts `v` before the i-th item.
pub(crate) fn put_in<T: Clone>(items: &mut Rc<Vec<T>>, i: usize, v: T) -> Result<(), AllocError>
    requires exact { (x y : T) → T.is_clone x y → y ≡ x }
    requires inside { i ≤ length items.old.value.items }
    ensures put { OnOk result (items.new.value.items ≡ insert items.old.value.items i v) }
    ensures refused { OnErr result (items.new.value.items ≡ items.old.value.items) }
{
    let list = Rc::make_mut(items)?;
    list.insert(i, v)?;
    Ok(())
}

/// Takes the i-th item out.
pub(crate) fn cut_in<T: Clone>(items: &mut Rc<Vec<T>>, i: usize) -> Result<T, AllocError>
    requires exact { (x y : T) → T.is_clone x y → y ≡ x }
    requires inside { i < length items.old.value.items }
    ensures taken { IfOk result (λ v. slice_get items.old.value.items i ≡ Some v) }
    ensures cut { OnOk result (items.new.value.items ≡ remove items.old.value.items i) }
    ensures refused { OnErr result (items.new.value.items ≡ items.old.value.items) }
{
    let list = Rc::make_mut(items)?;
    Ok(list.remove(i))
}

/// Puts copies of some items after the last one.
pub fn append_in<T: Clone>(items: &mut Rc<Vec<T>>, more: &[T]) -> Result<(), AllocError>
    requires exact { (x y : T) → T.is_clone x y → y ≡ x }
    ensures appended { OnOk result (items.new.value.items ≡ items.old.value.items ++ more.now) }
    ensures refused { OnErr result (items.new.value.items ≡ items.old.value.items) }
{
    let list = Rc::make_mut(items)?;
    extend(list, more)
}

pub(crate) fn extend<T: Clone>(list: &mut Vec<T>, more: &[T]) -> Result<(), AllocError>
    requires exact { (x y : T) → T.is_clone x y → y ≡ x }
    ensures appended { OnOk result (list.new.items ≡ list.old.items ++ more.now) }
    ensures refused { OnErr result (list.new.items ≡ list.old.items) }
{
    list.extend_with_clones(more)?;
    Ok(())
}

/// Drops the first `n` items. Nothing is copied where `n` is 0.
pub fn drop_front<T: Clone + Drop>(items: &mut Rc<Vec<T>>, n: usize) -> Result<(), AllocError>
    requires exact { (x y : T) → T.is_clone x y → y ≡ x }
    requires inside { n ≤ length items.old.value.items }
    ensures dropped { OnOk result (items.new.value.items ≡ drop n items.old.value.items) }
    ensures refused { OnErr result (items.new.value.items ≡ items.old.value.items) }
{
    if n == 0 {
        return Ok(());
    }
    let list = Rc::make_mut(items)?;
    let rest = list.split_off(n)?;
    *list = rest;
    Ok(())
}

/// Takes the item at the place `start` off the front of what stands from there on, and moves the place on by one. Of a list
/// with no other owner the item is moved out, and None stands in its place. Of one with others it is copied, and the
/// list stays as it is. The error is want of memory, and then nothing is changed.
pub fn take_first<T: Clone + Drop>(
    items: &mut Rc<Vec<Option<T>>>,
    start: &mut usize,
) -> Result<Option<T>, AllocError>
    requires exact { (x y : T) → T.is_clone x y → y ≡ x }
    requires inside { start.old < length items.old.value.items }
    ensures taken { IfOk result (λ o. drop start.old items.old.value.items ≡ o ∷ drop start.new items.new.value.items) }
    ensures next { OnOk result (start.new ≡ start.old + 1) }
    ensures left { (items.new.value.items ≡ items.old.value.items) ⊎ (items.new.value.items ≡ slice_set items.old.value.items start.old None) }
    ensures refused { OnErr result ((items.new.value.items ≡ items.old.value.items) × (start.new ≡ start.old)) }
{
    let first = take_part(items, *start)?;
    *start += 1;
    Ok(first)
}

// Moves the i-th item out of a list with no other owner, and else copies it.
fn take_part<T: Clone + Drop>(
    items: &mut Rc<Vec<Option<T>>>,
    i: usize,
) -> Result<Option<T>, AllocError>
    requires exact { (x y : T) → T.is_clone x y → y ≡ x }
    requires inside { i < length items.old.value.items }
    ensures taken { IfOk result (λ o. slice_get items.old.value.items i ≡ Some o) }
    ensures left { (items.new.value.items ≡ items.old.value.items) ⊎ (items.new.value.items ≡ slice_set items.old.value.items i None) }
    ensures refused { OnErr result (items.new.value.items ≡ items.old.value.items) }
{
    if Rc::strong_count(items) > 1 {
        return items[i].clone();
    }
    let list = Rc::make_mut(items)?;
    Ok(list[i].take())
}

/// Puts `by` in the place of the items from the `from`-th up to before the `to`-th.
pub(crate) fn replace_in<T: Clone + Drop>(
    items: &mut Rc<Vec<T>>,
    from: usize,
    to: usize,
    by: Vec<T>,
) -> Result<(), AllocError>
    requires exact { (x y : T) → T.is_clone x y → y ≡ x }
    requires inside { (from ≤ to) × (to ≤ length items.old.value.items) }
    ensures replaced { OnOk result (items.new.value.items ≡ take from items.old.value.items ++ by.items ++ drop to items.old.value.items) }
    ensures refused { OnErr result (items.new.value.items ≡ items.old.value.items) }
{
    let list = Rc::make_mut(items)?;
    replace_between(list, from, to, by)
}

/// Puts `by` in the place of the items from the `from`-th up to before the `to`-th.
pub(crate) fn replace_between<T: Drop>(
    list: &mut Vec<T>,
    from: usize,
    to: usize,
    by: Vec<T>,
) -> Result<(), AllocError>
    requires { (from ≤ to) × (to ≤ length list.old.items) }
    ensures replaced { OnOk result (list.new.items ≡ take from list.old.items ++ by.items ++ drop to list.old.items) }
    ensures refused { OnErr result (list.new.items ≡ list.old.items) }
{
    let _gone = list.splice(from..to, by)?;
    Ok(())
}
