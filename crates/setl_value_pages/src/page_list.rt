//! Lists of pages: items in shared pages of 1 to 64, and changes of one part of them. The pages that don't change stay
//! shared, and one that changes is copied first only where it has other owners.

ghost use Rattle.std.specs.Prelude.{◌≡◌, ◌<◌, ◌≤◌, ◌+◌, ◌-◌, ◌++◌, ◌∷◌, ◌⊎◌, [], length, take, drop, map, slice_get, IfOk, OnErr, OnOk, Some};
ghost use Rattle.std.specs.Bool.{OnTrue};
ghost use Rattle.std.specs.List.{AllByRecursion};
ghost use Rattle.setl_value_pages.specs.Pages.{IsPage, IsIn, items, joined, page_at};
ghost use Rattle.setl_value_pages.specs.Exchange.{Exchanges, AreFilled, AreHalves, Ends, Refills, cut_size, even_size, page_sizes, put_size};

use crate::shared::{cut_in, extend, put_in, replace_between, replace_in};
use std::alloc::{AllocError, Global};
use std::mem;
use std::rc::Rc;

/// Some items, shared.
pub type Page<T> = Rc<Vec<T>>;

/// The most items of a page.
const MOST: usize = 64;

/// Puts `v` at the i-th place of the k-th page. A page that would have 65 items becomes two.
pub fn put_page<T: Clone + Drop>(
    alloc: Global,
    list: &mut Vec<Page<T>>,
    k: usize,
    i: usize,
    v: T,
) -> Result<(), AllocError>
    requires exact { (x y : T) → T.is_clone x y → y ≡ x }
    requires pages { AllByRecursion IsPage (map items list.old.items) }
    requires place { IsIn (map items list.old.items) k i }
    ensures put { OnOk result (Exchanges (map items list.old.items) (map items list.new.items) k i k i (v ∷ [])) }
    ensures sizes { OnOk result (page_sizes (map items list.new.items) ≡ put_size (page_sizes (map items list.old.items)) k) }
    ensures refused { OnErr result (map items list.new.items ≡ map items list.old.items) }
{
    if list.is_empty() {
        return add_page(alloc, list, v);
    }
    if list[k].len() < MOST {
        put_in_page(list, k, i, v)
    } else {
        put_split(alloc, list, k, i, v)
    }
}

// Puts a page of `v` alone at the end.
fn add_page<T: Drop>(alloc: Global, list: &mut Vec<Page<T>>, v: T) -> Result<(), AllocError>
    ensures added { OnOk result (map items list.new.items ≡ map items list.old.items ++ (v ∷ []) ∷ []) }
    ensures refused { OnErr result (map items list.new.items ≡ map items list.old.items) }
{
    let mut members = Vec::with_capacity(alloc, 1)?;
    members.push_reserved(v);
    push_page(alloc, list, members)
}

// Puts a page of these items at the end.
fn push_page<T: Drop>(
    alloc: Global,
    list: &mut Vec<Page<T>>,
    page: Vec<T>,
) -> Result<(), AllocError>
    ensures added { OnOk result (map items list.new.items ≡ map items list.old.items ++ page.items ∷ []) }
    ensures refused { OnErr result (map items list.new.items ≡ map items list.old.items) }
{
    list.push(Rc::new(alloc, page)?)?;
    Ok(())
}

// Puts `v` at the i-th place of the k-th page.
fn put_in_page<T: Clone + Drop>(
    list: &mut Vec<Page<T>>,
    k: usize,
    i: usize,
    v: T,
) -> Result<(), AllocError>
    requires exact { (x y : T) → T.is_clone x y → y ≡ x }
    requires there { k < length list.old.items }
    requires place { i ≤ length (page_at (map items list.old.items) k) }
    requires room { length (page_at (map items list.old.items) k) < 64 }
    ensures put { OnOk result (Exchanges (map items list.old.items) (map items list.new.items) k i k i (v ∷ [])) }
    ensures sizes { OnOk result (page_sizes (map items list.new.items) ≡ put_size (page_sizes (map items list.old.items)) k) }
    ensures refused { OnErr result (map items list.new.items ≡ map items list.old.items) }
{
    let changed = &mut list[k];
    put_in(changed, i, v)
}

// Puts `v` at the i-th place of the k-th page, and cuts the page in two.
fn put_split<T: Clone + Drop>(
    alloc: Global,
    list: &mut Vec<Page<T>>,
    k: usize,
    i: usize,
    v: T,
) -> Result<(), AllocError>
    requires exact { (x y : T) → T.is_clone x y → y ≡ x }
    requires there { k < length list.old.items }
    requires place { i ≤ length (page_at (map items list.old.items) k) }
    requires full { length (page_at (map items list.old.items) k) ≡ 64 }
    ensures put { OnOk result (Exchanges (map items list.old.items) (map items list.new.items) k i k i (v ∷ [])) }
    ensures sizes { OnOk result (page_sizes (map items list.new.items) ≡ put_size (page_sizes (map items list.old.items)) k) }
    ensures refused { OnErr result (map items list.new.items ≡ map items list.old.items) }
{
    let two = halves(alloc, items_at(list, k), i, v)?;
    replace_between(list, k, k + 1, two)
}

// The items of a full page and `v` at its i-th place, in two pages of 32 and 33.
fn halves<T: Clone + Drop>(
    alloc: Global,
    full: &[T],
    i: usize,
    v: T,
) -> Result<Vec<Page<T>>, AllocError>
    requires exact { (x y : T) → T.is_clone x y → y ≡ x }
    requires place { i ≤ length full.now }
    requires full { length full.now ≡ 64 }
    ensures pages { IfOk result (λ two. AllByRecursion IsPage (map items two.items)) }
    ensures sizes { IfOk result (λ two. AreHalves (map items two.items)) }
    ensures all { IfOk result (λ two. joined (map items two.items) ≡ take i full.now ++ v ∷ drop i full.now) }
{
    let mut left = Vec::with_capacity(alloc, MOST + 1)?;
    extend(&mut left, full)?;
    left.insert(i, v)?;
    let right = left.split_off(MOST / 2)?;
    left.shrink_to_fit();
    two_pages(alloc, left, right)
}

// Two pages.
fn two_pages<T: Drop>(
    alloc: Global,
    left: Vec<T>,
    right: Vec<T>,
) -> Result<Vec<Page<T>>, AllocError>
    ensures { IfOk result (λ two. map items two.items ≡ left.items ∷ right.items ∷ []) }
{
    let mut two = Vec::with_capacity(alloc, 2)?;
    two.push_reserved(Rc::new(alloc, left)?);
    two.push_reserved(Rc::new(alloc, right)?);
    Ok(two)
}

/// Takes the i-th item of the k-th page out, and the page where it was alone.
pub fn cut_page<T: Clone + Drop>(
    list: &mut Vec<Page<T>>,
    k: usize,
    i: usize,
) -> Result<T, AllocError>
    requires exact { (x y : T) → T.is_clone x y → y ≡ x }
    requires pages { AllByRecursion IsPage (map items list.old.items) }
    requires there { k < length list.old.items }
    requires item { i < length (page_at (map items list.old.items) k) }
    ensures taken { IfOk result (λ v. slice_get (page_at (map items list.old.items) k) i ≡ Some v) }
    ensures cut { OnOk result (Exchanges (map items list.old.items) (map items list.new.items) k i k (i + 1) []) }
    ensures sizes { OnOk result (page_sizes (map items list.new.items) ≡ cut_size (page_sizes (map items list.old.items)) k) }
    ensures refused { OnErr result (map items list.new.items ≡ map items list.old.items) }
{
    if list[k].len() == 1 {
        cut_alone(list, k)
    } else {
        cut_from_page(list, k, i)
    }
}

// Takes the k-th page out, which has one item.
fn cut_alone<T: Clone + Drop>(list: &mut Vec<Page<T>>, k: usize) -> Result<T, AllocError>
    requires exact { (x y : T) → T.is_clone x y → y ≡ x }
    requires there { k < length list.old.items }
    requires alone { length (page_at (map items list.old.items) k) ≡ 1 }
    ensures taken { IfOk result (λ v. slice_get (page_at (map items list.old.items) k) 0 ≡ Some v) }
    ensures cut { OnOk result (Exchanges (map items list.old.items) (map items list.new.items) k 0 k 1 []) }
    ensures sizes { OnOk result (page_sizes (map items list.new.items) ≡ cut_size (page_sizes (map items list.old.items)) k) }
    ensures refused { OnErr result (map items list.new.items ≡ map items list.old.items) }
{
    let v = list[k][0].clone()?;
    let _gone = list.remove(k);
    Ok(v)
}

// Takes the i-th item of the k-th page out, which isn't alone.
fn cut_from_page<T: Clone + Drop>(
    list: &mut Vec<Page<T>>,
    k: usize,
    i: usize,
) -> Result<T, AllocError>
    requires exact { (x y : T) → T.is_clone x y → y ≡ x }
    requires there { k < length list.old.items }
    requires item { i < length (page_at (map items list.old.items) k) }
    requires others { (1 < length (page_at (map items list.old.items) k)) × (length (page_at (map items list.old.items) k) ≤ 64) }
    ensures taken { IfOk result (λ v. slice_get (page_at (map items list.old.items) k) i ≡ Some v) }
    ensures cut { OnOk result (Exchanges (map items list.old.items) (map items list.new.items) k i k (i + 1) []) }
    ensures sizes { OnOk result (page_sizes (map items list.new.items) ≡ cut_size (page_sizes (map items list.old.items)) k) }
    ensures refused { OnErr result (map items list.new.items ≡ map items list.old.items) }
{
    let changed = &mut list[k];
    cut_in(changed, i)
}

/// Puts `by` in the place of what stands from the i-th place of the k-th page to before the j-th place of the l-th page.
pub fn replace_pages<T: Clone + Drop>(
    alloc: Global,
    list: &mut Vec<Page<T>>,
    from: (usize, usize),
    to: (usize, usize),
    by: Vec<T>,
) -> Result<(), AllocError>
    requires exact { (x y : T) → T.is_clone x y → y ≡ x }
    requires pages { AllByRecursion IsPage (map items list.old.items) }
    requires from { IsIn (map items list.old.items) from.0 from.1 }
    requires to { IsIn (map items list.old.items) to.0 to.1 }
    requires ordered { (from.0 < to.0) ⊎ ((from.0 ≡ to.0) × (from.1 ≤ to.1)) }
    ensures replaced { OnOk result (Exchanges (map items list.old.items) (map items list.new.items) from.0 from.1 to.0 to.1 by.items) }
    ensures sizes { OnOk result (Refills (page_sizes (map items list.old.items)) (page_sizes (map items list.new.items)) from.0 to.0) }
    ensures refused { OnErr result (map items list.new.items ≡ map items list.old.items) }
{
    if list.is_empty() {
        return fill(alloc, list, by);
    }
    if from.0 == to.0 && fits(list[from.0].len(), from.1, to.1, by.len()) {
        replace_in_page(list, from.0, from.1, to.1, by)
    } else {
        replace_whole(alloc, list, from, to, by)
    }
}

// Whether a page of `len` items still is a page, where `new` ones stand in the place of those from `i` to before `j`.
fn fits(len: usize, i: usize, j: usize, new: usize) -> bool
    requires { (i ≤ j) × (j ≤ len) }
    ensures { OnTrue result ((1 ≤ i + new + (len - j)) × (i + new + (len - j) ≤ 64)) }
{
    let kept = len - (j - i);
    kept <= MOST && new <= MOST - kept && 0 < kept + new
}

// Makes pages of `by` where there are none.
fn fill<T: Clone + Drop>(
    alloc: Global,
    list: &mut Vec<Page<T>>,
    by: Vec<T>,
) -> Result<(), AllocError>
    requires exact { (x y : T) → T.is_clone x y → y ≡ x }
    requires none { list.old.items ≡ [] }
    ensures filled { OnOk result (Exchanges [] (map items list.new.items) 0 0 0 0 by.items) }
    ensures sizes { OnOk result (Refills [] (page_sizes (map items list.new.items)) 0 0) }
    ensures refused { OnErr result (map items list.new.items ≡ []) }
{
    let pages = paged(alloc, MOST, by)?;
    replace_between(list, 0, 0, pages)
}

// Puts `by` in the place of the items of the k-th page from the i-th up to before the j-th.
fn replace_in_page<T: Clone + Drop>(
    list: &mut Vec<Page<T>>,
    k: usize,
    i: usize,
    j: usize,
    by: Vec<T>,
) -> Result<(), AllocError>
    requires exact { (x y : T) → T.is_clone x y → y ≡ x }
    requires there { k < length list.old.items }
    requires place { (i ≤ j) × (j ≤ length (page_at (map items list.old.items) k)) }
    requires room { (1 ≤ i + length by.items + (length (page_at (map items list.old.items) k) - j)) × (i + length by.items + (length (page_at (map items list.old.items) k) - j) ≤ 64) }
    ensures replaced { OnOk result (Exchanges (map items list.old.items) (map items list.new.items) k i k j by.items) }
    ensures sizes { OnOk result (Refills (page_sizes (map items list.old.items)) (page_sizes (map items list.new.items)) k k) }
    ensures refused { OnErr result (map items list.new.items ≡ map items list.old.items) }
{
    let changed = &mut list[k];
    replace_in(changed, i, j, by)
}

// Makes new pages in the place of those from that of `from` to that of `to`.
fn replace_whole<T: Clone + Drop>(
    alloc: Global,
    list: &mut Vec<Page<T>>,
    from: (usize, usize),
    to: (usize, usize),
    by: Vec<T>,
) -> Result<(), AllocError>
    requires exact { (x y : T) → T.is_clone x y → y ≡ x }
    requires there { (from.0 ≤ to.0) × (to.0 < length list.old.items) }
    requires from { from.1 ≤ length (page_at (map items list.old.items) from.0) }
    requires to { to.1 ≤ length (page_at (map items list.old.items) to.0) }
    ensures replaced { OnOk result (Exchanges (map items list.old.items) (map items list.new.items) from.0 from.1 to.0 to.1 by.items) }
    ensures sizes { OnOk result (Refills (page_sizes (map items list.old.items)) (page_sizes (map items list.new.items)) from.0 to.0) }
    ensures refused { OnErr result (map items list.new.items ≡ map items list.old.items) }
{
    let pages = rebuilt(
        alloc,
        front(list, from.0, from.1),
        by,
        items_from(list, to.0, to.1),
    )?;
    replace_between(list, from.0, to.0 + 1, pages)
}

// New pages of copies of `head`, of `by`, and of copies of `tail`.
fn rebuilt<T: Clone + Drop>(
    alloc: Global,
    head: &[T],
    by: Vec<T>,
    tail: &[T],
) -> Result<Vec<Page<T>>, AllocError>
    requires exact { (x y : T) → T.is_clone x y → y ≡ x }
    ensures pages { IfOk result (λ list. AllByRecursion IsPage (map items list.items)) }
    ensures all { IfOk result (λ list. joined (map items list.items) ≡ head.now ++ by.items ++ tail.now) }
    ensures filled { IfOk result (λ list. AreFilled (even_size (length (joined (map items list.items)))) (page_sizes (map items list.items))) }
{
    let mut by = by;
    let mut all = Vec::new(alloc);
    extend(&mut all, head)?;
    all.append(&mut by)?;
    extend(&mut all, tail)?;
    let most = page_size(all.len());
    paged(alloc, most, all)
}

// The size of pages of which as few as can be hold `count` items evenly.
fn page_size(count: usize) -> usize
    ensures small { (1 ≤ result) × (result ≤ 64) }
    ensures even { result ≡ even_size count }
{
    let pages = count.saturating_sub(1) / MOST + 1;
    (count / pages + 1).min(MOST)
}

/// Pages of these items, each but the last with `most` of them.
pub fn paged<T: Clone + Drop>(
    alloc: Global,
    most: usize,
    members: Vec<T>,
) -> Result<Vec<Page<T>>, AllocError>
    requires exact { (x y : T) → T.is_clone x y → y ≡ x }
    requires most { (1 ≤ most) × (most ≤ 64) }
    ensures pages { IfOk result (λ list. AllByRecursion IsPage (map items list.items)) }
    ensures all { IfOk result (λ list. joined (map items list.items) ≡ members.items) }
    ensures filled { IfOk result (λ list. AreFilled most (page_sizes (map items list.items))) }
{
    let mut list = Vec::new(alloc);
    if members.len() <= most {
        end_page(alloc, &mut list, members)?;
        return Ok(list);
    }
    let mut page = Vec::with_capacity(alloc, most)?;
    for v in members {
        append(alloc, most, &mut list, &mut page, v)?;
    }
    end_page(alloc, &mut list, page)?;
    Ok(list)
}

// Puts `v` at the end of the page that comes next. Where that has `most` items, it goes behind the others first.
fn append<T: Drop>(
    alloc: Global,
    most: usize,
    list: &mut Vec<Page<T>>,
    page: &mut Vec<T>,
    v: T,
) -> Result<(), AllocError>
    requires most { (1 ≤ most) × (most ≤ 64) }
    requires pages { AllByRecursion IsPage (map items list.old.items) }
    requires full { AllByRecursion (λ n. n ≡ most) (page_sizes (map items list.old.items)) }
    requires page { length page.old.items ≤ most }
    ensures pages { OnOk result (AllByRecursion IsPage (map items list.new.items)) }
    ensures full { OnOk result (AllByRecursion (λ n. n ≡ most) (page_sizes (map items list.new.items))) }
    ensures page { OnOk result (length page.new.items ≤ most) }
    ensures put { OnOk result (joined (map items list.new.items) ++ page.new.items ≡ (joined (map items list.old.items) ++ page.old.items) ++ v ∷ []) }
{
    if page.len() == most {
        let full = mem::replace(page, Vec::with_capacity(alloc, most)?);
        end_page(alloc, list, full)?;
    }
    page.push(v)?;
    Ok(())
}

// Puts a page of these items behind the others, unless there are none.
fn end_page<T: Drop>(alloc: Global, list: &mut Vec<Page<T>>, page: Vec<T>) -> Result<(), AllocError>
    requires pages { AllByRecursion IsPage (map items list.old.items) }
    requires page { length page.items ≤ 64 }
    ensures pages { OnOk result (AllByRecursion IsPage (map items list.new.items)) }
    ensures put { OnOk result (joined (map items list.new.items) ≡ joined (map items list.old.items) ++ page.items) }
    ensures ended { OnOk result (Ends (map items list.old.items) page.items (map items list.new.items)) }
{
    if page.is_empty() {
        return Ok(());
    }
    push_page(alloc, list, page)
}

/// The items of the k-th page, and none past the last page.
pub fn items_at<T>(list: &[Page<T>], k: usize) -> &[T]
    ensures { result.now ≡ page_at (map items list.now) k }
{
    match list.get(k) {
        Some(members) => members.as_slice(),
        None => &[],
    }
}

/// How many items the k-th page has, and 0 past the last page.
pub fn size_at<T>(list: &[Page<T>], k: usize) -> usize
    ensures { result ≡ length (page_at (map items list.now) k) }
{
    items_at(list, k).len()
}

/// The first i items of the k-th page.
fn front<T>(list: &[Page<T>], k: usize, i: usize) -> &[T]
    requires { i ≤ length (page_at (map items list.now) k) }
    ensures { result.now ≡ take i (page_at (map items list.now) k) }
{
    &items_at(list, k)[..i]
}

/// The items of the k-th page from the i-th on.
pub fn items_from<T>(list: &[Page<T>], k: usize, i: usize) -> &[T]
    requires { i ≤ length (page_at (map items list.now) k) }
    ensures { result.now ≡ drop i (page_at (map items list.now) k) }
{
    &items_at(list, k)[i..]
}

/// The first item of the k-th page.
pub fn first_at<T>(list: &[Page<T>], k: usize) -> &T
    requires pages { AllByRecursion IsPage (map items list.now) }
    requires there { k < length list.now }
    ensures { slice_get (page_at (map items list.now) k) 0 ≡ Some result.now }
{
    &items_at(list, k)[0]
}

/// The i-th item of the k-th page.
pub fn item_at<T>(list: &[Page<T>], k: usize, i: usize) -> &T
    requires { i < length (page_at (map items list.now) k) }
    ensures { slice_get (page_at (map items list.now) k) i ≡ Some result.now }
{
    &items_at(list, k)[i]
}

/// The pages from the k-th on.
pub fn pages_from<T>(list: &[Page<T>], k: usize) -> &[Page<T>]
    ensures { result.now ≡ drop k list.now }
{
    &list[k.min(list.len())..]
}
