//! The body of a tuple: a list of components that doesn't end in `om`, and its depth. What was taken off at the front may
//! still stand in the list, before the place where the tuple starts.

ghost use Rattle.std.specs.Prelude.{◌≡◌, ◌<◌, ◌≤◌, ◌+◌, ◌-◌, ◌++◌, ◌∷◌, ◌⊎◌, length, slice_get, slice_set, take, drop, map, max, unwrap_or, is_none, IfOk, IfNone, IfSome, OnErr, OnOk, MatchOption, Some, None};
ghost use Rattle.std.specs.Fn.{FnOnceReturnsAtMut};
ghost use Rattle.std.specs.List.{remove, AllByRecursion};
ghost use Rattle.setl_value.specs.code.Changing.{Grows, Leaves};
ghost use Rattle.setl_value.specs.Datum.{Datum, int, depth, part_depth, tuple_of};
ghost use Rattle.setl_value.specs.code.DatumOf.{datum, part};
ghost use Rattle.setl_value.specs.code.Lead.{IsLead};
ghost use Rattle.setl_value.specs.WellFormed.{IsTupleList, PartIsWellFormed, trim, put};

use crate::{TupleBody, Value};
use setl_value_pages::{append_in, drop_front, take_first};
use std::alloc::{AllocError, Global};
use std::rc::Rc;

// Stands where a tuple keeps nothing of its first component.
const NO_LEAD: i32 = i32::MIN;

impl TupleBody {
    /// The tuple of these components, without the `om` at their end. It is at most 500 deep.
    pub fn of(alloc: Global, parts: Vec<Option<Value>>) -> Result<TupleBody, AllocError>
        requires shallow { depth (tuple_of (map part parts.items)) ≤ 500 }
        ensures trimmed { IfOk result (λ t. t ≡ trim (map part parts.items)) }
    {
        let mut parts = parts;
        learn_parts(parts.as_slice());
        trim_end(&mut parts, 0);
        let deep = depth_of(parts.as_slice(), 500);
        let lead = lead_of(parts.as_slice());
        Ok(TupleBody {
            parts: Rc::new(alloc, parts)?,
            start: 0,
            deep,
            lead,
        })
    }

    /// How many components the tuple has.
    pub fn len(&self) -> usize
        ensures { result ≡ length self.now }
    {
        self.parts.len() - self.start
    }

    /// The i-th component, counted from 0. It is `om` past the end.
    pub fn at(&self, i: usize) -> Option<&Value>
        ensures { MatchOption result ((slice_get self.now i ≡ Some None) ⊎ (slice_get self.now i ≡ None)) (λ v. slice_get self.now i ≡ Some (Some (datum v.now))) }
    {
        match from(&self.parts, self.start).get(i) {
            Some(Some(v)) => Some(v),
            _ => None,
        }
    }

    /// Writes the i-th component, or one more where i is the length, and drops the `om` at the end. The depth stays
    /// at most 500. Where memory is refused, the tuple is as before.
    pub fn put_at(&mut self, i: usize, v: Option<Value>) -> Result<(), AllocError>
        requires inside { i ≤ length self.old }
        requires shallow { depth (tuple_of (put self.old i (part v))) ≤ 500 }
        ensures put { OnOk result (self.new ≡ trim (put self.old i (part v))) }
        ensures refused { OnErr result (self.new ≡ self.old) }
    {
        learn_part(&v);
        let came = depth_of_part(&v);
        let gone = depth_at(from(&self.parts, self.start), i);
        self.start = settled(&mut self.parts, self.start, self.deep, gone, came)?;
        put_part(&mut self.parts, self.start, i, v)?;
        self.deep = depth_after(from(&self.parts, self.start), self.deep, gone, came);
        self.lead = lead_of(from(&self.parts, self.start));
        Ok(())
    }

    /// Lets `change` change the i-th component where it stands, to one that is at least as deep and at most 499 deep, and
    /// answers what `change` answers. Where the component is `om` or past the end, the answer is None, and `change` isn't
    /// called. Where memory is refused, neither, and the tuple is as before.
    pub fn change_at<R, F: FnOnce(&mut Value) -> R>(
        &mut self,
        i: usize,
        change: F,
    ) -> Result<Option<R>, AllocError>
        requires callable { F.IsAlwaysCallable change }
        requires grows { (d : Datum) → slice_get self.old i ≡ Some (Some d) → Grows F.FnOnce change d 500 }
        ensures changed { IfOk result (λ o. IfSome o (λ r. (d e : Datum) × (slice_get self.old i ≡ Some (Some d)) × Leaves F.FnOnce change d r e × (self.new ≡ slice_set self.old i (Some e)))) }
        ensures nothing { IfOk result (λ o. IfNone o ((slice_get self.old i ≡ Some None) ⊎ (slice_get self.old i ≡ None))) }
        ensures unchanged { IfOk result (λ o. IfNone o (self.new ≡ self.old)) }
        ensures refused { OnErr result (self.new ≡ self.old) }
    {
        if i >= self.len() {
            return Ok(None);
        }
        match change_part(&mut self.parts, self.start + i, change)? {
            None => Ok(None),
            Some(answer) => {
                let came = depth_at(from(&self.parts, self.start), i);
                self.deep = self.deep.max(came + 1);
                self.lead = lead_of(from(&self.parts, self.start));
                Ok(Some(answer))
            }
        }
    }

    /// Puts the components of another tuple after the last one. Where memory is refused, the tuple is as before.
    pub fn append(&mut self, other: &TupleBody) -> Result<(), AllocError>
        ensures joined { OnOk result (self.new ≡ self.old ++ other.now) }
        ensures refused { OnErr result (self.new ≡ self.old) }
    {
        let deep = other.deep;
        append_in(&mut self.parts, from(&other.parts, other.start))?;
        self.deep = self.deep.max(deep);
        self.lead = lead_of(from(&self.parts, self.start));
        Ok(())
    }

    /// Takes the first component off. Where memory is refused, the tuple is as before. It is moved out of a list with no
    /// other owner, and the others stay where they are until half of the list is gone.
    pub fn cut_front(&mut self) -> Result<Option<Value>, AllocError>
        requires { 0 < length self.old }
        ensures cut { IfOk result (λ p. self.old ≡ part p ∷ self.new) }
        ensures refused { OnErr result (self.new ≡ self.old) }
    {
        let gone = depth_at(from(&self.parts, self.start), 0);
        let deep = depth_after(from(&self.parts, self.start + 1), self.deep, gone, 0);
        if deep < self.deep || self.start >= self.parts.len() / 2 {
            let first = self.parts[self.start].clone()?;
            drop_front(&mut self.parts, self.start + 1)?;
            self.start = 0;
            self.deep = deep;
            self.lead = lead_of(from(&self.parts, 0));
            Ok(first)
        } else {
            let first = take_first(&mut self.parts, &mut self.start)?;
            self.lead = lead_of(from(&self.parts, self.start));
            Ok(first)
        }
    }

    /// Takes the last component off, and then the `om` at the end. Where memory is refused, the tuple is as before.
    pub fn cut_back(&mut self) -> Result<Option<Value>, AllocError>
        requires { 0 < length self.old }
        ensures taken { IfOk result (λ p. slice_get self.old (length self.old - 1) ≡ Some (part p)) }
        ensures cut { OnOk result (self.new ≡ trim (remove self.old (length self.old - 1))) }
        ensures refused { OnErr result (self.new ≡ self.old) }
    {
        let gone = depth_at(from(&self.parts, self.start), self.len() - 1);
        self.start = settled(&mut self.parts, self.start, self.deep, gone, 0)?;
        let last = cut_last(&mut self.parts, self.start)?;
        self.deep = depth_after(from(&self.parts, self.start), self.deep, gone, 0);
        self.lead = lead_of(from(&self.parts, self.start));
        Ok(last)
    }

    /// One more than the greatest depth of a component, and 1 for the empty tuple.
    pub fn depth(&self) -> u32
        ensures { result ≡ depth (tuple_of self.now) }
    {
        self.deep
    }

    /// The same tuple, which shares its components.
    pub fn copy(&self) -> Result<TupleBody, AllocError>
        ensures same { IfOk result (λ t. t ≡ self.now) }
    {
        Ok(TupleBody {
            parts: self.parts.clone()?,
            start: self.start,
            deep: self.deep,
            lead: self.lead,
        })
    }

    // The first component, where the tuple keeps it beside the list.
    #[inline(always)]
    pub(crate) fn lead(&self) -> Option<i32>
        ensures { IfSome result (λ n. slice_get self.now 0 ≡ Some (Some (int n))) }
    {
        if self.lead == NO_LEAD {
            None
        } else {
            Some(self.lead)
        }
    }

    /// Has no effect: it hands a proof what is true of every tuple, that its components are values or `om`, the last
    /// one a value, and that it is at most 500 deep.
    pub fn learn(&self)
        ensures { IsTupleList self.now }
    {
        let _ = &self.parts;
    }
}

// The components from `start` on.
fn from(parts: &[Option<Value>], start: usize) -> &[Option<Value>]
    requires { start ≤ length parts.now }
    ensures { result.now ≡ drop start parts.now }
{
    &parts[start..]
}

// Where the components of a tuple begin, after all before them went where these were over half of the list, or where
// the depth may fall as a component of depth `came` takes the place of one of depth `gone`.
fn settled(
    parts: &mut Rc<Vec<Option<Value>>>,
    start: usize,
    deep: u32,
    gone: u32,
    came: u32,
) -> Result<usize, AllocError>
    requires { start ≤ length parts.old.value.items }
    ensures same { IfOk result (λ s. drop s parts.new.value.items ≡ drop start parts.old.value.items) }
    ensures inside { IfOk result (λ s. s ≤ length parts.new.value.items) }
    ensures shallow { depth (tuple_of (map part parts.new.value.items)) ≤ depth (tuple_of (map part parts.old.value.items)) }
    ensures settled { IfOk result (λ s. (s ≡ 0) ⊎ ((gone ≤ came) ⊎ (gone + 1 < deep))) }
    ensures refused { OnErr result (parts.new.value.items ≡ parts.old.value.items) }
{
    if start <= parts.len() / 2 && (gone <= came || gone < deep.saturating_sub(1)) {
        return Ok(start);
    }
    drop_front(parts, start)?;
    Ok(0)
}

// Lets `change` change a component where it stands, unless it is `om` or past the end.
fn change_part<R, F: FnOnce(&mut Value) -> R>(
    parts: &mut Rc<Vec<Option<Value>>>,
    at: usize,
    change: F,
) -> Result<Option<R>, AllocError>
    requires callable { F.IsAlwaysCallable change }
    ensures changed { IfOk result (λ o. IfSome o (λ r. (v w : Value) × (slice_get parts.old.value.items at ≡ Some (Some v)) × FnOnceReturnsAtMut F.FnOnce change v r w × (parts.new.value.items ≡ slice_set parts.old.value.items at (Some w)))) }
    ensures nothing { IfOk result (λ o. IfNone o ((slice_get parts.old.value.items at ≡ Some None) ⊎ (slice_get parts.old.value.items at ≡ None))) }
    ensures unchanged { IfOk result (λ o. IfNone o (parts.new.value.items ≡ parts.old.value.items)) }
    ensures refused { OnErr result (parts.new.value.items ≡ parts.old.value.items) }
{
    let list = Rc::make_mut(parts)?;
    Ok(change_item(list, at, change))
}

fn change_item<R, F: FnOnce(&mut Value) -> R>(
    list: &mut Vec<Option<Value>>,
    at: usize,
    change: F,
) -> Option<R>
    requires callable { F.IsAlwaysCallable change }
    ensures changed { IfSome result (λ r. (v w : Value) × (slice_get list.old.items at ≡ Some (Some v)) × FnOnceReturnsAtMut F.FnOnce change v r w × (list.new.items ≡ slice_set list.old.items at (Some w))) }
    ensures nothing { IfNone result ((slice_get list.old.items at ≡ Some None) ⊎ (slice_get list.old.items at ≡ None)) }
    ensures unchanged { IfNone result (list.new.items ≡ list.old.items) }
{
    if at < list.len() {
        change_there(&mut list[at], change)
    } else {
        None
    }
}

fn change_there<R, F: FnOnce(&mut Value) -> R>(part: &mut Option<Value>, change: F) -> Option<R>
    requires callable { F.IsAlwaysCallable change }
    ensures changed { IfSome result (λ r. (v w : Value) × (part.old ≡ Some v) × FnOnceReturnsAtMut F.FnOnce change v r w × (part.new ≡ Some w)) }
    ensures nothing { IfNone result (part.old ≡ None) }
    ensures unchanged { IfNone result (part.new ≡ part.old) }
{
    match part {
        Some(v) => Some(change(v)),
        None => None,
    }
}

// Writes the i-th component from `start` on, or one more at the end, and drops the `om` at the end.
fn put_part(
    parts: &mut Rc<Vec<Option<Value>>>,
    start: usize,
    i: usize,
    v: Option<Value>,
) -> Result<(), AllocError>
    requires { start + i ≤ length parts.old.value.items }
    ensures put { OnOk result (map part (drop start parts.new.value.items) ≡ trim (put (map part (drop start parts.old.value.items)) i (part v))) }
    ensures inside { OnOk result (start ≤ length parts.new.value.items) }
    ensures shallow { OnOk result (depth (tuple_of (map part parts.new.value.items)) ≤ max (depth (tuple_of (map part parts.old.value.items))) (part_depth (part v) + 1)) }
    ensures refused { OnErr result (parts.new.value.items ≡ parts.old.value.items) }
{
    let list = Rc::make_mut(parts)?;
    put_behind(list, start, i, v)
}

fn put_behind(
    list: &mut Vec<Option<Value>>,
    start: usize,
    i: usize,
    v: Option<Value>,
) -> Result<(), AllocError>
    requires { start + i ≤ length list.old.items }
    ensures put { OnOk result (map part (drop start list.new.items) ≡ trim (put (map part (drop start list.old.items)) i (part v))) }
    ensures inside { OnOk result (start ≤ length list.new.items) }
    ensures shallow { OnOk result (depth (tuple_of (map part list.new.items)) ≤ max (depth (tuple_of (map part list.old.items))) (part_depth (part v) + 1)) }
    ensures refused { OnErr result (list.new.items ≡ list.old.items) }
{
    place_part(list, start + i, v)?;
    trim_end(list, start);
    Ok(())
}

// Takes the last component off, and then the `om` at the end, down to `start`.
fn cut_last(parts: &mut Rc<Vec<Option<Value>>>, start: usize) -> Result<Option<Value>, AllocError>
    requires { start < length parts.old.value.items }
    ensures taken { IfOk result (λ p. slice_get parts.old.value.items (length parts.old.value.items - 1) ≡ Some p) }
    ensures cut { OnOk result (map part (drop start parts.new.value.items) ≡ trim (map part (drop start (remove parts.old.value.items (length parts.old.value.items - 1))))) }
    ensures inside { OnOk result (start ≤ length parts.new.value.items) }
    ensures shallow { OnOk result (depth (tuple_of (map part parts.new.value.items)) ≤ depth (tuple_of (map part parts.old.value.items))) }
    ensures refused { OnErr result (parts.new.value.items ≡ parts.old.value.items) }
{
    let list = Rc::make_mut(parts)?;
    Ok(cut_behind(list, start))
}

fn cut_behind(list: &mut Vec<Option<Value>>, start: usize) -> Option<Value>
    requires { start < length list.old.items }
    ensures taken { slice_get list.old.items (length list.old.items - 1) ≡ Some result }
    ensures cut { map part (drop start list.new.items) ≡ trim (map part (drop start (remove list.old.items (length list.old.items - 1)))) }
    ensures inside { start ≤ length list.new.items }
    ensures shallow { depth (tuple_of (map part list.new.items)) ≤ depth (tuple_of (map part list.old.items)) }
{
    let end = list.len() - 1;
    let last = list.remove(end);
    trim_end(list, start);
    last
}

#[tactic(auto, using(crate::proofs::Trim::put_set, crate::proofs::Trim::put_push))]
fn place_part(list: &mut Vec<Option<Value>>, i: usize, v: Option<Value>) -> Result<(), AllocError>
    requires { i ≤ length list.old.items }
    ensures put { OnOk result (map part list.new.items ≡ put (map part list.old.items) i (part v)) }
    ensures refused { OnErr result (list.new.items ≡ list.old.items) }
{
    if i < list.len() {
        replace_part(list, i, v);
        Ok(())
    } else {
        list.push(v)?;
        Ok(())
    }
}

fn replace_part(list: &mut Vec<Option<Value>>, i: usize, v: Option<Value>)
    requires { i < length list.old.items }
    ensures { list.new.items ≡ slice_set list.old.items i v }
{
    list[i] = v;
}

// Drops the `om` at the end, down to `start`.
fn trim_end(list: &mut Vec<Option<Value>>, start: usize)
    requires { start ≤ length list.old.items }
    ensures trimmed { map part (drop start list.new.items) ≡ trim (map part (drop start list.old.items)) }
    ensures inside { start ≤ length list.new.items }
    ensures shallow { depth (tuple_of (map part list.new.items)) ≤ depth (tuple_of (map part list.old.items)) }
{
    let n = kept(from(list.as_slice(), start));
    list.truncate(start + n);
}

// How many components stand before the `om` at the end.
fn kept(parts: &[Option<Value>]) -> usize
    ensures bound { result ≤ length parts.now }
    ensures trimmed { map part (take result parts.now) ≡ trim (map part parts.now) }
{
    let mut n = parts.len();
    while n > 0 && is_om(&parts[n - 1]) {
        n -= 1;
    }
    n
}

fn is_om(p: &Option<Value>) -> bool
    ensures { result ≡ is_none (part p.now) }
{
    match p {
        None => true,
        Some(_) => false,
    }
}

// Each component keeps the rules of values.
fn learn_parts(parts: &[Option<Value>])
    ensures { AllByRecursion PartIsWellFormed (map part parts.now) }
{
    for p in parts {
        learn_part(p);
    }
}

fn learn_part(p: &Option<Value>)
    ensures { PartIsWellFormed (part p.now) }
{
    if let Some(v) = p {
        v.learn();
    }
}

fn depth_of_part(p: &Option<Value>) -> u32
    ensures depth { result ≡ part_depth (part p.now) }
    ensures small { result ≤ 500 }
{
    match p {
        None => 0,
        Some(v) => {
            v.learn();
            v.depth()
        }
    }
}

// The depth of the i-th component, and 0 past the end. It hands a proof that the component keeps the rules of values.
fn depth_at(parts: &[Option<Value>], i: usize) -> u32
    ensures depth { result ≡ part_depth (unwrap_or (slice_get (map part parts.now) i) None) }
    ensures small { result ≤ 500 }
    ensures stands { PartIsWellFormed (unwrap_or (slice_get (map part parts.now) i) None) }
{
    match parts.get(i) {
        None => 0,
        Some(p) => {
            learn_part(p);
            depth_of_part(p)
        }
    }
}

// What a tuple of these components keeps of the first one.
fn lead_of(parts: &[Option<Value>]) -> i32
    ensures { IsLead result (map part parts.now) }
{
    match parts.first() {
        Some(Some(Value::Int(z))) => i32::try_from(*z).unwrap_or(NO_LEAD),
        _ => NO_LEAD,
    }
}

// The depth of a tuple that had the depth `before` until a component of depth `gone` went and one of depth `came`
// stood in its place.
fn depth_after(parts: &[Option<Value>], before: u32, gone: u32, came: u32) -> u32
    requires small { (before ≤ 500) × (came < 500) }
    requires changed { max (depth (tuple_of (map part parts.now))) (gone + 1) ≡ max before (came + 1) }
    requires there { came + 1 ≤ depth (tuple_of (map part parts.now)) }
    ensures { result ≡ depth (tuple_of (map part parts.now)) }
{
    if gone <= came || gone + 1 < before {
        before.max(came + 1)
    } else {
        depth_of(parts, before)
    }
}

// The depth of a tuple of these components, which is at most `most`. It looks no further than a component that makes
// the tuple `most` deep.
fn depth_of(parts: &[Option<Value>], most: u32) -> u32
    requires small { most ≤ 500 }
    requires bound { depth (tuple_of (map part parts.now)) ≤ most }
    ensures { result ≡ depth (tuple_of (map part parts.now)) }
{
    let mut deepest: u32 = 1;
    let mut rest = parts;
    while let Some((last, others)) = rest.split_last() {
        deepest = deepest.max(depth_of_part(last) + 1);
        if deepest == most {
            return most;
        }
        rest = others;
    }
    deepest
}
