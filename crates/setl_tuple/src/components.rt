//! One component of a tuple: reading and writing it, and one more.
ghost use Rattle.std.specs.Prelude.{◌≡◌, ◌≤◌, ◌<◌, ◌↔◌, ◌-◌, ◌++◌, ◌∷◌, [], map, replicate, None, IfOk, pos, ◌≤ℤ◌, ◌<ℤ◌, length, IfErr, OnOk, OnErr, MatchResult, Ok, Err, Some};
ghost use Rattle.std.specs.Option.{option_map};
ghost use Rattle.setl_value.specs.Datum.{depth, part_depth};
ghost use Rattle.setl_value.specs.code.DatumOf.{datum, part};
ghost use Rattle.setl_tuple.specs.Tuples.{index_of, get_of, put_of, with_of};

use crate::TupleFault;
use crate::lists::push_om;
use setl_value::{TupleBody, Value};
use std::alloc::{AllocError, Global};

/// How deep a value may be.
const MOST_DEPTH: u32 = 500;

/// The component at place `i`, counted from 1, and None where it is `om` or past the end. Range
/// exactly where `i` is below 1. Takes no memory.
pub fn get(t: &TupleBody, i: i128) -> Result<Option<&Value>, TupleFault>
    ensures { MatchResult result (λ o. get_of t.now i ≡ Ok (option_map (λ v. datum v.now) o)) (λ e. get_of t.now i ≡ Err e) }
{
    if i < 1 {
        return Err(TupleFault::Range);
    }
    let index = i.unsigned_abs() - 1;
    if index < t.len() as u128 {
        Ok(t.at(index as usize))
    } else {
        Ok(None)
    }
}

/// Makes `v` the component at place `i`, counted from 1. Past the end the components between become
/// `om`, and `om` changes nothing. Range exactly where `i` is below 1, Deep exactly where `i` is at
/// least 1 and `v` is 500 deep; the tuple is then as before, and so it is after NoMemory, which also comes where the tuple
/// would have more than 2^64 components: no memory holds them.
pub fn put(alloc: Global, t: &mut TupleBody, i: i128, v: Option<Value>) -> Result<(), TupleFault>
    ensures put { OnOk result (t.new ≡ put_of t.old (index_of i) (part v)) }
    ensures refused { OnErr result (t.new ≡ t.old) }
    ensures range { (result ≡ Err TupleFault.Range) ↔ (i <ℤ pos 1) }
    ensures deep { (result ≡ Err TupleFault.Deep) ↔ ((pos 1 ≤ℤ i) × (part_depth (part v) ≡ 500)) }
{
    if i < 1 {
        return Err(TupleFault::Range);
    }
    if component_depth(&v) == MOST_DEPTH {
        return Err(TupleFault::Deep);
    }
    t.learn();
    let index = i.unsigned_abs() - 1;
    if index <= t.len() as u128 {
        t.put_at(index as usize, v)?;
        return Ok(());
    }
    match v {
        None => Ok(()),
        Some(v) => put_past_end(alloc, t, index, v),
    }
}

/// Puts `v` at an index past the end.
fn put_past_end(alloc: Global, t: &mut TupleBody, index: u128, v: Value) -> Result<(), TupleFault>
    requires past { length t.old < index }
    requires shallow { depth (datum v) < 500 }
    ensures put { OnOk result (t.new ≡ put_of t.old index (Some (datum v))) }
    ensures refused { OnErr result (t.new ≡ t.old) }
    ensures faults { IfErr result (λ e. e ≡ TupleFault.NoMemory) }
{
    let Ok(index) = usize::try_from(index) else {
        return Err(TupleFault::NoMemory);
    };
    t.learn();
    let parts = behind_gap(alloc, index - t.len(), v)?;
    let tail = TupleBody::of(alloc, parts)?;
    t.append(&tail)?;
    Ok(())
}

/// `om` `n` times, then `v`.
fn behind_gap(alloc: Global, n: usize, v: Value) -> Result<Vec<Option<Value>>, AllocError>
    ensures { IfOk result (λ parts. map part parts.items ≡ replicate n None ++ Some (datum v) ∷ []) }
{
    let mut parts = Vec::with_capacity(alloc, n.saturating_add(1))?;
    push_om(&mut parts, n)?;
    parts.push(Some(v))?;
    Ok(parts)
}

/// The depth of a value, and 0 for `om`.
fn component_depth(v: &Option<Value>) -> u32
    ensures value { result ≡ part_depth (part v.now) }
    ensures bound { result ≤ 500 }
{
    match v {
        None => 0,
        Some(v) => {
            v.learn();
            v.depth()
        }
    }
}

/// One component more, `v`. Deep exactly where `v` is 500 deep; the only other fault is NoMemory. After
/// a fault the tuple is as before.
pub fn with(t: &mut TupleBody, v: Value) -> Result<(), TupleFault>
    ensures added { OnOk result (t.new ≡ with_of t.old (datum v)) }
    ensures refused { OnErr result (t.new ≡ t.old) }
    ensures deep { (result ≡ Err TupleFault.Deep) ↔ (depth (datum v) ≡ 500) }
    ensures never_range { result ≡ Err TupleFault.Range → ⊥ }
{
    if v.depth() == MOST_DEPTH {
        return Err(TupleFault::Deep);
    }
    v.learn();
    t.learn();
    t.put_at(t.len(), Some(v))?;
    Ok(())
}
