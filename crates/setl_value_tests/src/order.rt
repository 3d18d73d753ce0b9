//! The canonical order of all kinds, values as keys, and the greatest depth.

use crate::written::Work;
use setl_value::Value;
use std::alloc::{AllocError, Global};
use std::cmp::Ordering;
use std::collections::{BTreeMap, HashMap};
use std::process::Abort;
use std::test::Fail;

// 18 values, the least first.
const RISING: &str = "false true -5 3 '' 'a' 'ab' 'b'
atom 1
atom 2
[] [* 1] [1] [1 2] {} {1} {1 2} {2}";

// The least first.
const DEEP: &str = "set 499
set 500";

fn compare(v: &Option<Value>, w: &Option<Value>) -> Option<Ordering> {
    Some(v.as_ref()?.compare(w.as_ref()?))
}

// Compares the value at this place with each.
fn expect_place(rt: &impl Abort, all: &[Option<Value>], i: usize, v: &Option<Value>) {
    for (j, w) in all.iter().enumerate() {
        assert!(rt; compare(v, w) == Some(i.cmp(&j)));
    }
}

fn expect_rising(rt: &impl Abort, all: &[Option<Value>]) {
    for (i, v) in all.iter().enumerate() {
        expect_place(rt, all, i, v);
    }
}

// Copies of the values from this place on become keys of their places.
fn add_keys(
    all: &[Option<Value>],
    from: usize,
    tree: &mut BTreeMap<Value, usize>,
    hash: &mut HashMap<Value, usize>,
) -> Result<(), AllocError> {
    for (i, v) in all.iter().enumerate().skip(from) {
        if let Some(v) = v {
            tree.insert(v.copy()?, i)?;
            hash.insert(v.copy()?, i)?;
        }
    }
    Ok(())
}

fn place_in_tree(tree: &BTreeMap<Value, usize>, v: &Option<Value>) -> Option<usize> {
    tree.get(v.as_ref()?).copied()
}

fn place_in_hash(hash: &HashMap<Value, usize>, v: &Option<Value>) -> Option<usize> {
    hash.get(v.as_ref()?).copied()
}

// Each value from this place on finds its place, and none before it.
fn expect_places(
    rt: &impl Abort,
    all: &[Option<Value>],
    from: usize,
    tree: &BTreeMap<Value, usize>,
    hash: &HashMap<Value, usize>,
) {
    for (i, v) in all.iter().enumerate() {
        let place = if i < from { None } else { Some(i) };
        assert!(rt; place_in_tree(tree, v) == place);
        assert!(rt; place_in_hash(hash, v) == place);
    }
}

fn expect_keys(
    rt: &impl Abort,
    alloc: Global,
    all: &[Option<Value>],
    from: usize,
) -> Result<(), AllocError> {
    let mut tree = BTreeMap::new(alloc);
    let mut hash = HashMap::new(alloc);
    add_keys(all, from, &mut tree, &mut hash)?;
    expect_places(rt, all, from, &tree, &hash);
    Ok(())
}

// These values are as many and stand in the canonical order, and those from this place on are keys of maps.
fn expect_order(
    rt: &impl Abort,
    w: &mut Work,
    rows: &str,
    count: usize,
    from: usize,
) -> Result<(), AllocError> {
    for row in rows.lines() {
        w.read(row);
    }
    assert_eq!(rt; w.values.len(), count);
    expect_rising(rt, w.values.as_slice());
    expect_keys(rt, w.alloc, w.values.as_slice(), from)
}

// A copy of a value is equal, and as deep.
fn expect_copy(rt: &impl Abort, v: &Value, depth: u32) -> Result<(), AllocError> {
    let copy = v.copy()?;
    assert_eq!(rt; copy.depth(), depth);
    assert_eq!(rt; copy.compare(v), Ordering::Equal);
    Ok(())
}

#[test]
fn values_stand_in_the_canonical_order_and_are_keys_of_maps(rt: HostRuntime) -> Result<(), Fail> {
    expect_order(&rt, &mut Work::new(rt.alloc()), RISING, 18, 0)?;
    Ok(())
}

fn expect_deep(rt: &impl Abort, w: &mut Work) -> Result<(), AllocError> {
    expect_order(rt, w, DEEP, 2, 1)?;
    match w.values.last() {
        Some(Some(v)) => expect_copy(rt, v, 500),
        _ => panic!(rt; "no value"),
    }
}

#[test]
fn values_of_depth_500_are_built_compared_copied_hashed_and_dropped(
    rt: HostRuntime,
) -> Result<(), Fail> {
    expect_deep(&rt, &mut Work::new(rt.alloc()))?;
    Ok(())
}
