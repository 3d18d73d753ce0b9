//! Sparse tables, and types that hold themselves through a container.

use setl_remote::Slots;
use setl_sparse::{SparseMap, SparseSet};
use std::alloc::{AllocError, Global};
use std::process::Abort;
use std::test::Fail;

// The set of two numbers.
fn both(alloc: Global, number: u64, other: u64) -> Result<SparseSet, AllocError> {
    let mut set = SparseSet::new(alloc)?;
    set.put(number)?;
    set.put(other)?;
    Ok(set)
}

fn expect_set(
    rt: &impl Abort,
    alloc: Global,
    set: &SparseSet,
    numbers: &[u64],
) -> Result<(), AllocError> {
    assert_eq!(rt; set.numbers(alloc)?.as_slice(), numbers);
    Ok(())
}

#[test]
fn a_set_gives_its_numbers_rising(rt: HostRuntime) -> Result<(), Fail> {
    let mut set = both(rt.alloc(), u64::MAX, 1)?;
    expect_set(&rt, rt.alloc(), &set, &[1, u64::MAX])?;
    set.cut(u64::MAX)?;
    expect_set(&rt, rt.alloc(), &set, &[1])?;
    assert!(rt; set.test(1));
    Ok(())
}

// A put: the number, the content and the old one.
const PUTS: [(u64, Option<u64>, Option<u64>); 6] = [
    (4, Some(7), None),
    (4, Some(8), Some(7)),
    (u64::MAX, Some(1), None),
    (2, Some(3), None),
    (4, None, Some(8)),
    (4, None, None),
];

fn put(
    rt: &impl Abort,
    map: &mut SparseMap<u64>,
    (number, content, want): (u64, Option<u64>, Option<u64>),
) -> Result<(), AllocError> {
    assert_eq!(rt; map.put(number, content)?, want);
    Ok(())
}

// Only 2 and the greatest number have a content.
fn expect_map(rt: &impl Abort, alloc: Global, map: &SparseMap<u64>) -> Result<(), AllocError> {
    assert_eq!(rt; map.numbers(alloc)?.as_slice(), [2, u64::MAX].as_slice());
    assert_eq!(rt; (map.test(2), map.test(4)), (true, false));
    assert_eq!(rt; map.get(2).copied(), Some(3));
    Ok(())
}

#[test]
fn puts_of_contents_answer_their_row(rt: HostRuntime) -> Result<(), Fail> {
    let mut map = SparseMap::new(rt.alloc())?;
    for row in PUTS {
        put(&rt, &mut map, row)?;
    }
    expect_map(&rt, rt.alloc(), &map)?;
    Ok(())
}

// A type that holds itself through a vector and through a table.
#[derive(Drop)]
enum Nest {
    Leaf(u64),
    Vector(Slots<Nest>),
    Table(SparseMap<Nest>),
}

// The leaf that the contents of the number 1 lead to.
fn leaf(nest: &Nest) -> Option<u64> {
    match nest {
        Nest::Leaf(number) => Some(*number),
        Nest::Vector(slots) => match slots.get(1) {
            Some(below) => leaf(below),
            None => None,
        },
        Nest::Table(map) => match map.get(1) {
            Some(below) => leaf(below),
            None => None,
        },
    }
}

fn in_vector(alloc: Global, nest: Nest) -> Result<Nest, AllocError> {
    let mut slots = Slots::new(alloc)?;
    slots.put(1, Some(nest))?;
    Ok(Nest::Vector(slots))
}

fn in_table(alloc: Global, nest: Nest) -> Result<Nest, AllocError> {
    let mut map = SparseMap::new(alloc)?;
    map.put(1, Some(nest))?;
    Ok(Nest::Table(map))
}

#[test]
fn a_type_holds_itself_through_both(rt: HostRuntime) -> Result<(), Fail> {
    let inner = in_table(rt.alloc(), Nest::Leaf(5))?;
    let outer = in_table(rt.alloc(), in_vector(rt.alloc(), inner)?)?;
    assert_eq!(rt; leaf(&outer), Some(5));
    Ok(())
}
