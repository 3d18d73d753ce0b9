//! Vectors of bits and of contents.

use setl_remote::{Bits, Slots};
use std::alloc::{AllocError, Global};
use std::process::Abort;
use std::test::Fail;

// How an operation makes a set of two.
#[derive(Clone, Copy)]
enum Operation {
    And,
    Or,
    Minus,
    Xor,
}

fn made(alloc: Global, operation: Operation, a: &Bits, b: &Bits) -> Result<Bits, AllocError> {
    match operation {
        Operation::And => Bits::and(alloc, a, b),
        Operation::Or => Bits::or(alloc, a, b),
        Operation::Minus => Bits::minus(alloc, a, b),
        Operation::Xor => Bits::xor(alloc, a, b),
    }
}

// Whether 1 and 200 are there, and how many numbers there are.
fn read(bits: &Bits) -> (bool, bool, u64) {
    (bits.test(1), bits.test(200), bits.count())
}

// The set of two numbers.
fn both(alloc: Global, number: u64, other: u64) -> Result<Bits, AllocError> {
    let mut bits = Bits::new(alloc)?;
    bits.put(number, true)?;
    bits.put(other, true)?;
    Ok(bits)
}

fn operate(rt: &impl Abort, alloc: Global, long: &Bits, short: &Bits) -> Result<(), AllocError> {
    for (operation, want) in [
        (Operation::And, (true, false, 1)),
        (Operation::Or, (true, true, 2)),
        (Operation::Minus, (false, true, 1)),
        (Operation::Xor, (false, true, 1)),
    ] {
        assert_eq!(rt; read(&made(alloc, operation, long, short)?), want);
    }
    Ok(())
}

#[test]
fn operations_make_the_set_of_their_row(rt: HostRuntime) -> Result<(), Fail> {
    let alloc = rt.alloc();
    let long = both(alloc, 1, 200)?;
    let short = both(alloc, 1, 1)?;
    operate(&rt, alloc, &long, &short)?;
    assert_eq!(rt; read(&long.copy()?), (true, true, 2));
    Ok(())
}

// A put of a bit: the number, the bit, and whether there is memory for it.
const PUTS: [(u64, bool, bool); 4] = [
    (200, false, true),
    (u64::MAX, false, true),
    (u64::MAX - 63, true, false),
    (1, true, true),
];

#[test]
fn puts_of_bits_answer_their_row(rt: HostRuntime) -> Result<(), Fail> {
    let mut bits = both(rt.alloc(), 0, 200)?;
    for (number, on, fits) in PUTS {
        assert_eq!(rt; bits.put(number, on).is_ok(), fits);
    }
    assert_eq!(rt; read(&bits), (true, false, 2));
    Ok(())
}

// A put of a content: the number, the content, and the old one, or None where there is no memory.
const CONTENTS: [(u64, Option<u64>, Option<Option<u64>>); 7] = [
    (3, Some(5), Some(None)),
    (3, Some(6), Some(Some(5))),
    (1, Some(2), Some(None)),
    (3, None, Some(Some(6))),
    (u64::MAX, None, Some(None)),
    (u64::MAX, Some(1), None),
    (1 << 60, Some(1), None),
];

fn put(slots: &mut Slots<u64>, number: u64, content: Option<u64>) -> Option<Option<u64>> {
    slots.put(number, content).ok()
}

// Of the contents only that of 1 is left, and the length is 3.
fn expect(rt: &impl Abort, slots: &Slots<u64>) {
    assert_eq!(rt; slots.len(), 3);
    assert_eq!(rt; slots.get(1).copied(), Some(2));
    assert_eq!(rt; slots.get(3).copied(), None);
}

#[test]
fn puts_of_contents_answer_their_row(rt: HostRuntime) -> Result<(), Fail> {
    let mut slots = Slots::new(rt.alloc())?;
    for (number, content, want) in CONTENTS {
        assert_eq!(rt; put(&mut slots, number, content), want);
    }
    expect(&rt, &slots);
    Ok(())
}
