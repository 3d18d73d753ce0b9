//! Sets of numbers, a bit each.
ghost use Rattle.std.specs.Prelude.{◌≡◌, ℕ, if◌then◌else◌, IfOk, OnOk, OnErr};
ghost use Rattle.std.specs.List.Sorted.{IsStrictlyIncreasing};
ghost use Rattle.std.specs.FinSet as set;
ghost use Rattle.setl_remote.specs.Operation.{keeps};

use crate::combine::{Operation, combine};
use crate::numbers::numbers;
use crate::words::{count, is_on, write};
use std::alloc::{AllocError, Global};
use std::marker::Model;
use std::rc::Rc;

/// A set of block numbers. Its copies share its words until one of them changes.
///
/// It takes an eighth of a byte for each number up to the greatest that was put in.
#[derive(Drop)]
pub struct Bits {
    words: Rc<Vec<u64>>,
}

impl Model for Bits {
    ghost use Rattle.std.specs.Prelude.{◌^◌, ◌<◌, length};
    ghost use Rattle.std.specs.Ordering.{nat_cmp};
    ghost use Rattle.std.specs.FinSet as set;
    ghost use Rattle.std.specs.Coded.{coded_ℕ};
    ghost use Rattle.setl_remote.specs.Words.{members};

    ghost Value = { set.FinSet nat_cmp };

    ghost coded = { set.code coded_ℕ };

    ghost view = { λ bits. members bits.words.value.items };

    ghost invariant = { λ bits. length bits.words.value.items < 2 ^ 58 };
}

/// The set that an operation makes of two.
fn combined(alloc: Global, operation: Operation, a: &Bits, b: &Bits) -> Result<Bits, AllocError>
    ensures { IfOk result (λ bits. (n : ℕ) → set.contains bits n ≡ keeps operation (set.contains a.now n) (set.contains b.now n)) }
{
    let words = combine(alloc, operation, a.words.as_slice(), b.words.as_slice())?;
    Ok(Bits {
        words: Rc::new(alloc, words)?,
    })
}

impl Bits {
    /// No numbers. An error is want of memory.
    pub fn new(alloc: Global) -> Result<Bits, AllocError>
        ensures { IfOk result (λ bits. bits ≡ set.empty) }
    {
        Ok(Bits {
            words: Rc::new(alloc, Vec::with_capacity(alloc, 1)?)?,
        })
    }

    /// Whether the number is there. Takes no memory.
    pub fn test(&self, block: u64) -> bool
        ensures { result ≡ set.contains self.now block }
    {
        is_on(self.words.as_slice(), block)
    }

    /// How many numbers there are. Takes no memory.
    pub fn count(&self) -> u64
        ensures { result ≡ set.len self.now }
    {
        count(self.words.as_slice())
    }

    /// The numbers, rising. An error is want of memory.
    pub fn numbers(&self, alloc: Global) -> Result<Vec<u64>, AllocError>
        ensures rising { IfOk result (λ numbers. IsStrictlyIncreasing numbers.items) }
        ensures members { IfOk result (λ numbers. set.from_list numbers.items ≡ self.now) }
    {
        numbers(alloc, self.words.as_slice())
    }

    /// An equal set, which shares the words. An error is want of memory.
    pub fn copy(&self) -> Result<Bits, AllocError>
        ensures { IfOk result (λ bits. bits ≡ self.now) }
    {
        Ok(Bits {
            words: self.words.clone()?,
        })
    }

    /// Puts the number in where `on` is true, and takes it out where it is false. The error is want of memory, or that one of
    /// the last 64 numbers is put in.
    pub fn put(&mut self, block: u64, on: bool) -> Result<(), AllocError>
        ensures ok { OnOk result (self.new ≡ (if on then set.insert self.old block else set.remove self.old block)) }
        ensures err { OnErr result (self.new ≡ self.old) }
    {
        write(&mut self.words, block, on)
    }

    /// The numbers that are in both sets. An error is want of memory.
    pub fn and(alloc: Global, a: &Bits, b: &Bits) -> Result<Bits, AllocError>
        ensures { IfOk result (λ bits. bits ≡ set.intersection a.now b.now) }
    {
        combined(alloc, Operation::And, a, b)
    }

    /// The numbers that are in one set or in both. An error is want of memory.
    pub fn or(alloc: Global, a: &Bits, b: &Bits) -> Result<Bits, AllocError>
        ensures { IfOk result (λ bits. bits ≡ set.union a.now b.now) }
    {
        combined(alloc, Operation::Or, a, b)
    }

    /// The numbers of `a` that aren't in `b`. An error is want of memory.
    pub fn minus(alloc: Global, a: &Bits, b: &Bits) -> Result<Bits, AllocError>
        ensures { IfOk result (λ bits. bits ≡ set.difference a.now b.now) }
    {
        combined(alloc, Operation::Minus, a, b)
    }

    /// The numbers that are in one set and not in the other. An error is want of memory.
    pub fn xor(alloc: Global, a: &Bits, b: &Bits) -> Result<Bits, AllocError>
        ensures { IfOk result (λ bits. bits ≡ set.union (set.difference a.now b.now) (set.difference b.now a.now)) }
    {
        combined(alloc, Operation::Xor, a, b)
    }
}
