//! Sets of numbers.
ghost use Rattle.std.specs.Prelude.{◌≡◌, IfOk, OnOk, OnErr};
ghost use Rattle.std.specs.List.Sorted.{IsPermutation, IsStrictlyIncreasing};
ghost use Rattle.std.specs.FinSet as set;

use indexmap::IndexSet;
use std::alloc::{AllocError, Global};
use std::marker::Model;

/// A set of block numbers.
#[derive(Drop)]
pub struct SparseSet {
    numbers: IndexSet<u64>,
}

impl Model for SparseSet {
    ghost use Rattle.std.specs.Ordering.{nat_cmp};
    ghost use Rattle.std.specs.FinSet as set;
    ghost use Rattle.std.specs.Coded.{coded_ℕ};

    ghost Value = { set.FinSet nat_cmp };

    ghost coded = { set.code coded_ℕ };

    ghost view = { λ s. set.from_list s.numbers.keys };
}

impl SparseSet {
    /// No numbers. An error is want of memory.
    pub fn new(alloc: Global) -> Result<SparseSet, AllocError>
        ensures { IfOk result (λ s. s ≡ set.empty) }
    {
        Ok(SparseSet {
            numbers: IndexSet::with_capacity(alloc, 1)?,
        })
    }

    /// Whether the number is there. Takes no memory.
    pub fn test(&self, block: u64) -> bool
        ensures { result ≡ set.contains self.now block }
    {
        self.numbers.contains(&block)
    }

    /// Puts the number in. An error is want of memory.
    pub fn put(&mut self, block: u64) -> Result<(), AllocError>
        ensures ok { OnOk result (self.new ≡ set.insert self.old block) }
        ensures err { OnErr result (self.new ≡ self.old) }
    {
        self.numbers.insert(block)?;
        Ok(())
    }

    /// Takes the number out. An error is want of memory.
    pub fn cut(&mut self, block: u64) -> Result<(), AllocError>
        ensures ok { OnOk result (self.new ≡ set.remove self.old block) }
        ensures err { OnErr result (self.new ≡ self.old) }
    {
        self.numbers.swap_remove(&block);
        Ok(())
    }

    /// The numbers, rising. An error is want of memory.
    pub fn numbers(&self, alloc: Global) -> Result<Vec<u64>, AllocError>
        ensures rising { IfOk result (λ numbers. IsStrictlyIncreasing numbers.items) }
        ensures members { IfOk result (λ numbers. set.from_list numbers.items ≡ self.now) }
    {
        rising(alloc, &self.numbers)
    }
}

impl Clone for SparseSet {
    ghost is_clone = { λ s copy. copy ≡ s };

    /// The same numbers. An error is want of memory.
    fn clone(&self) -> Result<SparseSet, AllocError> {
        Ok(SparseSet {
            numbers: self.numbers.clone()?,
        })
    }
}

/// The numbers of a table, rising.
pub(crate) fn rising(alloc: Global, table: &IndexSet<u64>) -> Result<Vec<u64>, AllocError>
    ensures rising { IfOk result (λ numbers. IsStrictlyIncreasing numbers.items) }
    ensures members { IfOk result (λ numbers. IsPermutation table.now.keys numbers.items) }
{
    let mut numbers = table.as_slice().to_vec(alloc)?;
    numbers.sort_unstable();
    Ok(numbers)
}
