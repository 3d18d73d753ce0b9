//! The numbers of a set, in either layout.

ghost use Rattle.std.specs.Prelude.{◌≡◌, IfOk};
ghost use Rattle.std.specs.FinSet as set;
ghost use Rattle.setl_rep_based.specs.Numbers.{numbers_in};

use setl_remote::Bits;
use setl_sparse::SparseSet;
use std::alloc::{AllocError, Global};

/// The numbers of the blocks of a set's members: those of a remote set, or those of a sparse one. Contracts see it as
/// `numbers_in`, a finite set.
#[derive(Clone, Copy)]
pub enum Numbers<'a> {
    Bits(&'a Bits),
    Table(&'a SparseSet),
}

impl Numbers<'_> {
    /// Whether the number is there. It takes no memory.
    pub fn test(self, block: u64) -> bool
        ensures { result ≡ set.contains (numbers_in self.entry) block }
    {
        match self {
            Numbers::Bits(bits) => bits.test(block),
            Numbers::Table(table) => table.test(block),
        }
    }

    /// The numbers, rising. An error is want of memory.
    pub fn list(self, alloc: Global) -> Result<Vec<u64>, AllocError>
        ensures { IfOk result (λ list. set.from_list list.items ≡ numbers_in self.entry) }
    {
        match self {
            Numbers::Bits(bits) => bits.numbers(alloc),
            Numbers::Table(table) => table.numbers(alloc),
        }
    }
}
