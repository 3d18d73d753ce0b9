//! Maps from numbers.
ghost use Rattle.std.specs.Prelude.{◌≡◌, ℕ, nat_eq, [], false, Some, is_some, IsSome, slice_get, length, ◌<◌, IfSome, IfOk, OnOk, OnErr, option_copied};
ghost use Rattle.std.specs.List.{list_any, zip, IsAmong, IsDistinct};
ghost use Rattle.std.specs.Map.{keys_of, values_of};
ghost use Rattle.std.specs.List.Sorted.{IsStrictlyIncreasing};
ghost use Rattle.setl_sparse.specs.Entries.{content_at, Puts, IsTable, AreCopies};

use crate::set::rising;
use indexmap::IndexSet;
use std::alloc::{AllocError, Global};
use std::marker::Model;
use std::mem;

/// A map from block numbers to contents.
#[derive(Drop)]
pub struct SparseMap<T> {
    /// The numbers that have a content. The content of the i-th is the i-th of `contents`.
    numbers: IndexSet<u64>,
    contents: Vec<T>,
}

impl<T> Model for SparseMap<T> {
    ghost use Rattle.std.specs.Prelude.{ℕ, List};
    ghost use Rattle.std.specs.List.{zip};
    ghost use Rattle.std.specs.Coded.{coded_ℕ, coded_list, coded×};
    ghost use Rattle.setl_sparse.specs.Entries.{IsTable};

    ghost Value = { List (ℕ × T) };

    ghost coded = { coded_list (coded× coded_ℕ T.code) };

    ghost view = { λ m. zip m.numbers.keys m.contents.items };

    ghost invariant = { λ m. IsTable m.numbers.keys m.contents.items };
}

/// Puts a number that isn't there at the end of a table, with its content.
fn push<T: Drop>(
    numbers: &mut IndexSet<u64>,
    contents: &mut Vec<T>,
    block: u64,
    content: T,
) -> Result<(), AllocError>
    requires table { IsTable numbers.old.keys contents.old.items }
    requires absent { list_any (nat_eq block) numbers.old.keys ≡ false }
    ensures table { IsTable numbers.new.keys contents.new.items }
    ensures ok { OnOk result (Puts block (Some content) (zip numbers.old.keys contents.old.items) (zip numbers.new.keys contents.new.items)) }
    ensures err { OnErr result (zip numbers.new.keys contents.new.items ≡ zip numbers.old.keys contents.old.items) }
{
    contents.reserve(1)?;
    numbers.insert(block)?;
    contents.push_reserved(content);
    Ok(())
}

/// Gives the number a content in a table, and gives back its old one.
fn fill<T: Drop>(
    numbers: &mut IndexSet<u64>,
    contents: &mut Vec<T>,
    block: u64,
    content: T,
) -> Result<Option<T>, AllocError>
    requires { IsTable numbers.old.keys contents.old.items }
    ensures table { IsTable numbers.new.keys contents.new.items }
    ensures old { IfOk result (λ old. old ≡ content_at (zip numbers.old.keys contents.old.items) block) }
    ensures ok { OnOk result (Puts block (Some content) (zip numbers.old.keys contents.old.items) (zip numbers.new.keys contents.new.items)) }
    ensures err { OnErr result (zip numbers.new.keys contents.new.items ≡ zip numbers.old.keys contents.old.items) }
{
    match numbers.get_index_of(&block) {
        Some(place) => Ok(Some(mem::replace(&mut contents[place], content))),
        None => {
            push(numbers, contents, block, content)?;
            Ok(None)
        }
    }
}

/// Takes the number out of a table, and gives back its content.
fn take_out<T>(numbers: &mut IndexSet<u64>, contents: &mut Vec<T>, block: u64) -> Option<T>
    requires { IsTable numbers.old.keys contents.old.items }
    ensures table { IsTable numbers.new.keys contents.new.items }
    ensures old { result ≡ content_at (zip numbers.old.keys contents.old.items) block }
    ensures out { Puts block None (zip numbers.old.keys contents.old.items) (zip numbers.new.keys contents.new.items) }
{
    let (place, _) = numbers.swap_remove_full(&block)?;
    Some(contents.swap_remove(place))
}

impl<T> SparseMap<T> {
    /// No contents. An error is want of memory.
    pub fn new(alloc: Global) -> Result<SparseMap<T>, AllocError>
        ensures { IfOk result (λ m. m ≡ []) }
    {
        Ok(SparseMap {
            numbers: IndexSet::with_capacity(alloc, 1)?,
            contents: Vec::with_capacity(alloc, 1)?,
        })
    }

    /// Whether the number has a content. Takes no memory.
    pub fn test(&self, block: u64) -> bool
        ensures { result ≡ is_some (content_at self.now block) }
    {
        self.numbers.contains(&block)
    }

    /// The content of the number; `None` where it has none. Takes no memory.
    pub fn get(&self, block: u64) -> Option<&T>
        ensures content { option_copied result ≡ content_at self.now block }
        ensures member { IfSome result (λ c. IsAmong (values_of self.now) c.now) }
    {
        let place = self.numbers.get_index_of(&block)?;
        Some(&self.contents[place])
    }

    /// The numbers that have a content, rising. An error is want of memory.
    pub fn numbers(&self, alloc: Global) -> Result<Vec<u64>, AllocError>
        ensures rising { IfOk result (λ numbers. IsStrictlyIncreasing numbers.items) }
        ensures members { IfOk result (λ numbers. (n : ℕ) → list_any (nat_eq n) numbers.items ≡ is_some (content_at self.now n)) }
    {
        rising(alloc, &self.numbers)
    }

    /// How many numbers have a content. Takes no memory.
    pub fn len(&self) -> usize
        ensures { result ≡ length self.now }
    {
        self.contents.len()
    }

    /// The i-th of the numbers that have a content, with that, in the order of the entries. Takes no memory.
    pub fn at(&self, i: usize) -> (u64, &T)
        requires { i < length self.now }
        ensures { slice_get self.now i ≡ Some (result.0, result.1.now) }
    {
        (self.numbers[i], &self.contents[i])
    }

    /// Has no effect: it hands a proof that each number has one entry.
    pub fn learn(&self)
        ensures { IsDistinct nat_eq (keys_of self.now) }
    {
        let _len = self.contents.len();
    }

    /// Gives a number that has a content another one, and gives back its old one. Each number keeps its place. Takes no
    /// memory.
    pub fn replace(&mut self, block: u64, content: T) -> T
        requires there { IsSome (content_at self.old block) }
        ensures old { Some result ≡ content_at self.old block }
        ensures new { Puts block (Some content) self.old self.new }
        ensures places { keys_of self.new ≡ keys_of self.old }
    {
        let place = self.numbers.get_index_of(&block).unwrap();
        mem::replace(&mut self.contents[place], content)
    }
}

impl<T: Clone> Clone for SparseMap<T> {
    ghost is_clone = { AreCopies T.is_clone };

    /// The numbers, each with a copy of its content, in the same order. An error is want of memory.
    fn clone(&self) -> Result<SparseMap<T>, AllocError> {
        Ok(SparseMap {
            numbers: self.numbers.clone()?,
            contents: self.contents.clone()?,
        })
    }
}

impl<T: Drop> SparseMap<T> {
    /// Gives the number the content `c`, or none, and gives back its old content; `None` where it had none. An error is
    /// want of memory.
    pub fn put(&mut self, block: u64, c: Option<T>) -> Result<Option<T>, AllocError>
        ensures old { IfOk result (λ old. old ≡ content_at self.old block) }
        ensures ok { OnOk result (Puts block c self.old self.new) }
        ensures err { OnErr result (self.new ≡ self.old) }
    {
        match c {
            Some(content) => fill(&mut self.numbers, &mut self.contents, block, content),
            None => Ok(take_out(&mut self.numbers, &mut self.contents, block)),
        }
    }
}
