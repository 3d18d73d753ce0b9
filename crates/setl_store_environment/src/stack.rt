//! A list that grows and shrinks at its end and gives no memory back, so that each change can be led back without
//! memory.

ghost use Rattle.std.specs.Prelude.{◌≡◌, suc, ◌+◌, ◌-◌, ◌<◌, ◌≤◌, [], ◌∷◌, ◌++◌, length, take, drop, Some, IfOk, IsOk, OnOk, OnErr, slice_get, slice_set, vec_len, vec_capacity};
ghost use Rattle.setl_store_environment.specs.Stack.{placed, Fits, LeadsBack};

use crate::Copied;
use std::alloc::{AllocError, Global};
use std::marker::Model;
use std::mem;

/// A place of a list with its content.
#[derive(Drop)]
pub struct Place<T> {
    pub at: usize,
    pub content: T,
}

/// A list whose memory is never given back.
#[derive(Drop)]
pub struct Stack<T> {
    items: Vec<T>,
}

impl<T> Model for Stack<T> {
    ghost use Rattle.std.specs.Prelude.{vec_capacity};
    ghost use Rattle.setl_store_environment.specs.Stack.{StackState, stack_code};

    ghost Value = { StackState T };

    ghost coded = { stack_code T.code };

    ghost view = { λ s. record { items = s.items.items; room = vec_capacity s.items } };
}

impl<T> Stack<T> {
    /// An empty list.
    ///
    /// The error is want of memory.
    pub fn new(alloc: Global) -> Result<Stack<T>, AllocError>
        ensures { IfOk result (λ stack. stack.items ≡ []) }
    {
        Ok(Stack {
            items: Vec::with_capacity(alloc, 1)?,
        })
    }

    /// The number of values. It takes no memory.
    pub fn len(&self) -> usize
        ensures { result ≡ length self.now.items }
    {
        self.items.len()
    }

    /// The value at a place. It takes no memory.
    pub fn at(&self, at: usize) -> &T
        requires { at < length self.now.items }
        ensures { Some result.now ≡ slice_get self.now.items at }
    {
        &self.items[at]
    }

    /// Makes sure of memory for `n` more values.
    ///
    /// The error is want of memory, and then the list is as before. Where that memory is there, no more is taken.
    pub fn reserve(&mut self, n: usize) -> Result<(), AllocError>
        ensures same { self.new.items ≡ self.old.items }
        ensures room { OnOk result (length self.new.items + n ≤ self.new.room) }
        ensures more { self.old.room ≤ self.new.room }
        ensures there { n ≤ self.old.room - length self.old.items → IsOk result }
        ensures refused { OnErr result (self.new ≡ self.old) }
    {
        self.items.reserve(n)
    }

    /// Puts a value in the place of another. Its answer leads back. It takes no memory.
    #[inline(always)]
    pub fn set(&mut self, at: usize, value: T) -> Place<T>
        requires { at < length self.old.items }
        ensures set { self.new.items ≡ slice_set self.old.items at value }
        ensures back { LeadsBack T self.old self.new result }
        ensures at { result.at ≡ at }
    {
        let content = replaced(&mut self.items, at, value);
        Place { at, content }
    }

    /// Puts a value in the place of another, and gives that. It takes no memory.
    #[inline(always)]
    pub fn replace(&mut self, at: usize, value: T) -> T
        requires { at < length self.old.items }
        ensures value { Some result ≡ slice_get self.old.items at }
        ensures set { self.new.items ≡ slice_set self.old.items at value }
        ensures room { self.new.room ≡ self.old.room }
    {
        replaced(&mut self.items, at, value)
    }

    /// Adds a value at the end, where there is room. It takes no memory.
    #[inline(always)]
    pub fn add(&mut self, value: T)
        requires { length self.old.items < self.old.room }
        ensures added { self.new.items ≡ self.old.items ++ value ∷ [] }
        ensures room { self.new.room ≡ self.old.room }
    {
        self.items.push_reserved(value);
    }

    /// Takes off the last value. Its answer leads back. It takes no memory.
    #[inline(always)]
    pub fn pop(&mut self) -> Place<T>
        requires { 0 < length self.old.items }
        ensures popped { self.new.items ≡ take (length self.old.items - 1) self.old.items }
        ensures back { LeadsBack T self.old self.new result }
        ensures at { result.at ≡ length self.new.items }
    {
        let content = self.items.take_last();
        Place {
            at: self.items.len(),
            content,
        }
    }

    /// Takes off the last value, and gives it. It takes no memory.
    #[inline(always)]
    pub fn take_last(&mut self) -> T
        requires { 0 < length self.old.items }
        ensures value { Some result ≡ slice_get self.old.items (length self.old.items - 1) }
        ensures taken { self.new.items ≡ take (length self.old.items - 1) self.old.items }
        ensures room { self.new.room ≡ self.old.room }
        ensures memory { length self.old.items ≤ self.old.room }
    {
        self.items.take_last()
    }

    /// Takes off the values above the lowest `n`, and gives them.
    ///
    /// The error is want of memory, and then the list is as before.
    pub fn split_off(&mut self, n: usize) -> Result<Vec<T>, AllocError>
        requires { n ≤ length self.old.items }
        ensures values { IfOk result (λ values. values.items ≡ drop n self.old.items) }
        ensures taken { OnOk result (self.new.items ≡ take n self.old.items) }
        ensures room { self.new.room ≡ self.old.room }
        ensures memory { length self.old.items ≤ self.old.room }
        ensures refused { OnErr result (self.new ≡ self.old) }
    {
        self.items.split_off(n)
    }
}

impl<T: Drop> Stack<T> {
    /// Puts a value in the place of another, which it drops. It takes no memory.
    #[inline(always)]
    pub fn put(&mut self, at: usize, value: T)
        requires { at < length self.old.items }
        ensures set { self.new.items ≡ slice_set self.old.items at value }
        ensures room { self.new.room ≡ self.old.room }
    {
        self.items[at] = value;
    }

    /// Drops the last value. It takes no memory.
    #[inline(always)]
    pub fn drop_last(&mut self)
        requires { 0 < length self.old.items }
        ensures dropped { self.new.items ≡ take (length self.old.items - 1) self.old.items }
        ensures room { self.new.room ≡ self.old.room }
        ensures memory { length self.old.items ≤ self.old.room }
    {
        let _last = self.items.take_last();
    }

    /// Drops the values above the lowest `n`. It takes no memory.
    pub fn cut(&mut self, n: usize)
        ensures cut { self.new.items ≡ take n self.old.items }
        ensures room { self.new.room ≡ self.old.room }
    {
        self.items.truncate(n);
    }

    /// Gives a place its content. It takes no memory.
    pub fn place(&mut self, p: Place<T>)
        requires { Fits T self.old.items self.old.room p }
        ensures placed { self.new.items ≡ placed self.old.items p }
        ensures room { self.new.room ≡ self.old.room }
    {
        put(&mut self.items, p.at, p.content);
    }
}

// Puts a value at a place of a list, or at its end, where there is memory for it.
fn put<T: Drop>(items: &mut Vec<T>, at: usize, value: T)
    requires near { at ≤ vec_len items.old }
    requires room { at < vec_capacity items.old }
    ensures put { items.new.items ≡ take at items.old.items ++ value ∷ drop (suc at) items.old.items }
    ensures room { vec_capacity items.new ≡ vec_capacity items.old }
{
    if at < items.len() {
        items[at] = value;
    } else {
        items.push_reserved(value);
    }
}

// Puts a value in the place of another, and gives that.
fn replaced<T>(items: &mut Vec<T>, at: usize, value: T) -> T
    requires { at < vec_len items.old }
    ensures before { Some result ≡ slice_get items.old.items at }
    ensures after { items.new.items ≡ slice_set items.old.items at value }
    ensures room { vec_capacity items.new ≡ vec_capacity items.old }
{
    mem::replace(&mut items[at], value)
}

impl<T: Copied> Stack<T> {
    /// Copies of the values above the lowest `n`.
    ///
    /// The error is want of memory.
    pub fn copied_from(&self, n: usize) -> Result<Vec<T>, AllocError>
        requires { n ≤ length self.now.items }
        ensures { IfOk result (λ copies. copies.items ≡ drop n self.now.items) }
    {
        copied_all(*self.items.allocator(), &self.items[n..])
    }

    /// Copies of `count` values from the place `lowest` on.
    ///
    /// The error is want of memory.
    pub fn copied_between(&self, lowest: usize, count: usize) -> Result<Vec<T>, AllocError>
        requires { lowest + count ≤ length self.now.items }
        ensures { IfOk result (λ copies. copies.items ≡ take count (drop lowest self.now.items)) }
    {
        copied_all(*self.items.allocator(), &self.items[lowest..][..count])
    }
}

// Copies of all values of a list.
fn copied_all<T: Copied>(alloc: Global, values: &[T]) -> Result<Vec<T>, AllocError>
    ensures { IfOk result (λ copies. copies.items ≡ values.now) }
{
    let mut copies = Vec::with_capacity(alloc, values.len())?;
    for value in values {
        copies.push(value.copied()?)?;
    }
    Ok(copies)
}
