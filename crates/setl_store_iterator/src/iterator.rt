//! The iterator, and what it gives.

ghost use Rattle.std.specs.Prelude.{◌≡◌, ◌∷◌, ◌<◌, ◌==◌, [], length, Bool, IfOk, OnErr};
ghost use Rattle.setl_store_iterator.specs.Items.{plain_item, is_pair};
ghost use Rattle.setl_store_iterator.specs.Rests.{IsSound, left_of, pairs_of, state_of};

use crate::integers::next_integer;
use crate::points::next_point;
use crate::rests::{
    Rest, copied_rest, is_over, is_paired, next_component, next_letter, next_letter_place,
    next_member, next_place,
};
use setl_store_environment::Copied;
use setl_value::Value;
use std::alloc::{AllocError, Global};
use std::marker::Model;

/// What an iterator gives at a step, where None is `om`.
#[derive(Drop)]
pub enum Item {
    /// A member.
    One(Option<Value>),
    /// An argument of a map, or a place of a tuple or a string, with its image.
    Two {
        argument: Option<Value>,
        image: Option<Value>,
    },
}

/// A started iterator. Contracts see whether its items are pairs, and the items that are left.
#[derive(Drop)]
pub struct Iterator {
    rest: Box<Rest>,
}

impl Model for Iterator {
    ghost use Rattle.setl_store_iterator.specs.States.{IteratorState, state_code};

    ghost Value = { IteratorState };

    ghost coded = { state_code };

    ghost use Rattle.setl_store_iterator.specs.Rests.{IsSound, state_of};

    ghost view = { λ i. state_of i.rest.value };

    ghost invariant = { λ i. IsSound i.rest.value };
}

impl Iterator {
    // The iterator over what is left here.
    //
    // The error is want of memory.
    pub(crate) fn over(alloc: Global, rest: Rest) -> Result<Iterator, AllocError>
        requires { IsSound rest }
        ensures { IfOk result (λ i. i ≡ state_of rest) }
    {
        Ok(Iterator {
            rest: Box::new(alloc, rest)?,
        })
    }

    /// Whether no item is left. It takes no memory.
    pub fn is_at_end(&self) -> bool
        ensures { result ≡ (length self.now.left == 0) }
    {
        is_over(&self.rest)
    }

    /// Whether the items are arguments with their images, and not members. It takes no memory.
    pub fn is_of_pairs(&self) -> bool
        ensures { result ≡ self.now.pairs }
    {
        is_paired(&self.rest)
    }

    /// Takes the first item. Its cost is that of copying a value, for an argument of a map with a step for each image.
    ///
    /// The error is want of memory, and then the iterator is as before.
    pub fn advance(&mut self, alloc: Global) -> Result<Item, AllocError>
        requires { 0 < length self.old.left }
        ensures first { IfOk result (λ item. self.old.left ≡ plain_item item ∷ self.new.left) }
        ensures kind { IfOk result (λ item. is_pair item ≡ self.old.pairs) }
        ensures pairs { self.new.pairs ≡ self.old.pairs }
        ensures refused { OnErr result (self.new ≡ self.old) }
    {
        next_of(alloc, &mut self.rest)
    }
}

impl Copied for Iterator {
    fn copied(&self) -> Result<Iterator, AllocError> {
        let rest = copied_rest(&self.rest)?;
        Ok(Iterator {
            rest: Box::new(*Box::allocator(&self.rest), rest)?,
        })
    }
}

// Takes the first item of what is left.
//
// The error is want of memory, and then as much is left as before.
fn next_of(alloc: Global, rest: &mut Rest) -> Result<Item, AllocError>
    requires sound { IsSound rest.old }
    requires some { 0 < length (left_of rest.old) }
    ensures first { IfOk result (λ item. left_of rest.old ≡ plain_item item ∷ left_of rest.new) }
    ensures kind { IfOk result (λ item. is_pair item ≡ pairs_of rest.old) }
    ensures pairs { pairs_of rest.new ≡ pairs_of rest.old }
    ensures sound { IsSound rest.new }
    ensures refused { OnErr result (state_of rest.new ≡ state_of rest.old) }
{
    match rest {
        Rest::Members(s, at) => next_member(s, at),
        Rest::Components(t, at) => next_component(t, at),
        Rest::Letters(t, at) => next_letter(alloc, t, at),
        Rest::Integers(steps) => Ok(next_integer(steps)),
        Rest::Points(f, at) => next_point(f, at),
        Rest::Places(t, at) => next_place(t, at),
        Rest::LetterPlaces(t, at) => next_letter_place(alloc, t, at),
    }
}
