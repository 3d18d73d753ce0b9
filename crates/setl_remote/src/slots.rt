//! Maps from numbers, a slot each.
ghost use Rattle.std.specs.Prelude.{◌≡◌, ℕ, ◌+◌, ◌<◌, ◌≤◌, max, length, [], ◌∷◌, is_some, if◌then◌else◌, Some, IsSome, option_copied, IfSome, IfOk, OnOk, OnErr};
ghost use Rattle.std.specs.List.{IsAmong};
ghost use Rattle.setl_remote.specs.Slots.{slot_at, slots_len, PutsSlot, AreSlotCopies};

use std::alloc::{AllocError, Global};
use std::marker::Model;
use std::mem;

/// A map from block numbers to contents, and a length, the greatest number that was given a content.
///
/// It takes a slot for each number up to its length.
#[derive(Drop)]
pub struct Slots<T> {
    slots: Vec<Option<T>>,
}

impl<T> Model for Slots<T> {
    ghost use Rattle.std.specs.Prelude.{List, ◌<◌, length, Option};
    ghost use Rattle.std.specs.Coded.{coded_list, coded_option};

    ghost Value = { List (Option T) };

    ghost coded = { coded_list (coded_option T.code) };

    ghost view = { λ s. s.slots.items };

    ghost invariant = { λ s. 0 < length s.slots.items };
}

/// Puts empty slots at the end, up to this number of slots.
fn lengthen<T: Drop>(slots: &mut Vec<Option<T>>, len: usize) -> Result<(), AllocError>
    ensures len { OnOk result (length slots.new.items ≡ max (length slots.old.items) len) }
    ensures same { (n : ℕ) → slot_at slots.new.items n ≡ slot_at slots.old.items n }
    ensures err { OnErr result (slots.new.items ≡ slots.old.items) }
{
    let more = len.saturating_sub(slots.len());
    slots.reserve(more)?;
    for _i in 0..more {
        slots.push_reserved(None);
    }
    Ok(())
}

/// Gives the slot of the number a content, and gives back its old one.
fn fill<T: Drop>(
    slots: &mut Vec<Option<T>>,
    block: u64,
    content: T,
) -> Result<Option<T>, AllocError>
    requires { 0 < length slots.old.items }
    ensures old { IfOk result (λ old. old ≡ slot_at slots.old.items block) }
    ensures ok { OnOk result (PutsSlot block (Some content) slots.old.items slots.new.items) }
    ensures len { OnOk result (slots_len slots.new.items ≡ max (slots_len slots.old.items) block) }
    ensures some { 0 < length slots.new.items }
    ensures err { OnErr result (slots.new.items ≡ slots.old.items) }
{
    let i = block as usize;
    let Some(len) = i.checked_add(1) else {
        return Err(AllocError);
    };
    lengthen(slots, len)?;
    Ok(mem::replace(&mut slots[i], Some(content)))
}

/// Takes the content out of the slot of the number.
fn take_out<T: Drop>(slots: &mut Vec<Option<T>>, block: u64) -> Option<T>
    ensures old { result ≡ slot_at slots.old.items block }
    ensures out { PutsSlot block None slots.old.items slots.new.items }
    ensures len { length slots.new.items ≡ length slots.old.items }
{
    let i = block as usize;
    if i >= slots.len() {
        return None;
    }
    mem::replace(&mut slots[i], None)
}

impl<T> Slots<T> {
    /// The length: the greatest number that was given a content, and 0 at first. Takes no memory.
    pub fn len(&self) -> u64
        ensures { result ≡ slots_len self.now }
    {
        (self.slots.len() - 1) as u64
    }

    /// The content of the number; `None` where it has none. Takes no memory.
    pub fn get(&self, block: u64) -> Option<&T>
        ensures content { option_copied result ≡ slot_at self.now block }
        ensures member { IfSome result (λ c. IsAmong self.now (Some c.now)) }
    {
        self.slots.get(block as usize)?.as_ref()
    }

    /// Gives a number that has a content another one, and gives back its old one. Takes no memory.
    pub fn replace(&mut self, block: u64, content: T) -> Option<T>
        requires there { IsSome (slot_at self.old block) }
        ensures old { result ≡ slot_at self.old block }
        ensures new { PutsSlot block (Some content) self.old self.new }
        ensures len { slots_len self.new ≡ slots_len self.old }
    {
        mem::replace(&mut self.slots[block as usize], Some(content))
    }
}

impl<T: Clone> Clone for Slots<T> {
    ghost is_clone = { AreSlotCopies T.is_clone };

    /// A copy of each content at the same number, and the same length. An error is want of memory.
    fn clone(&self) -> Result<Slots<T>, AllocError> {
        Ok(Slots {
            slots: self.slots.clone()?,
        })
    }
}

impl<T: Drop> Slots<T> {
    /// No contents, and the length 0. An error is want of memory.
    pub fn new(alloc: Global) -> Result<Slots<T>, AllocError>
        ensures { IfOk result (λ slots. slots ≡ None ∷ []) }
    {
        let mut slots = Vec::with_capacity(alloc, 1)?;
        slots.push_reserved(None);
        Ok(Slots { slots })
    }

    /// Gives the number the content `c`, or none, and gives back its old content; `None` where it had none. A content makes
    /// the length the greater of itself and the number. The error is want of memory, or that the number is 2^64 - 1.
    pub fn put(&mut self, block: u64, c: Option<T>) -> Result<Option<T>, AllocError>
        ensures old { IfOk result (λ old. old ≡ slot_at self.old block) }
        ensures ok { OnOk result (PutsSlot block c self.old self.new) }
        ensures len { OnOk result (slots_len self.new ≡ (if is_some c then max (slots_len self.old) block else slots_len self.old)) }
        ensures err { OnErr result (self.new ≡ self.old) }
    {
        match c {
            Some(content) => fill(&mut self.slots, block, content),
            None => Ok(take_out(&mut self.slots, block)),
        }
    }
}
