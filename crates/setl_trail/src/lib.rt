//! A trail, by which changes are undone: a stack of entries and marks. Who changes data and means to undo it notes
//! what each change replaced, and later takes the entries off again, the latest first, down to a mark.
//!
//! Memory for entries is reserved ahead, so that noting one can't fail. Contracts see a trail as the list of its
//! entries and marks, the latest first, and the number `spare` of entries for which memory is reserved beside those.
#![tactic(auto)]

ghost use Rattle.std.specs.Prelude.{◌≡◌, ◌≤◌, ◌-◌, [], ◌∷◌, Bool, false, nat_lt, reverse, length, filter, take, drop, ◌++◌, vec_len, vec_capacity, IfOk, OnOk, OnErr};
ghost use Rattle.setl_trail.specs.Trail.{entry, mark, latest, without_latest, mark_count, forgotten};
ghost use Rattle.setl_trail.specs.Merged.{is_at_mark};

use std::alloc::{AllocError, Global};
use std::marker::Model;

/// What serves an older mark only by a test, once the latest mark is forgotten.
pub trait Needed<B> {
    /// Whether it is needed over this base.
    ghost needed: { B → Self → Bool };

    /// Whether it is needed over this base. It takes no memory.
    fn is_needed(&self, base: &B) -> bool
        ensures { result ≡ needed base.now self.now };
}

/// A stack of entries and marks.
#[derive(Drop)]
pub struct Trail<E> {
    entries: Vec<E>,
    // For each mark the number of entries below it.
    marks: Vec<usize>,
}

impl<E> Model for Trail<E> {
    ghost use Rattle.std.specs.Prelude.{◌-◌, reverse, vec_len, vec_capacity};
    ghost use Rattle.setl_trail.specs.Trail.{TrailState, trail_code};
    ghost use Rattle.setl_trail.specs.Merged.{merged, AreMarks};

    ghost Value = { TrailState E };

    ghost coded = { trail_code E.code };

    ghost view = { λ t. record {
      items = merged (reverse t.marks.items) (reverse t.entries.items);
      spare = vec_capacity t.entries - vec_len t.entries;
    } };

    ghost invariant = { λ t. AreMarks (reverse t.marks.items) (vec_len t.entries) };
}

impl<E> Trail<E> {
    /// An empty trail.
    ///
    /// The error is want of memory.
    pub fn new(alloc: Global) -> Result<Trail<E>, AllocError>
        ensures { IfOk result (λ trail. trail.items ≡ []) }
    {
        let marks = Vec::with_capacity(alloc, 1)?;
        let entries = Vec::with_capacity(alloc, 1)?;
        Ok(Trail { entries, marks })
    }

    /// Reserves memory, so that at least `n` entries can be noted.
    ///
    /// The error is want of memory, and then the trail is as before.
    pub fn reserve(&mut self, n: usize) -> Result<(), AllocError>
        ensures same { self.new.items ≡ self.old.items }
        ensures room { OnOk result (n ≤ self.new.spare) }
        ensures more { self.old.spare ≤ self.new.spare }
        ensures refused { OnErr result (self.new ≡ self.old) }
    {
        self.entries.reserve(n)
    }

    /// Puts an entry on top, for which memory was reserved. It takes no memory.
    pub fn note(&mut self, e: E)
        requires { 1 ≤ self.old.spare }
        ensures { self.new ≡ record { items = entry e ∷ self.old.items; spare = self.old.spare - 1 } }
    {
        self.entries.push_reserved(e);
    }

    /// Puts a mark on top. Memory that was reserved for entries stays so.
    ///
    /// The error is want of memory, and then the trail is as before.
    pub fn mark(&mut self) -> Result<(), AllocError>
        ensures marked { OnOk result (self.new ≡ record self.old { items = mark ∷ self.old.items }) }
        ensures refused { OnErr result (self.new ≡ self.old) }
    {
        let height = self.entries.len();
        self.marks.push(height)?;
        Ok(())
    }

    /// Takes off the latest entry or mark, and gives it where it is an entry: none where it was a mark, or where
    /// nothing was left. It takes no memory.
    pub fn pop(&mut self) -> Option<E>
        ensures entry { result ≡ latest self.old.items }
        ensures rest { self.new.items ≡ without_latest self.old.items }
        ensures room { self.old.spare ≤ self.new.spare }
    {
        if ends_in_mark(&self.marks, self.entries.len()) {
            self.marks.pop();
            return None;
        }
        self.entries.pop()
    }

    /// Forgets the latest mark. Of the entries above it, those that are needed over `base` stay, for the mark before;
    /// where no mark is left, no entry stays. Its answer is whether there was a mark, and else all is as before.
    ///
    /// It takes no memory, and its work is in proportion to the entries above the mark.
    pub fn forget<B>(&mut self, base: &B) -> bool
    where
        E: Needed<B> + Drop,
        ensures forgotten { self.new.items ≡ forgotten (E.needed base.now) self.old.items }
        ensures some { result ≡ nat_lt 0 (mark_count self.old.items) }
        ensures room { self.old.spare ≤ self.new.spare }
        ensures nothing { result ≡ false → self.new ≡ self.old }
    {
        let Some(below) = self.marks.pop() else {
            return false;
        };
        if self.marks.is_empty() {
            self.entries.clear();
        } else {
            leave_needed(&mut self.entries, below, base);
        }
        true
    }

    /// The number of marks. It takes no memory.
    pub fn marks(&self) -> usize
        ensures { result ≡ mark_count self.now.items }
    {
        self.marks.len()
    }
}

// Of the entries above the lowest `below`, leaves those that are needed.
fn leave_needed<B, E: Needed<B> + Drop>(entries: &mut Vec<E>, below: usize, base: &B)
    requires { below ≤ vec_len entries.old }
    ensures left { entries.new.items ≡ take below entries.old.items ++ filter (E.needed base.now) (drop below entries.old.items) }
    ensures more { below ≤ vec_len entries.new }
    ensures fewer { vec_len entries.new ≤ vec_len entries.old }
    ensures room { vec_capacity entries.new ≡ vec_capacity entries.old }
{
    let count = gather(&mut entries[below..], base);
    entries.truncate(below + count);
}

// Moves the entries that are needed to the front, in their order, and counts them.
fn gather<B, E: Needed<B>>(entries: &mut [E], base: &B) -> usize
    ensures front { take result entries.new ≡ filter (E.needed base.now) entries.old }
    ensures within { result ≤ length entries.new }
    ensures len { length entries.new ≡ length entries.old }
{
    let mut count = 0;
    for at in 0..entries.len() {
        if entries[at].is_needed(base) {
            entries.swap(count, at);
            count += 1;
        }
    }
    count
}

// Whether the latest mark stands above all of these entries.
fn ends_in_mark(marks: &[usize], entries: usize) -> bool
    ensures { result ≡ is_at_mark (reverse marks.now) entries }
{
    match marks.last() {
        Some(mark) => *mark == entries,
        None => false,
    }
}

#[cfg(test)]
mod tests;
