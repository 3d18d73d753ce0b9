//! Conditions that are to be looked at.

use crate::readers::{Reader, Readers};
use crate::reads::note_term;
use setl_advise_gathering::{Condition, Target, Term};
use std::alloc::{AllocError, Global};
use std::mem;

/// A condition that needs more flows than this waits until none waits that needs fewer.
const FEW: usize = 32;

/// Conditions that wait, each once. Those that need many flows are kept apart: they are looked at last, since a look at one
/// takes as long as it needs flows.
#[derive(Drop)]
pub(crate) struct Worklist<'p> {
    alloc: Global,
    readers: Readers<'p>,
    waits: Vec<bool>,
    is_wide: Vec<bool>,
    narrow: Vec<Reader>,
    wide: Vec<Reader>,
}

impl<'p> Worklist<'p> {
    /// All conditions wait, in their order. An error is want of memory.
    pub(crate) fn new(
        alloc: Global,
        conditions: &[Condition<'p>],
    ) -> Result<Worklist<'p>, AllocError> {
        let mut list = Worklist {
            alloc,
            readers: Readers::new(alloc),
            waits: vec![in alloc; false; conditions.len()]?,
            is_wide: vec![in alloc; false; conditions.len()]?,
            narrow: Vec::new(alloc),
            wide: Vec::new(alloc),
        };
        list.note_all(conditions)?;
        list.put_all(conditions.len())?;
        Ok(list)
    }

    /// Notes which flows conditions need. The last are noted first, so that those that need the flow of a target are found in
    /// their order. An error is want of memory.
    fn note_all(&mut self, conditions: &[Condition<'p>]) -> Result<(), AllocError> {
        let mut k = conditions.len();
        'conditions: while k > 0 {
            k -= 1;
            self.note(k, conditions[k].term)?;
        }
        Ok(())
    }

    /// Notes which flows a condition with this term needs. An error is want of memory.
    fn note(&mut self, k: Reader, t: Term<'p>) -> Result<(), AllocError> {
        let before = self.readers.len();
        note_term(t, k, &mut self.readers)?;
        if k < self.is_wide.len() {
            self.is_wide[k] = self.readers.len().saturating_sub(before) > FEW;
        }
        Ok(())
    }

    /// Lets the first conditions wait. An error is want of memory.
    fn put_all(&mut self, count: usize) -> Result<(), AllocError> {
        for k in 0..count {
            self.put(k)?;
        }
        Ok(())
    }

    /// Lets a condition wait, if it doesn't yet. An error is want of memory.
    fn put(&mut self, k: Reader) -> Result<(), AllocError> {
        if k >= self.waits.len() || k >= self.is_wide.len() || self.waits[k] {
            return Ok(());
        }
        self.waits[k] = true;
        if self.is_wide[k] {
            self.wide.push(k)?;
        } else {
            self.narrow.push(k)?;
        }
        Ok(())
    }

    /// Lets all conditions wait that need the flow of a target. An error is want of memory.
    pub(crate) fn wake(&mut self, target: Target<'p>) -> Result<(), AllocError> {
        let mut number = self.readers.last(target);
        'readers: while let Some((reader, before)) = self.readers.at(number) {
            self.put(reader)?;
            number = before;
        }
        Ok(())
    }

    /// Lets a condition wait no longer.
    pub(crate) fn begin(&mut self, k: Reader) {
        if k < self.waits.len() {
            self.waits[k] = false;
        }
    }

    /// Takes those off the list that need few flows.
    pub(crate) fn take_narrow(&mut self) -> Vec<Reader> {
        mem::replace(&mut self.narrow, Vec::new(self.alloc))
    }

    /// Takes those off the list that need many flows.
    pub(crate) fn take_wide(&mut self) -> Vec<Reader> {
        mem::replace(&mut self.wide, Vec::new(self.alloc))
    }
}
