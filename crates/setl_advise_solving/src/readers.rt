//! Which conditions need the flow of a target.

ghost use Rattle.std.specs.Prelude.{◌<◌, IfSome};

use indexmap::IndexMap;
use setl_advise_gathering::Target;
use std::alloc::{AllocError, Global};

/// A condition, by its place among the conditions.
pub(crate) type Reader = usize;

/// A condition that needs the flow of a target. The ones noted before it for this target begin with the one of this number,
/// counted from 1; there is none where it is 0.
#[derive(Clone, Copy)]
struct Noted {
    reader: Reader,
    before: usize,
}

/// For each target the conditions whose terms need its flow.
///
/// They say only what is worth another look: one that is left out costs time, and no answer rests on it.
#[derive(Drop)]
pub(crate) struct Readers<'p> {
    last: IndexMap<Target<'p>, usize>,
    noted: Vec<Noted>,
}

impl<'p> Readers<'p> {
    /// None.
    pub(crate) fn new(alloc: Global) -> Readers<'p> {
        Readers {
            last: IndexMap::new(alloc),
            noted: Vec::new(alloc),
        }
    }

    /// How many were noted.
    pub(crate) fn len(&self) -> usize {
        self.noted.len()
    }

    /// The number of what was noted last for a target; 0 where it is nothing.
    pub(crate) fn last(&self, target: Target<'p>) -> usize {
        match self.last.get(&target) {
            None => 0,
            Some(n) => *n,
        }
    }

    /// The condition of a number, and the number of the one before it, which is less; `None` for 0.
    pub(crate) fn at(&self, number: usize) -> Option<(Reader, usize)>
        ensures { IfSome result (λ found. found.1 < number) }
    {
        if number == 0 {
            return None;
        }
        let noted = self.noted.get(number - 1)?;
        Some((noted.reader, noted.before.min(number - 1)))
    }

    /// Notes that a condition needs the flow of a target, unless that was noted last. An error is want of memory.
    pub(crate) fn note(&mut self, target: Target<'p>, reader: Reader) -> Result<(), AllocError> {
        let before = self.last(target);
        if matches!(self.at(before), Some((last, _)) if last == reader) {
            return Ok(());
        }
        self.noted.push(Noted { reader, before })?;
        self.last.insert(target, self.noted.len())?;
        Ok(())
    }
}
