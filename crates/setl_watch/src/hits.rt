//! The stores at one line of a run.

ghost use Rattle.std.specs.Prelude.{◌≡◌, IsTrue};
ghost use Rattle.setl_watch.specs.HitCounts.{hits};

use crate::{Event, Wants, Watcher};
use std::alloc::AllocError;

/// The watcher with the name 4: it counts the stores at the line that it is aimed at, never has enough, and reports
/// nothing. Before it is aimed its line is 0, which no statement has.
#[derive(Drop)]
pub struct Hits {
    line: u32,
    stores: u64,
}

impl Hits {
    /// No store, aimed at no line. It takes no memory.
    pub fn new() -> Hits
        ensures { (result.line ≡ 0) × (result.stores ≡ 0) }
    {
        Hits { line: 0, stores: 0 }
    }
}

impl Watcher for Hits {
    ghost watch = { λ h. hits h.line h.stores };

    fn name(&self) -> u8 {
        4
    }

    fn event(&mut self, e: &Event) -> Wants {
        match e {
            Event::Stored { line, .. } if *line == self.line => match self.stores.checked_add(1) {
                Some(stores) => {
                    self.stores = stores;
                    Wants::More
                }
                None => Wants::NoMemory,
            },
            _ => Wants::More,
        }
    }

    fn report(&self, _into: &mut Vec<u8>) -> Result<(), AllocError> {
        Ok(())
    }

    fn count(&self) -> u64 {
        self.stores
    }

    fn aim(&mut self, line: u32) {
        self.line = line;
        self.stores = 0;
    }
}
