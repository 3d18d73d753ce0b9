//! The numbers of formers.

ghost use Rattle.std.specs.Prelude.{◌≡◌, suc, map, IfOk, OnOk};
ghost use Rattle.setl_names.specs.Names.{in_order};
ghost use Rattle.setl_program.specs.Expressions.{turn_of, names_of_turns};

use crate::bound;
use setl_names::Names;
use setl_tree::Iter;
use std::alloc::{AllocError, Global};
use std::marker::Model;

/// How many formers of a body are opened. Contracts see the number.
#[derive(Drop)]
pub struct Opened {
    count: u32,
}

impl Model for Opened {
    ghost use Rattle.std.specs.Prelude.{ℕ};

    ghost Value = { ℕ };

    ghost view = { λ o. o.count };
}

impl Opened {
    /// No former is opened yet.
    pub fn none() -> Opened
        ensures { result ≡ 0 }
    {
        Opened { count: 0 }
    }

    /// The number of the former that is opened, counted from 1. The error is that there are 2^32 - 1 formers already, where
    /// no memory was refused. Each takes some bytes of a source, which has at most 2^24.
    pub fn open(&mut self) -> Result<u32, AllocError>
        ensures number { IfOk result (λ m. m ≡ suc self.old) }
        ensures counted { OnOk result (self.new ≡ suc self.old) }
    {
        match self.count.checked_add(1) {
            None => Err(AllocError),
            Some(number) => {
                self.count = number;
                Ok(number)
            }
        }
    }

    /// The number of the former with these iterators, which is opened before what stands in them, and the names that they
    /// bind. The error is want of memory, or that there are 2^32 - 1 formers already.
    pub fn open_over(&mut self, alloc: Global, turns: &[Iter]) -> Result<(u32, Names), AllocError>
        ensures number { IfOk result (λ r. r.0 ≡ suc self.old) }
        ensures names { IfOk result (λ r. r.1 ≡ in_order (names_of_turns (map turn_of turns.now))) }
        ensures counted { OnOk result (self.new ≡ suc self.old) }
    {
        let number = self.open()?;
        let names = bound::names_of_turns(alloc, turns)?;
        Ok((number, names))
    }
}
