//! What a walk over statements keeps.

ghost use Rattle.std.specs.Prelude.{◌≡◌, ◌∷◌, [], OnOk, OnErr};
ghost use Rattle.setl_names_walk.specs.Walks.{no_walk, after};

use crate::scope::Scope;
use setl_names::{Occurrence, What};
use setl_tree::Items;
use std::alloc::{AllocError, Global};

/// What the formers around a place bind, and what was found on the way to it.
#[derive(Drop)]
pub struct Walk<'t> {
    pub alloc: Global,
    pub scope: Scope,
    pub found: Items<Occurrence<'t>>,
}

impl<'t> Walk<'t> {
    /// A walk that begins outside of all formers.
    pub fn new(alloc: Global) -> Walk<'t>
        ensures { result ≡ no_walk alloc }
    {
        Walk {
            alloc,
            scope: Scope::new(alloc),
            found: Items::new(alloc),
        }
    }

    /// What was found.
    pub fn into_found(self) -> Items<Occurrence<'t>>
        ensures { result ≡ self.entry.found }
    {
        let Walk { found, .. } = self;
        found
    }

    /// Notes one thing that stands in a statement of this line. An error is want of memory, and nothing is changed then.
    pub fn note(&mut self, line: u32, what: What<'t>) -> Result<(), AllocError>
        ensures ok { OnOk result (self.new ≡ after (record { line = line; what = what.entry } ∷ []) self.old) }
        ensures err { OnErr result (self.new ≡ self.old) }
    {
        self.found.push(Occurrence { line, what })
    }
}
