//! What the formers around a place bind.

ghost use Rattle.std.specs.Prelude.{◌≡◌, OnOk, OnErr, IfOk};
ghost use Rattle.setl_names.specs.Names.{with_names};
ghost use Rattle.setl_names_walk.specs.Scopes.{no_scope, mark_of, back_to};

use setl_names::{Name, Names};
use std::alloc::{AllocError, Global};

/// How many names a scope had.
#[derive(Clone, Copy)]
pub struct Mark {
    pub own: usize,
    pub inside: usize,
}

/// The names that mean a former's own name at a place, and those that the formers around it bind.
#[derive(Drop)]
pub struct Scope {
    pub own: Names,
    pub inside: Names,
}

impl Scope {
    /// The scope outside of all formers.
    pub fn new(alloc: Global) -> Scope
        ensures { result ≡ no_scope }
    {
        Scope {
            own: Names::new(alloc),
            inside: Names::new(alloc),
        }
    }

    /// Enters a former that binds these names. It gives how many names there were before. An error is want of memory,
    /// and nothing is changed then.
    pub fn enter(&mut self, names: &[Name<'_>]) -> Result<Mark, AllocError>
        ensures mark { IfOk result (λ mark. mark ≡ mark_of self.old) }
        ensures own { OnOk result (self.new.own ≡ self.old.own) }
        ensures inside { OnOk result (self.new.inside ≡ with_names self.old.inside names.now) }
        ensures err { OnErr result (self.new ≡ self.old) }
    {
        let mark = Mark {
            own: self.own.len(),
            inside: self.inside.len(),
        };
        self.inside.put_all(names)?;
        Ok(mark)
    }

    /// Takes off all names that were put since there were so many.
    pub fn leave(&mut self, mark: Mark)
        ensures { self.new ≡ back_to mark self.old }
    {
        self.own.truncate(mark.own);
        self.inside.truncate(mark.inside);
    }
}
