//! What several slots share.

ghost use Rattle.std.specs.Prelude.{◌≡◌, IfOk};

use std::alloc::{AllocError, Global};
use std::marker::Model;
use std::rc::Rc;

/// A value with several owners, which contracts see as itself.
#[derive(Drop)]
pub struct Shared<T> {
    pub(crate) rc: Rc<T>,
}

impl<T> Model for Shared<T> {
    ghost Value = { T };

    ghost coded = { T.code };

    ghost view = { λ s. s.rc.value };
}

impl<T> Shared<T> {
    /// What is shared.
    pub fn get(&self) -> &T
        ensures { result.now ≡ self.now }
    {
        &self.rc
    }
}

impl<T: Drop> Shared<T> {
    /// A value with one owner. The error is want of memory.
    pub fn new(alloc: Global, value: T) -> Result<Shared<T>, AllocError>
        ensures { IfOk result (λ s. s ≡ value) }
    {
        Ok(Shared {
            rc: Rc::new(alloc, value)?,
        })
    }

    /// One more owner. The error is that there are too many.
    pub fn copy(&self) -> Result<Shared<T>, AllocError>
        ensures { IfOk result (λ s. s ≡ self.now) }
    {
        Ok(Shared {
            rc: self.rc.clone()?,
        })
    }
}
