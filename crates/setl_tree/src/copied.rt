//! Copies of parts of a tree.

ghost use Rattle.std.specs.Prelude.{◌≡◌, IfOk};

use crate::items::Items;
use crate::text::Text;
use crate::tree::Param;
use std::alloc::{AllocError, Global};

/// What can be copied.
pub trait Copied: Drop {
    /// The same again. An error is want of memory.
    fn copied(&self) -> Result<Self, AllocError>
        ensures { IfOk result (λ again. again ≡ self.now) };
}

impl Copied for Text {
    fn copied(&self) -> Result<Text, AllocError> {
        self.copy()
    }
}

impl Copied for Param {
    fn copied(&self) -> Result<Param, AllocError> {
        let name = self.name.copy()?;
        Ok(Param {
            passing: self.passing,
            name,
            line: self.line,
        })
    }
}

/// The same items again, in their order. An error is want of memory.
pub fn copied_items<T: Copied>(alloc: Global, items: &[T]) -> Result<Items<T>, AllocError>
    ensures { IfOk result (λ all. all ≡ items.now) }
{
    let mut all = Items::new(alloc);
    for item in items {
        all.push(item.copied()?)?;
    }
    Ok(all)
}
