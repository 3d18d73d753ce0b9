//! Names that stand outside statements.

ghost use Rattle.std.specs.Prelude.{◌≡◌, [], map, fold, IfOk};
ghost use Rattle.setl_names.specs.Breaks.{earlier, tagged};
ghost use Rattle.setl_names.specs.Heads as heads;

use crate::broken::{Break, noted};
use crate::name::Name;
use crate::names::Names;
use setl_tree::{Declared, Param, Proc};
use std::alloc::{AllocError, Global};

/// A declared name with the line at which a break is told.
#[derive(Drop)]
pub struct Entry<'t> {
    pub line: u32,
    pub name: Name<'t>,
}

/// What declares a name.
pub trait Declares {
    ghost use Rattle.setl_names.specs.declared.head.Entry.{Entry};

    ghost entry_of: { Self → Entry };

    /// The name with the line at which a break is told.
    fn entry(&self) -> Entry<'_>
        ensures { result ≡ entry_of self.now };
}

impl Declares for Proc {
    ghost use Rattle.setl_names.specs.Heads.{proc_entry};

    ghost entry_of = { proc_entry };

    fn entry(&self) -> Entry<'_> {
        Entry {
            line: self.line,
            name: Name::new(&self.name),
        }
    }
}

impl Declares for Param {
    ghost use Rattle.setl_names.specs.Heads.{param_entry};

    ghost entry_of = { param_entry };

    fn entry(&self) -> Entry<'_> {
        Entry {
            line: self.line,
            name: Name::new(&self.name),
        }
    }
}

impl Declares for Declared {
    ghost use Rattle.setl_names.specs.Heads.{declared_entry};

    ghost entry_of = { declared_entry };

    fn entry(&self) -> Entry<'_> {
        Entry {
            line: self.line,
            name: Name::new(&self.name),
        }
    }
}

/// The first break so far and of a rule that what declares a name that was declared before breaks. An error is want of
/// memory.
pub fn noted_again<T: Declares>(
    alloc: Global,
    first: Option<Break>,
    rule: u8,
    items: &[T],
) -> Result<Option<Break>, AllocError>
    ensures { IfOk result (λ f. f ≡ fold earlier first (tagged rule (heads.lines_again [] (map T.entry_of items.now)))) }
{
    let mut first = first;
    let mut seen = Names::new(alloc);
    for item in items {
        let entry = item.entry();
        if !seen.put(entry.name.text().bytes())? {
            first = noted(first, entry.line, rule);
        }
    }
    Ok(first)
}
