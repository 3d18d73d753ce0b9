//! Tables under construction.

ghost use Rattle.std.specs.Prelude.{◌≡◌, IfOk, OnOk};
ghost use Rattle.setl_rep_forms.specs.Form.{no_entry, table};
ghost use Rattle.setl_rep_forms.specs.FormOf.{form};
ghost use Rattle.setl_rep_tables.specs.Tables.{IsKeyed};
ghost use Rattle.setl_rep_building.specs.Contents.{entries_in, layout, table_layout, PutsEntry};

use setl_remote::Slots;
use setl_rep_bases::BaseId;
use setl_rep_forms::Held;
use setl_sparse::SparseMap;
use std::alloc::{AllocError, Global};
use std::rc::Rc;

/// Where the numbers of a set or map lie.
#[derive(Clone, Copy, Debug, PartialEq, Eq)]
pub(crate) enum Lying {
    Remote,
    Sparse,
}

/// Contents by number.
#[derive(Drop)]
pub(crate) enum Table {
    Remote(Slots<Held>),
    Sparse(SparseMap<Held>),
}

impl Table {
    /// No contents. An error is want of memory.
    pub fn new(alloc: Global, lying: Lying) -> Result<Table, AllocError>
        ensures empty { IfOk result (λ t. entries_in t ≡ no_entry) }
        ensures layout { IfOk result (λ t. table_layout t ≡ layout lying) }
    {
        match lying {
            Lying::Remote => Ok(Table::Remote(Slots::new(alloc)?)),
            Lying::Sparse => Ok(Table::Sparse(SparseMap::new(alloc)?)),
        }
    }

    /// Gives a number its content. An error is want of memory.
    pub fn put(&mut self, n: u64, content: Held) -> Result<(), AllocError>
        ensures put { OnOk result (PutsEntry n (form content) (entries_in self.old) (entries_in self.new)) }
        ensures layout { table_layout self.new ≡ table_layout self.old }
    {
        setl_rep_tables::laws::slots_are_keyed();
        match self {
            Table::Remote(slots) => {
                slots.put(n, Some(content))?;
            }
            Table::Sparse(entries) => {
                entries.put(n, Some(content))?;
            }
        }
        Ok(())
    }

    /// Has no effect: it hands a proof that each number has one content.
    pub fn learn(&self)
        ensures { IsKeyed (entries_in self.now) }
    {
        setl_rep_tables::laws::slots_are_keyed();
        if let Table::Sparse(entries) = self {
            entries.learn();
        }
    }

    /// The map on a base, where `many` says that a content is the set of images. An error is want of memory.
    pub fn held(self, alloc: Global, base: BaseId, many: bool) -> Result<Held, AllocError>
        ensures { IfOk result (λ h. form h ≡ table (table_layout self) base many (entries_in self)) }
    {
        match self {
            Table::Remote(slots) => Ok(Held::RemoteMap(base, many, Rc::new(alloc, slots)?)),
            Table::Sparse(entries) => Ok(Held::SparseMap(base, many, Rc::new(alloc, entries)?)),
        }
    }
}
