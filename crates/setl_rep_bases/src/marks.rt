//! What the bases of a run had at a time.

use crate::BaseId;
use std::collections::BTreeMap;
use std::marker::Model;

/// How many members an instance had, and whether it was gone.
#[derive(Clone, Copy, Debug, PartialEq, Eq)]
pub struct Mark {
    pub count: u64,
    pub gone: bool,
}

pub(crate) type MarkTable = BTreeMap<BaseId, Mark>;

/// What the bases of a run had at a time: a mark for each instance that was there. Contracts see it as `Marks`.
#[derive(Drop)]
pub struct BaseMarks {
    pub(crate) table: MarkTable,
}

impl Model for BaseMarks {
    ghost use Rattle.std.specs.FinMap.{from_entries};
    ghost use Rattle.setl_rep_bases.specs.Marks.{Marks, coded_marks};

    ghost Value = { Marks };

    ghost coded = { coded_marks };

    ghost view = { λ m. from_entries m.table.entries };
}
