ghost use Rattle.std.specs.Prelude.{◌≡◌, List, ℕ, IfOk, is_none};
ghost use Rattle.table_history.specs.Stores as spec;

use lake_values::{NoMemory, Row, Text};
use row_evaluation::{Cells, Lookup};
use sql_model::{Mark, MarkedRow};
use std::alloc::Global;

/// A row of a table, with what its mark says beside the table, and the commit that removed it.
#[derive(Debug, Drop)]
pub struct Kept {
    /// The commit that added the row.
    pub seq: u64,
    /// The part of the transaction that added it.
    pub part: u32,
    pub cell: u32,
    /// The commit that removed it, if one did.
    pub removed: Option<u64>,
    pub row: Row,
}

/// A row as a session sees it, with what its mark says beside the table. The row is lent.
#[derive(Clone, Copy, Debug)]
pub struct ViewRow<'a> {
    /// The commit that added the row; 0 where the session's own transaction did.
    pub seq: u64,
    /// The part of the transaction that added it.
    pub part: u32,
    pub cell: u32,
    pub row: &'a Row,
}

impl Cells for ViewRow<'_> {
    ghost cells = { λ r. r.row.now };

    fn find(&self, place: usize) -> Lookup<'_> {
        self.row.find(place)
    }
}

impl ViewRow<'_> {
    /// A copy of the row, with its mark in the table of this name.
    pub fn marked(&self, alloc: Global, table: &Text) -> Result<MarkedRow, NoMemory>
        ensures { IfOk result (λ row. row ≡ spec.marked_of table.now self.now) }
    {
        let mark = Mark {
            table: table.copy()?,
            seq: self.seq,
            part: self.part,
            cell: self.cell,
        };
        let row = self.row.copy(alloc)?;
        Ok(MarkedRow { mark, row })
    }
}

impl Kept {
    /// Whether the row stands in a version.
    pub fn stands(&self, version: u64) -> bool
        ensures { result ≡ spec.stands version self.now }
    {
        self.seq <= version && self.is_before(version)
    }

    /// Whether a version comes before the commit that removed the row.
    fn is_before(&self, version: u64) -> bool
        ensures { result ≡ spec.is_before version self.now.removed }
    {
        match self.removed {
            Some(seq) => version < seq,
            None => true,
        }
    }

    /// Whether no commit removed the row.
    pub fn is_current(&self) -> bool
        ensures { result ≡ is_none self.now.removed }
    {
        self.removed.is_none()
    }

    /// The row as it is shown, without the commit that removed it.
    pub fn lend(&self) -> ViewRow<'_>
        ensures { (table : List ℕ) → spec.marked_of table result ≡ spec.marked_as table self.now }
    {
        ViewRow {
            seq: self.seq,
            part: self.part,
            cell: self.cell,
            row: &self.row,
        }
    }
}
