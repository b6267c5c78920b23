//! Equal copies of changes and of what they are made of.

ghost use Rattle.std.specs.Prelude.{◌≡◌, ◌++◌, IfOk};

use crate::changes::{Added, AddedList, Change, Mark, MarkedRow, MarkedRows};
use lake_values::NoMemory;
use std::alloc::Global;

impl Mark {
    /// An equal mark.
    pub fn copy(&self) -> Result<Mark, NoMemory>
        ensures { IfOk result (λ copy. copy ≡ self.now) }
    {
        Ok(Mark {
            table: self.table.copy()?,
            seq: self.seq,
            part: self.part,
            cell: self.cell,
        })
    }
}

impl MarkedRow {
    /// An equal row with an equal mark.
    pub fn copy(&self, alloc: Global) -> Result<MarkedRow, NoMemory>
        ensures { IfOk result (λ copy. copy ≡ self.now) }
    {
        Ok(MarkedRow {
            mark: self.mark.copy()?,
            row: self.row.copy(alloc)?,
        })
    }
}

/// Equal rows with equal marks, in the same order.
pub fn copy_marked_rows(alloc: Global, rows: &[MarkedRow]) -> Result<Vec<MarkedRow>, NoMemory>
    ensures { IfOk result (λ copies. copies.items ≡ rows.now) }
{
    let mut copies = Vec::with_capacity(alloc, rows.len())?;
    for marked in rows {
        copies.push(marked.copy(alloc)?)?;
    }
    Ok(copies)
}

impl Added {
    /// An equal part.
    pub fn copy(&self, alloc: Global) -> Result<Added, NoMemory>
        ensures { IfOk result (λ copy. copy ≡ self.now) }
    {
        Ok(Added {
            table: self.table.copy()?,
            part: self.part,
            rows: self.rows.copy(alloc)?,
        })
    }
}

/// Equal parts, in the same order.
pub fn copy_additions(alloc: Global, added: &[Added]) -> Result<Vec<Added>, NoMemory>
    ensures { IfOk result (λ copies. copies.items ≡ added.now) }
{
    let mut copies = Vec::with_capacity(alloc, added.len())?;
    for part in added {
        copies.push(part.copy(alloc)?)?;
    }
    Ok(copies)
}

impl Change {
    /// An equal change.
    pub fn copy(&self, alloc: Global) -> Result<Change, NoMemory>
        ensures { IfOk result (λ copy. copy ≡ self.now) }
    {
        let removed = copy_marked_rows(alloc, self.removed.as_slice())?;
        let added = copy_additions(alloc, self.added.as_slice())?;
        Ok(Change {
            removed: MarkedRows::from_list(removed),
            added: AddedList::from_list(added),
        })
    }
}
