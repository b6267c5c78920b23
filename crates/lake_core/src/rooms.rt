//! What is made for the commit of a transaction when room is reserved for it.

ghost use Rattle.std.specs.Prelude.{◌≡◌, ◌==◌, ◌&&◌, ◌||◌, ◌∷◌, ◌++◌, [], List, IfOk, OnOk};
ghost use Rattle.sql_model.specs.Units.{ConflictUnit, share_unit, whole_table, units_of_marks};
ghost use Rattle.lake_values.specs.Texts.{same_text};
ghost use Rattle.lake_core.specs.Rows.{units_of_row};
ghost use Rattle.lake_core.specs.Rooms.{IsRoomFor, rows_share, units_of_rows};

use crate::rows::CatRow;
use crate::transactions::Room;
use lake_values::{Listed, NoMemory};
use sql_model::{Mark, MarkedRow, Marks};
use std::alloc::Global;

impl Room {
    /// What the commit of a transaction needs that removed these rows and those.
    ///
    /// Where the rows of each table stand side by side, a table has one mark and one row of the catalogue.
    pub fn of(alloc: Global, removed: &[MarkedRow], more: &[MarkedRow]) -> Result<Room, NoMemory>
        ensures { IfOk result (λ room. IsRoomFor (removed.now ++ more.now) room) }
    {
        let Some(count) = removed.len().checked_add(more.len()) else {
            return Err(NoMemory);
        };
        let used = vec![in alloc; 0; count]?;
        let mut marks = Listed::empty(alloc);
        put_tables(&mut marks, removed)?;
        put_tables(&mut marks, more)?;
        let mut rows = Vec::new(alloc);
        put_marks(alloc, &mut rows, removed)?;
        put_marks(alloc, &mut rows, more)?;
        Ok(Room { used, marks, rows })
    }
}

/// Puts marks of the tables that rows are removed from behind others.
fn put_tables(marks: &mut Marks, removed: &[MarkedRow]) -> Result<(), NoMemory>
    ensures { OnOk result ((us : List ConflictUnit) → share_unit (units_of_marks marks.new) us
        ≡ (share_unit (units_of_marks marks.old) us || share_unit (units_of_rows removed.now) us)) }
{
    for row in removed {
        put_table(marks, &row.mark)?;
    }
    Ok(())
}

/// Puts a mark behind the others, unless the last of them is of the same table.
fn put_table(marks: &mut Marks, mark: &Mark) -> Result<(), NoMemory>
    ensures { OnOk result ((us : List ConflictUnit) → share_unit (units_of_marks marks.new) us
        ≡ (share_unit (units_of_marks marks.old) us || share_unit (whole_table mark.now.table ∷ []) us)) }
{
    match marks.as_slice().last() {
        Some(last) if last.table == mark.table => Ok(()),
        _ => marks.push(mark.copy()?),
    }
}

/// Puts what the catalogue is to say of the tables that rows are removed from behind others. The commit sets its number.
fn put_marks(alloc: Global, rows: &mut Vec<CatRow>, removed: &[MarkedRow]) -> Result<(), NoMemory>
    ensures { OnOk result ((us : List ConflictUnit) → rows_share rows.new.items us
        ≡ (rows_share rows.old.items us || share_unit (units_of_rows removed.now) us)) }
{
    for row in removed {
        put_mark(alloc, rows, &row.mark)?;
    }
    Ok(())
}

/// Puts a mark into the last row, if that is of its table, and else into a row of its own behind the others.
fn put_mark(alloc: Global, rows: &mut Vec<CatRow>, mark: &Mark) -> Result<(), NoMemory>
    ensures { OnOk result ((us : List ConflictUnit) → rows_share rows.new.items us
        ≡ (rows_share rows.old.items us || share_unit (whole_table mark.now.table ∷ []) us)) }
{
    match rows.last_mut() {
        Some(last) if last.table == mark.table => add_mark(last, mark),
        _ => {
            rows.push(row_of(alloc, mark)?)?;
            Ok(())
        }
    }
}

/// Puts a mark behind the marks of a row, unless it is the last of them already.
fn add_mark(row: &mut CatRow, mark: &Mark) -> Result<(), NoMemory>
    ensures { OnOk result ((us : List ConflictUnit) → share_unit (units_of_row row.new) us ≡ share_unit (whole_table row.old.table ∷ []) us) }
{
    match row.marks.as_slice().last() {
        Some(last) if are_equal(last, mark) => Ok(()),
        _ => row.marks.push(mark.copy()?),
    }
}

/// The row that has this mark alone.
fn row_of(alloc: Global, mark: &Mark) -> Result<CatRow, NoMemory>
    ensures { IfOk result (λ row. row ≡ record { seq = 0; table = mark.now.table; marks = mark.now ∷ [] }) }
{
    let mut marks = Listed::empty(alloc);
    marks.push(mark.copy()?)?;
    let table = mark.table.copy()?;
    Ok(CatRow {
        seq: 0,
        table,
        marks,
    })
}

fn are_equal(a: &Mark, b: &Mark) -> bool
    ensures { result ≡ (same_text a.now.table b.now.table && (a.now.seq == b.now.seq) && (a.now.part == b.now.part) && (a.now.cell == b.now.cell)) }
{
    a.table == b.table && a.seq == b.seq && a.part == b.part && a.cell == b.cell
}
