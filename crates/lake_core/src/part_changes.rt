//! What a further statement of a transaction changes.

ghost use Rattle.std.specs.Prelude.{◌≡◌, ◌+◌, ◌<◌, ◌≤◌, ◌^◌, ◌++◌, ◌&&◌, ◌==◌, [], IfOk, map, filter, position, vec_len, vec_capacity};
ghost use Rattle.std.specs.Ordering.{is_eq};
ghost use Rattle.sql_model.specs.Changes as changes;
ghost use Rattle.lake_values.specs.Texts.{same_text};
ghost use Rattle.sql_model.specs.declared.changes.Change.{Change as Changed};
ghost use Rattle.lake_values.specs.Order.{row_cmp};
ghost use Rattle.lake_core.specs.Rooms.{IsPartChange, IsPended};

use crate::transactions::{KeptTransaction, Room};
use lake_values::{NoMemory, Row, Rows, Text, compare_rows};
use sql_model::{Added, Change, MarkedRow, sort_by_mark};
use std::alloc::Global;
use std::cmp::Ordering;

/// What a further statement changes, with memory for what its transaction changed before.
#[derive(Debug, Drop)]
pub struct PartChange {
    /// The committed rows that it removes.
    pub removed: Vec<MarkedRow>,
    /// The rows that it removes of those that its transaction added.
    pub own: Vec<MarkedRow>,
    /// What it adds.
    pub added: Vec<Added>,
    /// Memory for what all parts of the transaction add.
    pub parts: Vec<Added>,
}

impl PartChange {
    pub fn nothing(alloc: Global) -> PartChange
        ensures removed { result.removed.items ≡ [] }
        ensures added { result.added.items ≡ [] }
    {
        PartChange {
            removed: Vec::new(alloc),
            own: Vec::new(alloc),
            added: Vec::new(alloc),
            parts: Vec::new(alloc),
        }
    }

    /// What a change is for the transaction of which it is a further statement's.
    pub fn of(
        alloc: Global,
        change: Change,
        before: &KeptTransaction,
    ) -> Result<PartChange, NoMemory>
        ensures { IfOk result (IsPartChange before.now change) }
    {
        let (mut removed, own) = parted(alloc, change.removed.into_list())?;
        removed.reserve(before.removed.len())?;
        let added = change.added.into_list();
        let Some(count) = before.added.len().checked_add(added.len()) else {
            return Err(NoMemory);
        };
        let parts = Vec::with_capacity(alloc, count)?;
        Ok(PartChange {
            removed,
            own,
            added,
            parts,
        })
    }
}

/// The committed ones of the rows, and those that their transaction added itself.
fn parted(alloc: Global, rows: Vec<MarkedRow>) -> Result<(Vec<MarkedRow>, Vec<MarkedRow>), NoMemory>
    ensures { IfOk result (λ both. (both.0.items ≡ changes.committed rows.items) × (both.1.items ≡ changes.own rows.items)) }
{
    let mut committed = Vec::new(alloc);
    let mut own = Vec::new(alloc);
    for row in rows {
        if row.mark.seq == 0 {
            own.push(row)?;
        } else {
            committed.push(row)?;
        }
    }
    Ok((committed, own))
}

impl KeptTransaction {
    /// The transaction after a further statement of it, which made so many parts, with the room that is reserved for it now.
    ///
    /// It takes no memory.
    pub fn after(self, more: PartChange, parts: u32, room: Option<Room>) -> KeptTransaction
        requires removed { vec_len self.removed + vec_len more.removed ≤ vec_capacity more.removed }
        requires none { more.parts.items ≡ [] }
        requires added { vec_len self.added + vec_len more.added ≤ vec_capacity more.parts }
        requires parts { self.parts + parts < 2 ^ 32 }
        ensures pended { (change : Changed) → IsPartChange self change more → IsPended self result change }
        ensures parts { result.parts ≡ self.parts + parts }
        ensures room { result.room ≡ room }
    {
        let KeptTransaction {
            session,
            explicit,
            number,
            snapshot,
            parts: before,
            mut removed,
            added,
            ..
        } = self;
        let PartChange {
            removed: mut all_removed,
            own,
            added: mut last,
            parts: mut all_added,
        } = more;
        all_removed.append(&mut removed).unwrap();
        sort_by_mark(&mut all_removed);
        put_left(own.as_slice(), added, &mut all_added);
        all_added.append(&mut last).unwrap();
        KeptTransaction {
            session,
            explicit,
            number,
            snapshot,
            parts: before + parts,
            removed: all_removed,
            added: all_added,
            room,
        }
    }
}

/// Puts the parts behind others, without the rows that their transaction removed again. A part of which no row is left adds
/// nothing, and isn't put.
fn put_left(own: &[MarkedRow], added: Vec<Added>, left: &mut Vec<Added>)
    requires { vec_len left.old + vec_len added ≤ vec_capacity left.old }
    ensures parts { left.new.items ≡ left.old.items ++ changes.additions_left own.now added.items }
    ensures len { vec_len left.new ≤ vec_len left.old + vec_len added }
    ensures capacity { vec_capacity left.new ≡ vec_capacity left.old }
{
    for part in added {
        let rest = left_of(own, part);
        if !rest.rows.rows().is_empty() {
            left.push_reserved(rest);
        }
    }
}

/// What a part added, without the rows that its transaction removed again.
fn left_of(own: &[MarkedRow], added: Added) -> Added
    ensures { result ≡ changes.left_of own.now added }
{
    let Added { table, part, rows } = added;
    let mut rows = rows.into_rows();
    remove_of_part(own, &table, part, &mut rows);
    Added {
        table,
        part,
        rows: Rows::from_rows(rows),
    }
}

/// Removes from a part's rows those that stand among its removed ones.
fn remove_of_part(own: &[MarkedRow], table: &Text, part: u32, rows: &mut Vec<Row>)
    ensures { rows.new.items ≡ changes.without row_cmp rows.old.items (map (λ m. m.row) (filter (λ m. same_text m.mark.table table.now && (m.mark.part == part)) own.now)) }
{
    for marked in own {
        if marked.mark.part == part && marked.mark.table == *table {
            remove_row(rows, &marked.row);
        }
    }
}

/// Removes the first row that equals this one.
fn remove_row(rows: &mut Vec<Row>, row: &Row)
    ensures { rows.new.items ≡ changes.without_one row_cmp rows.old.items row.now }
{
    if let Some(place) = place_of(rows.as_slice(), row) {
        rows.remove(place);
    }
}

/// Which is the first row that equals this one.
fn place_of(rows: &[Row], row: &Row) -> Option<usize>
    ensures { result ≡ position (λ other. is_eq (row_cmp row.now other)) rows.now }
{
    rows.iter()
        .position(|other| compare_rows(row, other) == Ordering::Equal)
}
