//! Rows that are struck off a list, each as often as it stands among those that are removed.

ghost use Rattle.std.specs.Prelude.{◌≡◌, ◌≤◌, length, vec_len, nat_lt, replicate, if◌then◌else◌, IfOk, ◌<◌, ◌+◌};
ghost use Rattle.std.specs.List.{AllByRecursion};
ghost use Rattle.std.specs.Ordering.{is_lt};
ghost use Rattle.sql_model.specs.Changes.{mark_cmp, marked_cmp};
ghost use Rattle.table_history.specs.Stores.{marked_of};
ghost use Rattle.table_history.specs.Strikes.{IsAscending, below, is_at, less, remaining};

use crate::kept::ViewRow;
use lake_values::{NoMemory, Text, compare_rows};
use sql_model::{Mark, MarkedRow};
use std::alloc::Global;
use std::cmp::Ordering;

/// The order of marks: by table, commit, part and cell.
fn compare_marks(mark: &Mark, table: &Text, row: &ViewRow<'_>) -> Ordering
    ensures { result ≡ mark_cmp mark.now (marked_of table.now row.now).mark }
{
    let (seq, part, cell) = (row.seq, row.part, row.cell);
    mark.table
        .as_str()
        .cmp(table.as_str())
        .then_with(|| mark.seq.cmp(&seq))
        .then_with(|| mark.part.cmp(&part))
        .then_with(|| mark.cell.cmp(&cell))
}

/// The order of rows with marks: by mark, and then by row.
fn compare(marked: &MarkedRow, table: &Text, row: &ViewRow<'_>) -> Ordering
    ensures { result ≡ marked_cmp marked.now (marked_of table.now row.now) }
{
    let values = row.row;
    compare_marks(&marked.mark, table, row).then_with(|| compare_rows(&marked.row, values))
}

fn is_below(marked: &MarkedRow, table: &Text, row: &ViewRow<'_>) -> bool
    ensures { result ≡ is_lt (marked_cmp marked.now (marked_of table.now row.now)) }
{
    compare(marked, table, row) == Ordering::Less
}

/// How many of the removed rows are below a row.
fn place_of(removed: &[MarkedRow], table: &Text, row: &ViewRow<'_>) -> usize
    requires { IsAscending removed.now }
    ensures place { result ≡ below (marked_of table.now row.now) removed.now }
    ensures within { result ≤ length removed.now }
{
    removed.partition_point(|marked| is_below(marked, table, row))
}

/// Whether the row stands at a place among the removed ones.
fn is_at(removed: &[MarkedRow], place: usize, table: &Text, row: &ViewRow<'_>) -> bool
    ensures { result ≡ is_at (marked_of table.now row.now) removed.now place }
{
    match removed.get(place) {
        Some(marked) => compare(marked, table, row) == Ordering::Equal,
        None => false,
    }
}

/// Nothing was struck off so far.
pub fn unused(alloc: Global, removed: &[MarkedRow]) -> Result<Vec<usize>, NoMemory>
    ensures { IfOk result (λ used. used.items ≡ replicate (length removed.now) 0) }
{
    let mut used = Vec::new(alloc);
    used.resize(removed.len(), 0)?;
    Ok(used)
}

/// Strikes a row of a table off, if it is still to be struck off, and says so. The removed rows stand in the order of their
/// marks. `used` has as many numbers as there are removed rows: at the place of the first of equal rows, how many of them
/// were struck off.
pub fn strikes(
    removed: &[MarkedRow],
    used: &mut Vec<usize>,
    table: &Text,
    row: &ViewRow<'_>,
) -> bool
    requires ascending { IsAscending removed.now }
    requires len { vec_len used.old ≡ length removed.now }
    requires within { AllByRecursion (λ n. n ≤ length removed.now) used.old.items }
    ensures struck { result ≡ nat_lt 0 (remaining removed.now used.old.items (marked_of table.now row.now)) }
    ensures used { remaining removed.now used.new.items
        ≡ (if result then less (marked_of table.now row.now) (remaining removed.now used.old.items) else remaining removed.now used.old.items) }
    ensures len { vec_len used.new ≡ length removed.now }
    ensures within { AllByRecursion (λ n. n ≤ length removed.now) used.new.items }
{
    let first = place_of(removed, table, row);
    if first == removed.len() {
        return false;
    }
    if is_at(removed, first + used[first], table, row) {
        used[first] += 1;
        return true;
    }
    false
}
