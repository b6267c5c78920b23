ghost use Rattle.std.specs.Prelude.{◌≡◌, IfOk};
ghost use Rattle.sql_model.specs.Changes.{mark_cmp, marked_cmp};
ghost use Rattle.sql_model.specs.Listing.{listed, ordered};

use crate::{Mark, MarkedRow, MarkedRows};
use lake_values::{NoMemory, Row, Rows, compare_rows};
use std::cmp::Ordering;

/// The rows in ascending order, as an answer lists them.
pub fn in_row_order(mut rows: Vec<Row>) -> Result<Rows, NoMemory>
    ensures { IfOk result (λ ordered. ordered ≡ listed rows.items) }
{
    rows.sort()?;
    Ok(Rows::from_rows(rows))
}

/// The rows in ascending order of their marks.
pub fn in_mark_order(mut rows: Vec<MarkedRow>) -> Result<MarkedRows, NoMemory>
    ensures { IfOk result (λ ordered_rows. ordered_rows ≡ ordered marked_cmp rows.items) }
{
    rows.sort_by(compare_marked)?;
    Ok(MarkedRows::from_list(rows))
}

/// Puts the rows in ascending order of their marks, where they are.
pub fn sort_by_mark(rows: &mut Vec<MarkedRow>)
    ensures { rows.new.items ≡ ordered marked_cmp rows.old.items }
{
    rows.sort_unstable_by(compare_marked);
}

/// The order of rows with marks: by mark, and then by row.
fn compare_marked(a: &MarkedRow, b: &MarkedRow) -> Ordering
    ensures { result ≡ marked_cmp a.now b.now }
{
    compare_marks(&a.mark, &b.mark).then_with(|| compare_rows(&a.row, &b.row))
}

/// The order of marks: by table, commit, part and cell.
fn compare_marks(a: &Mark, b: &Mark) -> Ordering
    ensures { result ≡ mark_cmp a.now b.now }
{
    a.table
        .as_str()
        .cmp(b.table.as_str())
        .then_with(|| a.seq.cmp(&b.seq))
        .then_with(|| a.part.cmp(&b.part))
        .then_with(|| a.cell.cmp(&b.cell))
}
