//! Which rows of a catalogue conflict with a transaction.

ghost use Rattle.std.specs.Prelude.{◌≡◌, filter, find, nat_lt};
ghost use Rattle.std.specs.List.{list_any};
ghost use Rattle.std.specs.Option.{option_map};
ghost use Rattle.lake_values.specs.Texts.{same_text};
ghost use Rattle.sql_model.specs.Units.{share_unit, units_of_marks};
ghost use Rattle.lake_core.specs.Rows.{AreInOrder, units_of_row, writes_one};

use crate::rows::CatRow;
use lake_values::Text;
use sql_model::Marks;

/// The rows of the commits after a snapshot.
pub fn later_rows(rows: &[CatRow], snapshot: u64) -> &[CatRow]
    requires { AreInOrder rows.now }
    ensures { result.now ≡ filter (λ row. nat_lt snapshot row.seq) rows.now }
{
    let before = rows.partition_point(|row| row.seq <= snapshot);
    rows.split_at(before).1
}

/// The commit of the first row that wrote a unit of the marks.
pub fn first_writer(rows: &[CatRow], marks: &Marks) -> Option<u64>
    ensures { result ≡ option_map (λ row. row.seq) (find (writes_one marks.now) rows.now) }
{
    for row in rows {
        if writes_one(row, marks) {
            return Some(row.seq);
        }
    }
    None
}

/// Whether the row's commit removed a row of a table that one of the marks names.
fn writes_one(row: &CatRow, marks: &Marks) -> bool
    ensures { result ≡ writes_one marks.now row.now }
{
    !row.marks.is_empty() && name_table(marks, &row.table)
}

/// Whether one of the marks is of the table.
fn name_table(marks: &Marks, table: &Text) -> bool
    ensures { result ≡ list_any (λ mark. same_text table.now mark.table) marks.now }
{
    marks.as_slice().iter().any(|mark| *table == mark.table)
}
