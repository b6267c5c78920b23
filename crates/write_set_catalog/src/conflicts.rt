//! Which commits of a catalogue conflict with a transaction.

ghost use Rattle.std.specs.Prelude.{◌≡◌, filter, find, nat_lt};
ghost use Rattle.std.specs.List.{list_any};
ghost use Rattle.std.specs.Option.{option_map};
ghost use Rattle.lake_values.specs.Texts.{same_text};
ghost use Rattle.write_set_catalog.specs.Catalogs.{AreInOrder};
ghost use Rattle.write_set_catalog.specs.Conflicts as said;

use crate::{CatCommit, CatRow};
use lake_outside::Port;
use lake_values::Text;
use sql_model::Marks;

/// The commits after a snapshot.
pub fn later_commits<P: Port>(commits: &[CatCommit<P>], snapshot: u64) -> &[CatCommit<P>]
    requires { AreInOrder commits.now }
    ensures { result.now ≡ filter (λ commit. nat_lt snapshot commit.seq) commits.now }
{
    let before = commits.partition_point(|commit| commit.seq <= snapshot);
    commits.split_at(before).1
}

/// The number of the first commit that wrote a unit of the marks.
pub fn first_writer<P: Port>(commits: &[CatCommit<P>], marks: &Marks) -> Option<u64>
    ensures { result
        ≡ option_map (λ commit. commit.seq) (find (said.writes_one marks.now) commits.now) }
{
    for commit in commits {
        if writes_one(commit.rows.as_slice(), marks) {
            return Some(commit.seq);
        }
    }
    None
}

/// Whether one of a commit's rows wrote a unit of the marks.
fn writes_one(rows: &[CatRow], marks: &Marks) -> bool
    ensures { result ≡ list_any (said.row_writes_one marks.now) rows.now }
{
    rows.iter().any(|row| row_writes_one(row, marks))
}

/// Whether the row's commit removed a row of a table that one of the marks names.
fn row_writes_one(row: &CatRow, marks: &Marks) -> bool
    ensures { result ≡ said.row_writes_one marks.now row.now }
{
    !row.marks.is_empty() && name_table(marks, &row.table)
}

/// Whether one of the marks is of the table.
fn name_table(marks: &Marks, table: &Text) -> bool
    ensures { result ≡ list_any (λ mark. same_text table.now mark.table) marks.now }
{
    marks.as_slice().iter().any(|mark| *table == mark.table)
}
