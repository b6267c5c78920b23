//! The first conflict of what commits wrote.

ghost use Rattle.std.specs.Prelude.{◌≡◌, IfOk};

use lake_outside::DeadPort;
use lake_values::{Listed, Text};
use sql_model::{Mark, Marks};
use std::alloc::Global;
use std::test::Fail;
use write_set_catalog::{CatCommit, CatRow, Catalog};

/// Marks of rows of a table that these commits added.
fn marks(alloc: Global, table: &str, commits: &[u64]) -> Result<Marks, Fail> {
    let mut marks = Vec::new(alloc);
    for seq in commits {
        marks.push(Mark {
            table: Text::new(alloc, table)?,
            seq: *seq,
            part: 1,
            cell: 0,
        })?;
    }
    Ok(Listed::from_list(marks))
}

/// A commit that removed, of each of these tables, rows that these commits had added.
fn commit(alloc: Global, seq: u64, tables: &[(&str, &[u64])]) -> Result<CatCommit<DeadPort>, Fail>
    ensures { IfOk result (λ commit. commit.seq ≡ seq) }
{
    let mut rows = Vec::new(alloc);
    for (table, removed) in tables {
        rows.push(CatRow {
            table: Text::new(alloc, table)?,
            names: Listed::empty(alloc),
            added: Listed::empty(alloc),
            dropped: Listed::empty(alloc),
            marks: marks(alloc, table, removed)?,
        })?;
    }
    Ok(CatCommit {
        seq,
        manifest: None,
        blocks: Listed::empty(alloc),
        rows: Listed::from_list(rows),
    })
}

/// Commit 1 adds rows to t, 2 removes some of u, 3 some of t, and 4 some of both; 5 adds rows to v.
fn catalog(alloc: Global) -> Result<Catalog<DeadPort>, Fail> {
    let mut catalog = Catalog::empty(alloc);
    catalog.reserve(5)?;
    catalog.append(commit(alloc, 1, &[("t", &[])])?);
    catalog.append(commit(alloc, 2, &[("u", &[1])])?);
    catalog.append(commit(alloc, 3, &[("t", &[1])])?);
    catalog.append(commit(alloc, 4, &[("t", &[1, 1]), ("u", &[1])])?);
    catalog.append(commit(alloc, 5, &[("v", &[])])?);
    Ok(catalog)
}

#[test]
fn the_first_commit_after_the_snapshot_conflicts(rt: HostRuntime) -> Result<(), Fail> {
    let alloc = rt.alloc();
    let catalog = catalog(alloc)?;
    for (table, removed, firsts) in [
        (
            "t",
            [1].as_slice(),
            [Some(3), Some(3), Some(3), Some(4), None, None],
        ),
        ("u", &[1], [Some(2), Some(2), Some(4), Some(4), None, None]),
        // what only adds rows, or removes some that nobody else removed
        ("t", &[], [None; 6]),
        ("v", &[1], [None; 6]),
        ("w", &[1], [None; 6]),
    ] {
        let marks = marks(alloc, table, removed)?;
        for (snapshot, first) in firsts.iter().enumerate() {
            let found = catalog.first_conflict(snapshot as u64, &marks);
            assert_eq!(rt; found, *first, "{table} after {snapshot}");
        }
    }
    Ok(())
}
