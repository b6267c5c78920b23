//! Rows of the versions of a table, with what their marks say.

ghost use Rattle.std.specs.Prelude.{◌≡◌, ◌≤◌, ℕ, List, IfOk, OnOk, true};
ghost use Rattle.std.specs.List.{list_any};
ghost use Rattle.lake_values.specs.Texts.{same_text};
ghost use Rattle.table_history.specs.Histories.{has_spare_rows, rows_for};
ghost use Rattle.table_history.specs.Strikes.{IsAscending};

use lake_values::{ColType, Column, Listed, Row, Rows, Schema, Text, Value, ValueRef};
use row_evaluation::value_at;
use sql_model::{Added, Mark, MarkedRow, Marks};
use std::alloc::Global;
use std::test::Fail;
use table_history::{History, cell_in};

/// Commit, part, cell and value of a row.
type Seen = (u64, u32, u32, i64);

/// A column of numbers.
fn column(alloc: Global, name: &str) -> Result<Column, Fail>
    ensures { IfOk result (λ column. column.name ≡ name.now) }
{
    let name = Text::new(alloc, name)?;
    let kind = ColType::Int;
    Ok(Column { name, kind })
}

fn create(history: &mut History, alloc: Global, table: &str) -> Result<(), Fail>
    ensures { OnOk result (history.new.first ≡ history.old.first) }
{
    let name = Text::new(alloc, table)?;
    if history.has_table(&name) || history.last() > 99 {
        return Err(Fail::new("the table is there"));
    }
    let schema = Schema::new(vec![in alloc; column(alloc, "a")?]?, 0);
    Ok(history.create(name, schema, alloc, 0)?)
}

/// A history whose version 1 has the empty table t.
fn with_t(alloc: Global) -> Result<History, Fail>
    ensures { IfOk result (λ history. history.first ≡ 0) }
{
    let mut history = History::new(alloc);
    create(&mut history, alloc, "t")?;
    Ok(history)
}

/// The rows that a part of a commit adds.
fn part_of(alloc: Global, table: &Text, part: u32, values: &[i64]) -> Result<Added, Fail>
    ensures { IfOk result (λ added. added.table ≡ table.now) }
{
    let table = table.copy()?;
    let mut rows = Vec::new(alloc);
    for value in values {
        let value = Value::Int(*value);
        rows.push(Row::from_values(vec![in alloc; value]?))?;
    }
    let rows = Rows::from_rows(rows);
    Ok(Added { table, part, rows })
}

/// What two parts of a commit add to t, for which room is made.
fn two_parts(
    history: &mut History,
    alloc: Global,
    first: &[i64],
    second: &[i64],
) -> Result<Vec<Added>, Fail>
    ensures first { OnOk result (history.new.first ≡ history.old.first) }
    ensures room { IfOk result (λ added. (name : List ℕ) → has_spare_rows history.new.spares name (rows_for name added.items) ≡ true) }
{
    let table = Text::new(alloc, "t")?;
    let one = part_of(alloc, &table, 1, first)?;
    let other = part_of(alloc, &table, 2, second)?;
    history.reserve(&table, one.rows.rows().len() + other.rows.rows().len())?;
    Ok(vec![in alloc; one, other]?)
}

/// A commit that adds rows to t in two parts.
fn insert(history: &mut History, alloc: Global, first: &[i64], second: &[i64]) -> Result<(), Fail>
    ensures { OnOk result (history.new.first ≡ history.old.first) }
{
    let added = two_parts(history, alloc, first, second)?;
    if history.last() > 99 {
        return Err(Fail::new("too many versions"));
    }
    history.commit(&Listed::empty(alloc), &[], &mut Vec::new(alloc), added);
    Ok(())
}

/// Marks that name a table.
#[tactic(auto, using(lake_values::proofs::SameTexts::same_text_self))]
fn marks_of(alloc: Global, table: &Text) -> Result<Marks, Fail>
    ensures { IfOk result (λ marks. list_any (λ mark. same_text mark.table table.now) marks ≡ true) }
{
    let mark = Mark {
        table: table.copy()?,
        seq: 0,
        part: 0,
        cell: 0,
    };
    Ok(Listed::from_list(vec![in alloc; mark]?))
}

/// A commit that replaces a row of t.
fn replace(
    history: &mut History,
    alloc: Global,
    removed: MarkedRow,
    values: &[i64],
) -> Result<(), Fail>
    ensures { OnOk result (history.new.first ≡ history.old.first) }
{
    let added = two_parts(history, alloc, values, &[])?;
    let marks = marks_of(alloc, &removed.mark.table)?;
    if history.last() > 99 {
        return Err(Fail::new("too many versions"));
    }
    let mut used = vec![in alloc; 0]?;
    history.commit(&marks, &[removed], &mut used, added);
    Ok(())
}

/// The rows of t in a version, but for the removed ones.
fn rows_of(
    history: &History,
    alloc: Global,
    version: u64,
    removed: &[MarkedRow],
) -> Result<Vec<Seen>, Fail>
    requires kept { history.now.first ≤ version }
    requires ascending { IsAscending removed.now }
{
    if history.last() < version {
        return Err(Fail::new("no such version"));
    }
    let mut seen = Vec::new(alloc);
    for row in history.rows(alloc, version, &Text::new(alloc, "t")?, removed)? {
        match value_at(&row, 0) {
            ValueRef::Int(number) => seen.push((row.seq, row.part, row.cell, number))?,
            _ => return Err(Fail::new("no number")),
        }
    }
    Ok(seen)
}

/// A row of t in the last version.
fn row_at(history: &History, alloc: Global, place: usize) -> Result<MarkedRow, Fail> {
    let table = Text::new(alloc, "t")?;
    let rows = history.rows(alloc, history.last(), &table, &[])?;
    match rows.get(place) {
        Some(row) => Ok(row.marked(alloc, &table)?),
        None => Err(Fail::new("too few rows")),
    }
}

#[test]
fn a_version_keeps_what_later_commits_remove(rt: HostRuntime) -> Result<(), Fail> {
    let alloc = rt.alloc();
    let mut history = with_t(alloc)?;
    insert(&mut history, alloc, &[1, 0], &[2])?;
    let removed = row_at(&history, alloc, 1)?;
    replace(&mut history, alloc, removed, &[16])?;
    create(&mut history, alloc, "u")?;
    let last = [(2, 1, 15, 1), (2, 2, 2, 2), (3, 1, 12, 16)];
    let expected: [(u64, &[Seen]); 5] = [
        (0, &[]),
        (1, &[]),
        (2, &[(2, 1, 15, 1), (2, 1, 12, 0), (2, 2, 2, 2)]),
        (3, &last),
        (4, &last),
    ];
    for (version, rows) in expected {
        let seen = rows_of(&history, alloc, version, &[])?;
        assert_eq!(rt; seen.as_slice(), rows, "version {version}");
    }
    history.forget(&marks_of(alloc, &Text::new(alloc, "t")?)?);
    let seen = rows_of(&history, alloc, history.last(), &[])?;
    assert_eq!(rt; seen.as_slice(), last.as_slice());
    Ok(())
}

/// Equal rows of one part have one mark.
#[test]
fn one_removal_takes_one_of_equal_rows(rt: HostRuntime) -> Result<(), Fail> {
    let alloc = rt.alloc();
    let mut history = with_t(alloc)?;
    insert(&mut history, alloc, &[1, 1, 1], &[1])?;
    let left = [(2, 1, 15, 1), (2, 1, 15, 1), (2, 2, 15, 1)];
    let removed = row_at(&history, alloc, 1)?;
    let seen = rows_of(&history, alloc, 2, &[removed])?;
    assert_eq!(rt; seen.as_slice(), left.as_slice());
    let removed = row_at(&history, alloc, 0)?;
    replace(&mut history, alloc, removed, &[])?;
    let seen = rows_of(&history, alloc, 3, &[])?;
    assert_eq!(rt; seen.as_slice(), left.as_slice());
    Ok(())
}

#[test]
fn the_distribution_column_tells_the_cell(rt: HostRuntime) -> Result<(), Fail> {
    let alloc = rt.alloc();
    let columns = vec![in alloc; column(alloc, "a")?, column(alloc, "b")?]?;
    let schema = Schema::new(columns, 1);
    let row = Row::from_values(vec![in alloc; Value::Int(3), Value::Int(2)]?);
    assert_eq!(rt; cell_in(&schema, &row), 2);
    let short = Row::from_values(vec![in alloc; Value::Int(3)]?);
    assert_eq!(rt; cell_in(&schema, &short), 15);
    Ok(())
}
