//! The rows of each group.

ghost use Rattle.std.specs.Prelude.{◌≡◌, ◌≤◌, ◌<◌, [], ◌∷◌, map, length, vec_len, IfOk, OnOk};
ghost use Rattle.std.specs.List.{flat_map, AllByRecursion};
ghost use Rattle.lake_values.specs.Spelling.{value_spelling, IsValue};
ghost use Rattle.sql_model.specs.Groups as spec;
ghost use Rattle.op_aggregate.specs.Grouping as grouping;

use crate::spelling::put_spelling;
use indexmap::IndexSet;
use lake_values::{NoMemory, Value};
use row_evaluation::{Cells, key_of, references, value_at};
use std::alloc::Global;

/// The rows of each group, in their order; the groups stand in the order of their first rows. Without key columns all
/// rows are one group, also where there are none.
pub fn grouped<'a, C: Cells>(
    alloc: Global,
    columns: &[u32],
    rows: &'a [C],
) -> Result<Vec<Vec<&'a C>>, NoMemory>
    ensures { IfOk result (λ made. map (λ group. map (λ row. C.cells row.now) group.items) made.items ≡ map (λ k. spec.members columns.now k (map C.cells rows.now)) (spec.group_keys columns.now (map C.cells rows.now))) }
{
    if columns.is_empty() {
        return one_group(alloc, rows);
    }
    grouped_by_key(alloc, columns, rows)
}

fn one_group<C: Cells>(alloc: Global, rows: &[C]) -> Result<Vec<Vec<&C>>, NoMemory>
    ensures { IfOk result (λ made. map (λ group. map (λ row. C.cells row.now) group.items) made.items ≡ map C.cells rows.now ∷ []) }
{
    let mut made = Vec::with_capacity(alloc, 1)?;
    made.push(references(alloc, rows)?)?;
    Ok(made)
}

/// Each row goes to the group that its key's spelling has: spellings are numbered as they are first seen.
fn grouped_by_key<'a, C: Cells>(
    alloc: Global,
    columns: &[u32],
    rows: &'a [C],
) -> Result<Vec<Vec<&'a C>>, NoMemory>
    ensures { IfOk result (λ made. map (λ group. map (λ row. C.cells row.now) group.items) made.items ≡ map (λ k. spec.members columns.now k (map C.cells rows.now)) (spec.distinct (map (spec.key_of columns.now) (map C.cells rows.now)))) }
{
    let mut spellings = IndexSet::new(alloc);
    let mut groups = Vec::new(alloc);
    for row in rows {
        let (place, _) = spellings.insert_full(key_spelling(alloc, columns, row)?)?;
        put_member(alloc, &mut groups, place, row)?;
    }
    Ok(groups)
}

/// Puts a row into the group at a place, or into a new group behind the last one.
fn put_member<'a, C: Cells>(
    alloc: Global,
    groups: &mut Vec<Vec<&'a C>>,
    place: usize,
    row: &'a C,
) -> Result<(), NoMemory>
    requires { place ≤ vec_len groups.old }
    ensures { OnOk result (map (λ group. map (λ row. C.cells row.now) group.items) groups.new.items ≡ grouping.with_member (map (λ group. map (λ row. C.cells row.now) group.items) groups.old.items) place (C.cells row.now)) }
{
    if place == groups.len() {
        groups.push(vec![in alloc; row]?)?;
        return Ok(());
    }
    let group = &mut groups[place];
    group.push(row)?;
    Ok(())
}

/// The spellings of the values of a row's key, one behind the other. No two keys of the same columns have the same.
fn key_spelling<C: Cells>(alloc: Global, columns: &[u32], row: &C) -> Result<Vec<u8>, NoMemory>
    ensures bytes { IfOk result (λ bytes. bytes.items ≡ flat_map value_spelling (spec.key_of columns.now (C.cells row.now))) }
    ensures values { IfOk result (λ _. AllByRecursion IsValue (spec.key_of columns.now (C.cells row.now))) }
{
    let mut spelling = Vec::new(alloc);
    for column in columns {
        put_spelling(value_at(row, *column), &mut spelling)?;
    }
    Ok(spelling)
}

/// The key that the rows of a group have; empty where there are none.
pub fn first_key<C: Cells>(
    alloc: Global,
    columns: &[u32],
    group: &[C],
) -> Result<Vec<Value>, NoMemory>
    ensures { IfOk result (λ key. key.items ≡ grouping.first_key columns.now (map C.cells group.now)) }
{
    match group {
        [first, ..] => key_of(alloc, columns, first),
        [] => Ok(Vec::new(alloc)),
    }
}
