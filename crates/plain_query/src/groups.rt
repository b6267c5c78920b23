ghost use Rattle.std.specs.Prelude.{◌≡◌, ◌<◌, ◌≤◌, true, false, [], ◌∷◌, ◌++◌, map, length, IfOk, OnOk, IsErrOf};
ghost use Rattle.std.specs.List.{list_all, position_or_len};
ghost use Rattle.std.specs.List.Sorted.{IsSortedByKey};
ghost use Rattle.lake_values.specs.Order.{row_cmp};
ghost use Rattle.sql_model.specs.Groups as spec;
ghost use Rattle.sql_model.specs.Listing.{SameBag};
ghost use Rattle.row_evaluation.specs.declared.rows.EvaluationFault.TheVariants as fault;
ghost use Rattle.plain_query.specs.Keys.{differ_in};

use lake_values::{Row, Value, compare_lent};
use row_evaluation::{Cells, EvaluationFault, aggregate, key_of, references, value_at};
use sql_model::BoundAgg;
use std::alloc::Global;
use std::cmp::Ordering;

/// The rows of the groups: each group's key, and behind it its aggregates. Without key columns all rows are one group,
/// also where there are none.
pub fn groups<C: Cells>(
    alloc: Global,
    keys: &[u32],
    aggs: &[BoundAgg],
    rows: &[C],
) -> Result<Vec<Row>, EvaluationFault>
    ensures made { IfOk result (λ made. SameBag made.items (spec.groups keys.now aggs.now (map C.cells rows.now))) }
    ensures fits { IfOk result (λ _. spec.groups_fit keys.now aggs.now (map C.cells rows.now) ≡ true) }
    ensures overflow { IsErrOf result fault.Overflow → spec.groups_fit keys.now aggs.now (map C.cells rows.now) ≡ false }
{
    if keys.is_empty() {
        return one_group(alloc, aggs, rows);
    }
    let mut sorted = references(alloc, rows)?;
    sorted.sort_unstable_by(|a, b| compare_keys(keys, *a, *b));
    groups_of_sorted(alloc, keys, aggs, sorted.as_slice())
}

fn one_group<C: Cells>(
    alloc: Global,
    aggs: &[BoundAgg],
    rows: &[C],
) -> Result<Vec<Row>, EvaluationFault>
    ensures made { IfOk result (λ made. made.items ≡ spec.groups [] aggs.now (map C.cells rows.now)) }
    ensures fits { IfOk result (λ _. spec.groups_fit [] aggs.now (map C.cells rows.now) ≡ true) }
    ensures overflow { IsErrOf result fault.Overflow → spec.groups_fit [] aggs.now (map C.cells rows.now) ≡ false }
{
    let mut made = Vec::with_capacity(alloc, 1)?;
    let key = Vec::with_capacity(alloc, aggs.len())?;
    made.push(group_row(alloc, key, aggs, rows)?)?;
    Ok(made)
}

/// The order of two rows by the columns of a key.
fn compare_keys<C: Cells>(columns: &[u32], a: &C, b: &C) -> Ordering
    ensures { result ≡ row_cmp (spec.key_of columns.now (C.cells a.now)) (spec.key_of columns.now (C.cells b.now)) }
{
    for column in columns {
        let order = compare_lent(value_at(a, *column), value_at(b, *column));
        if order.is_ne() {
            return order;
        }
    }
    Ordering::Equal
}

/// The rows of the groups of rows that stand in the order of their keys: each run of equal keys is a group.
fn groups_of_sorted<C: Cells>(
    alloc: Global,
    keys: &[u32],
    aggs: &[BoundAgg],
    rows: &[C],
) -> Result<Vec<Row>, EvaluationFault>
    requires some { 0 < length keys.now }
    requires sorted { IsSortedByKey (λ row. spec.key_of keys.now (C.cells row)) row_cmp rows.now }
    ensures made { IfOk result (λ made. made.items ≡ spec.groups keys.now aggs.now (map C.cells rows.now)) }
    ensures fits { IfOk result (λ _. spec.groups_fit keys.now aggs.now (map C.cells rows.now) ≡ true) }
    ensures overflow { IsErrOf result fault.Overflow → spec.groups_fit keys.now aggs.now (map C.cells rows.now) ≡ false }
{
    let mut made = Vec::new(alloc);
    let mut rest = rows;
    while let Some(first) = rest.first() {
        let (group, behind) = rest.split_at(run_length(keys, first, rest));
        let key = key_of(alloc, keys, first)?;
        made.push(group_row(alloc, key, aggs, group)?)?;
        rest = behind;
    }
    Ok(made)
}

/// How many rows stand before the first whose key isn't that of the given row.
fn run_length<C: Cells>(keys: &[u32], first: &C, rows: &[C]) -> usize
    ensures within { result ≤ length rows.now }
    ensures value { result ≡ position_or_len (differ_in keys.now (C.cells first.now)) (map C.cells rows.now) }
{
    for (place, row) in rows.iter().enumerate() {
        if compare_keys(keys, first, row).is_ne() {
            return place;
        }
    }
    rows.len()
}

/// The row of a group: its key, and behind it its aggregates.
fn group_row<C: Cells>(
    alloc: Global,
    key: Vec<Value>,
    aggs: &[BoundAgg],
    rows: &[C],
) -> Result<Row, EvaluationFault>
    ensures value { IfOk result (λ row. row ≡ spec.group_row aggs.now key.items (map C.cells rows.now)) }
    ensures fits { IfOk result (λ _. list_all (spec.aggregate_fits (map C.cells rows.now)) aggs.now ≡ true) }
    ensures overflow { IsErrOf result fault.Overflow → list_all (spec.aggregate_fits (map C.cells rows.now)) aggs.now ≡ false }
{
    let mut values = key;
    for agg in aggs {
        values.push(aggregate(alloc, agg, rows)?)?;
    }
    Ok(Row::from_values(values))
}
