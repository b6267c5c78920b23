ghost use Rattle.std.specs.Prelude.{◌≡◌, true, false, map, filter, IfOk, IsErrOf};
ghost use Rattle.std.specs.List.{list_all};
ghost use Rattle.lake_values.specs.Rows as row_spec;
ghost use Rattle.sql_model.specs.Evaluation as spec;
ghost use Rattle.sql_model.specs.Listing.{SameBag};
ghost use Rattle.sql_model.specs.Query.{shown, shown_fits, answer, answer_fits};
ghost use Rattle.row_evaluation.specs.declared.rows.EvaluationFault.TheVariants as fault;
ghost use Rattle.plain_query.specs.declared.queries.QueryFault.TheVariants as query_fault;
ghost use Rattle.plain_query.specs.Lists.{all_lent};

use crate::groups::groups;
use crate::orders::ordered_rows;
use crate::queries::QueryFault;
use lake_values::{NoMemory, Row, Rows};
use row_evaluation::{Cells, EvaluationFault, evaluated, meets, push_value, value_at};
use sql_model::{BoundExpr, Query};
use std::alloc::Global;

/// The rows on which all conditions are true. Each condition is evaluated on each row.
fn keep<'a, C: Cells>(
    alloc: Global,
    conditions: &[BoundExpr],
    rows: &'a [C],
) -> Result<Vec<&'a C>, EvaluationFault>
    ensures kept { IfOk result (λ kept. all_lent C.cells kept.items ≡ filter (spec.meets conditions.now) (map C.cells rows.now)) }
    ensures fits { IfOk result (λ _. list_all (spec.all_fit conditions.now) (map C.cells rows.now) ≡ true) }
    ensures overflow { IsErrOf result fault.Overflow → list_all (spec.all_fit conditions.now) (map C.cells rows.now) ≡ false }
{
    let mut kept = Vec::new(alloc);
    for row in rows {
        if meets(conditions, row)? {
            kept.push(row)?;
        }
    }
    Ok(kept)
}

/// The rows of what the items are on each row.
fn project<C: Cells>(
    alloc: Global,
    items: &[BoundExpr],
    rows: &[C],
) -> Result<Vec<Row>, EvaluationFault>
    ensures made { IfOk result (λ made. made.items ≡ map (spec.evaluated items.now) (map C.cells rows.now)) }
    ensures fits { IfOk result (λ _. list_all (spec.all_fit items.now) (map C.cells rows.now) ≡ true) }
    ensures overflow { IsErrOf result fault.Overflow → list_all (spec.all_fit items.now) (map C.cells rows.now) ≡ false }
{
    let mut made = Vec::with_capacity(alloc, rows.len())?;
    for row in rows {
        made.push(evaluated(alloc, items, row)?)?;
    }
    Ok(made)
}

/// The rows of the groups, or those of the items. A grouped query has no items of its own.
fn show<C: Cells>(alloc: Global, query: &Query, rows: &[C]) -> Result<Vec<Row>, EvaluationFault>
    ensures made { IfOk result (λ made. SameBag made.items (shown query.now (map C.cells rows.now))) }
    ensures fits { IfOk result (λ _. shown_fits query.now (map C.cells rows.now) ≡ true) }
    ensures overflow { IsErrOf result fault.Overflow → shown_fits query.now (map C.cells rows.now) ≡ false }
{
    if query.items.is_empty() {
        groups(alloc, query.keys.as_slice(), query.aggs.as_slice(), rows)
    } else {
        project(alloc, query.items.as_slice(), rows)
    }
}

/// The columns of a row that stand at these places.
fn columns_of(alloc: Global, places: &[u32], row: &Row) -> Result<Row, NoMemory>
    ensures { IfOk result (λ made. made ≡ map (row_spec.value_at row.now) places.now) }
{
    let mut values = Vec::with_capacity(alloc, places.len())?;
    for place in places {
        push_value(alloc, &mut values, value_at(row, *place))?;
    }
    Ok(Row::from_values(values))
}

/// The columns of the answer, for each row that is shown.
fn outputs(alloc: Global, places: &[u32], rows: &[Row]) -> Result<Vec<Row>, NoMemory>
    ensures { IfOk result (λ made. made.items ≡ map (λ row. map (row_spec.value_at row) places.now) rows.now) }
{
    let mut made = Vec::with_capacity(alloc, rows.len())?;
    for row in rows {
        made.push(columns_of(alloc, places, row)?)?;
    }
    Ok(made)
}

/// The answer over the rows of the last stage.
pub fn answer<C: Cells>(alloc: Global, query: &Query, rows: &[C]) -> Result<Rows, QueryFault>
    ensures rows { IfOk result (λ answered. answered ≡ answer query.now (map C.cells rows.now)) }
    ensures fits { IfOk result (λ _. answer_fits query.now (map C.cells rows.now) ≡ true) }
    ensures few { IsErrOf result query_fault.TooManyRows → ⊥ }
    ensures arithmetic { IsErrOf result query_fault.Arith → answer_fits query.now (map C.cells rows.now) ≡ false }
{
    let kept = keep(alloc, query.computed.as_slice(), rows)?;
    let shown = show(alloc, query, kept.as_slice())?;
    let made = outputs(alloc, query.outputs.as_slice(), shown.as_slice())?;
    Ok(ordered_rows(made, query.order.as_slice(), query.limit)?)
}
