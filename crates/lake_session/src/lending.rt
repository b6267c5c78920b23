//! The rows that a session sees, as a query takes them.

ghost use Rattle.std.specs.Prelude.{◌≡◌, map, IfOk};
ghost use Rattle.sql_model.specs.Versions.{rows_of};
ghost use Rattle.plain_query.specs.Databases.{rows_lent};
ghost use Rattle.lake_session.specs.Lending.{tables_seen};

use lake_core::Lent;
use lake_values::{NoMemory, Text};
use std::alloc::Global;
use table_history::ViewRow;

/// The rows of the tables that have these names.
pub fn tables_lent<'a>(
    alloc: Global,
    names: &[Text],
    lent: &Lent<'a>,
) -> Result<Vec<Vec<ViewRow<'a>>>, NoMemory>
    ensures { IfOk result (λ tables. tables_seen tables.items ≡ map (rows_of lent.now) names.now) }
{
    let mut tables = Vec::with_capacity(alloc, names.len())?;
    for name in names {
        tables.push(lent.rows(alloc, name)?)?;
    }
    Ok(tables)
}

/// The same rows, as slices.
pub fn slices_of<'a, 'b>(
    alloc: Global,
    tables: &'b [Vec<ViewRow<'a>>],
) -> Result<Vec<&'b [ViewRow<'a>]>, NoMemory>
    ensures { IfOk result (λ slices. rows_lent (λ r. r.row.now) slices.items ≡ tables_seen tables.now) }
{
    let mut slices = Vec::with_capacity(alloc, tables.len())?;
    for rows in tables {
        slices.push(rows.as_slice())?;
    }
    Ok(slices)
}
