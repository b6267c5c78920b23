ghost use Rattle.std.specs.Prelude.{◌≡◌, map, IfOk};
ghost use Rattle.sql_model.specs.Groups as spec;

use crate::cells::{Cells, value_at};
use crate::rows::push_value;
use lake_values::{NoMemory, Value};
use std::alloc::Global;

/// The values of a row in the columns of a key.
pub fn key_of<C: Cells>(alloc: Global, columns: &[u32], cells: &C) -> Result<Vec<Value>, NoMemory>
    ensures { IfOk result (λ key. key.items ≡ spec.key_of columns.now (C.cells cells.now)) }
{
    let mut key = Vec::with_capacity(alloc, columns.len())?;
    for column in columns {
        push_value(alloc, &mut key, value_at(cells, *column))?;
    }
    Ok(key)
}

/// The rows by reference, in their order.
pub fn references<C: Cells>(alloc: Global, rows: &[C]) -> Result<Vec<&C>, NoMemory>
    ensures { IfOk result (λ references. map (λ row. C.cells row.now) references.items ≡ map C.cells rows.now) }
{
    let mut references = Vec::with_capacity(alloc, rows.len())?;
    for row in rows {
        references.push(row)?;
    }
    Ok(references)
}
