//! Rows out of columns.

ghost use Rattle.std.specs.Prelude.{◌≡◌, ◌<◌, ◌≤◌, ℕ, List, length, map, All, slice_index_or, IfOk};
ghost use Rattle.lake_values.specs.declared.values.Value.TheVariants.{Null as NullValue};
ghost use Rattle.lake_values.specs.Order.{bytes_of};
ghost use Rattle.column_file.specs.Lent.{owned, lent_column, IsTable, HasPlace, value_at};
ghost use Rattle.column_file.specs.Reading.{rows_of};

use crate::columns::LentColumn;
use lake_values::{ColType, NoMemory, Row, Value, ValueRef, short_text};
use std::alloc::Global;

pub fn kinds_of(alloc: Global, columns: &[LentColumn<'_>]) -> Result<Vec<ColType>, NoMemory>
    ensures { IfOk result (λ kinds. kinds.items ≡ map (λ c. c.kind) columns.now) }
{
    let mut kinds = Vec::with_capacity(alloc, columns.len())?;
    for column in columns {
        kinds.push(column.kind)?;
    }
    Ok(kinds)
}

pub fn rows_from(
    alloc: Global,
    count: usize,
    columns: &[LentColumn<'_>],
) -> Result<Vec<Row>, NoMemory>
    requires { All (IsTable count) columns.now }
    ensures { IfOk result (λ rows. rows.items ≡ rows_of count (map lent_column columns.now)) }
{
    let mut rows = Vec::with_capacity(alloc, count)?;
    for place in 0..count {
        rows.push(row_from(alloc, place, columns)?)?;
    }
    Ok(rows)
}

fn row_from(alloc: Global, place: usize, columns: &[LentColumn<'_>]) -> Result<Row, NoMemory>
    requires { All (HasPlace place) columns.now }
    ensures { IfOk result (λ row. row ≡ map (value_at place) columns.now) }
{
    let mut values = Vec::with_capacity(alloc, columns.len())?;
    for column in columns {
        values.push(own(alloc, value_of(column, place))?)?;
    }
    Ok(Row::from_values(values))
}

fn value_of<'a>(column: &LentColumn<'a>, place: usize) -> ValueRef<'a>
    requires { place < length column.now.values.items }
    ensures { owned result ≡ value_at place column.now }
{
    column.values[place]
}

fn own(alloc: Global, value: ValueRef<'_>) -> Result<Value, NoMemory>
    requires { length (bytes_of (owned value)) ≤ 4096 }
    ensures { IfOk result (λ copy. copy ≡ owned value.entry) }
{
    match value {
        ValueRef::Null => Ok(Value::Null),
        ValueRef::Int(number) => Ok(Value::Int(number)),
        ValueRef::Text(text) => Ok(Value::Text(short_text(alloc, text)?)),
    }
}
