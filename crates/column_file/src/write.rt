ghost use Rattle.std.specs.Prelude.{◌≡◌, ◌<◌, ◌≤◌, ◌++◌, ◌∷◌, ℕ, length, map, All, slice_index_or, OnOk, IfOk};
ghost use Rattle.std.specs.List.{flat_map};
ghost use Rattle.lake_values.specs.declared.values.Value.TheVariants.{Null as NullValue};
ghost use Rattle.lake_values.specs.Order.{number_of as number_in, bytes_of};
ghost use Rattle.lake_values.specs.Spelling.{u64_spelling, NoneBegins};
ghost use Rattle.column_file.specs.Spelling.{column, columns_from, is_null, flag_byte, kind_byte as byte_of_kind, flags_spelling, number_spelling, ends_from, values_spelling, column_spelling, file_spelling, kinds_of, spelling_of, FitsKinds, IsFile};

use lake_values::{ColType, Column, NoMemory, Row, Rows, Schema, Value, write_u32, write_u64};
use std::alloc::Global;

/// The one spelling of the rows as a file with the columns of the schema. Each row has a value for each column,
/// NULL or of its kind.
pub fn encode(alloc: Global, schema: &Schema, rows: &Rows) -> Result<Vec<u8>, NoMemory>
    requires { All (FitsKinds (kinds_of schema.now)) rows.now }
    ensures { IfOk result (λ bytes. bytes.items ≡ spelling_of schema.now rows.now) }
{
    encode_rows(alloc, schema, rows.rows())
}

/// The same of rows that are lent.
pub fn encode_rows(alloc: Global, schema: &Schema, rows: &[Row]) -> Result<Vec<u8>, NoMemory>
    requires { All (FitsKinds (kinds_of schema.now)) rows.now }
    ensures { IfOk result (λ bytes. bytes.items ≡ spelling_of schema.now rows.now) }
{
    let columns = schema.columns();
    let mut out = Vec::with_capacity(alloc, size_of_file(columns, rows))?;
    out.extend_from_slice(b"LCF1")?;
    write_u32(columns.len() as u32, &mut out)?;
    write_u64(rows.len() as u64, &mut out)?;
    put_columns(columns, rows, &mut out)?;
    Ok(out)
}

fn put_columns(columns: &[Column], rows: &[Row], out: &mut Vec<u8>) -> Result<(), NoMemory>
    requires { All (λ row. length row ≡ length columns.now) rows.now }
    ensures { OnOk result (out.new.items ≡ out.old.items ++ flat_map column_spelling (columns_from 0 (map (λ c. c.kind) columns.now) rows.now)) }
{
    for (i, column) in columns.iter().enumerate() {
        put_column(column.kind, i, rows, out)?;
    }
    Ok(())
}

fn put_column(kind: ColType, i: usize, rows: &[Row], out: &mut Vec<u8>) -> Result<(), NoMemory>
    requires { All (λ row. i < length row) rows.now }
    ensures { OnOk result (out.new.items ≡ out.old.items ++ column_spelling (kind, column i rows.now)) }
{
    out.push(kind_byte(kind))?;
    put_flags(i, rows, out)?;
    put_values(kind, i, rows, out)?;
    Ok(())
}

fn kind_byte(kind: ColType) -> u8
    ensures { result ≡ byte_of_kind kind }
{
    match kind {
        ColType::Int => 1,
        ColType::Text => 2,
    }
}

fn put_flags(i: usize, rows: &[Row], out: &mut Vec<u8>) -> Result<(), NoMemory>
    requires { All (λ row. i < length row) rows.now }
    ensures { OnOk result (out.new.items ≡ out.old.items ++ flags_spelling (map is_null (column i rows.now))) }
{
    for row in rows {
        out.push(flag_of(value_of(row, i)))?;
    }
    Ok(())
}

fn flag_of(value: &Value) -> u8
    ensures { result ≡ flag_byte (is_null value.now) }
{
    match value {
        Value::Null => 1,
        Value::Int(_) | Value::Text(_) => 0,
    }
}

fn put_values(kind: ColType, i: usize, rows: &[Row], out: &mut Vec<u8>) -> Result<(), NoMemory>
    requires { All (λ row. i < length row) rows.now }
    ensures { OnOk result (out.new.items ≡ out.old.items ++ values_spelling kind (column i rows.now)) }
{
    match kind {
        ColType::Int => put_numbers(i, rows, out),
        ColType::Text => {
            put_ends(i, rows, out)?;
            put_texts(i, rows, out)?;
            Ok(())
        }
    }
}

fn put_numbers(i: usize, rows: &[Row], out: &mut Vec<u8>) -> Result<(), NoMemory>
    requires { All (λ row. i < length row) rows.now }
    ensures { OnOk result (out.new.items ≡ out.old.items ++ flat_map number_spelling (column i rows.now)) }
{
    for row in rows {
        write_u64(number_of(value_of(row, i)).cast_unsigned(), out)?;
    }
    Ok(())
}

fn number_of(value: &Value) -> i64
    ensures { result ≡ number_in value.now }
{
    match value {
        Value::Int(number) => *number,
        Value::Null | Value::Text(_) => 0,
    }
}

fn put_ends(i: usize, rows: &[Row], out: &mut Vec<u8>) -> Result<(), NoMemory>
    requires { All (λ row. i < length row) rows.now }
    ensures { OnOk result (out.new.items ≡ out.old.items ++ flat_map u64_spelling (ends_from 0 (column i rows.now))) }
{
    let mut end = 0u64;
    for row in rows {
        let size = text_of(value_of(row, i)).len() as u64;
        let Some(next) = end.checked_add(size) else {
            return Err(NoMemory);
        };
        end = next;
        write_u64(end, out)?;
    }
    Ok(())
}

fn put_texts(i: usize, rows: &[Row], out: &mut Vec<u8>) -> Result<(), NoMemory>
    requires { All (λ row. i < length row) rows.now }
    ensures { OnOk result (out.new.items ≡ out.old.items ++ flat_map bytes_of (column i rows.now)) }
{
    for row in rows {
        out.extend_from_slice(text_of(value_of(row, i)))?;
    }
    Ok(())
}

// The bytes of a text, and none of another value.
fn text_of(value: &Value) -> &[u8]
    ensures { result.now ≡ bytes_of value.now }
{
    match value {
        Value::Text(text) => text.as_str().as_bytes(),
        Value::Null | Value::Int(_) => &[],
    }
}

fn value_of(row: &Row, i: usize) -> &Value
    requires { i < length row.now }
    ensures { result.now ≡ slice_index_or row.now i NullValue }
{
    &row.values()[i]
}

// How many bytes to reserve: the length of the spelling, or the type's end.
fn size_of_file(columns: &[Column], rows: &[Row]) -> usize {
    let fixed = rows.len().saturating_mul(9).saturating_add(1);
    let mut size = columns.len().saturating_mul(fixed).saturating_add(16);
    for row in rows {
        size = size.saturating_add(size_of_texts(row));
    }
    size
}

fn size_of_texts(row: &Row) -> usize {
    let mut size = 0usize;
    for value in row.values() {
        size = size.saturating_add(text_of(value).len());
    }
    size
}

/// No spelling of a file begins another.
pub fn one_file_spelling()
    ensures { NoneBegins IsFile file_spelling }
{}
