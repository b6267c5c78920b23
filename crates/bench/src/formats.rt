//! A column file of one column, of numbers and then of texts of 16 bytes, written and read again.

ghost use Rattle.std.specs.Prelude.{◌≡◌, ◌∷◌, [], map, All, IfOk};
ghost use Rattle.column_file.specs.Spelling.{HasKind, FitsKinds};

use crate::rates::rate;
use crate::stops::Stop;
use column_file::{decode_file, encode};
use lake_values::{ColType, Column, Row, Rows, Schema, Text, Value};
use std::alloc::Global;
use std::rt::Clock;
use std::time::Instant;

pub fn measure(rt: &(impl Print + Eprint + Clock + AllocGlobal), rows: u32) -> Result<(), Stop> {
    measure_column(rt, "INT", ColType::Int, rows)?;
    measure_column(rt, "TEXT", ColType::Text, rows)
}

fn measure_column(
    rt: &(impl Print + Eprint + Clock + AllocGlobal),
    name: &str,
    kind: ColType,
    count: u32,
) -> Result<(), Stop> {
    let alloc = rt.alloc();
    let columns = vec![in alloc;
        Column {
            name: Text::new(alloc, "c")?,
            kind
        },
    ]?;
    let schema = Schema::new(columns, 0);
    let rows = Rows::from_rows(rows_of(alloc, kind, count)?);

    let start = Instant::now(rt)?;
    let bytes = encode(alloc, &schema, &rows)?;
    let written = start.elapsed(rt)?;
    let start = Instant::now(rt)?;
    let file = decode_file(alloc, &bytes)?;
    let read = start.elapsed(rt)?;

    let size = bytes.len();
    let same = file.rows.rows() == rows.rows();
    println!(rt; "{name}: {count} rows, {size} bytes, read again: {same}")?;
    let (writing, reading) = (rate(size, written), rate(size, read));
    eprintln!(rt; "{name}: {writing} MB/s written, {reading} MB/s read")?;
    Ok(())
}

fn rows_of(alloc: Global, kind: ColType, count: u32) -> Result<Vec<Row>, Stop>
    ensures { IfOk result (λ rows. All (FitsKinds (kind ∷ [])) rows.items) }
{
    let mut rows = Vec::with_capacity(alloc, count as usize)?;
    for number in 0..count {
        rows.push(row_of(alloc, kind, number)?)?;
    }
    Ok(rows)
}

fn row_of(alloc: Global, kind: ColType, number: u32) -> Result<Row, Stop>
    ensures { IfOk result (FitsKinds (kind ∷ [])) }
{
    let value = match kind {
        ColType::Int => Value::Int(i64::from(number)),
        ColType::Text => Value::Text(Text::new(alloc, "sixteen letters.")?),
    };
    let values = vec![in alloc; value]?;
    Ok(Row::from_values(values))
}
