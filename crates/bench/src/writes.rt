//! A file of one column of numbers, encoded, and staged by a port of a shelf.

ghost use Rattle.std.specs.Prelude.{◌≡◌, ◌<◌, ◌∷◌, [], All, IfOk};
ghost use Rattle.lake_values.specs.declared.schemas.ColType.{ColType as Kinds};
ghost use Rattle.column_file.specs.Spelling.{FitsKinds, kinds_of};

use crate::stops::Stop;
use column_file::encode_rows;
use lake_outside::Port;
use lake_shelf::Shelf;
use lake_values::{ColType, Column, Row, Schema, Text, Value};
use op_write::{WriteKey, seal, stage_file};
use row_packet::Packet;
use std::alloc::Global;
use std::rt::Clock;
use std::sync::Wait;
use std::time::{Duration, Instant};

pub fn measure<R>(rt: &R, count: u32) -> Result<(), Stop>
where
    R: Print + Eprint + Clock + AllocGlobal + Wait + Sync + Copy,
{
    let alloc = rt.alloc();
    let columns = vec![in alloc;
        Column {
            name: Text::new(alloc, "c")?,
            kind: ColType::Int
        },
    ]?;
    let schema = Schema::new(columns, 0);
    let rows = packet_of(alloc, count)?;
    let key = WriteKey {
        txn: 1,
        part: 1,
        task: 1,
        attempt: 1,
        table: Text::new(alloc, "t")?,
        cell: 0,
    };
    let shelf = Shelf::new(alloc, *rt)?;
    let mut port = shelf.sure_port();

    let start = Instant::now(rt)?;
    let bytes = encode_rows(alloc, &schema, rows.view().list())?;
    let encoded = start.elapsed(rt)?;
    let size = bytes.len();
    drop(bytes);
    let staged = stage(rt, &mut port, &key, &schema, &rows)?;

    println!(rt;
        "write of {count} rows: {size} bytes, {} in the shelf",
        shelf.total()
    )?;
    let (encoded, staged) = (encoded.as_micros(), staged.as_micros());
    eprintln!(rt; "write: {encoded} us encoded, {staged} us encoded and staged")?;
    Ok(())
}

/// Stages a file of the rows and seals it, and says how long staging took.
fn stage<P: Port>(
    rt: &(impl Clock + AllocGlobal),
    port: &mut P,
    key: &WriteKey,
    schema: &Schema,
    rows: &Packet,
) -> Result<Duration, Stop>
    requires cell { key.now.cell < 16 }
    requires fit { All (FitsKinds (kinds_of schema.now)) rows.now.rows }
{
    let start = Instant::now(rt)?;
    let staging = stage_file(rt.alloc(), port, key, schema, rows)?;
    let staged = start.elapsed(rt)?;
    seal(rt.alloc(), port, staging)?;
    Ok(staged)
}

fn packet_of(alloc: Global, count: u32) -> Result<Packet, Stop>
    ensures { IfOk result (λ packet. All (FitsKinds (Kinds.Int ∷ [])) packet.rows) }
{
    let mut packet = Packet::empty(alloc, 1);
    for number in 0..count {
        let values = vec![in alloc; Value::Int(i64::from(number))]?;
        packet.push(Row::from_values(values))?;
    }
    Ok(packet)
}
