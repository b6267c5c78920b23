//! Rows as short texts: values with spaces between them, a quote in front of texts, and ` / `
//! between the rows.

ghost use Rattle.std.specs.Prelude.{◌≡◌, IfOk};

use lake_values::{Row, Text, Value, row_text};
use row_evaluation::OpFault;
use row_packet::Packet;
use std::alloc::Global;
use std::test::Fail;

fn value(alloc: Global, word: &str) -> Result<Value, Fail> {
    if word == "NULL" {
        return Ok(Value::Null);
    }
    if let Some((_, quoted)) = word.split_once('\'') {
        return Ok(Value::Text(Text::new(alloc, quoted)?));
    }
    match word.parse::<i64>() {
        Ok(number) => Ok(Value::Int(number)),
        Err(_) => Err(Fail::new("no value")),
    }
}

pub fn row(alloc: Global, words: &str) -> Result<Row, Fail> {
    let mut values = Vec::new(alloc);
    for word in words.split(' ') {
        values.push(value(alloc, word)?)?;
    }
    Ok(Row::from_values(values))
}

/// A packet of rows of two columns.
pub fn packet(alloc: Global, words: &str) -> Result<Packet, Fail>
    ensures { IfOk result (λ packet. packet.width ≡ 2) }
{
    let mut packet = Packet::empty(alloc, 2);
    if words.is_empty() {
        return Ok(packet);
    }
    for line in words.split(" / ") {
        let row = row(alloc, line)?;
        if row.values().len() != 2 {
            return Err(Fail::new("a row hasn't two columns"));
        }
        packet.push(row)?;
    }
    Ok(packet)
}

/// The rows of a packet, copied.
pub fn rows_of(alloc: Global, packet: &Packet) -> Result<Vec<Row>, Fail> {
    let view = packet.view();
    let mut rows = Vec::new(alloc);
    for place in 0..view.rows() {
        rows.push(view.row(alloc, place)?)?;
    }
    Ok(rows)
}

/// Rows, printed one behind the other.
pub fn printed(alloc: Global, rows: &[Row]) -> Result<Vec<u8>, Fail> {
    let mut out = Vec::new(alloc);
    for row in rows {
        row_text(row, &mut out)?;
    }
    Ok(out)
}

pub fn printed_packet(alloc: Global, packet: &Packet) -> Result<Vec<u8>, Fail> {
    printed(alloc, rows_of(alloc, packet)?.as_slice())
}

/// The rows that an operator made, printed, or why it made none.
pub fn outcome(alloc: Global, made: Result<Packet, OpFault>) -> Result<Vec<u8>, Fail> {
    match made {
        Ok(packet) => printed_packet(alloc, &packet),
        Err(OpFault::Arith) => Ok(b"arithmetic".to_vec(alloc)?),
        Err(OpFault::TooManyRows) => Ok(b"too many rows".to_vec(alloc)?),
        Err(OpFault::NoMemory) => Err(Fail::new("no memory")),
    }
}
