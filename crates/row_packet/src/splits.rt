//! The rows of a packet by their cells.

ghost use Rattle.std.specs.Prelude.{◌≡◌, ◌<◌, [], replicate, length, IfOk};
ghost use Rattle.row_packet.specs.Packets.{HaveWidth, cells_of};

use crate::packets::Packet;
use lake_values::{NoMemory, Row, cell_of};
use std::alloc::Global;

/// How many cells there are.
const CELLS: usize = 16;

/// A packet for each cell, in their order: equal rows of those whose value in the column has the cell. The rows have
/// this width.
pub fn split_rows(
    alloc: Global,
    width: u32,
    column: u32,
    rows: &[Row],
) -> Result<Vec<Packet>, NoMemory>
    requires widths { HaveWidth width rows.now }
    requires column { column < width }
    ensures parts { IfOk result (λ parts. parts.items ≡ cells_of column (record { width = width; rows = rows.now })) }
    ensures count { IfOk result (λ parts. length parts.items ≡ 16) }
{
    let mut parts = empty_packets(alloc, width)?;
    for row in rows {
        let cell = cell_of(&row.values()[column as usize]);
        let part = &mut parts[cell as usize];
        part.push(row.copy(alloc)?)?;
    }
    Ok(parts)
}

fn empty_packets(alloc: Global, width: u32) -> Result<Vec<Packet>, NoMemory>
    ensures { IfOk result (λ packets. packets.items ≡ replicate 16 (record { width = width; rows = [] })) }
{
    let mut packets = Vec::with_capacity(alloc, CELLS)?;
    for _ in 0..CELLS {
        packets.push(Packet::empty(alloc, width))?;
    }
    Ok(packets)
}
