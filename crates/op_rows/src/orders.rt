ghost use Rattle.std.specs.Prelude.{◌≡◌, IfOk, IsPermutation};
ghost use Rattle.sql_model.specs.Listing.{ordered};
ghost use Rattle.sql_model.specs.Query.{order_cmp, limited};
ghost use Rattle.row_packet.specs.Packets.{HaveWidth};

use lake_values::NoMemory;
use row_evaluation::{PacketRow, compare_by_keys, rows_of};
use row_packet::{Packet, PacketView};
use sql_model::Key;
use std::alloc::Global;
use std::cmp::Ordering;

/// The rows in the order of the keys, and then of the whole row, cut off at the limit. Only the rows within the limit
/// are copied.
pub fn top(
    alloc: Global,
    packet: &PacketView<'_>,
    keys: &[Key],
    limit: Option<u64>,
) -> Result<Packet, NoMemory>
    ensures width { IfOk result (λ first. first.width ≡ packet.now.width) }
    ensures rows { IfOk result (λ first. first.rows ≡ limited limit (ordered (order_cmp keys.now) packet.now.rows)) }
{
    let rows = ordered_rows(alloc, packet, keys)?;
    packet_of(alloc, packet.width(), within(limit, rows.as_slice()))
}

/// The rows in the order of the keys, and then of the whole row.
fn ordered_rows<'a>(
    alloc: Global,
    packet: &PacketView<'a>,
    keys: &[Key],
) -> Result<Vec<PacketRow<'a>>, NoMemory>
    ensures ordered { IfOk result (λ rows. rows.items ≡ ordered (order_cmp keys.now) packet.now.rows) }
    ensures permutation { IfOk result (λ rows. IsPermutation packet.now.rows rows.items) }
{
    let mut rows = rows_of(alloc, packet)?;
    rows.sort_unstable_by(|a, b| compare_by(keys, a, b));
    Ok(rows)
}

/// The first rows, as many as the limit allows.
fn within<'s, 'a>(limit: Option<u64>, rows: &'s [PacketRow<'a>]) -> &'s [PacketRow<'a>]
    ensures { result.now ≡ limited limit rows.now }
{
    let Some(limit) = limit else {
        return rows;
    };
    if limit >= rows.len() as u64 {
        return rows;
    }
    rows.split_at(limit as usize).0
}

/// The order of two rows by the keys, and then by the whole row.
fn compare_by(keys: &[Key], a: &PacketRow<'_>, b: &PacketRow<'_>) -> Ordering
    ensures { result ≡ order_cmp keys.now a.now b.now }
{
    match compare_by_keys(keys, a, b) {
        Ordering::Equal => a.compare(b),
        order => order,
    }
}

/// A packet of equal rows.
fn packet_of(alloc: Global, width: u32, rows: &[PacketRow<'_>]) -> Result<Packet, NoMemory>
    requires { HaveWidth width rows.now }
    ensures width { IfOk result (λ packet. packet.width ≡ width) }
    ensures rows { IfOk result (λ packet. packet.rows ≡ rows.now) }
{
    let mut packet = Packet::empty(alloc, width);
    for row in rows {
        packet.push(row.to_row(alloc)?)?;
    }
    Ok(packet)
}
