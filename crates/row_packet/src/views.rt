ghost use Rattle.std.specs.Prelude.{◌≡◌, ◌<◌, length, IfOk};
ghost use Rattle.lake_values.specs.Lending.{owned, IsShort};
ghost use Rattle.row_packet.specs.Packets.{HaveWidth, row_at};
ghost use Rattle.lake_values.specs.Rows.{value_at};

use crate::packets::Packet;
use lake_values::{NoMemory, Row, Value, ValueRef};
use std::alloc::Global;
use std::marker::Model;

/// What reads a packet. It lends values for as long as the packet is lent; of its calls `row` alone takes memory.
#[derive(Debug, Drop)]
pub struct PacketView<'a> {
    pub(crate) width: u32,
    pub(crate) rows: &'a [Row],
}

impl<'a> Model for PacketView<'a> {
    ghost use Rattle.row_packet.specs.Packets.{PacketRows, HaveWidth};

    ghost Value = { PacketRows };

    ghost view = { λ v. record { width = v.width; rows = v.rows.now } };

    ghost invariant = { λ v. HaveWidth v.width v.rows.now };
}

impl<'a> PacketView<'a> {
    /// How many rows there are.
    pub fn rows(&self) -> u64
        ensures { result ≡ length self.now.rows }
    {
        self.rows.len() as u64
    }

    /// How many values each row has.
    pub fn width(&self) -> u32
        ensures width { result ≡ self.now.width }
        ensures each { HaveWidth result self.now.rows }
    {
        self.width
    }

    /// The rows, in their order.
    pub fn list(&self) -> &'a [Row]
        ensures list { result.now ≡ self.now.rows }
        ensures each { HaveWidth self.now.width result.now }
    {
        self.rows
    }

    /// The values of a row, counted from 0.
    pub fn values(&self, row: u64) -> &'a [Value]
        requires { row < length self.now.rows }
        ensures values { result.now ≡ row_at self.now.rows row }
        ensures width { length result.now ≡ self.now.width }
    {
        let rows = self.rows;
        rows[row as usize].values()
    }

    /// The value in a column of a row, both counted from 0.
    pub fn value(&self, row: u64, column: u32) -> ValueRef<'a>
        requires row { row < length self.now.rows }
        requires column { column < self.now.width }
        ensures value { owned result ≡ value_at (row_at self.now.rows row) column }
        ensures short { IsShort result }
    {
        let values = self.values(row);
        values[column as usize].lend()
    }

    /// An equal row.
    pub fn row(&self, alloc: Global, row: u64) -> Result<Row, NoMemory>
        requires { row < length self.now.rows }
        ensures { IfOk result (λ copy. copy ≡ row_at self.now.rows row) }
    {
        let rows = self.rows;
        rows[row as usize].copy(alloc)
    }
}
