ghost use Rattle.std.specs.Prelude.{◌≡◌, ◌<◌, ◌≤◌, true, All, length, IfOk, IfSome, IfNone};
ghost use Rattle.lake_values.specs.Lending.{owned, IsShort};
ghost use Rattle.row_packet.specs.Packets.{HaveWidth, row_at};
ghost use Rattle.lake_values.specs.Rows.{value_at};
ghost use Rattle.data_cell.specs.Live.{is_live, live_rows, NoneLive};

use crate::positions::behind;
use deletion_vector::Vector;
use lake_values::{NoMemory, Row, Rows, ValueRef};
use row_packet::Packet;
use std::alloc::Global;
use std::marker::Model;

/// The rows of a data file with the positions of those that are gone. It lends values for as long as the rows are
/// lent.
#[derive(Debug, Drop)]
pub struct CellView<'a> {
    width: u32,
    rows: &'a [Row],
    gone: &'a Vector,
}

impl<'a> Model for CellView<'a> {
    ghost use Rattle.data_cell.specs.Live.{CellRows, IsCell};

    ghost Value = { CellRows };

    ghost view = { λ c. record { width = c.width; rows = c.rows.now; gone = c.gone.now } };

    ghost invariant = { λ c. IsCell c.width c.rows.now c.gone.now };
}

impl<'a> CellView<'a> {
    /// The rows of a file with this width, and the positions of those that are gone. The width is that of the packet
    /// of the rows that are left, also where there are none.
    pub fn new(width: u32, rows: &'a Rows, gone: &'a Vector) -> CellView<'a>
        requires widths { HaveWidth width rows.now }
        requires positions { All (λ position. position < length rows.now) gone.now }
        ensures width { result.width ≡ width }
        ensures rows { result.rows ≡ rows.now }
        ensures gone { result.gone ≡ gone.now }
    {
        CellView {
            width,
            rows: rows.rows(),
            gone,
        }
    }

    /// How many rows are left.
    pub fn live(&self) -> u64
        ensures { result ≡ length (live_rows self.now.gone self.now.rows) }
    {
        let rows = self.rows;
        let gone = self.gone;
        rows.len() as u64 - gone.len()
    }

    /// The least position, from the given one on, of a row that is left.
    pub fn next_live(&self, from: u64) -> Option<u64>
        ensures within { IfSome result (λ position. (from ≤ position) × (position < length self.now.rows)) }
        ensures live { IfSome result (λ position. is_live self.now.gone position ≡ true) }
        ensures least { IfSome result (λ position. NoneLive self.now.gone from position) }
        ensures none { IfNone result (NoneLive self.now.gone from (length self.now.rows)) }
    {
        let rows = self.rows;
        let mut rest = self.gone.positions_from(from);
        let mut position = from;
        while let Some(more) = behind(rest, position) {
            rest = more;
            position += 1;
        }
        (position < rows.len() as u64).then_some(position)
    }

    /// The value in a column of a row, both counted from 0, whether the row is left or gone.
    pub fn value(&self, row: u64, column: u32) -> ValueRef<'a>
        requires row { row < length self.now.rows }
        requires column { column < self.now.width }
        ensures value { owned result ≡ value_at (row_at self.now.rows row) column }
        ensures short { IsShort result }
    {
        let rows = self.rows;
        let values = rows[row as usize].values();
        values[column as usize].lend()
    }

    /// The rows that are left, in their order, in one walk over the rows.
    pub fn packet(&self, alloc: Global) -> Result<Packet, NoMemory>
        ensures width { IfOk result (λ packet. packet.width ≡ self.now.width) }
        ensures rows { IfOk result (λ packet. packet.rows ≡ live_rows self.now.gone self.now.rows) }
    {
        let rows = self.rows;
        let mut packet = Packet::empty(alloc, self.width);
        let mut rest = self.gone.positions();
        for (place, row) in rows.iter().enumerate() {
            match behind(rest, place as u64) {
                Some(more) => rest = more,
                None => packet.push(row.copy(alloc)?)?,
            }
        }
        Ok(packet)
    }
}
