ghost use Rattle.std.specs.Prelude.{◌≡◌, ◌<◌, ◌++◌, length, IfOk, OnOk};
ghost use Rattle.lake_values.specs.Lending.{owned, IsShort};
ghost use Rattle.lake_values.specs.Order.{row_cmp};
ghost use Rattle.lake_values.specs.Rows.{value_at};
ghost use Rattle.row_packet.specs.Packets.{row_at};

use crate::cells::{Cells, Lookup};
use lake_values::{NoMemory, Row, Value, ValueRef};
use row_packet::PacketView;
use std::alloc::Global;
use std::cmp::Ordering;
use std::marker::Model;

/// A row of a packet, whose values are lent. Contracts see the list of its values.
#[derive(Debug, Drop)]
pub struct PacketRow<'a> {
    values: &'a [Value],
}

impl<'a> Model for PacketRow<'a> {
    ghost use Rattle.std.specs.Prelude.{List, ◌<◌, ◌^◌, length};
    ghost use Rattle.lake_values.specs.declared.values.Value.{Value as Member};

    ghost Value = { List Member };

    ghost view = { λ r. r.values.now };

    ghost invariant = { λ r. length r.values.now < 2 ^ 32 };
}

impl<'a> PacketRow<'a> {
    /// The row at a place, counted from 0.
    pub fn at(view: &PacketView<'a>, place: u64) -> PacketRow<'a>
        requires { place < length view.now.rows }
        ensures row { result ≡ row_at view.now.rows place }
        ensures width { length result ≡ view.now.width }
    {
        // The invariant needs that a width has 32 bits, which its type says.
        let _width: u32 = view.width();
        PacketRow {
            values: view.values(place),
        }
    }

    /// How many values the row has.
    pub fn width(&self) -> u32
        ensures { result ≡ length self.now }
    {
        self.values.len() as u32
    }

    /// The value in a column, counted from 0.
    pub fn value(&self, column: u32) -> ValueRef<'a>
        requires { column < length self.now }
        ensures value { owned result ≡ value_at self.now column }
        ensures short { IsShort result }
    {
        let values = self.values;
        values[column as usize].lend()
    }

    /// An equal row.
    pub fn to_row(&self, alloc: Global) -> Result<Row, NoMemory>
        ensures { IfOk result (λ row. row ≡ self.now) }
    {
        let mut values = Vec::with_capacity(alloc, self.values.len())?;
        self.put_values(&mut values)?;
        Ok(Row::from_values(values))
    }

    /// Puts equal values at the end.
    pub fn put_values(&self, values: &mut Vec<Value>) -> Result<(), NoMemory>
        ensures { OnOk result (values.new.items ≡ values.old.items ++ self.now) }
    {
        for value in self.values {
            values.push(value.copy()?)?;
        }
        Ok(())
    }

    /// The order of rows: by the first column in which they differ.
    pub fn compare(&self, other: &PacketRow<'_>) -> Ordering
        ensures { result ≡ row_cmp self.now other.now }
    {
        self.values.cmp(other.values)
    }
}

impl Cells for PacketRow<'_> {
    ghost cells = { λ row. row };

    fn find(&self, place: usize) -> Lookup<'_> {
        let values = self.values;
        match values.get(place) {
            Some(value) => Lookup::At(value.lend()),
            None => Lookup::Behind(place - values.len()),
        }
    }
}

/// The rows of a packet, lent.
pub fn rows_of<'a>(alloc: Global, packet: &PacketView<'a>) -> Result<Vec<PacketRow<'a>>, NoMemory>
    ensures { IfOk result (λ rows. rows.items ≡ packet.now.rows) }
{
    let mut rows = Vec::with_capacity(alloc, packet.rows() as usize)?;
    put_rows(packet, &mut rows)?;
    Ok(rows)
}

/// Puts the rows of a packet, lent, at the end.
pub fn put_rows<'a>(packet: &PacketView<'a>, rows: &mut Vec<PacketRow<'a>>) -> Result<(), NoMemory>
    ensures { OnOk result (rows.new.items ≡ rows.old.items ++ packet.now.rows) }
{
    for place in 0..packet.rows() {
        rows.push(PacketRow::at(packet, place))?;
    }
    Ok(())
}
