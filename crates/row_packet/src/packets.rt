ghost use Rattle.std.specs.Prelude.{◌≡◌, ◌<◌, ◌++◌, [], ◌∷◌, All, length, IfOk, OnOk, OnErr};
ghost use Rattle.row_packet.specs.Packets.{HaveWidth, cells_of, rows_of_all};

use crate::splits::split_rows;
use crate::views::PacketView;
use lake_values::{NoMemory, Row, Rows, copy_rows};
use std::alloc::Global;
use std::marker::Model;

/// Rows of one width, as one task hands them to the next.
#[derive(Debug, Drop)]
pub struct Packet {
    width: u32,
    rows: Vec<Row>,
}

impl Model for Packet {
    ghost use Rattle.row_packet.specs.Packets.{PacketRows, HaveWidth};

    ghost Value = { PacketRows };

    ghost view = { λ p. record { width = p.width; rows = p.rows.items } };

    ghost invariant = { λ p. HaveWidth p.width p.rows.items };
}

impl Packet {
    /// The packet without rows.
    pub fn empty(alloc: Global, width: u32) -> Packet
        ensures width { result.width ≡ width }
        ensures rows { result.rows ≡ [] }
    {
        Packet {
            width,
            rows: Vec::new(alloc),
        }
    }

    /// A packet of equal rows.
    pub fn from_rows(alloc: Global, width: u32, rows: &Rows) -> Result<Packet, NoMemory>
        requires { HaveWidth width rows.now }
        ensures width { IfOk result (λ packet. packet.width ≡ width) }
        ensures rows { IfOk result (λ packet. packet.rows ≡ rows.now) }
    {
        let rows = copy_rows(alloc, rows.rows())?;
        Ok(Packet { width, rows })
    }

    /// Puts a row behind the others.
    pub fn push(&mut self, row: Row) -> Result<(), NoMemory>
        requires { length row ≡ self.old.width }
        ensures ok { OnOk result (self.new ≡ record self.old { rows = self.old.rows ++ row ∷ [] }) }
        ensures err { OnErr result (self.new ≡ self.old) }
    {
        self.rows.push(row)?;
        Ok(())
    }

    /// What reads the packet.
    pub fn view(&self) -> PacketView<'_>
        ensures { result ≡ self.now }
    {
        PacketView {
            width: self.width,
            rows: self.rows.as_slice(),
        }
    }

    /// An equal packet.
    pub fn copy(&self, alloc: Global) -> Result<Packet, NoMemory>
        ensures { IfOk result (λ copy. copy ≡ self.now) }
    {
        Ok(Packet {
            width: self.width,
            rows: copy_rows(alloc, &self.rows)?,
        })
    }

    /// A packet for each of the 16 cells, in their order: the rows whose value in the column has the cell.
    pub fn split_by_hash(&self, alloc: Global, column: u32) -> Result<Vec<Packet>, NoMemory>
        requires { column < self.now.width }
        ensures parts { IfOk result (λ parts. parts.items ≡ cells_of column self.now) }
        ensures count { IfOk result (λ parts. length parts.items ≡ 16) }
    {
        split_rows(alloc, self.width, column, &self.rows)
    }

    /// Puts equal rows behind the others.
    fn append(&mut self, alloc: Global, other: &Packet) -> Result<(), NoMemory>
        requires { other.now.width ≡ self.old.width }
        ensures ok { OnOk result (self.new ≡ record self.old { rows = self.old.rows ++ other.now.rows }) }
    {
        let mut rows = copy_rows(alloc, &other.rows)?;
        self.rows.append(&mut rows)?;
        Ok(())
    }
}

/// The rows of all parts, in their order.
pub fn join_all(alloc: Global, width: u32, parts: &Vec<Packet>) -> Result<Packet, NoMemory>
    requires { All (λ part. part.width ≡ width) parts.now.items }
    ensures width { IfOk result (λ joined. joined.width ≡ width) }
    ensures rows { IfOk result (λ joined. joined.rows ≡ rows_of_all parts.now.items) }
{
    let mut joined = Packet::empty(alloc, width);
    for part in parts {
        joined.append(alloc, part)?;
    }
    Ok(joined)
}
