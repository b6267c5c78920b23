use lake_outside::Port;
use lake_values::{Listed, Names, Text};
use manifest_block::ItemBlocks;
use sql_model::Marks;
use std::marker::Model;

/// What a commit did to a table.
#[derive(Debug, Drop)]
pub struct CatRow {
    pub table: Text,
    /// The names that the manifest adds to the table or sets there, in order.
    pub names: Names,
    /// The names of files and vectors that the table gained.
    pub added: Names,
    /// The names of files and vectors that the table lost.
    pub dropped: Names,
    /// The marks of the committed rows that it removed. A commit that only added rows has none.
    pub marks: Marks,
}

pub type CatRows = Listed<CatRow>;

/// A commit: its manifest, and a row for each table that it changed.
///
/// The manifest is one handle for all tables, since a handle can't be copied without memory and a
/// commit takes none. Contracts see it as its name and the bytes that its port tells.
#[derive(Drop)]
pub struct CatCommit<P: Port> {
    /// The number of the version that it made.
    pub seq: u64,
    /// The manifest, which has the items of all tables that the commit changed.
    pub manifest: Option<P::Blob>,
    /// These items, in their blocks.
    pub blocks: ItemBlocks,
    pub rows: CatRows,
}

impl<P: Port> Model for CatCommit<P> {
    ghost use Rattle.std.specs.Option.{option_map};
    ghost use Rattle.lake_outside.specs.Ports.{told_blob};
    ghost use Rattle.write_set_catalog.specs.Catalogs.{ToldCommit};

    ghost Value = { ToldCommit };

    ghost view = { λ c. record {
      seq = c.seq;
      manifest = option_map (told_blob P.Blob.name P.Blob.bytes) c.manifest;
      blocks = c.blocks;
      rows = c.rows;
    } };
}
