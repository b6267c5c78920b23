use lake_outside::Port;
use lake_values::{Listed, Text};
use std::marker::Model;

/// A checkpoint. Contracts see its blob as its name and the bytes that its port tells.
#[derive(Drop)]
pub struct CatCheck<P: Port> {
    pub table: Text,
    /// The version whose files it lists.
    pub at: u64,
    /// The number of the last transaction that had begun before the one that wrote it.
    pub begun: u64,
    pub blob: P::Blob,
}

pub type CatChecks<P> = Listed<CatCheck<P>>;

impl<P: Port> Model for CatCheck<P> {
    ghost use Rattle.lake_outside.specs.Ports.{told_blob};
    ghost use Rattle.write_set_catalog.specs.Catalogs.{ToldCheck};

    ghost Value = { ToldCheck };

    ghost view = { λ c. record {
      table = c.table;
      at = c.at;
      begun = c.begun;
      blob = told_blob P.Blob.name P.Blob.bytes c.blob;
    } };
}
