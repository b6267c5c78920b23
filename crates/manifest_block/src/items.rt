use lake_values::{Listed, Name, Text};

/// One change of a table's files.
#[derive(Debug, Drop)]
pub enum Item {
    /// The table has a data file more: of this cell and part, with this many rows.
    Add {
        table: Text,
        cell: u32,
        part: u32,
        file: Name,
        rows: u64,
    },
    /// The table has this data file no longer.
    Remove {
        table: Text,
        file: Name,
    },
    /// The rows of the file whose positions the vector has are gone, `removed` of them.
    SetVector {
        table: Text,
        file: Name,
        vector: Name,
        removed: u64,
    },
}

/// The items that were written as one block.
pub type ItemBlock = Listed<Item>;

pub type ItemBlocks = Listed<ItemBlock>;
