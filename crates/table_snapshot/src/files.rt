use lake_values::{Listed, Name, Text};
use manifest_block::ItemBlocks;

/// A data file of a table.
#[derive(Clone, Copy, Debug, PartialEq, Eq, Drop)]
pub struct FileRow {
    pub file: Name,
    /// The commit that added it. 0 stands for what isn't committed.
    pub seq: u64,
    pub part: u32,
    pub cell: u32,
    pub rows: u64,
    /// The vector with the positions of the rows that are gone, and how many these are.
    pub vector: Option<(Name, u64)>,
}

/// The data files of a table, ascending by name.
pub type Files = Listed<FileRow>;

/// The blocks of the manifest of commit `seq`.
#[derive(Debug, Drop)]
pub struct Dated {
    pub seq: u64,
    pub blocks: ItemBlocks,
}

/// The files that a table had in version `at`.
#[derive(Debug, Drop)]
pub struct Checkpoint {
    pub table: Text,
    pub at: u64,
    pub files: Files,
}
