use lake_values::{Listed, Row, Rows, Text};

/// Where a row stands: its table, the commit and the part that added it, and its cell. `seq` 0 stands for
/// a transaction's own row that isn't committed.
#[derive(Debug, Drop)]
pub struct Mark {
    pub table: Text,
    pub seq: u64,
    pub part: u32,
    pub cell: u32,
}

pub type Marks = Listed<Mark>;

#[derive(Debug, Drop)]
pub struct MarkedRow {
    pub mark: Mark,
    pub row: Row,
}

pub type MarkedRows = Listed<MarkedRow>;

/// The rows that a part of a transaction adds to a table.
#[derive(Debug, Drop)]
pub struct Added {
    pub table: Text,
    pub part: u32,
    pub rows: Rows,
}

pub type AddedList = Listed<Added>;

/// What a statement or a transaction changes.
#[derive(Debug, Drop)]
pub struct Change {
    pub removed: MarkedRows,
    pub added: AddedList,
}
