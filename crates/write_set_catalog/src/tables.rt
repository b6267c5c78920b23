use lake_values::{Listed, Schema, Text};

/// A table, and the number of the version that created it.
#[derive(Debug, Drop)]
pub struct CatTable {
    pub name: Text,
    pub schema: Schema,
    pub since: u64,
}

pub type CatTables = Listed<CatTable>;
