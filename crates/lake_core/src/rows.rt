use lake_values::Text;
use sql_model::Marks;

/// What a commit wrote of a table: the marks of the committed rows that it removed there. A commit that only added rows
/// to the table has no marks.
#[derive(Debug, Drop)]
pub struct CatRow {
    /// The number of the commit.
    pub seq: u64,
    pub table: Text,
    pub marks: Marks,
}
