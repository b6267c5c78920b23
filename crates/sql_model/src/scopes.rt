use lake_values::{ColType, Text};

/// A column that the references of a statement may name, with the name that the statement has for its table.
#[derive(Debug, Drop)]
pub struct Heading {
    pub table: Text,
    pub name: Text,
    pub kind: ColType,
}

/// What a name is found as among columns or outputs.
#[derive(Clone, Copy, Debug, PartialEq, Eq)]
pub enum Found {
    Absent,
    /// One has the name; its place, from 0.
    One(u32),
    Several,
}

/// The type of an expression.
#[derive(Clone, Copy, Debug, PartialEq, Eq)]
pub enum ExprType {
    Int,
    Text,
    Bool,
    /// The type of the word NULL.
    Null,
    /// The type of a reference that names no column.
    Unknown,
}
