ghost use Rattle.std.specs.Prelude.{◌≡◌, ◌<◌, ◌≤◌, length, IfOk};
ghost use Rattle.lake_values.specs.Schemas.{IsSchema};

use crate::{Listed, NoMemory, Text};
use std::alloc::Global;
use std::marker::Model;

/// The type of a column.
#[derive(Clone, Copy, Debug, PartialEq, Eq)]
pub enum ColType {
    Int,
    Text,
}

/// A column of a table.
#[derive(Debug, Drop)]
pub struct Column {
    pub name: Text,
    pub kind: ColType,
}

pub type Columns = Listed<Column>;

impl Column {
    /// An equal column.
    pub fn copy(&self) -> Result<Column, NoMemory>
        ensures { IfOk result (λ copy. copy ≡ self.now) }
    {
        Ok(Column {
            name: self.name.copy()?,
            kind: self.kind,
        })
    }
}

/// Equal columns.
pub fn copy_columns(alloc: Global, columns: &[Column]) -> Result<Vec<Column>, NoMemory>
    ensures { IfOk result (λ copies. copies.items ≡ columns.now) }
{
    let mut copies = Vec::with_capacity(alloc, columns.len())?;
    for column in columns {
        copies.push(column.copy()?)?;
    }
    Ok(copies)
}

/// The columns of a table, and the one whose value tells the cell of a row.
#[derive(Debug, Drop)]
pub struct Schema {
    columns: Vec<Column>,
    distribution: u32,
}

impl Model for Schema {
    ghost use Rattle.lake_values.specs.Schemas.{TableColumns, IsSchema};

    ghost Value = { TableColumns };

    ghost view = { λ s. record { columns = s.columns.items; distribution = s.distribution } };

    ghost invariant = { λ s. IsSchema s.columns.items s.distribution };
}

impl Schema {
    /// A schema has 1 to 64 columns with distinct names, and one of them distributes the rows.
    pub fn new(columns: Vec<Column>, distribution: u32) -> Schema
        requires { IsSchema columns.items distribution }
        ensures columns { result.columns ≡ columns.items }
        ensures distribution { result.distribution ≡ distribution }
    {
        Schema {
            columns,
            distribution,
        }
    }

    pub fn columns(&self) -> &[Column]
        ensures list { result.now ≡ self.now.columns }
        ensures is_schema { IsSchema result.now self.now.distribution }
    {
        self.columns.as_slice()
    }

    /// The number of the distribution column, from 0.
    pub fn distribution(&self) -> u32
        ensures { result ≡ self.now.distribution }
    {
        self.distribution
    }

    /// An equal schema.
    pub fn copy(&self, alloc: Global) -> Result<Schema, NoMemory>
        ensures { IfOk result (λ copy. copy ≡ self.now) }
    {
        let columns = copy_columns(alloc, self.columns.as_slice())?;
        Ok(Schema {
            columns,
            distribution: self.distribution,
        })
    }
}
