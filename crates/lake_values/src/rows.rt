ghost use Rattle.std.specs.Prelude.{◌≡◌, length, IfOk};
ghost use Rattle.lake_values.specs.Order.{row_cmp};

use crate::{NoMemory, Value};
use std::alloc::Global;
use std::cmp::Ordering;
use std::marker::Model;

/// The values of one row, in the order of its columns.
#[derive(Debug, Drop)]
pub struct Row {
    values: Vec<Value>,
}

impl Model for Row {
    ghost use Rattle.std.specs.Prelude.{List};
    ghost use Rattle.lake_values.specs.declared.values.Value.{Value as Member};

    ghost Value = { List Member };

    ghost view = { λ r. r.values.items };
}

impl Row {
    pub fn from_values(values: Vec<Value>) -> Row
        ensures { result ≡ values.items }
    {
        Row { values }
    }

    pub fn values(&self) -> &[Value]
        ensures { result.now ≡ self.now }
    {
        self.values.as_slice()
    }

    /// An equal row.
    pub fn copy(&self, alloc: Global) -> Result<Row, NoMemory>
        ensures { IfOk result (λ copy. copy ≡ self.now) }
    {
        let mut values = Vec::with_capacity(alloc, self.values.len())?;
        for value in &self.values {
            values.push(value.copy()?)?;
        }
        Ok(Row { values })
    }
}

/// A list of rows.
#[derive(Debug, Drop)]
pub struct Rows {
    rows: Vec<Row>,
}

impl Model for Rows {
    ghost use Rattle.std.specs.Prelude.{List};
    ghost use Rattle.lake_values.specs.declared.rows.Row.{Row as Member};

    ghost Value = { List Member };

    ghost view = { λ r. r.rows.items };
}

impl Rows {
    pub fn from_rows(rows: Vec<Row>) -> Rows
        ensures { result ≡ rows.items }
    {
        Rows { rows }
    }

    pub fn rows(&self) -> &[Row]
        ensures { result.now ≡ self.now }
    {
        self.rows.as_slice()
    }

    pub fn into_rows(self) -> Vec<Row>
        ensures { result.items ≡ self }
    {
        self.rows
    }

    /// Equal rows.
    pub fn copy(&self, alloc: Global) -> Result<Rows, NoMemory>
        ensures { IfOk result (λ copy. copy ≡ self.now) }
    {
        Ok(Rows {
            rows: copy_rows(alloc, self.rows.as_slice())?,
        })
    }
}

/// Equal rows.
pub fn copy_rows(alloc: Global, rows: &[Row]) -> Result<Vec<Row>, NoMemory>
    ensures { IfOk result (λ copies. copies.items ≡ rows.now) }
{
    let mut copies = Vec::with_capacity(alloc, rows.len())?;
    for row in rows {
        copies.push(row.copy(alloc)?)?;
    }
    Ok(copies)
}

/// The order of rows: by the first column in which they differ.
pub fn compare_rows(a: &Row, b: &Row) -> Ordering
    ensures { result ≡ row_cmp a.now b.now }
{
    a.values.cmp(&b.values)
}

impl PartialEq for Row {
    ghost use Rattle.std.specs.Ordering.{eq_by_cmp};
    ghost use Rattle.lake_values.specs.Order.{row_cmp, row_eq_equiv};
    ghost use Rattle.std.specs.Cmp.{partial_equiv_from_equiv};

    ghost eq = { eq_by_cmp row_cmp };

    ghost laws = { partial_equiv_from_equiv row_eq_equiv };

    fn eq(&self, other: &Row) -> bool {
        compare_rows(self, other) == Ordering::Equal
    }
}

impl Eq for Row {
    ghost use Rattle.lake_values.specs.Order.{row_eq_equiv};

    ghost laws = { row_eq_equiv };
}

impl PartialOrd for Row {
    ghost use Rattle.std.specs.Ordering.{as_partial_cmp};
    ghost use Rattle.lake_values.specs.Order.{row_cmp, row_partial_order};

    ghost partial_cmp = { as_partial_cmp row_cmp };

    ghost laws = { row_partial_order };

    fn partial_cmp(&self, other: &Row) -> Option<Ordering> {
        Some(compare_rows(self, other))
    }
}

impl Ord for Row {
    ghost use Rattle.std.specs.Prelude.{refl};
    ghost use Rattle.lake_values.specs.Order.{row_cmp, row_cmp_total};

    ghost cmp = { row_cmp };

    ghost total = { row_cmp_total };

    ghost matches_partial_cmp = { λ _ _. refl };

    ghost matches_eq = { λ _ _. refl };

    fn cmp(&self, other: &Row) -> Ordering {
        compare_rows(self, other)
    }
}
