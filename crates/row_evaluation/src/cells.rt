ghost use Rattle.std.specs.Prelude.{◌≡◌};
ghost use Rattle.lake_values.specs.Lending.{owned, IsShort};
ghost use Rattle.sql_model.specs.Evaluation.{is_null};
ghost use Rattle.lake_values.specs.Rows.{value_at};

use lake_values::{Row, ValueRef};

/// What stands at a place of a row, or how far the place is behind the row's last column.
#[derive(Clone, Copy, Debug)]
pub enum Lookup<'a> {
    At(ValueRef<'a>),
    Behind(usize),
}

/// What has the values of a row.
pub trait Cells {
    ghost use Rattle.std.specs.Prelude.{List};
    ghost use Rattle.lake_values.specs.declared.values.Value.{Value as Member};
    ghost use Rattle.row_evaluation.specs.Lending.{IsLookup};

    ghost cells: { Self → List Member };

    /// What stands at a place.
    fn find(&self, place: usize) -> Lookup<'_>
        ensures { IsLookup (cells self.now) place result };
}

/// The value in a column; NULL where the row has no such column.
pub fn value_at<C: Cells>(cells: &C, column: u32) -> ValueRef<'_>
    ensures value { owned result ≡ value_at (C.cells cells.now) column }
    ensures short { IsShort result }
{
    match cells.find(column as usize) {
        Lookup::At(value) => value,
        Lookup::Behind(_) => ValueRef::Null,
    }
}

pub fn is_null(value: ValueRef<'_>) -> bool
    ensures { result ≡ is_null (owned value.entry) }
{
    matches!(value, ValueRef::Null)
}

impl Cells for Row {
    ghost cells = { λ row. row };

    fn find(&self, place: usize) -> Lookup<'_> {
        let values = self.values();
        match values.get(place) {
            Some(value) => Lookup::At(value.lend()),
            None => Lookup::Behind(place - values.len()),
        }
    }
}

impl<R: Cells> Cells for &R {
    ghost cells = { λ row. R.cells row.now };

    fn find(&self, place: usize) -> Lookup<'_> {
        (**self).find(place)
    }
}

/// A row of the tables joined so far, and beside it one of the next table.
#[derive_where(Clone, Copy)]
pub struct Beside<'a, L, R> {
    pub left: &'a L,
    pub right: &'a R,
}

impl<L: Cells, R: Cells> Cells for Beside<'_, L, R> {
    ghost use Rattle.std.specs.Prelude.{◌++◌};

    ghost cells = { λ b. L.cells b.left.now ++ R.cells b.right.now };

    fn find(&self, place: usize) -> Lookup<'_> {
        match self.left.find(place) {
            Lookup::At(value) => Lookup::At(value),
            Lookup::Behind(rest) => self.right.find(rest),
        }
    }
}
