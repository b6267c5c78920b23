ghost use Rattle.std.specs.Prelude.{◌≡◌, ◌+◌, ◌<◌, ◌≤◌, [], ◌∷◌, ◌++◌, IfSome, IfNone, OnOk, OnErr};
ghost use Rattle.lake_core.specs.Catalogs.{IsBehind};
ghost use Rattle.lake_core.specs.Rows.{HasNoConflict, IsFirstConflict};

use crate::conflicts::{first_writer, later_rows};
use crate::rows::CatRow;
use lake_values::NoMemory;
use sql_model::Marks;
use std::alloc::Global;
use std::marker::Model;

/// The rows of all commits, in the order of the commits. Contracts see the rows, and how many more it has room for.
#[derive(Debug, Drop)]
pub struct Catalog {
    rows: Vec<CatRow>,
}

impl Model for Catalog {
    ghost use Rattle.std.specs.Prelude.{◌-◌, vec_capacity, vec_len};
    ghost use Rattle.lake_core.specs.Catalogs.{Catalogued};
    ghost use Rattle.lake_core.specs.Rows.{AreInOrder};

    ghost Value = { Catalogued };

    ghost view = { λ c. record { rows = c.rows.items; spare = vec_capacity c.rows - vec_len c.rows } };

    ghost invariant = { λ c. AreInOrder c.rows.items };
}

impl Catalog {
    /// The catalogue of a lake without commits.
    pub fn empty(alloc: Global) -> Catalog
        ensures { result.rows ≡ [] }
    {
        Catalog {
            rows: Vec::new(alloc),
        }
    }

    /// The rows, in the order of their commits.
    pub fn rows(&self) -> &[CatRow]
        ensures { result.now ≡ self.now.rows }
    {
        self.rows.as_slice()
    }

    /// The first commit after a snapshot that wrote what a transaction wrote that removed rows with these marks. It looks
    /// at the rows of later commits alone.
    pub fn first_conflict(&self, snapshot: u64, marks: &Marks) -> Option<u64>
        ensures found { IfSome result (IsFirstConflict snapshot marks.now self.now.rows) }
        ensures none { IfNone result (HasNoConflict snapshot marks.now self.now.rows) }
    {
        first_writer(later_rows(self.rows.as_slice(), snapshot), marks)
    }

    /// Makes room for more rows.
    pub fn reserve(&mut self, rows: usize) -> Result<(), NoMemory>
        ensures same { self.new.rows ≡ self.old.rows }
        ensures room { OnOk result (rows ≤ self.new.spare) }
        ensures err { OnErr result (self.new.spare ≡ self.old.spare) }
    {
        self.rows.reserve(rows)?;
        Ok(())
    }

    /// Puts the row of a commit behind the others. It takes no memory.
    pub fn append(&mut self, row: CatRow)
        requires room { 0 < self.old.spare }
        requires order { IsBehind self.old.rows row.seq }
        ensures rows { self.new.rows ≡ self.old.rows ++ row ∷ [] }
        ensures room { self.old.spare ≤ self.new.spare + 1 }
    {
        self.rows.push(row).unwrap();
    }
}
