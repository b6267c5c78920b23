ghost use Rattle.std.specs.Prelude.{◌≡◌, ◌<◌, ◌+◌, ◌^◌, List, ℕ, [], ◌∷◌, ◌++◌, length, map, filter, vec_len, true, false, IfOk, OnOk, OnErr};
ghost use Rattle.std.specs.Option.{option_copied, option_map};
ghost use Rattle.sql_model.specs.Changes.{applied, marked_cmp, without};
ghost use Rattle.sql_model.specs.Versions.{has_table, marked_rows_of, table_of};
ghost use Rattle.lake_values.specs.Texts.{same_text};
ghost use Rattle.sql_model.specs.Writing as writing;
ghost use Rattle.table_history.specs.Histories.{GrowsBy, IsIn, KeepsRoom, NamesTables, change_from, has_spare_rows, last_of, newest_of, no_tables, rows_for, tables_in};
ghost use Rattle.table_history.specs.Stores.{marked_of, stored, tables_at};
ghost use Rattle.table_history.specs.Strikes.{IsAscending};

use crate::kept::ViewRow;
use crate::stores::{Store, add_parts, clear_stores, place_of, reserve_rows, stamp_stores};
use lake_values::{Listed, NoMemory, Schema, Text};
use sql_model::{Added, MarkedRow, Marks, Schemas};
use std::alloc::Global;
use std::marker::Model;

/// The versions of a lake's tables. Contracts see the tables of each version that is kept, and how many rows more each
/// table has room for.
///
/// Each row is kept once, with the commits that added it and removed it. So a commit copies no rows, and a version before
/// it can still be read.
#[derive(Debug, Drop)]
pub struct History {
    stores: Vec<Store>,
    /// The first version that is kept.
    first: u64,
    /// The last version.
    last: u64,
}

impl Model for History {
    ghost use Rattle.std.specs.Prelude.{map};
    ghost use Rattle.table_history.specs.Histories.{History as Seen};

    ghost Value = { Seen };

    ghost use Rattle.table_history.specs.Stores.{IsKept, history_of, spare_at, stored};

    ghost view = { λ h. history_of (map stored h.stores.items) (map spare_at h.stores.items) h.first h.last };

    ghost invariant = { λ h. IsKept (map stored h.stores.items) h.first h.last };
}

impl History {
    /// Version 0, which has no table.
    pub fn new(alloc: Global) -> History
        ensures { result ≡ no_tables }
    {
        History {
            stores: Vec::new(alloc),
            first: 0,
            last: 0,
        }
    }

    /// The number of the last version.
    pub fn last(&self) -> u64
        ensures last { result ≡ last_of self.now }
        ensures kept { IsIn self.now result }
        ensures small { result < 2 ^ 62 }
    {
        self.last
    }

    /// Whether the last version has a table of this name.
    pub fn has_table(&self, name: &Text) -> bool
        ensures { result ≡ has_table name.now (newest_of self.now) }
    {
        place_of(self.stores.as_slice(), name).is_some()
    }

    /// The schema of a table in a version, if the version has it.
    pub fn schema(&self, version: u64, table: &Text) -> Option<&Schema>
        requires { IsIn self.now version }
        ensures { option_copied result ≡ option_map (λ t. t.schema) (table_of table.now (tables_in self.now version)) }
    {
        let Some(place) = place_of(self.stores.as_slice(), table) else {
            return None;
        };
        let store = &self.stores[place];
        if store.created <= version {
            Some(&store.schema)
        } else {
            None
        }
    }

    /// The names of a version's tables with their schemas, in the order in which the tables were created.
    pub fn schemas(&self, alloc: Global, version: u64) -> Result<Schemas, NoMemory>
        requires { IsIn self.now version }
        ensures { IfOk result (λ schemas. schemas ≡ writing.schemas_of (tables_in self.now version)) }
    {
        let mut schemas = Vec::with_capacity(alloc, self.stores.len())?;
        for store in self.stores.as_slice() {
            put_schema(alloc, store, version, &mut schemas)?;
        }
        Ok(Listed::from_list(schemas))
    }

    /// The rows of a table in a version but for removed ones, in their order. Of equal rows as many are left out as stand
    /// among the removed ones, which may be of other tables too and are in the order of their marks. There is no row where
    /// the version doesn't have the table.
    pub fn rows(
        &self,
        alloc: Global,
        version: u64,
        table: &Text,
        removed: &[MarkedRow],
    ) -> Result<Vec<ViewRow<'_>>, NoMemory>
        requires kept { IsIn self.now version }
        requires ascending { IsAscending removed.now }
        ensures { IfOk result (λ rows. map (marked_of table.now) rows.items
            ≡ without marked_cmp (marked_rows_of table.now (tables_in self.now version)) (filter (λ m. same_text m.mark.table table.now) removed.now)) }
    {
        let Some(place) = place_of(self.stores.as_slice(), table) else {
            return Ok(Vec::new(alloc));
        };
        let store = &self.stores[place];
        if version < store.created {
            return Ok(Vec::new(alloc));
        }
        store.rows_left(alloc, version, removed)
    }

    /// Makes the next version, which has one table more, with room for so many rows.
    pub fn create(
        &mut self,
        name: Text,
        schema: Schema,
        alloc: Global,
        rows: usize,
    ) -> Result<(), NoMemory>
        requires absent { has_table name (newest_of self.old) ≡ false }
        requires small { last_of self.old + 1 < 2 ^ 62 }
        ensures made { OnOk result (GrowsBy self.old self.new (newest_of self.old ++ record { name = name; schema = schema; rows = [] } ∷ [])) }
        ensures room { OnOk result (has_spare_rows self.new.spares name rows ≡ true) }
        ensures others { OnOk result ((other : List ℕ) (more : ℕ) → same_text name other ≡ false → has_spare_rows self.old.spares other more ≡ true → has_spare_rows self.new.spares other more ≡ true) }
        ensures err { OnErr result (self.new ≡ self.old) }
    {
        let created = self.last + 1;
        let store = Store {
            name,
            schema,
            created,
            rows: Vec::with_capacity(alloc, rows)?,
        };
        self.stores.push(store)?;
        self.last = created;
        Ok(())
    }

    /// Makes room for more rows of a table, if there is one of this name.
    pub fn reserve(&mut self, table: &Text, rows: usize) -> Result<(), NoMemory>
        ensures first { self.new.first ≡ self.old.first }
        ensures tables { self.new.tables ≡ self.old.tables }
        ensures keeps { KeepsRoom self.old self.new }
        ensures room { OnOk result (has_spare_rows self.new.spares table.now rows ≡ true) }
    {
        reserve_rows(&mut self.stores, table, rows)
    }

    /// Makes the next version: the last one without the removed rows, which are in the order of their marks, and with the
    /// added ones behind the others. The marks name the tables of the removed rows, and the rows of other tables aren't
    /// looked at. `used` has as many numbers as there are removed rows, and loses what they were. No memory is taken: the
    /// room for the added rows was made by `create` and `reserve`.
    pub fn commit(
        &mut self,
        marks: &Marks,
        removed: &[MarkedRow],
        used: &mut Vec<usize>,
        added: Vec<Added>,
    )
        requires ascending { IsAscending removed.now }
        requires names { NamesTables marks.now removed.now }
        requires used { vec_len used.old ≡ length removed.now }
        requires room { (name : List ℕ) → has_spare_rows self.old.spares name (rows_for name added.items) ≡ true }
        requires small { last_of self.old + 1 < 2 ^ 62 }
        ensures made { GrowsBy self.old self.new (applied (last_of self.old + 1) (change_from removed.now added.items) (newest_of self.old)) }
        ensures room { (name : List ℕ) (rows : ℕ) → has_spare_rows self.old.spares name (rows_for name added.items + rows) ≡ true → has_spare_rows self.new.spares name rows ≡ true }
    {
        let seq = self.last + 1;
        stamp_stores(&mut self.stores, self.last, seq, marks, removed, used);
        add_parts(&mut self.stores, seq, added);
        self.last = seq;
    }

    /// Keeps the last version alone. In the tables that the marks name, rows that it doesn't have are let go; those of other
    /// tables stay in memory, and no version has them.
    pub fn forget(&mut self, marks: &Marks)
        ensures first { self.new.first ≡ last_of self.old }
        ensures tables { self.new.tables ≡ newest_of self.old ∷ [] }
        ensures keeps { KeepsRoom self.old self.new }
    {
        clear_stores(&mut self.stores, marks);
        self.first = self.last;
    }
}

/// Puts the name and the schema of a table behind the others, if the version has it.
fn put_schema(
    alloc: Global,
    store: &Store,
    version: u64,
    schemas: &mut Vec<(Text, Schema)>,
) -> Result<(), NoMemory>
    ensures { OnOk result (schemas.new.items ≡ schemas.old.items ++ writing.schemas_of (tables_at version (stored store.now ∷ []))) }
{
    if store.created <= version {
        schemas.push((store.name.copy()?, store.schema.copy(alloc)?))?;
    }
    Ok(())
}
