ghost use Rattle.std.specs.Prelude.{◌≡◌, ◌<◌, ◌≤◌, ◌+◌, List, ℕ, ◌∷◌, ◌++◌, [], length, map, filter, vec_len, vec_capacity, position, is_none, IfOk, OnOk, true, replicate};
ghost use Rattle.std.specs.List.{AllByRecursion, list_any};
ghost use Rattle.lake_values.specs.Rows.{value_at};
ghost use Rattle.lake_values.specs.Texts.{same_text};
ghost use Rattle.lake_values.specs.Cells.{cell};
ghost use Rattle.table_history.specs.Stores.{HaveOwnNames, cleared_if, grown_store, kept_by, marked_of, rows_at, grown_stores, spare_at, stamped, stamped_store, stored};
ghost use Rattle.table_history.specs.Histories.{NamesTables, has_spare_rows, rows_for};
ghost use Rattle.table_history.specs.Strikes.{IsAscending, remaining, struck, times};

use crate::kept::{Kept, ViewRow};
use crate::strikes::{strikes, unused};
use lake_values::{NoMemory, Row, Schema, Text, Value, cell_of};
use sql_model::{Added, MarkedRow, Marks};
use std::alloc::Global;

/// A table with the rows of all its versions.
#[derive(Debug, Drop)]
pub struct Store {
    pub name: Text,
    pub schema: Schema,
    /// The commit that created the table.
    pub created: u64,
    pub rows: Vec<Kept>,
}

/// The cell of a row of a table.
pub fn cell_in(schema: &Schema, row: &Row) -> u32
    ensures { result ≡ cell (value_at row.now schema.now.distribution) }
{
    match row.values().get(schema.distribution() as usize) {
        Some(value) => cell_of(value),
        None => cell_of(&Value::Null),
    }
}

/// Puts a row behind the others if it stands in the version and isn't to be struck off.
fn put_left<'a>(
    kept: &'a Kept,
    version: u64,
    table: &Text,
    removed: &[MarkedRow],
    used: &mut Vec<usize>,
    rows: &mut Vec<ViewRow<'a>>,
) -> Result<(), NoMemory>
    requires ascending { IsAscending removed.now }
    requires len { vec_len used.old ≡ length removed.now }
    requires within { AllByRecursion (λ n. n ≤ length removed.now) used.old.items }
    ensures rows { OnOk result ((ks : List Kept) →
        map (marked_of table.now) rows.new.items ++ struck (remaining removed.now used.new.items) (rows_at version table.now ks)
        ≡ map (marked_of table.now) rows.old.items ++ struck (remaining removed.now used.old.items) (rows_at version table.now (kept.now ∷ ks))) }
    ensures len { vec_len used.new ≡ length removed.now }
    ensures within { AllByRecursion (λ n. n ≤ length removed.now) used.new.items }
{
    if !kept.stands(version) {
        return Ok(());
    }
    let row = kept.lend();
    if !strikes(removed, used, table, &row) {
        rows.push(row)?;
    }
    Ok(())
}

impl Store {
    /// The rows of a version that are left without the removed ones, which stand in the order of their marks.
    pub fn rows_left(
        &self,
        alloc: Global,
        version: u64,
        removed: &[MarkedRow],
    ) -> Result<Vec<ViewRow<'_>>, NoMemory>
        requires ascending { IsAscending removed.now }
        ensures { IfOk result (λ rows. map (marked_of self.now.name) rows.items ≡ struck (times removed.now) (rows_at version self.now.name self.now.rows.items)) }
    {
        let mut used = unused(alloc, removed)?;
        let mut rows = Vec::new(alloc);
        for kept in self.rows.as_slice() {
            put_left(kept, version, &self.name, removed, &mut used, &mut rows)?;
        }
        Ok(rows)
    }
}

/// Notes the commit that removes a row, if it stands in the version before and is to be struck off.
fn stamp(
    kept: &mut Kept,
    version: u64,
    seq: u64,
    table: &Text,
    removed: &[MarkedRow],
    used: &mut Vec<usize>,
)
    requires ascending { IsAscending removed.now }
    requires len { vec_len used.old ≡ length removed.now }
    requires within { AllByRecursion (λ n. n ≤ length removed.now) used.old.items }
    ensures rows { (ks : List Kept) → kept.new ∷ stamped table.now version seq (remaining removed.now used.new.items) ks
        ≡ stamped table.now version seq (remaining removed.now used.old.items) (kept.old ∷ ks) }
    ensures len { vec_len used.new ≡ length removed.now }
    ensures within { AllByRecursion (λ n. n ≤ length removed.now) used.new.items }
{
    if !kept.stands(version) {
        return;
    }
    if strikes(removed, used, table, &kept.lend()) {
        kept.removed = Some(seq);
    }
}

/// Notes the commit that removes rows of a table, each as often as it stands among the removed ones.
fn stamp_rows(
    rows: &mut Vec<Kept>,
    version: u64,
    seq: u64,
    table: &Text,
    removed: &[MarkedRow],
    used: &mut Vec<usize>,
)
    requires ascending { IsAscending removed.now }
    requires used { used.old.items ≡ replicate (length removed.now) 0 }
    ensures rows { rows.new.items ≡ stamped table.now version seq (times removed.now) rows.old.items }
    ensures len { vec_len rows.new ≡ vec_len rows.old }
    ensures capacity { vec_capacity rows.new ≡ vec_capacity rows.old }
    ensures used { vec_len used.new ≡ length removed.now }
{
    for i in 0..rows.len() {
        stamp(&mut rows[i], version, seq, table, removed, used);
    }
}

/// Which store has the name.
pub fn place_of(stores: &[Store], name: &Text) -> Option<usize>
    ensures { result ≡ position (λ s. same_text s.name name.now) stores.now }
{
    stores.iter().position(|store| store.name == *name)
}

/// Whether one of the marks is of the table.
fn names(marks: &Marks, table: &Text) -> bool
    ensures { result ≡ list_any (λ mark. same_text mark.table table.now) marks.now }
{
    marks.as_slice().iter().any(|mark| mark.table == *table)
}

/// Nothing is struck off any more.
fn clear(used: &mut Vec<usize>)
    ensures { used.new.items ≡ replicate (vec_len used.old) 0 }
{
    let removed = used.len();
    used.clear();
    used.resize(removed, 0).unwrap();
}

/// Notes the commit that removes rows of a store, if the marks name its table.
fn stamp_store(
    store: &mut Store,
    version: u64,
    seq: u64,
    marks: &Marks,
    removed: &[MarkedRow],
    used: &mut Vec<usize>,
)
    requires ascending { IsAscending removed.now }
    requires names { NamesTables marks.now removed.now }
    requires used { vec_len used.old ≡ length removed.now }
    ensures store { stored store.new ≡ stamped_store version seq removed.now (stored store.old) }
    ensures spare { spare_at store.new ≡ spare_at store.old }
    ensures used { vec_len used.new ≡ length removed.now }
{
    if names(marks, &store.name) {
        clear(used);
        stamp_rows(&mut store.rows, version, seq, &store.name, removed, used);
    }
}

/// Notes the commit that removes rows from the tables that the marks name.
pub fn stamp_stores(
    stores: &mut Vec<Store>,
    version: u64,
    seq: u64,
    marks: &Marks,
    removed: &[MarkedRow],
    used: &mut Vec<usize>,
)
    requires ascending { IsAscending removed.now }
    requires names { NamesTables marks.now removed.now }
    requires used { vec_len used.old ≡ length removed.now }
    ensures stores { map stored stores.new.items ≡ map (stamped_store version seq removed.now) (map stored stores.old.items) }
    ensures spares { map spare_at stores.new.items ≡ map spare_at stores.old.items }
{
    for i in 0..stores.len() {
        stamp_store(&mut stores[i], version, seq, marks, removed, used);
    }
}

/// Puts a row behind the others, as a part of a commit adds it, in room that was made for it.
fn put_row(rows: &mut Vec<Kept>, schema: &Schema, seq: u64, part: u32, row: Row)
    requires { vec_len rows.old < vec_capacity rows.old }
    ensures rows { rows.new.items ≡ rows.old.items ++ kept_by schema.now seq part row ∷ [] }
    ensures len { vec_len rows.new ≡ vec_len rows.old + 1 }
    ensures capacity { vec_capacity rows.new ≡ vec_capacity rows.old }
{
    let cell = cell_in(schema, &row);
    rows.push_reserved(Kept {
        seq,
        part,
        cell,
        removed: None,
        row,
    });
}

/// Puts the rows of a part of a commit behind the others, in room that was made for them.
fn put_rows(rows: &mut Vec<Kept>, schema: &Schema, seq: u64, part: u32, more: Vec<Row>)
    requires { vec_len rows.old + vec_len more ≤ vec_capacity rows.old }
    ensures rows { rows.new.items ≡ rows.old.items ++ map (kept_by schema.now seq part) more.items }
    ensures len { vec_len rows.new ≡ vec_len rows.old + vec_len more }
    ensures capacity { vec_capacity rows.new ≡ vec_capacity rows.old }
{
    for row in more {
        put_row(rows, schema, seq, part, row);
    }
}

/// Puts the rows that a part of a commit adds into the store of their table, if there is one, in room that was made for
/// them.
fn add_part(stores: &mut Vec<Store>, seq: u64, added: Added)
    requires own_names { HaveOwnNames (map stored stores.old.items) }
    requires room { (name : List ℕ) → has_spare_rows (map spare_at stores.old.items) name (rows_for name (added ∷ [])) ≡ true }
    ensures stores { map stored stores.new.items ≡ map (grown_store seq added) (map stored stores.old.items) }
    ensures room { (name : List ℕ) (rows : ℕ) → has_spare_rows (map spare_at stores.old.items) name (rows_for name (added ∷ []) + rows) ≡ true → has_spare_rows (map spare_at stores.new.items) name rows ≡ true }
{
    let Some(place) = place_of(stores.as_slice(), &added.table) else {
        return;
    };
    let store = &mut stores[place];
    let rows = added.rows.into_rows();
    put_rows(&mut store.rows, &store.schema, seq, added.part, rows);
}

/// Puts the rows of all parts of a commit into the stores of their tables, in room that was made for them.
pub fn add_parts(stores: &mut Vec<Store>, seq: u64, added: Vec<Added>)
    requires own_names { HaveOwnNames (map stored stores.old.items) }
    requires room { (name : List ℕ) → has_spare_rows (map spare_at stores.old.items) name (rows_for name added.items) ≡ true }
    ensures stores { map stored stores.new.items ≡ grown_stores seq added.items (map stored stores.old.items) }
    ensures room { (name : List ℕ) (rows : ℕ) → has_spare_rows (map spare_at stores.old.items) name (rows_for name added.items + rows) ≡ true → has_spare_rows (map spare_at stores.new.items) name rows ≡ true }
{
    for part in added {
        add_part(stores, seq, part);
    }
}

/// Takes away the rows that a commit removed.
fn clear_rows(rows: &mut Vec<Kept>)
    ensures rows { rows.new.items ≡ filter (λ k. is_none k.removed) rows.old.items }
    ensures capacity { vec_capacity rows.new ≡ vec_capacity rows.old }
    ensures len { vec_len rows.new ≤ vec_len rows.old }
{
    rows.retain(|kept| kept.is_current());
}

/// Takes away the rows that a commit removed from the tables that the marks name.
pub fn clear_stores(stores: &mut Vec<Store>, marks: &Marks)
    ensures stores { map stored stores.new.items ≡ map (cleared_if marks.now) (map stored stores.old.items) }
    ensures room { (name : List ℕ) (rows : ℕ) → has_spare_rows (map spare_at stores.old.items) name rows ≡ true → has_spare_rows (map spare_at stores.new.items) name rows ≡ true }
{
    for i in 0..stores.len() {
        clear_named(&mut stores[i], marks);
    }
}

/// Takes away the rows of a store that a commit removed, if the marks name its table.
fn clear_named(store: &mut Store, marks: &Marks)
    ensures store { stored store.new ≡ cleared_if marks.now (stored store.old) }
    ensures name { store.new.name ≡ store.old.name }
    ensures capacity { vec_capacity store.new.rows ≡ vec_capacity store.old.rows }
    ensures len { vec_len store.new.rows ≤ vec_len store.old.rows }
{
    if names(marks, &store.name) {
        clear_rows(&mut store.rows);
    }
}

/// Makes room for more rows in the store of a table, if there is one.
pub fn reserve_rows(stores: &mut Vec<Store>, table: &Text, rows: usize) -> Result<(), NoMemory>
    ensures stores { map stored stores.new.items ≡ map stored stores.old.items }
    ensures keeps { (name : List ℕ) (more : ℕ) → has_spare_rows (map spare_at stores.old.items) name more ≡ true → has_spare_rows (map spare_at stores.new.items) name more ≡ true }
    ensures room { OnOk result (has_spare_rows (map spare_at stores.new.items) table.now rows ≡ true) }
{
    let Some(place) = place_of(stores.as_slice(), table) else {
        return Ok(());
    };
    stores[place].rows.reserve(rows)?;
    Ok(())
}
