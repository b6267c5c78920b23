ghost use Rattle.std.specs.Prelude.{◌≡◌, ◌+◌, ◌<◌, ◌≤◌, ◌++◌, ℕ, List, true, IfOk, IfSome, OnOk, get_or, is_some, length, take, vec_len};
ghost use Rattle.sql_model.specs.declared.changes.Added.{Added as Part};
ghost use Rattle.std.specs.List.{list_any};
ghost use Rattle.std.specs.Option.{option_map_or};
ghost use Rattle.lake_core.specs.Rooms.{IsRoomFor, catalog_rows_for, rows_needed, table_rows_for, total};
ghost use Rattle.lake_values.specs.Texts.{same_text};
ghost use Rattle.table_history.specs.Histories.{KeepsRoom, has_spare_rows};

use crate::catalogs::Catalog;
use crate::chronicles::Chronicle;
use crate::part_changes::PartChange;
use crate::transactions::{KeptTransaction, Room, rows_added};
use lake_values::{NoMemory, Text};
use sql_model::Added;
use std::alloc::Global;
use table_history::History;

/// Makes what the commit of one of the transactions needs after a further statement of it, beside what is reserved already.
pub fn room_for(
    alloc: Global,
    chronicle: &mut Chronicle,
    history: &mut History,
    catalog: &mut Catalog,
    running: &[KeptTransaction],
    place: usize,
    more: &PartChange,
) -> Result<Room, NoMemory>
    requires within { place < length running.now }
    ensures entries { chronicle.new.entries ≡ chronicle.old.entries }
    ensures chronicle_keeps { chronicle.old.spare ≤ chronicle.new.spare }
    ensures entries_room { IfOk result (λ room. length running.now ≤ chronicle.new.spare) }
    ensures first { history.new.first ≡ history.old.first }
    ensures tables { history.new.tables ≡ history.old.tables }
    ensures history_keeps { KeepsRoom history.old history.new }
    ensures tables_room { ((name : List ℕ) → has_spare_rows history.old.spares name (total (table_rows_for name) running.now) ≡ true) → (open_ : KeptTransaction) → open_ ≡ get_or running.now place open_ →
        IfOk result (λ room. (name : List ℕ) → has_spare_rows history.new.spares name (rows_needed running.now open_.added.items more.now.added.items name) ≡ true) }
    ensures rows { catalog.new.rows ≡ catalog.old.rows }
    ensures catalog_keeps { total catalog_rows_for running.now ≤ catalog.old.spare → total catalog_rows_for running.now ≤ catalog.new.spare }
    ensures rows_room { IfOk result (λ room. total catalog_rows_for running.now + vec_len room.rows ≤ catalog.new.spare) }
    ensures made { (open_ : KeptTransaction) → open_ ≡ get_or running.now place open_ → IfOk result (IsRoomFor (open_.removed.items ++ more.now.removed.items)) }
{
    let transaction = &running[place];
    let room = Room::of(
        alloc,
        transaction.removed.as_slice(),
        more.removed.as_slice(),
    )?;
    chronicle.reserve(running.len())?;
    reserve_rows(catalog, running, room.rows.len())?;
    reserve_tables(
        history,
        running,
        transaction.added.as_slice(),
        more.added.as_slice(),
    )?;
    Ok(room)
}

/// Makes the room of one of the transactions anew, if it has room, as it is needed after a further statement; and room for
/// an entry beside those of all transactions.
pub fn room_again(
    alloc: Global,
    chronicle: &mut Chronicle,
    history: &mut History,
    catalog: &mut Catalog,
    running: &[KeptTransaction],
    place: usize,
    more: &PartChange,
) -> Result<Option<Room>, NoMemory>
    requires within { place < length running.now }
    ensures entries { chronicle.new.entries ≡ chronicle.old.entries }
    ensures chronicle_keeps { chronicle.old.spare ≤ chronicle.new.spare }
    ensures entries_room { OnOk result (1 + length running.now ≤ chronicle.new.spare) }
    ensures first { history.new.first ≡ history.old.first }
    ensures tables { history.new.tables ≡ history.old.tables }
    ensures history_keeps { KeepsRoom history.old history.new }
    ensures tables_room { ((name : List ℕ) → has_spare_rows history.old.spares name (total (table_rows_for name) running.now) ≡ true) → (open_ : KeptTransaction) → open_ ≡ get_or running.now place open_ →
        IfOk result (λ room. is_some open_.room ≡ true → (name : List ℕ) → has_spare_rows history.new.spares name (rows_needed running.now open_.added.items more.now.added.items name) ≡ true) }
    ensures rows { catalog.new.rows ≡ catalog.old.rows }
    ensures catalog_keeps { total catalog_rows_for running.now ≤ catalog.old.spare → total catalog_rows_for running.now ≤ catalog.new.spare }
    ensures rows_room { total catalog_rows_for running.now ≤ catalog.old.spare → IfOk result (λ room. total catalog_rows_for running.now + option_map_or (λ made. vec_len made.rows) room 0 ≤ catalog.new.spare) }
    ensures made { (open_ : KeptTransaction) → open_ ≡ get_or running.now place open_ → IfOk result (λ room. IfSome room (IsRoomFor (open_.removed.items ++ more.now.removed.items))) }
    ensures kept { (open_ : KeptTransaction) → open_ ≡ get_or running.now place open_ → IfOk result (λ room. is_some room ≡ is_some open_.room) }
{
    let room = match running[place].room {
        Some(_) => Some(room_for(alloc, chronicle, history, catalog, running, place, more)?),
        None => None,
    };
    chronicle.reserve(1 + running.len())?;
    Ok(room)
}

/// Makes room for rows of the catalogue beside those that are reserved.
fn reserve_rows(
    catalog: &mut Catalog,
    running: &[KeptTransaction],
    more: usize,
) -> Result<(), NoMemory>
    ensures rows { catalog.new.rows ≡ catalog.old.rows }
    ensures keeps { total catalog_rows_for running.now ≤ catalog.old.spare → total catalog_rows_for running.now ≤ catalog.new.spare }
    ensures room { OnOk result (total catalog_rows_for running.now + more ≤ catalog.new.spare) }
{
    let rows = sum(catalog_rows_reserved(running)?, more)?;
    catalog.reserve(rows)
}

/// For how many rows of the catalogue room is reserved.
fn catalog_rows_reserved(running: &[KeptTransaction]) -> Result<usize, NoMemory>
    ensures { IfOk result (λ rows. rows ≡ total catalog_rows_for running.now) }
{
    let mut rows: usize = 0;
    for transaction in running {
        rows = sum(rows, transaction.catalog_rows())?;
    }
    Ok(rows)
}

/// Makes room for the rows of these parts and of those in their tables, beside what is reserved.
fn reserve_tables(
    history: &mut History,
    running: &[KeptTransaction],
    added: &[Added],
    more: &[Added],
) -> Result<(), NoMemory>
    ensures first { history.new.first ≡ history.old.first }
    ensures tables { history.new.tables ≡ history.old.tables }
    ensures keeps { KeepsRoom history.old history.new }
    ensures room { ((name : List ℕ) → has_spare_rows history.old.spares name (total (table_rows_for name) running.now) ≡ true) →
        OnOk result ((name : List ℕ) → has_spare_rows history.new.spares name (rows_needed running.now added.now more.now name) ≡ true) }
{
    reserve_named(history, running, added, more, added)?;
    reserve_named(history, running, added, more, more)
}

/// Makes the room that parts need in the tables that some of them name.
fn reserve_named(
    history: &mut History,
    running: &[KeptTransaction],
    added: &[Added],
    more: &[Added],
    named: &[Added],
) -> Result<(), NoMemory>
    ensures first { history.new.first ≡ history.old.first }
    ensures tables { history.new.tables ≡ history.old.tables }
    ensures keeps { KeepsRoom history.old history.new }
    ensures room { OnOk result ((name : List ℕ) → list_any (λ a. same_text a.table name) named.now ≡ true → has_spare_rows history.new.spares name (rows_needed running.now added.now more.now name) ≡ true) }
{
    for place in 0..named.len() {
        reserve_part(history, running, added, more, named, place)?;
    }
    Ok(())
}

/// Makes the room that parts need in the table of one of them, which was made already where the part before is of this
/// table.
fn reserve_part(
    history: &mut History,
    running: &[KeptTransaction],
    added: &[Added],
    more: &[Added],
    named: &[Added],
    place: usize,
) -> Result<(), NoMemory>
    requires within { place < length named.now }
    ensures first { history.new.first ≡ history.old.first }
    ensures tables { history.new.tables ≡ history.old.tables }
    ensures keeps { KeepsRoom history.old history.new }
    ensures room { ((name : List ℕ) → list_any (λ a. same_text a.table name) (take place named.now) ≡ true → has_spare_rows history.old.spares name (rows_needed running.now added.now more.now name) ≡ true) →
        OnOk result ((name : List ℕ) → list_any (λ a. same_text a.table name) (take (place + 1) named.now) ≡ true → has_spare_rows history.new.spares name (rows_needed running.now added.now more.now name) ≡ true) }
{
    if repeats(named, place) {
        return Ok(());
    }
    reserve_table(history, running, added, more, &named[place].table)
}

/// Whether a part is of the table of the part before it.
fn repeats(parts: &[Added], place: usize) -> bool
    requires { place < length parts.now }
    ensures { result ≡ true → (part : Part) → part ≡ get_or parts.now place part → list_any (λ a. same_text a.table part.table) (take place parts.now) ≡ true }
{
    match place.checked_sub(1) {
        Some(before) => parts[before].table == parts[place].table,
        None => false,
    }
}

/// Makes the room that parts need in a table.
fn reserve_table(
    history: &mut History,
    running: &[KeptTransaction],
    added: &[Added],
    more: &[Added],
    table: &Text,
) -> Result<(), NoMemory>
    ensures first { history.new.first ≡ history.old.first }
    ensures tables { history.new.tables ≡ history.old.tables }
    ensures keeps { KeepsRoom history.old history.new }
    ensures room { OnOk result (has_spare_rows history.new.spares table.now (rows_needed running.now added.now more.now table.now) ≡ true) }
{
    let reserved = rows_reserved(running, table)?;
    let rows = sum(reserved, rows_added(added, table)?)?;
    let rows = sum(rows, rows_added(more, table)?)?;
    history.reserve(table, rows)
}

fn sum(a: usize, b: usize) -> Result<usize, NoMemory>
    ensures { IfOk result (λ c. c ≡ a + b) }
{
    a.checked_add(b).ok_or(NoMemory)
}

/// Makes room for an entry beside those of the open transactions, and answers for how many rows of a table room is reserved
/// for them.
pub fn room_beside(
    chronicle: &mut Chronicle,
    running: &[KeptTransaction],
    table: &Text,
) -> Result<usize, NoMemory>
    ensures same { chronicle.new.entries ≡ chronicle.old.entries }
    ensures keeps { chronicle.old.spare ≤ chronicle.new.spare }
    ensures room { OnOk result (1 + length running.now ≤ chronicle.new.spare) }
    ensures rows { IfOk result (λ rows. rows ≡ total (table_rows_for table.now) running.now) }
{
    let rows = rows_reserved(running, table)?;
    chronicle.reserve(1 + running.len())?;
    Ok(rows)
}

/// For how many rows of a table room is reserved for all sessions together.
fn rows_reserved(running: &[KeptTransaction], table: &Text) -> Result<usize, NoMemory>
    ensures { IfOk result (λ rows. rows ≡ total (table_rows_for table.now) running.now) }
{
    let mut rows: usize = 0;
    for transaction in running {
        rows = sum(rows, transaction.rows_reserved(table)?)?;
    }
    Ok(rows)
}
