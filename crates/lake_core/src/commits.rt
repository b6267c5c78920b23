ghost use Rattle.std.specs.Prelude.{◌≡◌, ◌+◌, ◌<◌, ◌≤◌, ◌^◌, ◌++◌, ◌&&◌, ℕ, List, Some, true, is_some, map, length, vec_len};
ghost use Rattle.lake_core.specs.Consistency.{IsHistory};
ghost use Rattle.lake_core.specs.Rooms.{AreOpen, IsRoomFor, stamped};
ghost use Rattle.lake_model.specs.State.{State};
ghost use Rattle.sql_model.specs.Changes as changes;
ghost use Rattle.table_history.specs.Histories.{GrowsBy, KeepsRoom, change_from, has_spare_rows, last_of, newest_of, rows_for};
ghost use Rattle.table_history.specs.Strikes.{IsAscending};
ghost use Rattle.lake_core.specs.Catalogs.{IsBehind};

use crate::catalogs::Catalog;
use crate::rows::CatRow;
use crate::transactions::{KeptTransaction, Room};
use sql_model::{Added, MarkedRow, Marks};
use table_history::History;

/// A transaction that was taken out to be committed, with the room that was reserved for it.
#[derive(Debug, Drop)]
pub struct Ready {
    pub snapshot: u64,
    /// The committed rows that it removed, in the order of their marks.
    pub removed: Vec<MarkedRow>,
    pub added: Vec<Added>,
    pub room: Room,
}

impl Ready {
    pub fn of(transaction: KeptTransaction) -> Ready
        requires { is_some transaction.room ≡ true }
        ensures snapshot { result.snapshot ≡ transaction.snapshot }
        ensures removed { result.removed ≡ transaction.removed }
        ensures added { result.added ≡ transaction.added }
        ensures room { transaction.room ≡ Some result.room }
    {
        let KeptTransaction {
            snapshot,
            removed,
            added,
            room,
            ..
        } = transaction;
        Ready {
            snapshot,
            removed,
            added,
            room: room.unwrap(),
        }
    }

    /// Whether it changes nothing.
    pub fn is_unchanged(&self) -> bool
        ensures { result ≡ (changes.is_nil self.now.removed.items && changes.is_nil self.now.added.items) }
    {
        self.removed.is_empty() && self.added.is_empty()
    }
}

/// A version that a commit made.
#[derive(Debug, Drop)]
pub struct Applied {
    pub seq: u64,
    /// A mark of each table from which it removed rows.
    pub marks: Marks,
}

/// Makes what a transaction changed the next version. It takes no memory.
pub fn apply(history: &mut History, catalog: &mut Catalog, ready: Ready) -> Applied
    requires ready { IsRoomFor ready.removed.items ready.room }
    requires ascending { IsAscending ready.removed.items }
    requires small { last_of history.old + 1 < 2 ^ 62 }
    requires behind { IsBehind catalog.old.rows (last_of history.old + 1) }
    requires tables { (name : List ℕ) → has_spare_rows history.old.spares name (rows_for name ready.added.items) ≡ true }
    requires spare { vec_len ready.room.rows ≤ catalog.old.spare }
    ensures seq { result.seq ≡ last_of history.old + 1 }
    ensures made { GrowsBy history.old history.new (changes.applied (last_of history.old + 1) (change_from ready.removed.items ready.added.items) (newest_of history.old)) }
    ensures tables { (name : List ℕ) (rows : ℕ) → has_spare_rows history.old.spares name (rows_for name ready.added.items + rows) ≡ true → has_spare_rows history.new.spares name rows ≡ true }
    ensures rows { catalog.new.rows ≡ catalog.old.rows ++ map (stamped (last_of history.old + 1)) ready.room.rows.items }
    ensures spare { catalog.old.spare ≤ catalog.new.spare + vec_len ready.room.rows }
{
    let Ready {
        removed,
        added,
        room,
        ..
    } = ready;
    let Room {
        mut used,
        marks,
        rows,
    } = room;
    let seq = history.last() + 1;
    history.commit(&marks, removed.as_slice(), &mut used, added);
    record(catalog, seq, rows);
    Applied { seq, marks }
}

/// Lets earlier versions go where no transaction is open that could see them, with their rows in the tables that the marks
/// name.
pub fn forget_unseen(history: &mut History, running: &[KeptTransaction], marks: &Marks)
    ensures versions { (st : State) → AreOpen st.running running.now → IsHistory st history.old → IsHistory st history.new }
    ensures rooms { KeepsRoom history.old history.new }
{
    if running.is_empty() {
        history.forget(marks);
    }
}

/// Says in the catalogue what a commit wrote.
fn record(catalog: &mut Catalog, seq: u64, rows: Vec<CatRow>)
    requires behind { IsBehind catalog.old.rows seq }
    requires spare { vec_len rows ≤ catalog.old.spare }
    ensures rows { catalog.new.rows ≡ catalog.old.rows ++ map (stamped seq) rows.items }
    ensures spare { catalog.old.spare ≤ catalog.new.spare + vec_len rows }
{
    for row in rows {
        catalog.append(CatRow { seq, ..row });
    }
}
