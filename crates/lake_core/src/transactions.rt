ghost use Rattle.std.specs.Prelude.{◌≡◌, ◌==◌, ◌+◌, ◌^◌, ◌&&◌, ◌<◌, ◌≤◌, ◌++◌, ◌∷◌, [], None, get_or, vec_capacity, List, ℕ, position, true, false, is_some, OnOk, OnErr, IfOk, IfSome, vec_len, length};
ghost use Rattle.sql_model.specs.Changes as changes;
ghost use Rattle.sql_model.specs.Listing.{SameBag};
ghost use Rattle.lake_core.specs.Rooms.{AreOpen, HaveOwnSessions, IsOpen, IsPended, RoomFits, LeavesRooms, OpenAt, catalog_rows_for, entries_for, in_rooms, table_rows_for, total, with_room};
ghost use Rattle.table_history.specs.Histories.{rows_for};
ghost use Rattle.lake_core.specs.Lakes.{HasPart};
ghost use Rattle.lake_model.specs.State as states;
ghost use Rattle.lake_model.specs.State.{State, Transaction};
ghost use Rattle.std.specs.List.{AllByRecursion, remove};
ghost use Rattle.table_history.specs.Strikes.{IsAscending};

use crate::rows::CatRow;
use lake_values::{NoMemory, Row, Rows, Text};
use sql_model::{Added, Change, MarkedRow, Marks};
use std::alloc::Global;

/// What a commit needs beside memory that it has: it is made when room is reserved.
#[derive(Debug, Drop)]
pub struct Room {
    /// A number for each removed row.
    pub used: Vec<usize>,
    /// A mark of each table from which rows are removed.
    pub marks: Marks,
    /// What the commit writes of each of these tables.
    pub rows: Vec<CatRow>,
}

/// A session's open transaction.
#[derive(Debug, Drop)]
pub struct KeptTransaction {
    pub session: u32,
    pub explicit: bool,
    pub number: u64,
    pub snapshot: u64,
    /// How many parts it has, refusals counted.
    pub parts: u32,
    /// The committed rows that it removed, in the order of their marks.
    pub removed: Vec<MarkedRow>,
    /// The rows that each part added, without those that it removed again.
    pub added: Vec<Added>,
    pub room: Option<Room>,
}

/// Which of the transactions is the session's.
pub fn place_of(running: &[KeptTransaction], session: u32) -> Option<usize>
    ensures { result ≡ position (λ o. o.session == session) running.now }
{
    running.iter().position(|open| open.session == session)
}

/// Takes a transaction out.
pub fn take(running: &mut Vec<KeptTransaction>, place: usize) -> KeptTransaction
    requires { place < vec_len running.old }
    ensures taken { result ≡ get_or running.old.items place result }
    ensures others { running.new.items ≡ remove running.old.items place }
    ensures len { vec_len running.new + 1 ≡ vec_len running.old }
    ensures capacity { vec_capacity running.new ≡ vec_capacity running.old }
{
    running.remove(place)
}

/// Puts a transaction before the others, in room that was made for it.
pub fn put_first(running: &mut Vec<KeptTransaction>, transaction: KeptTransaction)
    requires { vec_len running.old < vec_capacity running.old }
    ensures { running.new.items ≡ transaction ∷ running.old.items }
{
    running.insert(0, transaction).unwrap();
}

impl KeptTransaction {
    /// The transaction of a session that begins.
    pub fn begun(
        alloc: Global,
        session: u32,
        explicit: bool,
        number: u64,
        snapshot: u64,
    ) -> KeptTransaction
        ensures begun { IsOpen (session, record { explicit = explicit; number = number; snapshot = snapshot; pending = changes.no_change; worn = []; parts = 0 }) result }
        ensures room { result.room ≡ None }
    {
        KeptTransaction {
            session,
            explicit,
            number,
            snapshot,
            parts: 0,
            removed: Vec::new(alloc),
            added: Vec::new(alloc),
            room: None,
        }
    }

    /// For how many rows of a table room is reserved for it.
    pub fn rows_reserved(&self, table: &Text) -> Result<usize, NoMemory>
        ensures { IfOk result (λ rows. rows ≡ table_rows_for table.now self.now) }
    {
        match self.room {
            Some(_) => rows_added(self.added.as_slice(), table),
            None => Ok(0),
        }
    }

    /// For how many rows of the catalogue room is reserved for it.
    pub fn catalog_rows(&self) -> usize
        ensures { result ≡ catalog_rows_for self.now }
    {
        match &self.room {
            Some(room) => room.rows.len(),
            None => 0,
        }
    }

    /// Whether it changed nothing.
    pub fn is_unchanged(&self) -> bool
        ensures { result ≡ (changes.is_nil self.now.removed.items && changes.is_nil self.now.added.items) }
    {
        self.removed.is_empty() && self.added.is_empty()
    }
}

/// Takes out the session's transaction, for which room is reserved.
pub fn take_reserved(running: &mut Vec<KeptTransaction>, session: u32) -> KeptTransaction
    requires own { HaveOwnSessions running.old.items }
    requires reserved { in_rooms session running.old.items ≡ true }
    ensures taken { (st : State) → AreOpen st.running running.old.items → OpenAt session st.running result }
    ensures ended { (st : State) → AreOpen st.running running.old.items → AreOpen (states.ended session st).running running.new.items }
    ensures rooms { LeavesRooms session running.old.items running.new.items }
    ensures reserved { is_some result.room ≡ true }
    ensures fits { AllByRecursion RoomFits running.old.items → RoomFits result }
    ensures weights { (g : KeptTransaction → ℕ) → total g running.old.items ≡ g result + total g running.new.items }
{
    let place = place_of(running.as_slice(), session).unwrap();
    take(running, place)
}

/// Ends the session's transaction.
pub fn end(running: &mut Vec<KeptTransaction>, session: u32)
    requires { HaveOwnSessions running.old.items }
    ensures ended { (st : State) → AreOpen st.running running.old.items → AreOpen (states.ended session st).running running.new.items }
    ensures rooms { LeavesRooms session running.old.items running.new.items }
    ensures freed { in_rooms session running.old.items ≡ true → total entries_for running.new.items + 1 ≤ total entries_for running.old.items }
{
    if let Some(place) = place_of(running.as_slice(), session) {
        let _ended = take(running, place);
    }
}

/// A statement of the session's transaction was refused: the transaction has one part more, or ends where it was opened
/// for the statement alone.
pub fn stop(running: &mut Vec<KeptTransaction>, session: u32)
    requires own { HaveOwnSessions running.old.items }
    requires part { (st : State) × AreOpen st.running running.old.items × HasPart st session }
    ensures stopped { (st : State) → AreOpen st.running running.old.items → AreOpen (states.after_stop session false st).running running.new.items }
    ensures rooms { LeavesRooms session running.old.items running.new.items }
{
    let Some(place) = place_of(running.as_slice(), session) else {
        return;
    };
    let stopped = take(running, place);
    if stopped.explicit {
        put_first(running, stopped.with_part());
    }
}

impl KeptTransaction {
    /// The transaction with one part more.
    fn with_part(self) -> KeptTransaction
        requires { self.parts + 1 < 2 ^ 32 }
        ensures { result ≡ record self { parts = self.parts + 1 } }
    {
        KeptTransaction {
            parts: self.parts + 1,
            ..self
        }
    }
}

/// Keeps the room that was made for one of the transactions.
pub fn put_room(running: &mut Vec<KeptTransaction>, place: usize, room: Room)
    requires { place < vec_len running.old }
    ensures { running.new.items ≡ with_room room running.old.items place }
{
    running[place].room = Some(room);
}

/// How many rows the parts of a transaction add to a table.
pub fn rows_added(added: &[Added], table: &Text) -> Result<usize, NoMemory>
    ensures { IfOk result (λ rows. rows ≡ rows_for table.now added.now) }
{
    let mut rows: usize = 0;
    for part in added {
        let Some(more) = rows.checked_add(rows_of_part(part, table)) else {
            return Err(NoMemory);
        };
        rows = more;
    }
    Ok(rows)
}

fn rows_of_part(part: &Added, table: &Text) -> usize
    ensures { result ≡ rows_for table.now (part.now ∷ []) }
{
    if part.table == *table {
        part.rows.rows().len()
    } else {
        0
    }
}
