ghost use Rattle.std.specs.Prelude.{◌≡◌, ◌≢◌, ◌+◌, ◌<◌, ◌≤◌, ◌^◌, ℕ, [], ◌∷◌, true, false, Ok, None, Some, IsNone, IsSome, IfOk, IfSome, OnOk, OnErr, length, map};
ghost use Rattle.std.specs.Option.{option_map};
ghost use Rattle.lake_model.specs.Allowed.{IsAllowedRefusal, IsLegal};
ghost use Rattle.lake_model.specs.State.{is_inside, last, newest, transaction, view};
ghost use Rattle.sql_model.specs.Versions.{has_table};
ghost use Rattle.lake_model.specs.declared.entries.Fact.TheVariants as fact;
ghost use Rattle.lake_core.specs.Facts as facts;
ghost use Rattle.lake_core.specs.Lakes.{Adds, HasPart, IsExplicit, IsStatementEffect, is_reserved, new_lake, state_of};
ghost use Rattle.lake_core.specs.Opened.{opened};

use crate::catalogs::Catalog;
use crate::chronicles::Chronicle;
use crate::commits::{Applied, Ready, apply, forget_unseen};
use crate::entries::{Creation, Ran, committed, entry, parts_of};
use crate::opened::OpenTxn;
use crate::part_changes::PartChange;
use crate::reservations::{room_again, room_beside, room_for};
use crate::transactions::{
    KeptTransaction, end, place_of, put_first, put_room, stop, take, take_reserved,
};
use crate::views::Lent;
use crate::who::Who;
use lake_model::Fact;
use lake_outside::Port;
use lake_values::{NoMemory, Schema, Text};
use sql_model::{Change, Refusal, Reply};
use std::alloc::Global;
use std::marker::{Model, PhantomData};
use table_history::History;

/// A lake: its chronicle, its versions and its open transactions.
///
/// The chronicle is always legal. Each call that takes a `Who` appends one entry, of its session and at its place, and
/// answers what that entry says; where it answers want of memory instead, the lake is as it was. Room that `reserve` made
/// for a session lasts as long as its transaction is open.
#[derive(Drop)]
pub struct LakeState<P: Port> {
    chronicle: Chronicle,
    history: History,
    catalog: Catalog,
    running: Vec<KeptTransaction>,
    /// The number of the last transaction.
    last_number: u64,
    ports: PhantomData<P>,
}

impl<P: Port> Model for LakeState<P> {
    ghost use Rattle.lake_core.specs.Lakes.{Lake};

    ghost Value = { Lake };

    ghost use Rattle.lake_core.specs.Rooms.{rooms_of};
    ghost use Rattle.lake_core.specs.Consistency.{IsConsistent, chronicle_of};

    ghost view = { λ l. record { entries = chronicle_of l.chronicle.entries; rooms = rooms_of l.running.items } };

    ghost invariant = { λ l. IsConsistent (chronicle_of l.chronicle.entries) l.history l.running.items l.catalog l.chronicle.spare l.last_number };
}

impl<P: Port> LakeState<P> {
    /// A lake without tables.
    pub fn new(alloc: Global) -> Result<LakeState<P>, NoMemory>
        ensures { IfOk result (λ lake. lake ≡ new_lake) }
    {
        Ok(LakeState {
            chronicle: Chronicle::empty(alloc),
            history: History::new(alloc),
            catalog: Catalog::empty(alloc),
            running: Vec::new(alloc),
            last_number: 0,
            ports: PhantomData,
        })
    }

    /// All entries in the order in which they took place.
    pub fn chronicle(&self) -> &Chronicle
        ensures entries { result.now.entries ≡ map (λ e. e.entry) self.now.entries }
        ensures legal { IsLegal true self.now.entries }
    {
        &self.chronicle
    }

    /// Whether the last version has a table of this name.
    pub fn has_table(&self, table: &Text) -> bool
        ensures { result ≡ has_table table.now (newest (state_of self.now)).tables }
    {
        self.history.has_table(table)
    }

    /// The session's open transaction, if it has one.
    pub fn transaction(&self, session: u32) -> Option<OpenTxn>
        ensures { result ≡ option_map opened (transaction (state_of self.now) session) }
    {
        match place_of(self.running.as_slice(), session) {
            Some(place) => Some(OpenTxn::of(&self.running[place])),
            None => None,
        }
    }

    /// What the session's transaction sees, lent.
    pub fn lend(&self, session: u32) -> Lent<'_>
        requires { IsSome (transaction (state_of self.now) session) }
        ensures { result ≡ (view (state_of self.now) session).tables }
    {
        let place = place_of(self.running.as_slice(), session).unwrap();
        Lent::of(&self.history, &self.running[place])
    }

    /// Creates a table outside a transaction, where no table has the name.
    ///
    /// Inside a transaction and where the name is taken the answer is that refusal.
    pub fn create(
        &mut self,
        alloc: Global,
        who: Who,
        table: &Text,
        schema: &Schema,
    ) -> Result<Reply, NoMemory>
        requires few { length self.old.entries < 2 ^ 61 }
        requires explicit { IsExplicit (state_of self.old) who.session }
        requires part { HasPart (state_of self.old) who.session }
        ensures entry { OnOk result (Adds self.old self.new who (facts.creation (state_of self.old) who.session table.now schema.now)) }
        ensures reply { IfOk result (λ reply. reply ≡ facts.answer (facts.creation (state_of self.old) who.session table.now schema.now)) }
        ensures err { OnErr result (self.new ≡ self.old) }
    {
        if place_of(self.running.as_slice(), who.session).is_some() {
            return self.refuse(who, Refusal::InTransaction);
        }
        if self.history.has_table(table) {
            return self.refuse(who, Refusal::TableExists(table.copy()?));
        }
        self.make(alloc, who, table, schema)
    }

    /// Creates a table that isn't there, outside a transaction.
    fn make(
        &mut self,
        alloc: Global,
        who: Who,
        table: &Text,
        schema: &Schema,
    ) -> Result<Reply, NoMemory>
        requires few { length self.old.entries < 2 ^ 61 }
        requires outside { IsNone (transaction (state_of self.old) who.session) }
        requires absent { has_table table.now (newest (state_of self.old)).tables ≡ false }
        ensures entry { OnOk result (Adds self.old self.new who (fact.Created table.now schema.now (last (state_of self.old) + 1))) }
        ensures reply { IfOk result (λ reply. reply ≡ facts.answer (fact.Created table.now schema.now (last (state_of self.old) + 1))) }
        ensures err { OnErr result (self.new ≡ self.old) }
    {
        let seq = self.history.last() + 1;
        let Creation {
            name,
            schema,
            did,
            reply,
        } = Creation::of(alloc, who, table, schema, seq)?;
        let rows = room_beside(&mut self.chronicle, self.running.as_slice(), table)?;
        self.history.create(name, schema, alloc, rows)?;
        self.chronicle.push(did);
        Ok(reply)
    }

    /// Begins a transaction of the session, where it has none.
    ///
    /// Its snapshot is the last version. BEGIN makes it explicit; a statement that stands alone begins one for itself.
    pub fn begin(&mut self, alloc: Global, who: Who, explicit: bool) -> Result<Reply, NoMemory>
        requires few { length self.old.entries < 2 ^ 61 }
        requires explicit { IsExplicit (state_of self.old) who.session }
        requires part { HasPart (state_of self.old) who.session }
        ensures entry { OnOk result (Adds self.old self.new who (facts.beginning (state_of self.old) who.session explicit)) }
        ensures reply { IfOk result (λ reply. reply ≡ facts.answer (facts.beginning (state_of self.old) who.session explicit)) }
        ensures err { OnErr result (self.new ≡ self.old) }
    {
        if place_of(self.running.as_slice(), who.session).is_some() {
            return self.refuse(who, Refusal::InTransaction);
        }
        self.chronicle.reserve(1 + self.running.len())?;
        self.running.reserve(1)?;
        let txn = self.last_number + 1;
        let snapshot = self.history.last();
        self.chronicle.push(entry(
            who,
            Fact::Began {
                explicit,
                txn,
                snapshot,
            },
        ));
        let transaction = KeptTransaction::begun(alloc, who.session, explicit, txn, snapshot);
        put_first(&mut self.running, transaction);
        self.last_number = txn;
        Ok(Reply::Begun { snapshot })
    }

    /// Records what a statement that reads or changes rows answered and changed in the session's
    /// transaction, which is what it does over what the transaction sees, as its next part. It
    /// answers the reply.
    pub fn ran(
        &mut self,
        alloc: Global,
        who: Who,
        reply: Reply,
        change: Change,
    ) -> Result<Reply, NoMemory>
        requires few { length self.old.entries < 2 ^ 61 }
        requires running { IsSome (transaction (state_of self.old) who.session) }
        requires part { HasPart (state_of self.old) who.session }
        requires effect { IsStatementEffect (state_of self.old) who.session (reply, change) }
        ensures entry { OnOk result (Adds self.old self.new who (fact.Ran reply change)) }
        ensures reply { IfOk result (λ answer. answer ≡ reply) }
        ensures err { OnErr result (self.new ≡ self.old) }
    {
        let place = place_of(self.running.as_slice(), who.session).unwrap();
        let ran = Ran::of(alloc, who, reply, change, &self.running[place])?;
        let room = room_again(
            alloc,
            &mut self.chronicle,
            &mut self.history,
            &mut self.catalog,
            self.running.as_slice(),
            place,
            &ran.more,
        )?;
        let Ran { did, more, reply } = ran;
        self.chronicle.push(did);
        let before = take(&mut self.running, place);
        put_first(
            &mut self.running,
            before.after(more, parts_of(&reply), room),
        );
        Ok(reply)
    }

    /// Makes room for the end of the session's transaction, so that a commit and a roll back take no memory.
    ///
    /// Where it answers want of memory, the lake is as it was.
    pub fn reserve(&mut self, alloc: Global, session: u32) -> Result<(), NoMemory>
        requires running { IsSome (transaction (state_of self.old) session) }
        ensures entries { self.new.entries ≡ self.old.entries }
        ensures room { OnOk result (is_reserved self.new session ≡ true) }
        ensures others { (other : ℕ) → other ≢ session → is_reserved self.new other ≡ is_reserved self.old other }
        ensures err { OnErr result (self.new ≡ self.old) }
    {
        let place = place_of(self.running.as_slice(), session).unwrap();
        let more = PartChange::nothing(alloc);
        let room = room_for(
            alloc,
            &mut self.chronicle,
            &mut self.history,
            &mut self.catalog,
            self.running.as_slice(),
            place,
            &more,
        )?;
        put_room(&mut self.running, place, room);
        Ok(())
    }

    /// Ends the session's transaction, in the room that was reserved for it.
    ///
    /// What it changed becomes the next version, if no commit after its snapshot removed rows of a table from which it
    /// removed rows; else the answer is that conflict. It takes no memory.
    pub fn commit(&mut self, alloc: Global, who: Who) -> Reply
        requires few { length self.old.entries < 2 ^ 61 }
        requires reserved { is_reserved self.old who.session ≡ true }
        ensures entry { Adds self.old self.new who (facts.commitment (state_of self.old) who.session) }
        ensures reply { result ≡ facts.answer (facts.commitment (state_of self.old) who.session) }
    {
        let ready = Ready::of(take_reserved(&mut self.running, who.session));
        if ready.is_unchanged() {
            self.chronicle.push(entry(who, Fact::Ended));
            return Reply::Ended;
        }
        if let Some(seq) = self
            .catalog
            .first_conflict(ready.snapshot, &ready.room.marks)
        {
            self.chronicle.push(entry(who, Fact::Conflict { seq }));
            return Reply::Conflict { seq };
        }
        let Applied { seq, marks } = apply(&mut self.history, &mut self.catalog, ready);
        forget_unseen(&mut self.history, self.running.as_slice(), &marks);
        self.chronicle.push(entry(who, committed(alloc, seq)));
        Reply::Committed { seq }
    }

    /// Ends the session's explicit transaction without a change, in the room that was reserved for it.
    ///
    /// It takes no memory.
    pub fn roll_back(&mut self, who: Who) -> Reply
        requires few { length self.old.entries < 2 ^ 61 }
        requires reserved { is_reserved self.old who.session ≡ true }
        requires inside { is_inside (state_of self.old) who.session ≡ true }
        ensures entry { Adds self.old self.new who fact.RolledBack }
        ensures reply { result ≡ facts.answer fact.RolledBack }
    {
        self.chronicle.push(entry(who, Fact::RolledBack));
        end(&mut self.running, who.session);
        Reply::RolledBack
    }

    /// Refuses a statement of the session.
    ///
    /// A transaction that was begun for the statement alone ends; an explicit one stays as it was, with one part more. The
    /// cause has to be one that the state allows.
    pub fn refuse(&mut self, who: Who, cause: Refusal) -> Result<Reply, NoMemory>
        requires few { length self.old.entries < 2 ^ 61 }
        requires allowed { IsAllowedRefusal (state_of self.old) who.session cause }
        requires part { HasPart (state_of self.old) who.session }
        ensures entry { OnOk result (Adds self.old self.new who (fact.Refused cause)) }
        ensures reply { IfOk result (λ reply. reply ≡ facts.answer (fact.Refused cause)) }
        ensures err { OnErr result (self.new ≡ self.old) }
    {
        let reply = Reply::Refused(cause.copy()?);
        self.chronicle.reserve(1 + self.running.len())?;
        self.chronicle.push(entry(who, Fact::Refused { cause }));
        stop(&mut self.running, who.session);
        Ok(reply)
    }
}
