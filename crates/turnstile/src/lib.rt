//! A lock whose holders stand in one order, round a value with a list of entries that only grows.
//!
//! A thread has a pass with turns and with sessions. `enter` waits until the pass's turn has come
//! and takes the value out; `leave` puts it back with at most one entry more, which is of a session
//! of the pass. A pass has seen the entries that its last turn found and left. The value's entries
//! always begin with them, and behind them come only entries of sessions of other passes. A pass
//! can be split for another thread, and two passes can meet; the one that has all turns closes the
//! turnstile.
//!
//! No proof says that a turn comes: a pass that is dropped in its turn keeps all others out.
#![tactic(auto)]

ghost use Rattle.std.specs.Prelude.{◌≡◌, ◌+◌, ◌<◌, ◌≤◌, ◌^◌, [], ◌++◌, IfOk, IfErr, length};
ghost use Rattle.turnstile.specs.Lists.{AreAllFrom, IsPrefix, StandFrom, added, longer};
ghost use Rattle.turnstile.specs.Sessions.{AddsAtMostOne, Came, HasRooms, IsOneOf, only};
ghost use Rattle.turnstile.specs.Sessions.{rooms_in, rooms_of, sixteen, without};
ghost use Rattle.turnstile.specs.Passes.{HasAllTurns, IsCutLeft, IsCutRight, IsIdle, IsIn};
ghost use Rattle.turnstile.specs.Passes.{IsInTurn, IsPassOf, KeepsOtherRooms, opened_on, own};
ghost use Rattle.turnstile.specs.Passes.{seen, sessions, turns_left, turns_of, turns_taken};

mod rule;
mod table;

use atomic_table::Table;
use lake_values::NoMemory;
pub use rule::Chronicled;
use rule::{Cut, Cutting, Draw, Look, Meet, Publish, Serve, Start, Tell};
use std::alloc::Global;
use std::marker::Brand;
use std::snapshot::Snapshot;
use std::sync::Wait;
use std::thread;
pub use table::{Pass, Turnstile};

/// The word with the number of entries.
const FRONT: usize = 0;

/// The word with the next ticket.
const NEXT: usize = 1;

/// The word with the ticket whose turn it is.
const SERVING: usize = 2;

impl<T: Chronicled> Turnstile<T> {
    /// A turnstile round the value, and its first pass, which has all turns and the sessions 1 to
    /// 16. There can be no more entries than the value has and turns are taken, and their number
    /// has a limit. Where memory runs out, the value comes back.
    pub fn new(
        alloc: Global,
        value: T,
        turns: u64,
    ) -> Result<(Turnstile<T>, Pass<T>), (T, NoMemory)>
        requires few { length (T.entries value) + turns ≤ 2 ^ 62 }
        ensures value { IfOk result (λ r. opened_on r.0 ≡ value) }
        ensures turns { IfOk result (λ r. turns_of r.0 ≡ turns) }
        ensures pass { IfOk result (λ r. IsPassOf r.0 r.1) }
        ensures idle { IfOk result (λ r. IsIdle r.1) }
        ensures seen { IfOk result (λ r. seen r.1 ≡ T.entries value) }
        ensures own { IfOk result (λ r. own r.1 ≡ []) }
        ensures left { IfOk result (λ r. turns_left r.1 ≡ turns) }
        ensures taken { IfOk result (λ r. turns_taken r.1 ≡ 0) }
        ensures sessions { IfOk result (λ r. sessions r.1 ≡ rooms_in T.has_room value sixteen) }
        ensures back { IfErr result (λ e. e.0 ≡ value) }
    {
        let front = value.length();
        let start = Start {
            value: Snapshot::of(&value),
            turns,
        };
        let mut slots = Vec::new(alloc);
        if let Err(failed) = slots.push(Some(value)) {
            let Some(value) = failed.value else {
                unreachable!()
            };
            slots.destroy_empty();
            return Err((value, NoMemory));
        }
        match Table::new(alloc, &[front, 0, 0], slots, &start) {
            Ok((table, seat)) => Ok((Turnstile { table }, Pass { seat })),
            Err(refused) => {
                let mut slots = refused.slots;
                let Some(Some(value)) = slots.pop() else {
                    unreachable!()
                };
                slots.destroy_empty();
                Err((value, NoMemory))
            }
        }
    }

    /// Waits for the pass's turn, and takes the value out. Turns come in the order in which they
    /// were asked for. A pass that has all turns finds just what it has seen, since no other pass
    /// has taken one.
    pub fn enter<R: Wait>(&self, rt: &R, pass: &mut Pass<T>) -> T
        requires pass { IsPassOf self.now pass.old }
        requires idle { IsIdle pass.old }
        requires left { 0 < turns_left pass.old }
        ensures pass { IsPassOf self.now pass.new }
        ensures turn { IsIn result pass.new }
        ensures others { Came T.session (sessions pass.old) (seen pass.old) (T.entries result) }
        ensures rooms { HasRooms T.has_room (sessions pass.old) result }
        ensures few { length (T.entries result) < 2 ^ 62 }
        ensures seen { seen pass.new ≡ T.entries result }
        ensures own { own pass.new ≡ own pass.old }
        ensures left { turns_left pass.new + 1 ≡ turns_left pass.old }
        ensures taken { turns_taken pass.new ≡ turns_taken pass.old + 1 }
        ensures sessions { sessions pass.new ≡ sessions pass.old }
        ensures alone { HasAllTurns self.now pass.old → T.entries result ≡ seen pass.old }
    {
        let ticket = self.table.shared.fetch_add::<Draw>(&mut pass.seat, NEXT, 1);
        for _ in rt.forever() {
            let serving = self.table.shared.load::<Look<T>>(&mut pass.seat, SERVING);
            if serving == ticket {
                let found = self.table.shared.exchange(&mut pass.seat, 0, None);
                let Some(value) = found else { unreachable!() };
                return value;
            }
            thread::yield_now();
        }
        unreachable!()
    }

    /// Ends the pass's turn and puts the value back, as it was found or with one entry more. The
    /// new entry becomes the pass's own, at its place. Only the rooms of the pass's sessions may
    /// have changed.
    pub fn leave(&self, pass: &mut Pass<T>, value: T)
        requires pass { IsPassOf self.now pass.old }
        requires turn { IsInTurn pass.old }
        requires entries { AddsAtMostOne T.session (sessions pass.old) (seen pass.old)
            (T.entries value) }
        requires rooms { KeepsOtherRooms T.has_room pass.old value }
        ensures pass { IsPassOf self.now pass.new }
        ensures idle { IsIdle pass.new }
        ensures seen { seen pass.new ≡ T.entries value }
        ensures own { own pass.new ≡ own pass.old ++ added (seen pass.old) (T.entries value) }
        ensures left { turns_left pass.new ≡ turns_left pass.old }
        ensures taken { turns_taken pass.new ≡ turns_taken pass.old }
        ensures sessions { sessions pass.new ≡ rooms_of T.has_room value (sessions pass.old) }
    {
        let front = value.length();
        let found = self.table.shared.exchange(&mut pass.seat, 0, Some(value));
        let None = found else { unreachable!() };
        self.table
            .shared
            .store::<Publish<T>>(&mut pass.seat, FRONT, front);
        self.table
            .shared
            .fetch_add::<Serve<T>>(&mut pass.seat, SERVING, 1);
    }

    /// A further pass for one session, with so many turns of this one. It has seen what this one
    /// has seen, and begins with no own entries and no turns taken.
    pub fn split(&self, pass: &mut Pass<T>, turns: u64, session: u32) -> Pass<T>
        requires pass { IsPassOf self.now pass.old }
        requires idle { IsIdle pass.old }
        requires left { turns ≤ turns_left pass.old }
        requires session { IsOneOf (sessions pass.old) session }
        ensures pass { IsPassOf self.now pass.new }
        ensures idle { IsIdle pass.new }
        ensures seen { seen pass.new ≡ seen pass.old }
        ensures own { own pass.new ≡ own pass.old }
        ensures left { turns_left pass.new + turns ≡ turns_left pass.old }
        ensures taken { turns_taken pass.new ≡ turns_taken pass.old }
        ensures sessions { sessions pass.new ≡ without session (sessions pass.old) }
        ensures new_pass { IsPassOf self.now result }
        ensures new_idle { IsIdle result }
        ensures new_seen { seen result ≡ seen pass.old }
        ensures new_own { own result ≡ [] }
        ensures new_left { turns_left result ≡ turns }
        ensures new_taken { turns_taken result ≡ 0 }
        ensures new_sessions { sessions result ≡ only session (sessions pass.old) }
    {
        self.cut::<Brand>(pass, turns, session)
    }

    // A step's answer depends on no argument, so a type parameter says how many turns and which
    // session go.
    fn cut<K: Cutting>(&self, pass: &mut Pass<T>, _turns: u64, _session: u32) -> Pass<T>
        requires picked { (_turns ≡ K.turns) × (_session ≡ K.session) }
        requires pass { IsPassOf self.now pass.old × IsIdle pass.old }
        requires left { K.turns ≤ turns_left pass.old }
        requires session { IsOneOf (sessions pass.old) K.session }
        ensures kept { IsPassOf self.now pass.new × IsIdle pass.new }
        ensures given { IsPassOf self.now result × IsIdle result }
        ensures left { IsCutLeft K.turns K.session pass.old pass.new }
        ensures right { IsCutRight K.turns K.session pass.old result }
    {
        Pass {
            seat: self.table.shared.split_seat::<Cut<K>>(&mut pass.seat),
        }
    }

    /// Takes in another pass: its turns, its sessions and its own entries. The longer of both seen
    /// lists goes on from the other, and behind each came only entries of other sessions than those
    /// of its pass.
    pub fn meet(&self, pass: &mut Pass<T>, other: Pass<T>)
        requires pass { IsPassOf self.now pass.old }
        requires idle { IsIdle pass.old }
        requires other { IsPassOf self.now other }
        requires other_idle { IsIdle other }
        ensures pass { IsPassOf self.now pass.new }
        ensures idle { IsIdle pass.new }
        ensures seen { seen pass.new ≡ longer (seen pass.old) (seen other) }
        ensures own { own pass.new ≡ own pass.old ++ own other }
        ensures left { turns_left pass.new ≡ turns_left pass.old + turns_left other }
        ensures taken { turns_taken pass.new ≡ turns_taken pass.old + turns_taken other }
        ensures sessions { sessions pass.new ≡ sessions pass.old ++ sessions other }
        ensures since { Came T.session (sessions pass.old) (seen pass.old) (seen pass.new) }
        ensures since_other { Came T.session (sessions other) (seen other) (seen pass.new) }
    {
        self.table
            .shared
            .join_seat::<Meet>(&mut pass.seat, other.seat);
        self.table.shared.load::<Tell<T>>(&mut pass.seat, FRONT);
    }

    /// The value, where the pass has all turns: its entries are those of the start, and behind them
    /// the pass's own ones, each once, at its place.
    pub fn close(self, pass: Pass<T>) -> T
        requires pass { IsPassOf self pass }
        requires idle { IsIdle pass }
        requires all { HasAllTurns self pass }
        ensures opening { IsPrefix (T.entries (opened_on self)) (T.entries result) }
        ensures seen { T.entries result ≡ seen pass }
        ensures own { StandFrom (length (T.entries (opened_on self))) (own pass)
            (T.entries result) }
        ensures no_others { AreAllFrom (length (T.entries (opened_on self))) (own pass)
            (T.entries result) }
        ensures once { length (T.entries (opened_on self)) + length (own pass)
            ≡ length (T.entries result) }
    {
        let Turnstile { table } = self;
        let Pass { seat } = pass;
        let mut closed = table.close_with(seat);
        let slot = closed.take(0);
        closed.free();
        let Some(value) = slot else { unreachable!() };
        value
    }
}
