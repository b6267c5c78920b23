//! A race of attempts for tasks. Each task has one word, which is 0 or the number of the attempt
//! that won the task, and which keeps that number for good. Any number of threads claim at once,
//! each by a seat of its own. A seat knows for good each holder that it has seen; what two seats
//! know is true of the same words. No call waits for another thread, and no call but the first
//! needs memory.
#![tactic(auto)]

ghost use Rattle.std.specs.Prelude.{◌≡◌, ◌<◌, ◌≤◌, [], ◌∷◌, ◌++◌, IfOk, MatchOption};
ghost use Rattle.race_claim.specs.Seats.{IsSeatOf, HasOneHolderEach, held_by, last_look};
ghost use Rattle.race_claim.specs.Seats.{MatchClaimed, task_count};

mod claims;
mod rule;

use atomic_table::Table;
pub use claims::{ClaimSeat, Claimed, Claims};
use lake_values::NoMemory;
use rule::{Agree, Claim, Copies, Look};
use std::alloc::Global;

impl Claims {
    /// The words of so many tasks, all 0, and the first seat.
    pub fn new(alloc: Global, tasks: u32) -> Result<(Claims, ClaimSeat), NoMemory>
        requires some { 0 < tasks }
        ensures tasks { IfOk result (λ r. task_count r.0 ≡ tasks) }
        ensures seat { IfOk result (λ r. IsSeatOf r.0 r.1) }
        ensures unseen { IfOk result (λ r. held_by r.1 ≡ []) }
    {
        let count = tasks as usize;
        let words = Vec::from_elem(alloc, 0u64, count)?;
        let (table, seat) = Table::of_words(alloc, words.as_slice(), &count)?;
        Ok((Claims { table, tasks }, ClaimSeat { seat }))
    }

    /// Claims the task for an attempt, in one step: the word takes the attempt's number where it is
    /// 0, and else stays. Both are counted from 1. The attempt itself is also told that it lost
    /// where it had won before.
    pub fn claim(&self, seat: &mut ClaimSeat, task: u32, attempt: u32) -> Claimed
        requires seat { IsSeatOf self.now seat.old }
        requires task { (0 < task) × (task ≤ task_count self.now) }
        requires attempt { 0 < attempt }
        ensures seat { IsSeatOf self.now seat.new }
        ensures found { MatchClaimed result (last_look seat.new ≡ (task, 0))
            (λ to. (0 < to) × (last_look seat.new ≡ (task, to))) }
        ensures held { MatchClaimed result (held_by seat.new ≡ (task, attempt) ∷ held_by seat.old)
            (λ to. held_by seat.new ≡ (task, to) ∷ held_by seat.old) }
    {
        let word = (task - 1) as usize;
        let found = self
            .table
            .shared
            .compare_exchange::<Claim>(&mut seat.seat, word, 0, attempt as u64);
        if found == 0 {
            Claimed::Won
        } else {
            Claimed::Lost { to: found as u32 }
        }
    }

    /// The attempt that holds the task, by one look at its word; none where the word is 0.
    pub fn holder(&self, seat: &mut ClaimSeat, task: u32) -> Option<u32>
        requires seat { IsSeatOf self.now seat.old }
        requires task { (0 < task) × (task ≤ task_count self.now) }
        ensures seat { IsSeatOf self.now seat.new }
        ensures found { MatchOption result (last_look seat.new ≡ (task, 0))
            (λ to. (0 < to) × (last_look seat.new ≡ (task, to))) }
        ensures held { MatchOption result (held_by seat.new ≡ held_by seat.old)
            (λ to. held_by seat.new ≡ (task, to) ∷ held_by seat.old) }
    {
        let word = (task - 1) as usize;
        let found = self.table.shared.load::<Look>(&mut seat.seat, word);
        if found == 0 { None } else { Some(found as u32) }
    }

    /// A further seat, which knows what this one knows.
    pub fn split(&self, seat: &mut ClaimSeat) -> ClaimSeat
        requires seat { IsSeatOf self.now seat.old }
        ensures seats { IsSeatOf self.now seat.new × IsSeatOf self.now result }
        ensures kept { held_by seat.new ≡ held_by seat.old }
        ensures copied { held_by result ≡ held_by seat.old }
    {
        ClaimSeat {
            seat: self.table.shared.split_seat::<Copies>(&mut seat.seat),
        }
    }

    /// Takes in what another seat knows.
    pub fn join(&self, seat: &mut ClaimSeat, other: ClaimSeat)
        requires seats { IsSeatOf self.now seat.old × IsSeatOf self.now other }
        ensures seat { IsSeatOf self.now seat.new }
        ensures both { held_by seat.new ≡ held_by seat.old ++ held_by other }
        ensures agreed { HasOneHolderEach (held_by seat.new) }
    {
        self.table
            .shared
            .join_seat::<Copies>(&mut seat.seat, other.seat);
        self.table.shared.load::<Agree>(&mut seat.seat, 0);
    }
}
