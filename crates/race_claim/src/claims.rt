ghost use Rattle.std.specs.Prelude.{◌≡◌, ◌<◌};

use crate::rule::{Known, OneWinner};
use atomic_table::{Seat, Table};
use std::alloc::Global;

/// How a claim ended.
#[derive(Clone, Copy, PartialEq, Eq, Debug)]
pub enum Claimed {
    Won,
    /// Another attempt holds the task.
    Lost { to: u32 },
}

/// One word for each task of a wave: 0, or the attempt that won it.
#[derive(Drop)]
pub struct Claims {
    pub(crate) table: Table<(), Known, usize, OneWinner, Global>,
    pub(crate) tasks: u32,
    ghost one_word_each: { (table.shared.table_id.words ≡ tasks) × (table.shared.key ≡ tasks)
        × (0 < tasks) },
}

/// A thread's right to claim, and what it knows of the words. It has no bytes.
#[derive(Drop)]
pub struct ClaimSeat {
    pub(crate) seat: Seat<(), Known>,
}
