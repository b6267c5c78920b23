ghost use Rattle.std.specs.Prelude.{◌≡◌};

use crate::rule::{Chronicled, InTurn, Start, View};
use atomic_table::{Seat, Table};
use std::alloc::Global;

/// A value that threads take out in turns. It lies in the one slot of a table, of whose three words
/// one has the number of entries, one the next ticket, and one the ticket whose turn it is.
#[derive(Drop)]
pub struct Turnstile<T: Chronicled> {
    pub(crate) table: Table<Option<T>, View<T, T::Entry>, Start<T>, InTurn, Global>,
    ghost shape: { (table.shared.table_id.words ≡ 3) × (table.shared.table_id.slots ≡ 1) },
}

/// A caller's right to turns: the turns that are left to it and those that it took, what it has
/// seen, its own entries, and its sessions. It has no bytes.
#[derive(Drop)]
pub struct Pass<T: Chronicled> {
    pub(crate) seat: Seat<Option<T>, View<T, T::Entry>>,
}
