//! The core of a lake: its chronicle, its versions and its open transactions. Each call that does something for a session
//! appends one entry, which the state allows.
//!
//! What the clauses say: the chronicle is legal whatever calls came before (`legal`). Each of
//! `create`, `begin`, `ran`, `commit`, `roll_back` and `refuse` adds exactly the entry that its
//! arguments and the definitions give (`entry`) and answers what it says (`reply`); where memory
//! is wanted the lake is as it was (`err`). `lend` lends exactly what a session sees. `commit` and
//! `roll_back` take no memory, in room that `reserve` made (`room`), which lasts as long as the
//! session's transaction is open (`kept`, `others`). `transaction` and `has_table` are exactly the
//! state's. Which marks a commit puts into the catalogue is in no clause, only which tables.
#![tactic(auto)]

mod catalogs;
mod chronicles;
mod commits;
mod conflicts;
mod entries;
mod lakes;
mod opened;
mod part_changes;
mod reservations;
mod rooms;
mod rows;
mod transactions;
mod views;
mod who;

pub use chronicles::Chronicle;
pub use lakes::LakeState;
pub use opened::OpenTxn;
pub use views::Lent;
pub use who::Who;
