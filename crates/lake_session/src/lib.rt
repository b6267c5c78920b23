//! Sessions: each runs its statements one after another over a lake that is lent to it.
//!
//! What the clauses say: `execute` adds exactly a run of entries that answers the statement, and
//! answers what it says; its session may then run the next one (`ran`). At want of memory what it
//! added is a first part of such a run (`begun`), and the session is spent (`spent`). The other
//! sessions keep their transactions and their room (`leaves`). Nothing says when memory is wanted.
#![tactic(auto)]

mod creating;
mod effects;
mod lending;
mod running;
mod sessions;
mod steps;

pub use sessions::Session;
