//! The versions of a lake's tables, with their rows in memory.
//!
//! What the clauses say: `rows` answers exactly the rows that a table has in a version, in order,
//! without removed ones, each left out as often as it stands among these. `schema`, `schemas`,
//! `has_table` and `last` are exactly a version's. `create` and `commit` make one version more and
//! leave the earlier ones (`made`); `commit` works in room that was made, so it never wants
//! memory. `forget` keeps exactly the last version.
#![tactic(auto)]

mod histories;
mod kept;
mod stores;
mod strikes;

pub use histories::History;
pub use kept::ViewRow;
pub use stores::cell_in;
