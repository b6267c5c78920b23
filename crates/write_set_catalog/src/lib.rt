//! The catalogue of a lake: the commits in order, each with what it did to each table, the
//! checkpoints, the blobs of files and vectors, and the open transactions.
//!
//! A commit conflicts with an earlier one that its transaction didn't see and that wrote a unit
//! that it wrote too. The catalogue finds the first such commit without going through the
//! chronicle.
//!
//! What the clauses say: `first_conflict` answers exactly the least commit after a snapshot that
//! wrote a unit of the marks (`found`), and nothing exactly where there is none (`none`). Each
//! other call gives exactly one of the catalogues of `specs/Catalogs`, and where memory is wanted
//! the old one; `append` and `keep` take no memory, in room that `reserve` and `reserve_blobs`
//! made.
//! `specs/Names` says which names a version has by the rows of the commits.
#![tactic(auto)]

mod catalogs;
mod checks;
mod conflicts;
mod rows;
mod running;
mod tables;

pub use catalogs::Catalog;
pub use checks::{CatCheck, CatChecks};
pub use rows::{CatCommit, CatRow, CatRows};
pub use running::RunningTxn;
pub use tables::{CatTable, CatTables};
