//! A shelf: an honest store of blobs in memory, which ports of several threads share.
//!
//! The store stands behind a lock, so what a call did to it is promised by the methods of the directory,
//! which say for each change what is listed afterwards. A call on a shelf or a port may wait for the lock.
//!
//! What the clauses say: the ports meet every clause of `Port` and tell their bytes; the names of
//! the directory ascend strictly, and its total is the sum of its blobs' lengths.
#![tactic(auto)]

mod blobs;
mod bytes;
mod directories;
mod notes;
mod ports;
mod shelves;
mod sure_ports;
mod under_lock;

pub use blobs::{ShelfBlob, ShelfBlock};
pub use ports::ShelfPort;
pub use shelves::Shelf;
pub use sure_ports::SurePort;
