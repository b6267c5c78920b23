//! Packets: the rows that one task hands to the next, all of one width.
//!
//! Contracts see a packet, and a view of it, as its width and the list of its rows.
//!
//! What the clauses say: a value that a view lends is the row's value at that place; the k-th
//! packet of `split_by_hash` has exactly the rows of cell k, in order; `join_all` gives the rows
//! of all parts.
#![tactic(auto)]

mod packets;
mod splits;
mod views;

pub use packets::{Packet, join_all};
pub use views::PacketView;
