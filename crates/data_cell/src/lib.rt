//! Cells: the rows of a data file, but for those that its deletion vector says are gone.
//!
//! What the clauses say: `live`, `next_live` and `packet` see exactly the positions that aren't
//! gone, and `value` lends the value at its place.
#![tactic(auto)]

mod cells;
mod positions;

pub use cells::CellView;
