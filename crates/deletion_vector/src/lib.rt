//! Deletion vectors: the positions of the rows of a data file that are gone.
//!
//! What the clauses say: a `Vector` is strictly ascending; `contains`, `add` and `merge` are
//! exactly membership, insertion and union, and `positions_from` gives exactly the positions from
//! a bound on. `encode` and `decode` are exact both ways.
#![tactic(auto)]

mod merge;
mod read;
mod vector;

pub use vector::{Vector, one_vector_spelling};
