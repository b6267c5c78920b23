//! What one attempt of a task writes: a data file, a deletion vector, or a file in place of others,
//! with the block of the manifest that says so.
//!
//! An attempt stages what it writes, and where it wins, its staging is sealed: the blob is in the
//! store then, and the manifest's block waits for the commit of its transaction. `specs/Writes`
//! says what an attempt writes, and `specs/Staging` in which blocks.
//!
//! What the clauses say: where the port tells its bytes, a staging is exactly that of what the
//! attempt writes, and what is sealed is exactly that (`told`); over every port the names, the
//! numbers of blocks and the items are (`named`). A store fault comes only where the port's count
//! rose (`failed`), and the port's listings and deletions stay (`listings`, `deletions`).
#![tactic(auto)]

mod blocks;
mod faults;
mod keys;
mod laws;
mod outputs;
mod seals;
mod stagings;
mod vectors;

pub use faults::WriteFault;
pub use keys::WriteKey;
pub use laws::{seals_what_is_staged, vector_leaves_the_rest};
pub use outputs::{stage_file, stage_merge};
pub use seals::{Wrote, seal};
pub use stagings::Staging;
pub use vectors::stage_vector;
