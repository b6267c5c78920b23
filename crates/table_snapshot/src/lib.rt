//! The data files of a table in order of name: what the items of manifests make of them, and the
//! bytes of a checkpoint of them.
//!
//! What the clauses say: `replay` answers exactly what the items of the table make of its files,
//! one after another (`replay_dated`), in order of name. `checkpoint_bytes` gives exactly the
//! spelling, and `decode_checkpoint` is exact both ways. No spelling of a checkpoint begins
//! another. `names_beyond` answers exactly the names of files and vectors that some files have and
//! others lack, in order.
#![tactic(auto)]

mod by_name;
mod files;
mod items;
mod names;
mod read;
mod write;

pub use files::{Checkpoint, Dated, FileRow, Files};
pub use items::replay;
pub use names::names_beyond;
pub use read::decode_checkpoint;
pub use write::{checkpoint_bytes, one_checkpoint_spelling};
