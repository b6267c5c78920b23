//! Manifests: which data files and vectors a transaction adds to its tables and takes from them.
//!
//! What the clauses say: `encode_block` gives exactly the spelling of a block, and
//! `decode_manifest` answers exactly the blocks whose spellings were read, or the first bad field
//! with its place and kind.
#![tactic(auto)]

mod items;
mod read;
mod write;

pub use items::{Item, ItemBlock, ItemBlocks};
pub use read::decode_manifest;
pub use write::{encode_block, one_block_spelling};
