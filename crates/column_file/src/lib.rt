//! Column files: the rows of a table in columns, as their bytes.
//!
//! What the clauses say: `encode` gives exactly the one spelling of a file. `decode_file` answers
//! exactly what reading the bytes answers (`exact`): a file exactly where its spelling is what was
//! read (`found`, `only`), else the first bad field.
#![tactic(auto)]

mod columns;
mod decode;
mod transpose;
mod write;

pub use decode::{Decoded, Kinds, decode_file};
pub use write::{encode, encode_rows, one_file_spelling};
