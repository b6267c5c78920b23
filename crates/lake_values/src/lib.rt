//! Values, rows, schemas and names of blobs, with their orders and their printed text.
//!
//! Everything above this crate speaks in its types. A type that keeps a `Vec` or a `String` is seen by
//! contracts as the list of its members, so two of them are equal where their members are.
//!
//! What the clauses say: `compare_values` and `compare_rows` are exactly the orders of
//! `specs/Order`, which are total, and `names_in_order` says the same of names of blobs.
//! `row_text` appends exactly the text of a row, and `Text::new` takes exactly the texts of at
//! most 4,096 bytes. The writers append exactly the spelling; the readers answer exactly what
//! stands in the bytes, or the first bad field (`exact`, `found`, `only`). No spelling begins
//! another of its kind (`one_value_spelling`, `one_text_spelling`, `one_name_spelling`). `cell_of`
//! is exactly the hash of the spelling, modulo 16.
#![tactic(auto)]

mod cells;
mod faults;
mod fields;
mod laws;
mod lending;
mod lists;
mod memory;
mod names;
mod order;
mod print;
mod read;
mod rows;
mod schemas;
mod texts;
mod values;
mod write;

pub use cells::cell_of;
pub use faults::{Bad, BadKind, DecodeFault};
pub use fields::{
    check_left, check_room, read_byte, read_bytes, read_magic, read_utf8, short_text,
};
pub use laws::{names_in_order, one_name_spelling, one_text_spelling, one_value_spelling};
pub use lending::compare_lent;
pub use lists::Listed;
pub use memory::NoMemory;
pub use names::{Kind, Name, Names};
pub use order::compare_values;
pub use print::row_text;
pub use read::{read_end, read_name, read_text, read_u32, read_u64, read_value};
pub use rows::{Row, Rows, compare_rows, copy_rows};
pub use schemas::{ColType, Column, Columns, Schema, copy_columns};
pub use texts::{Text, TextFault};
pub use values::{Value, ValueRef};
pub use write::{write_name, write_text, write_u32, write_u64, write_value};
