//! What bound expressions and aggregates are on rows whose values are lent, exactly as their definitions say.
//!
//! What the clauses say: `look` answers exactly what an expression is on a row (`seen`); `holds`,
//! `meets`, `meets_guards` and `is_matched` whether conditions are true; `belongs` whether a row
//! belongs beside another in a join; `evaluated` the row of what expressions are; `aggregate` an
//! aggregate over a group (`value`). An overflow is answered exactly where a + - *, a count or a
//! final sum leaves 64 bits (`fits`, `overflow`). `PacketRow` lends the values of a packet's row.
#![tactic(auto)]

mod aggregates;
mod cells;
mod conditions;
mod evaluation;
mod faults;
mod joining;
mod keys;
mod orders;
mod packet_rows;
mod rows;

pub use aggregates::{Extreme, Total, aggregate, extreme_of, total_of};
pub use cells::{Beside, Cells, Lookup, is_null, value_at};
pub use conditions::{are_guards, holds, is_matched, meets, meets_guards};
pub use evaluation::{Overflow, Seen, look};
pub use faults::OpFault;
pub use joining::belongs;
pub use keys::{key_of, references};
pub use orders::compare_by_keys;
pub use packet_rows::{PacketRow, put_rows, rows_of};
pub use rows::{EvaluationFault, evaluated, push_value};
