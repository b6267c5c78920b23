//! The operators that go row by row over a packet: evaluation, filter, projection, and order with a limit.
//!
//! What the clauses say: `filter` answers exactly the rows on which guards and computed conditions
//! are true, `project` exactly the row of what the items are on each, `top` exactly the rows in
//! order up to the limit (`rows`), and `eval` and `holds` an expression and a condition on one row
//! (`value`). Arith is answered exactly where arithmetic leaves 64 bits (`fits`, `arithmetic`).
#![tactic(auto)]

mod evaluation;
mod filters;
mod orders;
mod projections;

pub use evaluation::{eval, holds};
pub use filters::filter;
pub use orders::top;
pub use projections::project;
pub use row_evaluation::OpFault;
