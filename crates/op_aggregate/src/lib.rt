//! The aggregates of groups: what each part of the rows keeps, and the groups made of it.
//!
//! What the clauses say: `partial` answers exactly the groups of a packet in the order of their
//! first rows, each with what is kept of its aggregates, and `finish` exactly the groups made of
//! the rows of all parts (`rows`). The law `partials_are_groups` says that both together are the
//! grouping of the query's definition, Arith included. `partial` answers Arith exactly where an
//! argument leaves 64 bits, `finish` where a count or a final sum does (`fits`, `arithmetic`).
#![tactic(auto)]

mod finishing;
mod groups;
mod laws;
mod partials;
mod spelling;

pub use finishing::finish;
pub use laws::partials_are_groups;
pub use partials::{part_width, partial};
