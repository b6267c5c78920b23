//! The plain form of a query: nested loops over the rows of its tables, whose contract is the definition of what a
//! query answers.
//!
//! What the clauses say: `plain` answers exactly the plain query's rows over lent rows, or its
//! refusal, too many rows before arithmetic (`rows`, `too_many`, `arithmetic`).
#![tactic(auto)]

mod answers;
mod groups;
mod joins;
mod orders;
mod queries;
mod stages;

pub use queries::{QueryFault, plain};
