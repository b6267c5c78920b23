//! One task of a statement: which state it is in, which of its attempts run on which servers, and
//! what a report of an attempt means for it.
//!
//! What the clauses say: a task is seen as its `Progress` (`specs/Progress`), and each call gives
//! exactly the next one (`after`, `started`, `readied`) and its answer (`state`, `number`,
//! `verdict`, `ran`). No call takes memory. `verdicts_mean` says in plain words when which verdict
//! is given, and what stays then; `finished_stays` that a finished task stays as it is.
#![tactic(auto)]

mod laws;
mod tasks;
mod words;

pub use laws::{finished_stays, verdicts_mean};
pub use tasks::Task;
pub use words::{How, Placed, State, Verdict};
