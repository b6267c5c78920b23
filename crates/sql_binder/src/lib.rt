//! The binder: a statement over the schemas of its tables becomes its bound form, or the least
//! refusal that holds is answered. The columns that a statement may name are listed once, and its
//! names are gone through once.
//!
//! What the clauses say: `bind` answers exactly what `bound` of `sql_model` says, the bound form
//! (`bound`) or the least refusal that holds (`refused`), for every statement in form. `bound` is
//! a function, so at most one answer is right.
#![tactic(auto)]

mod binding;
mod expressions;
mod faults;
mod forms;
mod groups;
mod names;
mod outputs;
mod scopes;
mod stages;
mod types;

pub use binding::bind;
pub use faults::BindFault;
