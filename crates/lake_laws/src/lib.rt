//! What a lake keeps: its chronicle, with what stands beside the entries for good, and its
//! catalogue; and that each kind of entry keeps it that the catalogue stands for the chronicle.
//!
//! What the clauses say: nothing that runs. Each function has one law as its clause, of which
//! `specs/Laws` has the words. `lake_example` computes the definitions on a worked chronicle.
#![tactic(auto)]

mod laws;

pub use laws::{
    commit_is_allowed, lake_example, legal_more, stands_began, stands_committed, stands_created,
    stands_empty, stands_ended, stands_for_conflicts, stands_read, stands_stopped, stands_wrote,
};
