//! What files a version of a table has, and that each entry of a chronicle keeps it: laws alone.
//!
//! `specs/Contents` has what blobs hold. `specs/Standing` says when files stand for the rows of a
//! table in a version, or for what a transaction sees of it; `specs/Stands`, when the rows of a
//! catalogue and the items of open transactions stand for the state of a chronicle. `specs/Kept`
//! has the book, which is what a lake keeps beside its chronicle, and says when it is kept;
//! `specs/KeptLaws` says for each kind of entry what is asked of whoever appends it.
//!
//! The functions below have no work to do: each states a law in its contract. The first speak of
//! items and files alone, those from `stands_created` on of states, and those from `kept_as_it_is`
//! on of books. A caller cites `kept_*` for what it appends, and `kept_tells` for what it reads.
//! `kept_example` and `reader_example` compute the definitions on two worked chronicles.
#![tactic(auto)]

mod laws;

pub use laws::{
    blobs_are_held, checks_give_files, checks_stay, free_if_no_conflict, keeps_what_is_free,
    kept_as_it_is, kept_began, kept_check, kept_collected, kept_commit, kept_compacted, kept_drops,
    kept_empty, kept_example, kept_over_blobs, kept_query, kept_tells, kept_write,
    names_are_by_rows, noted_as_it_is, noted_began, noted_commit, noted_empty, noted_query,
    noted_write, numbers_committed, pends_as_seen, reader_example, rebases, rows_at_last,
    seen_after_statement, stands_after_addition, stands_after_commit, stands_after_merge,
    stands_after_removal, stands_began, stands_collected, stands_committed, stands_created,
    stands_ended, stands_over_more_blobs, stands_ran, stands_stopped,
};
