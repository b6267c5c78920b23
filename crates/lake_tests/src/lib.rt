//! What a lake is handed from outside, what it keeps, and whole runs of scripts. There are tests
//! and nothing else.
#![tactic(auto)]

#[cfg(test)]
mod catalog_tests;
#[cfg(test)]
mod history_tests;
#[cfg(test)]
mod noting;
#[cfg(test)]
mod outside_tests;
#[cfg(test)]
mod query_tests;
#[cfg(test)]
mod reply_tests;
#[cfg(test)]
mod run_tests;
#[cfg(test)]
mod runs;
#[cfg(test)]
mod session_tests;
#[cfg(test)]
mod shelf_tests;
#[cfg(test)]
mod thread_tests;
#[cfg(test)]
mod write_tests;
