//! Expressions on rows, and the operators one behind the other against the plain query, over small
//! and random tables. There are tests and nothing else.
#![tactic(auto)]

#[cfg(test)]
mod draws;
#[cfg(test)]
mod expressions;
#[cfg(test)]
mod group_tests;
#[cfg(test)]
mod join_tests;
#[cfg(test)]
mod row_tests;
#[cfg(test)]
mod texts;
