//! What threads share: the words that attempts race for, and the pool of servers. There are tests
//! and nothing else.
#![tactic(auto)]

#[cfg(test)]
mod claim_tests;
#[cfg(test)]
mod pool_tests;
#[cfg(test)]
mod turn_tests;
