//! From the bytes of a script to its bound statements. There are tests and nothing else.
#![tactic(auto)]

#[cfg(test)]
mod bind_tests;
#[cfg(test)]
mod bound_texts;
#[cfg(test)]
mod language_tests;
#[cfg(test)]
mod limit_tests;
#[cfg(test)]
mod refusals;
#[cfg(test)]
mod script_tests;
#[cfg(test)]
mod token_tests;
