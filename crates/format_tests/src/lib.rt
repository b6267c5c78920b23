//! Values, and the bytes that they, data files, vectors, manifests and checkpoints are written as,
//! what manifests make of a table's files, and packets and cells of rows.
//! There are tests and nothing else.
#![tactic(auto)]

#[cfg(test)]
mod bytes;
#[cfg(test)]
mod cell_tests;
#[cfg(test)]
mod file_tests;
#[cfg(test)]
mod manifest_tests;
#[cfg(test)]
mod packet_tests;
#[cfg(test)]
mod rows;
#[cfg(test)]
mod snapshot_tests;
#[cfg(test)]
mod spelling_tests;
#[cfg(test)]
mod value_tests;
#[cfg(test)]
mod vector_tests;
