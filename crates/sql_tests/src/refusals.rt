//! Bytes of so many pieces, and why bytes are refused.

use sql_tokens::{ParseFault, ScriptBad};
use std::alloc::{AllocError, Global};
use std::test::Fail;

/// The refusal, where there is one.
pub fn refused<T: Drop>(answer: Result<T, ParseFault>) -> Result<Option<ScriptBad>, Fail> {
    match answer {
        Ok(_) => Ok(None),
        Err(ParseFault::Refused(bad)) => Ok(Some(bad)),
        Err(ParseFault::NoMemory) => Err(Fail::new("no memory")),
    }
}

/// A piece so many times, between a front and a back.
pub fn repeated(
    alloc: Global,
    (front, piece, back): (&[u8], &[u8], &[u8]),
    count: usize,
) -> Result<Vec<u8>, AllocError> {
    let mut bytes = front.to_vec(alloc)?;
    for _ in 0..count {
        bytes.extend_from_slice(piece)?;
    }
    bytes.extend_from_slice(back)?;
    Ok(bytes)
}
