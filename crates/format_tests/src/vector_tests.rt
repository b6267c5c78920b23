//! Deletion vectors.

use crate::bytes::{FORM, SHORT, TAG, Verdict, bad, each_change, each_prefix};
use deletion_vector::Vector;
use lake_values::BadKind;
use std::alloc::Global;
use std::test::Fail;

// The vector of positions 1 and 3.
const BYTES: [u8; 28] = [
    0x4c, 0x44, 0x56, 0x31, 0, 0, 0, 0, 0, 0, 0, 2, 0, 0, 0, 0, 0, 0, 0, 1, 0, 0, 0, 0, 0, 0, 0, 3,
];

fn one_and_three(alloc: Global) -> Result<Vector, Fail> {
    let mut vector = Vector::empty(alloc);
    for position in [3, 1] {
        vector.add(position)?;
    }
    Ok(vector)
}

#[test]
fn vectors_are_written_and_read(rt: HostRuntime) -> Result<(), Fail> {
    let vector = one_and_three(rt.alloc())?;
    assert_eq!(rt; vector.encode()?.as_slice(), BYTES.as_slice());
    let read = Vector::decode(rt.alloc(), &BYTES)?;
    assert_eq!(rt; read.positions(), [1, 3].as_slice());
    Ok(())
}

#[test]
fn vectors_are_sets(rt: HostRuntime) -> Result<(), Fail> {
    let mut vector = one_and_three(rt.alloc())?;
    assert!(rt; vector.contains(1) && !vector.contains(2));
    assert_eq!(rt; vector.len(), 2);
    assert!(rt; !vector.is_empty());
    assert!(rt; vector.add(2)? && !vector.add(3)?);
    let mut other = Vector::empty(rt.alloc());
    for position in [5, 2] {
        other.add(position)?;
    }
    let both = vector.merge(&other)?;
    assert_eq!(rt; both.positions(), [1, 2, 3, 5].as_slice());
    assert_eq!(rt; both.positions_from(3), [3, 5].as_slice());
    assert_eq!(rt; both.positions_from(4), [5].as_slice());
    assert!(rt; both.positions_from(6).is_empty());
    Ok(())
}

fn verdict(alloc: Global, bytes: &[u8]) -> Verdict {
    Vector::decode(alloc, bytes).map(|_| ())
}

// What the vector of 1 and 3 is read as with one byte changed.
fn expected(place: usize, byte: u8) -> Verdict {
    match place {
        0..4 => bad(0, TAG),
        4..11 => bad(12, SHORT),
        11 if byte == 0 => bad(12, BadKind::Trailing),
        11 if byte == 1 => bad(20, BadKind::Trailing),
        11 => bad(12, SHORT),
        12..19 => bad(20, FORM),
        19 if byte >= 3 => bad(20, FORM),
        27 if byte <= 1 => bad(20, FORM),
        _ => Ok(()),
    }
}

#[test]
fn damaged_vectors_are_refused(rt: HostRuntime) -> Result<(), Fail> {
    each_change(&rt, &BYTES, verdict, expected)?;
    each_prefix(&rt, &BYTES, &[0, 4, 12], verdict);
    Ok(())
}
