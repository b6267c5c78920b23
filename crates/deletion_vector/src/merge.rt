//! Strictly ascending positions, as slices.

ghost use Rattle.std.specs.Prelude.{◌≡◌, ◌||◌, ◌<◌, ◌≤◌, ℕ, filter, length, nat_le, slice_index, IfOk, IfErr, is_ok};
ghost use Rattle.std.specs.List.Sorted.{IsStrictlyIncreasing};
ghost use Rattle.deletion_vector.specs.Positions.{has};

use lake_values::NoMemory;
use std::alloc::Global;
use std::cmp::Ordering;

/// The place of a position, or the one at which it would be inserted.
pub fn place_of(positions: &[u64], position: u64) -> Result<usize, usize>
    requires { IsStrictlyIncreasing positions.now }
    ensures found { is_ok result ≡ has position positions.now }
    ensures place { IfOk result (λ i. slice_index positions.now i ≡ position) }
    ensures inside { IfOk result (λ i. i < length positions.now) }
    ensures within { IfErr result (λ i. i ≤ length positions.now) }
    ensures below { IfErr result (λ i. (k : ℕ) → k < i → slice_index positions.now k < position) }
    ensures above { IfErr result (λ i. (k : ℕ) → i ≤ k → k < length positions.now → position < slice_index positions.now k) }
{
    positions.binary_search(&position)
}

/// The positions from a bound on.
pub fn from_bound(positions: &[u64], bound: u64) -> &[u64]
    requires { IsStrictlyIncreasing positions.now }
    ensures list { result.now ≡ filter (λ position. nat_le bound position) positions.now }
    ensures ascending { IsStrictlyIncreasing result.now }
{
    let place = match place_of(positions, bound) {
        Ok(place) | Err(place) => place,
    };
    let (_, rest) = positions.split_at(place);
    rest
}

/// The positions of both, in one pass.
pub fn merged(alloc: Global, left: &[u64], right: &[u64]) -> Result<Vec<u64>, NoMemory>
    requires left { IsStrictlyIncreasing left.now }
    requires right { IsStrictlyIncreasing right.now }
    ensures ascending { IfOk result (λ both. IsStrictlyIncreasing both.items) }
    ensures union { IfOk result (λ both. (p : ℕ) → has p both.items ≡ (has p left.now || has p right.now)) }
{
    let mut both = Vec::with_capacity(alloc, left.len() + right.len())?;
    let mut i = 0;
    let mut j = 0;
    while i < left.len() && j < right.len() {
        match left[i].cmp(&right[j]) {
            Ordering::Less => {
                both.push(left[i])?;
                i += 1;
            }
            Ordering::Greater => {
                both.push(right[j])?;
                j += 1;
            }
            Ordering::Equal => {
                both.push(left[i])?;
                i += 1;
                j += 1;
            }
        }
    }
    both.extend_from_slice(&left[i..])?;
    both.extend_from_slice(&right[j..])?;
    Ok(both)
}
