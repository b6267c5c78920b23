//! Reading the spelling of a vector.

ghost use Rattle.std.specs.Prelude.{◌≡◌, ◌≤◌, ℕ, List, Option, length, drop, IfOk, Ok};
ghost use Rattle.std.specs.List.Sorted.{IsStrictlyIncreasing};
ghost use Rattle.lake_values.specs.Reading.{Tells, Gives, with_rest, whole};
ghost use Rattle.deletion_vector.specs.Spelling.{position_at, positions_at, vector_at};

use lake_values::{Bad, BadKind, DecodeFault, check_room, read_end, read_magic, read_u64};
use std::alloc::Global;

/// The positions that the bytes spell, all of the bytes.
#[tactic(auto, unfolding(crate::specs::Spelling::vector_at))]
pub fn read_vector(alloc: Global, bytes: &[u8]) -> Result<Vec<u64>, DecodeFault>
    ensures { Gives (λ v. v.items) result (whole vector_at bytes.now) }
{
    let at = read_magic(bytes, 0, b"LDV1")?;
    let (count, at) = read_u64(bytes, at)?;
    let (positions, at) = read_positions(alloc, count, bytes, at)?;
    read_end(bytes, at)?;
    Ok(positions)
}

fn read_positions(
    alloc: Global,
    count: u64,
    bytes: &[u8],
    at: usize,
) -> Result<(Vec<u64>, usize), DecodeFault>
    requires { at ≤ length bytes.now }
    ensures exact { Gives (λ x. (x.0.items, x.1, drop x.1 bytes.now)) result (positions_at count at (drop at bytes.now)) }
    ensures within { IfOk result (λ x. x.1 ≤ length bytes.now) }
{
    check_room(bytes, at, count, 8)?;
    let mut positions = Vec::with_capacity(alloc, count as usize)?;
    let mut next = at;
    let mut before = None;
    for _ in 0..count {
        let (position, behind) = read_position(before, bytes, next)?;
        positions.push(position)?;
        before = Some(position);
        next = behind;
    }
    Ok((positions, next))
}

fn read_position(before: Option<u64>, bytes: &[u8], at: usize) -> Result<(u64, usize), Bad>
    requires { at ≤ length bytes.now }
    ensures exact { Tells (with_rest bytes.now) result (position_at before tt at (drop at bytes.now)) }
    ensures within { IfOk result (λ x. x.1 ≤ length bytes.now) }
{
    let (position, behind) = read_u64(bytes, at)?;
    if let Some(before) = before
        && position <= before
    {
        return Err(Bad::at(at, BadKind::NotCanonical));
    }
    Ok((position, behind))
}
