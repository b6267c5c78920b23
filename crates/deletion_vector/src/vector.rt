ghost use Rattle.std.specs.Prelude.{◌≡◌, ◌==◌, ◌||◌, ◌↔◌, ℕ, List, [], filter, length, nat_le, not, IsTrue, OnOk, OnErr, IfOk, Ok};
ghost use Rattle.std.specs.List.Sorted.{IsStrictlyIncreasing};
ghost use Rattle.lake_values.specs.Spelling.{NoneBegins};
ghost use Rattle.lake_values.specs.Reading.{Gives, whole};
ghost use Rattle.deletion_vector.specs.Positions.{has, IsVector};
ghost use Rattle.deletion_vector.specs.Spelling.{vector_spelling, vector_at};

use crate::merge::{from_bound, merged, place_of};
use crate::read::read_vector;
use lake_values::{DecodeFault, NoMemory, write_u64};
use std::alloc::Global;
use std::marker::Model;

/// The positions of a file's rows that are gone, from 0. Contracts see the list of them, which ascends strictly.
#[derive(Debug, Drop)]
pub struct Vector {
    positions: Vec<u64>,
}

impl Model for Vector {
    ghost use Rattle.std.specs.Prelude.{ℕ, List};
    ghost use Rattle.std.specs.List.Sorted.{IsStrictlyIncreasing};

    ghost Value = { List ℕ };

    ghost view = { λ v. v.positions.items };

    ghost invariant = { λ v. IsStrictlyIncreasing v.positions.items };
}

impl Vector {
    /// The vector without positions.
    pub fn empty(alloc: Global) -> Vector
        ensures { result ≡ [] }
    {
        Vector {
            positions: Vec::new(alloc),
        }
    }

    pub fn contains(&self, position: u64) -> bool
        ensures { result ≡ has position self.now }
    {
        place_of(&self.positions, position).is_ok()
    }

    /// How many positions there are.
    pub fn len(&self) -> u64
        ensures count { result ≡ length self.now }
        ensures ascending { IsStrictlyIncreasing self.now }
    {
        self.positions.len() as u64
    }

    pub fn is_empty(&self) -> bool
        ensures { IsTrue result ↔ (self.now ≡ []) }
    {
        self.positions.is_empty()
    }

    /// The positions, ascending.
    pub fn positions(&self) -> &[u64]
        ensures list { result.now ≡ self.now }
        ensures ascending { IsStrictlyIncreasing result.now }
    {
        self.positions.as_slice()
    }

    /// The positions from a bound on, ascending. The first of them is found by binary search.
    pub fn positions_from(&self, bound: u64) -> &[u64]
        ensures list { result.now ≡ filter (λ position. nat_le bound position) self.now }
        ensures ascending { IsStrictlyIncreasing result.now }
    {
        let positions = self.positions.as_slice();
        from_bound(positions, bound)
    }

    /// Adds a position. True where it is new, false where it was there.
    pub fn add(&mut self, position: u64) -> Result<bool, NoMemory>
        ensures new { IfOk result (λ added. added ≡ not (has position self.old)) }
        ensures ok { OnOk result ((p : ℕ) → has p self.new ≡ (has p self.old || position == p)) }
        ensures err { OnErr result (self.new ≡ self.old) }
    {
        match place_of(&self.positions, position) {
            Ok(_) => Ok(false),
            Err(place) => {
                self.positions.insert(place, position)?;
                Ok(true)
            }
        }
    }

    /// The positions of both.
    pub fn merge(&self, other: &Vector) -> Result<Vector, NoMemory>
        ensures { IfOk result (λ both. (p : ℕ) → has p both ≡ (has p self.now || has p other.now)) }
    {
        let positions = merged(
            *self.positions.allocator(),
            &self.positions,
            &other.positions,
        )?;
        Ok(Vector { positions })
    }

    /// The one spelling of the vector.
    pub fn encode(&self) -> Result<Vec<u8>, NoMemory>
        ensures { IfOk result (λ bytes. bytes.items ≡ vector_spelling self.now) }
    {
        let count = self.positions.len();
        let mut out = Vec::with_capacity(
            *self.positions.allocator(),
            count.saturating_mul(8).saturating_add(12),
        )?;
        out.extend_from_slice(b"LDV1")?;
        write_u64(count as u64, &mut out)?;
        for position in &self.positions {
            write_u64(*position, &mut out)?;
        }
        Ok(out)
    }

    /// The vector whose spelling the bytes are, all of the bytes; else the first bad field. A position that isn't
    /// above the one before it is NotCanonical at its own place.
    pub fn decode(alloc: Global, bytes: &[u8]) -> Result<Vector, DecodeFault>
        ensures exact { Gives (λ v. v) result (whole vector_at bytes.now) }
        ensures found { IfOk result (λ v. bytes.now ≡ vector_spelling v) }
        ensures fits { IfOk result IsVector }
        ensures only { (v : List ℕ) → IsVector v → bytes.now ≡ vector_spelling v → Gives (λ x. x) result (Ok v) }
    {
        decoded(alloc, bytes)
    }
}

fn decoded(alloc: Global, bytes: &[u8]) -> Result<Vector, DecodeFault>
    ensures { Gives (λ v. v) result (whole vector_at bytes.now) }
{
    let positions = read_vector(alloc, bytes)?;
    Ok(Vector { positions })
}

/// No spelling of a vector begins another.
pub fn one_vector_spelling()
    ensures { NoneBegins IsVector vector_spelling }
{}
