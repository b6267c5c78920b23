ghost use Rattle.std.specs.Prelude.{◌≡◌, ◌<◌};
ghost use Rattle.lake_values.specs.Spelling.{value_spelling};
ghost use Rattle.lake_values.specs.Cells.{hash_from, hash_of, cell};

use crate::Value;

const OFFSET: u64 = 0xcbf2_9ce4_8422_2325;

const PRIME: u64 = 0x0000_0100_0000_01b3;

/// The cell of a value, from 0 to 15: FNV-1a of its spelling, modulo 16.
pub fn cell_of(value: &Value) -> u32
    ensures value { result ≡ cell value.now }
    ensures below { result < 16 }
{
    (hash_of_value(value) % 16) as u32
}

#[tactic(auto, using(crate::proofs::Hashes::hash_from_append), unfolding(crate::specs::Spelling::u32_spelling, crate::specs::Spelling::u64_spelling))]
fn hash_of_value(value: &Value) -> u64
    ensures { result ≡ hash_of (value_spelling value.now) }
{
    match value {
        Value::Null => hash_bytes(OFFSET, &[0]),
        Value::Int(number) => {
            let tagged = hash_bytes(OFFSET, &[1]);
            hash_bytes(tagged, &number.cast_unsigned().to_be_bytes())
        }
        Value::Text(text) => {
            let bytes = text.as_str().as_bytes();
            let tagged = hash_bytes(OFFSET, &[2]);
            let sized = hash_bytes(tagged, &(bytes.len() as u32).to_be_bytes());
            hash_bytes(sized, bytes)
        }
    }
}

// The hash of the bytes behind those that gave this hash.
#[tactic(auto, unfolding(crate::specs::Cells::hash_step))]
fn hash_bytes(hash: u64, bytes: &[u8]) -> u64
    ensures { result ≡ hash_from hash bytes.now }
{
    let mut hash = hash;
    for byte in bytes {
        hash = (hash ^ u64::from(*byte)).wrapping_mul(PRIME);
    }
    hash
}
