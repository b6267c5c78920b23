ghost use Rattle.std.specs.Prelude.{◌≡◌, IfOk, Ok};
ghost use Rattle.lake_values.specs.Reading.{Gives, whole};
ghost use Rattle.column_file.specs.declared.decode.Decoded.{Decoded as File};
ghost use Rattle.column_file.specs.Spelling.{file_spelling, IsFile};
ghost use Rattle.column_file.specs.Reading.{file_at};

use crate::columns::read_columns;
use crate::transpose::{kinds_of, rows_from};
use lake_values::{
    Bad, BadKind, ColType, DecodeFault, Listed, Rows, read_end, read_magic, read_u32, read_u64,
};
use std::alloc::Global;

pub type Kinds = Listed<ColType>;

/// What a column file holds: the kinds of its columns, and its rows.
#[derive(Debug, Drop)]
pub struct Decoded {
    pub kinds: Kinds,
    pub rows: Rows,
}

/// The kinds and rows whose spelling the bytes are, all of the bytes; else the first bad field. Each array is one
/// field where it is too short, and then each of its elements is bad at its own place.
pub fn decode_file(alloc: Global, bytes: &[u8]) -> Result<Decoded, DecodeFault>
    ensures exact { Gives (λ file. file) result (whole file_at bytes.now) }
    ensures found { IfOk result (λ file. bytes.now ≡ file_spelling file) }
    ensures fits { IfOk result IsFile }
    ensures only { (file : File) → IsFile file → bytes.now ≡ file_spelling file → Gives (λ x. x) result (Ok file) }
{
    read_file(alloc, bytes)
}

#[tactic(auto, using(crate::proofs::LentColumns::kinds_are), unfolding(crate::specs::Reading::file_at))]
fn read_file(alloc: Global, bytes: &[u8]) -> Result<Decoded, DecodeFault>
    ensures { Gives (λ file. file) result (whole file_at bytes.now) }
{
    let start = read_magic(bytes, 0, b"LCF1")?;
    let (count, next) = read_u32(bytes, start)?;
    if count == 0 || count > 64 {
        return Err(DecodeFault::Bad(Bad::at(start, BadKind::NotCanonical)));
    }
    let (rows, next) = read_u64(bytes, next)?;
    let (columns, next) = read_columns(alloc, count, rows, bytes, next)?;
    read_end(bytes, next)?;
    let kinds = kinds_of(alloc, &columns)?;
    let rows = rows_from(alloc, rows as usize, &columns)?;
    Ok(Decoded {
        kinds: Kinds::from_list(kinds),
        rows: Rows::from_rows(rows),
    })
}
