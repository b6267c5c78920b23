ghost use Rattle.std.specs.Prelude.{◌≡◌, ◌<◌, ◌≤◌, ℕ, List, ◌++◌, false, length, IfOk, IsErrOf, IsTrue, vec_len};
ghost use Rattle.std.specs.Io.KnownBytes.{Consumes, IsAtEnd, Keeps};
ghost use Rattle.lake_outside.specs.Counts.{Rises};
ghost use Rattle.lake_script.specs.Headline.{HasRead};

use lake_outside::{Failed, Source};
use std::alloc::{AllocError, Global};

/// Why the source wasn't read to its end.
#[derive(Clone, Copy, Debug, PartialEq, Eq)]
pub enum ReadEnd {
    Fault,
    TooLong,
    NoMemory,
}

impl From<AllocError> for ReadEnd {
    ghost use Rattle.std.specs.Prelude.{◌≡◌};
    ghost use Rattle.lake_script.specs.declared.reading.ReadEnd.TheVariants.{NoMemory as OutOfMemory};

    ghost from_gives = { λ _ end. end ≡ OutOfMemory };

    fn from(_refused: AllocError) -> ReadEnd {
        ReadEnd::NoMemory
    }
}

/// The most bytes that a script may have.
const MOST_BYTES: usize = 16_777_216;

/// How many bytes are asked for at once.
const PIECE_BYTES: usize = 65_536;

/// All bytes that the source gives, up to its end.
pub fn read_all<S: Source>(alloc: Global, src: &mut S) -> Result<Vec<u8>, ReadEnd>
    ensures read { IfOk result (λ bytes. Consumes (S.left src.old) (S.left src.new) bytes.items) }
    ensures at_end { IfOk result (λ bytes. IsAtEnd (S.left src.new)) }
    ensures within { IfOk result (λ bytes. length bytes.items ≤ 16777216) }
    ensures too_long { IsErrOf result ReadEnd.TooLong → HasRead (λ n. 16777216 < n) (S.left src.old) (S.left src.new) }
    ensures fault { IsErrOf result ReadEnd.Fault → Rises (S.faults src.old) (S.faults src.new) }
    ensures fault_within { IsErrOf result ReadEnd.Fault → HasRead (λ n. n ≤ 16777216) (S.left src.old) (S.left src.new) }
{
    let mut bytes = Vec::new(alloc);
    let mut buffer = zeros(alloc, PIECE_BYTES)?;
    while bytes.len() <= MOST_BYTES {
        if read_piece(src, buffer.as_mut_slice(), &mut bytes)? {
            return Ok(bytes);
        }
    }
    Err(ReadEnd::TooLong)
}

fn zeros(alloc: Global, length: usize) -> Result<Vec<u8>, AllocError>
    ensures { IfOk result (λ zeros. vec_len zeros ≡ length) }
{
    vec![in alloc; 0; length]
}

/// Puts the next bytes of the source behind those read so far, and answers whether it was at its end.
fn read_piece<S: Source>(
    src: &mut S,
    buffer: &mut [u8],
    bytes: &mut Vec<u8>,
) -> Result<bool, ReadEnd>
    requires { 0 < length buffer.old }
    ensures read { IfOk result (λ ended. (piece : List ℕ) × (bytes.new.items ≡ bytes.old.items ++ piece)
        × Consumes (S.left src.old) (S.left src.new) piece × (ended ≡ false → 0 < length piece)) }
    ensures at_end { IfOk result (λ ended. IsTrue ended → (bytes.new.items ≡ bytes.old.items) × IsAtEnd (S.left src.new)) }
    ensures fault { IsErrOf result ReadEnd.Fault → Rises (S.faults src.old) (S.faults src.new) }
    ensures not_too_long { IsErrOf result ReadEnd.TooLong → ⊥ }
    ensures fault_keeps { IsErrOf result ReadEnd.Fault → Keeps (S.left src.old) (S.left src.new) × (bytes.new.items ≡ bytes.old.items) }
    ensures never_falls { S.faults src.old ≤ S.faults src.new }
{
    match src.take(buffer) {
        Err(Failed) => Err(ReadEnd::Fault),
        Ok(0) => Ok(true),
        Ok(read) => {
            let (piece, _) = buffer.split_at(read);
            bytes.extend_from_slice(piece)?;
            Ok(false)
        }
    }
}
