ghost use Rattle.std.specs.Prelude.{◌≡◌, ◌<◌, ◌≤◌, ◌⊎◌, ℕ, length, take, OnOk, OnErr, IsErrOf};
ghost use Rattle.std.specs.Io.KnownBytes.{Appends};
ghost use Rattle.lake_outside.specs.Counts.{Rises};

use lake_outside::{PutError, Sink};
use lake_values::NoMemory;

/// Why a run ended before its script did.
#[derive(Clone, Copy, Debug, PartialEq, Eq)]
pub enum RunEnd {
    WriteFault,
    NoMemory,
}

impl From<NoMemory> for RunEnd {
    ghost use Rattle.std.specs.Prelude.{◌≡◌};
    ghost use Rattle.lake_script.specs.declared.writing.RunEnd.TheVariants.{NoMemory as OutOfMemory};

    ghost from_gives = { λ _ end. end ≡ OutOfMemory };

    fn from(_refused: NoMemory) -> RunEnd {
        RunEnd::NoMemory
    }
}

/// Puts all bytes. Where that isn't done, the sink took fewer.
pub fn put_all<K: Sink>(out: &mut K, bytes: &[u8]) -> Result<(), RunEnd>
    ensures ok { OnOk result (Appends (K.written out.old) (K.written out.new) bytes.now) }
    ensures part { OnErr result ((n : ℕ) × (n < length bytes.now) × Appends (K.written out.old) (K.written out.new) (take n bytes.now)) }
    ensures fault { IsErrOf result RunEnd.WriteFault → Rises (K.faults out.old) (K.faults out.new) ⊎ Rises (K.idle out.old) (K.idle out.new) }
    ensures faults_never_fall { K.faults out.old ≤ K.faults out.new }
    ensures idle_never_falls { K.idle out.old ≤ K.idle out.new }
{
    let mut taken = 0;
    while taken < bytes.len() {
        let (_, rest) = bytes.split_at(taken);
        match out.put(rest) {
            Ok(0) => return Err(RunEnd::WriteFault),
            Ok(count) => taken += count,
            Err(PutError::Failed) => return Err(RunEnd::WriteFault),
            Err(PutError::NoMemory) => return Err(RunEnd::NoMemory),
        }
    }
    Ok(())
}
