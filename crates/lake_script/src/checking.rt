//! Reading a script without running it.

ghost use Rattle.std.specs.Prelude.{◌≡◌, [], ◌↔◌, ◌<◌, ◌≤◌, ◌⊎◌, ℕ, List, Some, Ok, length, map, OnOk, OnErr, IsErrOf, IfOk};
ghost use Rattle.std.specs.Io.KnownBytes.{Appends};
ghost use Rattle.std.specs.String.{string_bytes};
ghost use Rattle.lake_outside.specs.Counts.{Rises};
ghost use Rattle.sql_model.specs.declared.scripts.Step.{Step as ScriptStep};
ghost use Rattle.sql_parser.specs.Scripts.{script_of};
ghost use Rattle.lake_script.specs.Checks.{ChecksAs, WritesFewer, check_text, line_of_count};
ghost use Rattle.lake_script.specs.Commands.{IsCheck};
ghost use Rattle.lake_script.specs.Headline.{HasRead, ReadsRefused, ReadsScript, IsQuiet};

use crate::scripts::read_script;
use crate::status::Status;
use crate::words::is_check;
use crate::writing::{RunEnd, put_all};
use lake_outside::{Sink, Source};
use std::alloc::{AllocError, Global};

/// Reads the script that the source gives, and writes how many statements it has. It runs none of them, and takes no
/// lake and no port.
///
/// The words are `check` alone. The statuses are those of `lake_run`, each for the same cause.
pub fn lake_check<S: Source, K: Sink>(
    alloc: Global,
    words: &Vec<String>,
    src: &mut S,
    out: &mut K,
) -> Status
    ensures done { result ≡ Status.Done → ReadsScript (λ steps. Appends (K.written out.old) (K.written out.new) (check_text steps)) (S.left src.old) (S.left src.new) }
    ensures usage { (result ≡ Status.Usage) ↔ (¬ IsCheck (map string_bytes words.now.items)) }
    ensures read_fault { result ≡ Status.ReadFault → Rises (S.faults src.old) (S.faults src.new) }
    ensures read_fault_within { result ≡ Status.ReadFault → HasRead (λ n. n ≤ 16777216) (S.left src.old) (S.left src.new) }
    ensures too_long { result ≡ Status.TooLong → HasRead (λ n. 16777216 < n) (S.left src.old) (S.left src.new) }
    ensures refused { (bad : _) → result ≡ Status.ScriptRefused bad → ReadsRefused bad (S.left src.old) (S.left src.new) }
    ensures write_fault { result ≡ Status.WriteFault → Rises (K.faults out.old) (K.faults out.new) ⊎ Rises (K.idle out.old) (K.idle out.new) }
    ensures halted { result ≡ Status.WriteFault → ReadsScript (λ steps. WritesFewer (K.written out.old) (K.written out.new) (check_text steps)) (S.left src.old) (S.left src.new) }
    ensures no_memory { result ≡ Status.NoMemory → Appends (K.written out.old) (K.written out.new) []
        ⊎ ReadsScript (λ steps. WritesFewer (K.written out.old) (K.written out.new) (check_text steps)) (S.left src.old) (S.left src.new) }
    ensures quiet { IsQuiet result → out.new ≡ out.old }
    ensures unread { result ≡ Status.Usage → src.new ≡ src.old }

    // Where nothing fails, a source that tells its bytes is checked, if they are a script within the limit.
    ensures completes { (bytes : List ℕ) (steps : List ScriptStep) → S.left src.old ≡ Some bytes → length bytes ≤ 16777216 → script_of bytes ≡ Ok steps
        → IsCheck (map string_bytes words.now.items) → (¬ Rises (S.faults src.old) (S.faults src.new))
        → (¬ Rises (K.faults out.old) (K.faults out.new)) → (¬ Rises (K.idle out.old) (K.idle out.new))
        → (result ≡ Status.Done) ⊎ (result ≡ Status.NoMemory) }
{
    check_words(alloc, words, src, out)
}

fn check_words<S: Source, K: Sink>(
    alloc: Global,
    words: &Vec<String>,
    src: &mut S,
    out: &mut K,
) -> Status
    ensures ends { ChecksAs (record {
      left_before = S.left src.old;
      left_after = S.left src.new;
      source_before = S.faults src.old;
      source_after = S.faults src.new;
      written_before = K.written out.old;
      written_after = K.written out.new;
      sink_before = K.faults out.old;
      sink_after = K.faults out.new;
      idle_before = K.idle out.old;
      idle_after = K.idle out.new;
    }) (map string_bytes words.now.items) result }
    ensures quiet { IsQuiet result → out.new ≡ out.old }
    ensures unread { result ≡ Status.Usage → src.new ≡ src.old }
{
    if !is_check(words) {
        return Status::Usage;
    }
    let script = match read_script(alloc, src) {
        Ok(script) => script,
        Err(status) => return status,
    };
    match put_count(alloc, script.len(), out) {
        Ok(()) => Status::Done,
        Err(RunEnd::WriteFault) => Status::WriteFault,
        Err(RunEnd::NoMemory) => Status::NoMemory,
    }
}

/// Writes the number of statements.
fn put_count<K: Sink>(alloc: Global, count: usize, out: &mut K) -> Result<(), RunEnd>
    ensures ok { OnOk result (Appends (K.written out.old) (K.written out.new) (line_of_count count)) }
    ensures part { OnErr result (WritesFewer (K.written out.old) (K.written out.new) (line_of_count count)) }
    ensures fault { IsErrOf result RunEnd.WriteFault → Rises (K.faults out.old) (K.faults out.new) ⊎ Rises (K.idle out.old) (K.idle out.new) }
{
    let Ok(line) = count_line(alloc, count) else {
        return Err(RunEnd::NoMemory);
    };
    put_all(out, line.as_bytes())
}

fn count_line(alloc: Global, count: usize) -> Result<String, AllocError>
    ensures { IfOk result (λ line. string_bytes line ≡ line_of_count count) }
{
    Ok(format!(in alloc; "ok: {count} statements\n")?)
}
