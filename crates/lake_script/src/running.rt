ghost use Rattle.std.specs.Prelude.{◌≡◌, ◌^◌, ◌<◌, true, false, ◌≤◌, ◌⊎◌, ◌↔◌, List, ℕ, None, Some, length, map, IsSome, IsSomeAnd, OnOk, IsErrOf, vec_len};
ghost use Rattle.std.specs.String.{string_bytes};
ghost use Rattle.lake_outside.specs.Counts.{Rises};
ghost use Rattle.sql_model.specs.declared.scripts.Step.{Step as ScriptStep};
ghost use Rattle.lake_model.specs.Allowed.{IsLegal};
ghost use Rattle.lake_model.specs.Following.{Follows};
ghost use Rattle.lake_script.specs.Commands.{IsCommand};
ghost use Rattle.lake_core.specs.Lakes.{new_lake};
ghost use Rattle.lake_script.specs.Scripts.{AreInTurn, IsRunnable};
ghost use Rattle.lake_script.specs.Sessions.{AreSeated, ports_of};
ghost use Rattle.sql_parser.specs.Scripts.{script_of};
ghost use Rattle.lake_script.specs.Headline.{HasRead, HasRun, HasHalted, HasBegun, ReadsScript, ReadsRefused, WritesPart, EndsAs, IsQuiet};
ghost use Rattle.lake_script.specs.Steps.{RanStep, StoppedStep};
ghost use Rattle.lake_session.specs.Runs.{Leaves, MayRun};

use crate::scripts::read_script;
use crate::sessions::{return_ports, take_sessions};
use crate::status::Status;
use crate::words::is_command;
use crate::writing::{RunEnd, put_all};
use lake_core::LakeState;
use lake_model::reply_text;
use lake_outside::{Gate, Port, Sink, Source};
use lake_session::Session;
use sql_model::{Numbered, Script, Step};
use std::alloc::Global;

/// How a run ended, with the lake that it leaves.
#[derive(Drop)]
pub struct Ended<P: Port> {
    pub status: Status,
    /// The lake where the run came to its end, and where the sink failed.
    pub lake: Option<LakeState<P>>,
}

/// Runs the script that the source gives over a new lake, each statement by its session, and writes a reply
/// for each.
///
/// The words are a command: so far `run` alone. `ports` are the ways to the store: the first is kept for
/// what comes later, the next 16 are those of the sessions 1 to 16, and the 16 behind them those of the
/// servers. The sessions hold theirs while the script runs. No statement calls a port yet, nor the gate.
///
/// `Done` says that every statement has its reply. Then the lake's chronicle is legal, follows the script
/// and has the text that was written; `docs/THEOREM.md` explains these words. Every other status comes for
/// its own cause alone, but for want of memory, which may come at any place.
pub fn lake_run<S: Source, K: Sink, P: Port, G: Gate>(
    alloc: Global,
    words: &Vec<String>,
    src: &mut S,
    out: &mut K,
    ports: &mut Vec<P>,
    gate: &G,
) -> Ended<P>
    requires { 33 ≤ vec_len ports.old }

    ensures legal { result.status ≡ Status.Done
        → IsSomeAnd result.lake (λ lake. IsLegal true lake.entries) }
    ensures follows { result.status ≡ Status.Done → IsSomeAnd result.lake
        (λ lake. ReadsScript (λ steps. Follows true lake.entries steps)
        (S.left src.old) (S.left src.new)) }
    ensures text { result.status ≡ Status.Done → IsSomeAnd result.lake
        (λ lake. ReadsScript (HasRun (K.written out.old) (K.written out.new) lake.entries) (S.left src.old) (S.left src.new)) }

    ensures usage { (result.status ≡ Status.Usage) ↔ (¬ IsCommand (map string_bytes words.now.items)) }
    ensures read_fault { result.status ≡ Status.ReadFault → Rises (S.faults src.old) (S.faults src.new) }
    ensures read_fault_within { result.status ≡ Status.ReadFault → HasRead (λ n. n ≤ 16777216) (S.left src.old) (S.left src.new) }
    ensures too_long { result.status ≡ Status.TooLong → HasRead (λ n. 16777216 < n) (S.left src.old) (S.left src.new) }
    ensures refused { (bad : _) → result.status ≡ Status.ScriptRefused bad → ReadsRefused bad (S.left src.old) (S.left src.new) }
    ensures write_fault { result.status ≡ Status.WriteFault → Rises (K.faults out.old) (K.faults out.new) ⊎ Rises (K.idle out.old) (K.idle out.new) }
    ensures halted { result.status ≡ Status.WriteFault → IsSomeAnd result.lake
        (λ lake. ReadsScript (HasHalted (K.written out.old) (K.written out.new) lake.entries) (S.left src.old) (S.left src.new)) }
    ensures no_memory { result.status ≡ Status.NoMemory → WritesPart (S.left src.old) (S.left src.new) (K.written out.old) (K.written out.new) }

    ensures lake { IsSome result.lake ↔ ((result.status ≡ Status.Done) ⊎ (result.status ≡ Status.WriteFault)) }
    ensures quiet { IsQuiet result.status → out.new ≡ out.old }
    ensures unread { result.status ≡ Status.Usage → src.new ≡ src.old }
    ensures ports { ports.new ≡ ports.old }

    // Where nothing fails, a source that tells its bytes is run to the end, if they are a script within the limit.
    ensures completes { (bytes : List ℕ) (steps : List ScriptStep) → S.left src.old ≡ Some bytes → length bytes ≤ 16777216 → script_of bytes ≡ Ok steps
        → IsCommand (map string_bytes words.now.items) → (¬ Rises (S.faults src.old) (S.faults src.new))
        → (¬ Rises (K.faults out.old) (K.faults out.new)) → (¬ Rises (K.idle out.old) (K.idle out.new))
        → (result.status ≡ Status.Done) ⊎ (result.status ≡ Status.NoMemory) }
{
    run_words(alloc, words, src, out, ports)
}

fn run_words<S: Source, K: Sink, P: Port>(
    alloc: Global,
    words: &Vec<String>,
    src: &mut S,
    out: &mut K,
    ports: &mut Vec<P>,
) -> Ended<P>
    requires { 33 ≤ vec_len ports.old }
    ensures ends { EndsAs (record {
      left_before = S.left src.old;
      left_after = S.left src.new;
      source_before = S.faults src.old;
      source_after = S.faults src.new;
      written_before = K.written out.old;
      written_after = K.written out.new;
      sink_before = K.faults out.old;
      sink_after = K.faults out.new;
      idle_before = K.idle out.old;
      idle_after = K.idle out.new;
    }) (map string_bytes words.now.items) result.status result.lake }
    ensures quiet { IsQuiet result.status → out.new ≡ out.old }
    ensures unread { result.status ≡ Status.Usage → src.new ≡ src.old }
    ensures ports { ports.new ≡ ports.old }
{
    if !is_command(words) {
        return without_lake(Status::Usage);
    }
    let script = match read_script(alloc, src) {
        Ok(script) => script,
        Err(status) => return without_lake(status),
    };
    let Ok(mut lake) = LakeState::new(alloc) else {
        return without_lake(Status::NoMemory);
    };
    match run_script(alloc, &mut lake, &script, out, ports) {
        Ok(()) => with_lake(Status::Done, lake),
        Err(RunEnd::WriteFault) => with_lake(Status::WriteFault, lake),
        Err(RunEnd::NoMemory) => without_lake(Status::NoMemory),
    }
}

fn with_lake<P: Port>(status: Status, lake: LakeState<P>) -> Ended<P>
    ensures status { result.status ≡ status }
    ensures lake { result.lake ≡ Some lake }
{
    Ended {
        status,
        lake: Some(lake),
    }
}

fn without_lake<P: Port>(status: Status) -> Ended<P>
    ensures status { result.status ≡ status }
    ensures lake { result.lake ≡ None }
{
    Ended { status, lake: None }
}

/// Runs a statement of the session and writes its reply.
fn run_step<K: Sink, P: Port>(
    alloc: Global,
    lake: &mut LakeState<P>,
    session: &mut Session<P>,
    n: &Numbered,
    out: &mut K,
) -> Result<(), RunEnd>
    requires own { session.old.number ≡ n.now.session }
    requires unspent { session.old.spent ≡ false }
    requires runnable { IsRunnable n.now }
    requires may_run { MayRun lake.old n.now.session }
    ensures ok { OnOk result
        (RanStep lake.old lake.new n.now (K.written out.old) (K.written out.new)) }
    ensures leaves { Leaves lake.old lake.new n.now.session }
    ensures session { OnOk result (session.new ≡ session.old) }
    ensures port { session.new.port ≡ session.old.port }
    ensures stopped { IsErrOf result RunEnd.WriteFault
        → StoppedStep ◌<◌ lake.old lake.new n.now (K.written out.old) (K.written out.new) }
    ensures no_memory { IsErrOf result RunEnd.NoMemory → (out.new ≡ out.old)
        ⊎ StoppedStep ◌≤◌ lake.old lake.new n.now (K.written out.old) (K.written out.new) }
    ensures fault { IsErrOf result RunEnd.WriteFault → Rises (K.faults out.old) (K.faults out.new) ⊎ Rises (K.idle out.old) (K.idle out.new) }
    ensures faults_never_fall { K.faults out.old ≤ K.faults out.new }
    ensures idle_never_falls { K.idle out.old ≤ K.idle out.new }
{
    let reply = session.execute(alloc, lake, n.place, &n.statement)?;
    let mut text = Vec::new(alloc);
    reply_text(n.place, &reply, &mut text)?;
    put_all(out, text.as_slice())
}

/// Runs the steps of a script over a new lake, each by its session.
fn run_all<K: Sink, P: Port>(
    alloc: Global,
    lake: &mut LakeState<P>,
    sessions: &mut [Session<P>],
    script: &Script,
    out: &mut K,
) -> Result<(), RunEnd>
    requires new { lake.old ≡ new_lake }
    requires few { length script.now < 2 ^ 32 }
    requires in_turn { AreInTurn 1 script.now }
    requires seated { AreSeated 1 sessions.old }
    requires sessions { length sessions.old ≡ 16 }
    ensures ok { OnOk result (HasRun (K.written out.old) (K.written out.new) lake.new.entries script.now) }
    ensures halted { IsErrOf result RunEnd.WriteFault → HasHalted (K.written out.old) (K.written out.new) lake.new.entries script.now }
    ensures no_memory { IsErrOf result RunEnd.NoMemory → HasBegun (K.written out.old) (K.written out.new) script.now }
    ensures fault { IsErrOf result RunEnd.WriteFault → Rises (K.faults out.old) (K.faults out.new) ⊎ Rises (K.idle out.old) (K.idle out.new) }
    ensures ports { ports_of sessions.new ≡ ports_of sessions.old }
{
    let steps = script.as_slice();
    for step in steps {
        let Step::One(n) = step else { unreachable!() };
        let session = &mut sessions[n.session as usize - 1];
        if let Err(end) = run_step(alloc, lake, session, n, out) {
            return Err(end);
        }
    }
    Ok(())
}

/// Runs the steps of a script over a new lake, by sessions to which their ports are lent.
fn run_script<K: Sink, P: Port>(
    alloc: Global,
    lake: &mut LakeState<P>,
    script: &Script,
    out: &mut K,
    ports: &mut Vec<P>,
) -> Result<(), RunEnd>
    requires new { lake.old ≡ new_lake }
    requires few { length script.now < 2 ^ 32 }
    requires in_turn { AreInTurn 1 script.now }
    requires ports { 33 ≤ vec_len ports.old }
    ensures ok { OnOk result (HasRun (K.written out.old) (K.written out.new) lake.new.entries script.now) }
    ensures halted { IsErrOf result RunEnd.WriteFault → HasHalted (K.written out.old) (K.written out.new) lake.new.entries script.now }
    ensures no_memory { IsErrOf result RunEnd.NoMemory → HasBegun (K.written out.old) (K.written out.new) script.now }
    ensures fault { IsErrOf result RunEnd.WriteFault → Rises (K.faults out.old) (K.faults out.new) ⊎ Rises (K.idle out.old) (K.idle out.new) }
    ensures ports { ports.new ≡ ports.old }
{
    let mut sessions = take_sessions(alloc, ports)?;
    let ended = run_all(alloc, lake, sessions.as_mut_slice(), script, out);
    return_ports(sessions, ports);
    ended
}
