//! The sessions of a script, and the ports that are lent to them.

ghost use Rattle.std.specs.Prelude.{◌≡◌, ◌+◌, ◌≤◌, vec_len, vec_capacity, IfOk, OnErr};
ghost use Rattle.std.specs.Vec.{vec_ptr};
ghost use Rattle.lake_script.specs.Sessions.{AreSeated, ports_of, with_lent};

use lake_outside::Port;
use lake_session::Session;
use lake_values::NoMemory;
use std::alloc::Global;

/// How many sessions a script may have.
const MOST_SESSIONS: u32 = 16;

/// The sessions from 1 on, each with a port that is taken out of the list, from the second one on.
///
/// The list keeps its block, so that putting the ports back takes no memory.
pub fn take_sessions<P: Port>(
    alloc: Global,
    ports: &mut Vec<P>,
) -> Result<Vec<Session<P>>, NoMemory>
    requires { 17 ≤ vec_len ports.old }
    ensures seated { IfOk result (λ sessions. AreSeated 1 sessions.items) }
    ensures len { IfOk result (λ sessions. vec_len sessions ≡ 16) }
    ensures lent { IfOk result (λ sessions. with_lent ports.new.items (ports_of sessions.items) ≡ ports.old.items) }
    ensures in_place { vec_ptr ports.new ≡ vec_ptr ports.old }
    ensures capacity { vec_capacity ports.new ≡ vec_capacity ports.old }
    ensures err { OnErr result (ports.new ≡ ports.old) }
{
    let mut sessions = Vec::with_capacity(alloc, MOST_SESSIONS as usize)?;
    for taken in 0..MOST_SESSIONS {
        let session = Session::new(taken + 1, ports.remove(1));
        sessions.push(session).unwrap();
    }
    Ok(sessions)
}

/// Puts the ports of the sessions back behind the first one.
pub fn return_ports<P: Port>(mut sessions: Vec<Session<P>>, ports: &mut Vec<P>)
    requires first { 1 ≤ vec_len ports.old }
    requires room { vec_len ports.old + vec_len sessions ≤ vec_capacity ports.old }
    ensures returned { ports.new.items ≡ with_lent ports.old.items (ports_of sessions.items) }
    ensures in_place { vec_ptr ports.new ≡ vec_ptr ports.old }
    ensures capacity { vec_capacity ports.new ≡ vec_capacity ports.old }
{
    while let Some(session) = sessions.pop() {
        ports.insert(1, session.port()).unwrap();
    }
}
