//! Parsed statements that threads are handed and lent.

use lake_outside::DeadPort;
use sql_model::{Numbered, Script, Statement, Step};
use sql_parser::parse_script;
use std::alloc::Global;
use std::test::Fail;
use std::thread;
use std::thread::Threads;

const SCRIPT: &[u8] = b"CREATE TABLE t (a INT, b TEXT);\
    @b INSERT INTO t VALUES (1, 'x'), (2, NULL);\
    SELECT a + 1, COUNT(*) FROM t WHERE NOT b IS NULL GROUP BY a ORDER BY 2 LIMIT 3;\
    @b UPDATE t SET a = a * 2 WHERE b = 'x';";

/// What a thread of a session holds: its statements, the one that runs, and its port.
#[derive(Drop)]
struct Lane {
    statements: Vec<Numbered>,
    current: Option<Statement>,
    port: DeadPort,
}

/// A lane with the statements of the script, of which the last one runs.
fn with_statements(alloc: Global) -> Result<Lane, Fail> {
    let mut statements = Vec::new(alloc);
    for step in parse_script(alloc, SCRIPT)?.into_list() {
        match step {
            Step::One(numbered) => statements.push(numbered)?,
            Step::Parallel(_) => return Err(Fail::new("a block")),
        }
    }
    let current = match statements.pop() {
        Some(last) => Some(last.statement),
        None => None,
    };
    let port = DeadPort::new();
    Ok(Lane {
        statements,
        current,
        port,
    })
}

fn sessions(script: &Script) -> u32 {
    let mut most = 0;
    for step in script.as_slice() {
        if let Step::One(numbered) = step {
            most = numbered.session.max(most);
        }
    }
    most
}

/// The same lane, which a thread was handed and gave back.
fn handed(rt: &impl Threads, lane: Lane) -> Lane {
    let (lane, ()) = thread::join(rt, move || lane, || ());
    lane
}

#[test]
fn statements_are_handed_to_a_thread_and_back(rt: HostRuntime) -> Result<(), Fail> {
    let mut lane = handed(&rt, with_statements(rt.alloc())?);
    assert!(rt; matches!(lane.current, Some(Statement::Update { .. })));
    assert!(rt; matches!(lane.statements.pop(), Some(Numbered { place: 3, .. })));
    assert_eq!(rt; lane.statements.len(), 2);
    Ok(())
}

#[test]
fn a_script_is_lent_to_two_threads(rt: HostRuntime) -> Result<(), Fail> {
    let script = parse_script(rt.alloc(), SCRIPT)?;
    let (one, other) = thread::join(&rt, || sessions(&script), || script.len());
    assert_eq!(rt; (one, other), (2, 4));
    Ok(())
}
