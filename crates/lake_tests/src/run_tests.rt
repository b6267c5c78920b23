//! How runs end, what they write until then, and what a check of a script writes.

use crate::runs::{run, run_script};
use lake_outside::{MemSink, MemSource, PutError, Sink, SureSink, SureSource};
use lake_script::{ParseKind, ScriptBad, Status, lake_check, status_text};
use std::alloc::Global;
use std::test::Fail;

const FIRST: &str = "CREATE TABLE t (a INT); INSERT INTO t VALUES (2), (1), (1); SELECT * FROM t;";

const SYNTAX: ParseKind = ParseKind::Syntax;

/// Bytes that are no script, and where and why they are refused.
const REFUSED: [(&[u8], u32, u32, ParseKind); 10] = [
    (b"SELECT 1;", 1, 9, SYNTAX),
    (b"SELECT * FROM t", 1, 16, SYNTAX),
    (b"SELECT * FROM t\n", 2, 1, SYNTAX),
    (b"\xff", 1, 1, ParseKind::BadChar),
    (
        b"CREATE TABLE t (a INT) # one column",
        1,
        24,
        ParseKind::BadChar,
    ),
    (
        b"CREATE TABLE t (a TEXT);\nINSERT INTO t VALUES ('x);",
        2,
        23,
        ParseKind::OpenText,
    ),
    (b"INSERT INTO t VALUES ('\xff');", 1, 23, ParseKind::NotUtf8),
    (
        b"SELECT COUNT(*) FROM t JOIN u ON t.a = u.a;",
        1,
        24,
        SYNTAX,
    ),
    (
        b"INSERT INTO t VALUES (9223372036854775808);",
        1,
        23,
        ParseKind::BigNumber,
    ),
    (
        b"SELECT * FROM a JOIN b ON a.x = b.x JOIN c ON a.x = c.x JOIN d ON a.x = d.x \
          JOIN e ON a.x = e.x;",
        1,
        77,
        ParseKind::Limit,
    ),
];

#[test]
fn bytes_that_are_no_script_are_refused_at_their_place(rt: HostRuntime) -> Result<(), Fail> {
    for (script, line, column, kind) in REFUSED {
        let (status, written) = run_script(rt.alloc(), script)?;
        let bad = ScriptBad { line, column, kind };
        assert_eq!(rt; status, Status::ScriptRefused(bad), "{script:?}");
        assert!(rt; written.is_empty(), "{script:?}");
    }
    Ok(())
}

#[test]
fn one_word_is_a_command(rt: HostRuntime) -> Result<(), Fail> {
    let alloc = rt.alloc();
    let mut out = SureSink::new(alloc);
    for words in [[].as_slice(), &["walk"], &["check"], &["run", "run"]] {
        let mut src = SureSource::new(FIRST.as_bytes().to_vec(alloc)?);
        let (status, entries) = run(alloc, words, &mut src, &mut out)?;
        assert_eq!(rt; (status, entries), (Status::Usage, None), "{words:?}");
    }
    assert!(rt; out.written().is_empty());
    Ok(())
}

#[test]
fn a_failing_source_is_a_read_fault(rt: HostRuntime) -> Result<(), Fail> {
    let alloc = rt.alloc();
    for call in [1, 2] {
        let script = FIRST.as_bytes().to_vec(alloc)?;
        let mut src = MemSource::new(script, vec![in alloc; call]?);
        let mut out = SureSink::new(alloc);
        let (status, entries) = run(alloc, &["run"], &mut src, &mut out)?;
        assert_eq!(rt; (status, entries), (Status::ReadFault, None), "{call}");
        assert!(rt; out.written().is_empty(), "{call}");
    }
    Ok(())
}

/// The entries of statements whose replies weren't written stand.
#[test]
fn a_failing_sink_ends_the_run(rt: HostRuntime) -> Result<(), Fail> {
    let alloc = rt.alloc();
    for (script, call, written, entries) in [
        // Created of the first statement, and Began, Ran and Committed of the second
        (FIRST, 2, "1: created t as 1\n", 4),
        // Created, Began, Ran and Committed
        (
            "CREATE TABLE t (a INT); @b BEGIN; @b INSERT INTO t VALUES (1); @b COMMIT;\
             SELECT * FROM t;",
            4,
            "1: created t as 1\n2: begun at 1\n3: inserted 1\n",
            4,
        ),
    ] {
        let mut src = SureSource::new(script.as_bytes().to_vec(alloc)?);
        let mut out = MemSink::new(alloc, vec![in alloc; call]?);
        let ended = run(alloc, &["run"], &mut src, &mut out)?;
        assert_eq!(rt; ended, (Status::WriteFault, Some(entries)), "{script}");
        assert_eq!(rt; str::from_utf8(out.written())?, written);
    }
    Ok(())
}

/// A sink that takes no byte and doesn't fail either.
#[derive(Drop)]
struct IdleSink {
    calls: u64,
}

impl Sink for IdleSink {
    ghost faults = { λ _. 0 };

    ghost idle = { λ sink. sink.calls };

    fn put(&mut self, _bytes: &[u8]) -> Result<usize, PutError> {
        self.calls = self.calls.saturating_add(1);
        Ok(0)
    }
}

#[test]
fn an_idle_sink_ends_the_run(rt: HostRuntime) -> Result<(), Fail> {
    let alloc = rt.alloc();
    let mut src = SureSource::new(FIRST.as_bytes().to_vec(alloc)?);
    let mut out = IdleSink { calls: 0 };
    let ended = run(alloc, &["run"], &mut src, &mut out)?;
    assert_eq!(rt; ended, (Status::WriteFault, Some(1)));
    assert_eq!(rt; out.calls, 1);
    Ok(())
}

#[test]
fn a_script_has_at_most_16_mebibytes(rt: HostRuntime) -> Result<(), Fail> {
    let alloc = rt.alloc();
    for (length, wanted) in [(16_777_216, Status::Done), (16_777_217, Status::TooLong)] {
        let blanks = vec![in alloc; b' '; length]?;
        let (status, written) = run_script(alloc, blanks.as_slice())?;
        assert_eq!(rt; status, wanted);
        assert!(rt; written.is_empty());
    }
    Ok(())
}

/// How the check of a script ended, and what it wrote.
fn check(alloc: Global, word: &str, script: &str) -> Result<(Status, Vec<u8>), Fail> {
    let words = vec![in alloc; String::from_str(alloc, word)?]?;
    let mut src = SureSource::new(script.as_bytes().to_vec(alloc)?);
    let mut out = SureSink::new(alloc);
    let status = lake_check(alloc, &words, &mut src, &mut out);
    Ok((status, out.written().to_vec(alloc)?))
}

const BAD: ScriptBad = ScriptBad {
    line: 1,
    column: 9,
    kind: SYNTAX,
};

#[test]
fn a_check_counts_statements(rt: HostRuntime) -> Result<(), Fail> {
    for (word, script, wanted, text) in [
        ("check", FIRST, Status::Done, "ok: 3 statements\n"),
        ("run", FIRST, Status::Usage, ""),
        ("check", "SELECT 1;", Status::ScriptRefused(BAD), ""),
    ] {
        let (status, written) = check(rt.alloc(), word, script)?;
        assert_eq!(rt; status, wanted, "{script}");
        assert_eq!(rt; str::from_utf8(written.as_slice())?, text);
    }
    Ok(())
}

#[test]
fn statuses_have_their_words(rt: HostRuntime) -> Result<(), Fail> {
    let alloc = rt.alloc();
    let late = ScriptBad {
        line: 2,
        column: 23,
        kind: ParseKind::OpenText,
    };
    for (status, text) in [
        (Status::Done, ""),
        (
            Status::Usage,
            "usage: lake run|bulk N|check [--servers N] [--attempts 1|2] \
             [--lose LIST] [--join LIST]\n",
        ),
        (
            Status::ScriptRefused(BAD),
            "script refused at 1:9: syntax\n",
        ),
        (
            Status::ScriptRefused(late),
            "script refused at 2:23: open text\n",
        ),
        (Status::TooLong, "script too long\n"),
        (Status::ReadFault, "read fault\n"),
        (Status::WriteFault, "write fault\n"),
        (Status::NoMemory, "out of memory\n"),
    ] {
        let words = status_text(alloc, &status)?;
        assert_eq!(rt; str::from_utf8(words.as_slice())?, text);
    }
    Ok(())
}
