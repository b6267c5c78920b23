//! Scripts that have as much as they may, and those that have one more.

use crate::refusals::{refused, repeated};
use sql_parser::parse_script;
use sql_tokens::{ParseKind, ScriptBad};
use std::alloc::{AllocError, Global};
use std::test::Fail;

const LIMIT: ParseKind = ParseKind::Limit;

/// What may repeat so many times behind a front and before a back, and the line, the column and the refusal of one more.
const MOST: [((&[u8], &[u8], &[u8]), usize, (u32, u32, ParseKind)); 15] = [
    (
        (b"DELETE FROM t;\nDELETE FROM ", b"n", b";"),
        64,
        (2, 13, ParseKind::LongName),
    ),
    (
        (b"INSERT INTO t VALUES\n(1, '", b"''", b"');"),
        4096,
        (2, 5, ParseKind::LongText),
    ),
    (
        (b"CREATE TABLE t (a INT", b",a INT", b");"),
        63,
        (1, 401, LIMIT),
    ),
    ((b"SELECT a", b",a", b" FROM t;"), 63, (1, 136, LIMIT)),
    (
        (b"SELECT a FROM t ORDER BY a", b",a", b";"),
        63,
        (1, 154, LIMIT),
    ),
    (
        (b"SELECT a FROM t GROUP BY a", b",a", b";"),
        63,
        (1, 154, LIMIT),
    ),
    ((b"UPDATE t SET a=1", b",a=1", b";"), 63, (1, 270, LIMIT)),
    (
        (b"INSERT INTO t VALUES (1", b",1", b");"),
        63,
        (1, 151, LIMIT),
    ),
    (
        (b"SELECT a FROM t", b" JOIN t ON a=b", b";"),
        3,
        (1, 59, LIMIT),
    ),
    (
        (b"SELECT a FROM t", b" INNER JOIN t ON a=b", b";"),
        3,
        (1, 77, LIMIT),
    ),
    (
        (b"SELECT a FROM t WHERE ", b"NOT ", b"a=1;"),
        100,
        (1, 423, LIMIT),
    ),
    ((b"SELECT a", b"+a", b" FROM t;"), 1000, (1, 2009, LIMIT)),
    // the `-` of a literal is no operator, and the NOT of IS NOT NULL is one
    ((b"SELECT a", b"*-1", b" FROM t;"), 1000, (1, 3009, LIMIT)),
    (
        (b"DELETE FROM t WHERE a IS NOT NULL", b" OR a IS NULL", b";"),
        499,
        (1, 6522, LIMIT),
    ),
    (
        (b"DELETE FROM t WHERE a=1", b" AND NOT a=1", b";"),
        333,
        (1, 4021, LIMIT),
    ),
];

#[test]
fn one_more_than_may_be_is_refused_where_it_begins(rt: HostRuntime) -> Result<(), Fail> {
    let alloc = rt.alloc();
    for (parts, most, (line, column, kind)) in MOST {
        let longest = repeated(alloc, parts, most)?;
        assert_eq!(rt; refused(parse_script(alloc, &longest))?, None, "{most}");
        let beyond = repeated(alloc, parts, most.saturating_add(1))?;
        let bad = ScriptBad { line, column, kind };
        assert_eq!(rt; refused(parse_script(alloc, &beyond))?, Some(bad), "{most}");
    }
    Ok(())
}

const SYNTAX: Option<ParseKind> = Some(ParseKind::Syntax);

const AT_LIMITS: [((&[u8], &[u8], &[u8]), usize, Option<ParseKind>); 7] = [
    // behind 64 members a comma may stand, and what begins no member is refused as such
    ((b"SELECT a", b",a", b", FROM t;"), 63, SYNTAX),
    (
        (b"INSERT INTO t VALUES (1", b",1", b",9223372036854775808);"),
        63,
        Some(ParseKind::BigNumber),
    ),
    (
        (b"INSERT INTO t VALUES (1", b",1", b",'x"),
        63,
        Some(ParseKind::OpenText),
    ),
    // no second comparison may stand, whatever the number of operators
    ((b"DELETE FROM t WHERE a", b"+a", b"=a=a;"), 999, SYNTAX),
    // each expression has operators of its own, and a list of tuples has no end
    ((b"SELECT a", b"+a", b",a+a FROM t;"), 1000, None),
    ((b"INSERT INTO t VALUES (1)", b",(1)", b";"), 1000, None),
    // of parentheses side by side, one stands round a token
    ((b"SELECT (a)", b"+(a)", b" FROM t;"), 1000, None),
];

#[test]
fn what_stands_at_a_limit(rt: HostRuntime) -> Result<(), Fail> {
    for (parts, count, wanted) in AT_LIMITS {
        let bytes = repeated(rt.alloc(), parts, count)?;
        let kind = refused(parse_script(rt.alloc(), &bytes))?.map(|bad| bad.kind);
        assert_eq!(rt; kind, wanted, "{parts:?}");
    }
    Ok(())
}

/// A predicate within so many NOTs and parentheses.
fn nested(alloc: Global, nots: usize, parentheses: usize) -> Result<Vec<u8>, AllocError> {
    let mut bytes = repeated(alloc, (b"DELETE FROM t WHERE ", b"NOT ", b""), nots)?;
    bytes.append(&mut repeated(alloc, (b"", b"(", b"a IS NOT NULL"), parentheses)?)?;
    bytes.append(&mut repeated(alloc, (b"", b")", b";"), parentheses)?)?;
    Ok(bytes)
}

#[test]
fn a_hundred_levels_may_stand_round_a_token(rt: HostRuntime) -> Result<(), Fail> {
    let alloc = rt.alloc();
    let (line, kind) = (1, LIMIT);
    for (nots, parentheses, column) in [
        (0, 100, None),
        (100, 0, None),
        (40, 60, None),
        (0, 101, Some(121)),
        (101, 0, Some(421)),
        (40, 61, Some(241)),
    ] {
        let bytes = nested(alloc, nots, parentheses)?;
        let wanted = column.map(|column| ScriptBad { line, column, kind });
        assert_eq!(rt; refused(parse_script(alloc, &bytes))?, wanted, "{nots}");
    }
    Ok(())
}
