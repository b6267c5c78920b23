//! Scripts that are read, and the places at which others are refused.

use crate::refusals::refused;
use sql_model::{Statement, Step};
use sql_parser::parse_script;
use sql_tokens::{ParseKind, ScriptBad};
use std::alloc::Global;
use std::test::Fail;

const BAD: ParseKind = ParseKind::BadChar;

const BIG: ParseKind = ParseKind::BigNumber;

const OPEN: ParseKind = ParseKind::OpenText;

const SYNTAX: ParseKind = ParseKind::Syntax;

/// Bytes that are no script, and the first place that is wrong.
const REFUSED: [(&str, u32, u32, ParseKind); 46] = [
    ("SELECT 1;", 1, 9, SYNTAX),
    ("SELECT COUNT(*) FROM t JOIN u ON t.a = u.a;", 1, 24, SYNTAX),
    (
        "SELECT COUNT(*) FROM t INNER JOIN u ON a = b;",
        1,
        24,
        SYNTAX,
    ),
    (
        "SELECT a FROM t JOIN u ON t.a = u.a GROUP BY a;",
        1,
        37,
        SYNTAX,
    ),
    (
        "CREATE TABLE t (a TEXT);\nINSERT INTO t VALUES ('x);",
        2,
        23,
        OPEN,
    ),
    ("SELECT ? FROM t;", 1, 8, BAD),
    // a token that stands before bytes that are none
    ("SELECT FROM ?", 1, 8, SYNTAX),
    // bytes that are no token where a token is wanted
    ("SELECT * FROM ?", 1, 15, BAD),
    ("SELECT * FROM 'x", 1, 15, OPEN),
    // a second name, behind which no version stands
    ("SELECT * FROM t AT VERSION 2;", 1, 20, SYNTAX),
    ("SELECT * FROM t", 1, 16, SYNTAX),
    ("SELECT * FROM t -- no end\n", 2, 1, SYNTAX),
    // a session mark has one letter from a to p, and a statement has one mark at most
    ("@q COMMIT;", 1, 1, BAD),
    ("@A COMMIT;", 1, 1, BAD),
    ("@ab COMMIT;", 1, 1, BAD),
    ("COMMIT;\n@ a COMMIT;", 2, 1, BAD),
    ("@a;", 1, 3, SYNTAX),
    ("@a", 1, 3, SYNTAX),
    ("@a @b BEGIN;", 1, 4, SYNTAX),
    ("@a COMMIT;\n@b COMMIT @c", 2, 11, SYNTAX),
    ("SELECT a FROM t @b;", 1, 17, SYNTAX),
    ("BEGIN", 1, 6, SYNTAX),
    ("BEGIN COMMIT;", 1, 7, SYNTAX),
    ("BEGIN TRANSACTION TRANSACTION;", 1, 19, SYNTAX),
    ("TRANSACTION;", 1, 1, SYNTAX),
    ("COMMIT TRANSACTION;", 1, 8, SYNTAX),
    ("ROLLBACK TRANSACTION;", 1, 10, SYNTAX),
    // words of statements that no script has
    ("COMPACT t;", 1, 1, SYNTAX),
    ("CHECKPOINT t;", 1, 1, SYNTAX),
    ("@p COLLECT;", 1, 4, SYNTAX),
    ("PARALLEL { }", 1, 1, SYNTAX),
    ("CREATE TABLE select (a INT);", 1, 14, SYNTAX),
    ("CREATE TABLE t (a INT,);", 1, 23, SYNTAX),
    ("INSERT INTO t VALUES (- 'x');", 1, 25, SYNTAX),
    ("SELECT a FROM t WHERE a = b = c;", 1, 29, SYNTAX),
    ("SELECT a FROM t WHERE a IS 1;", 1, 28, SYNTAX),
    ("SELECT a AS FROM t;", 1, 13, SYNTAX),
    ("SELECT a FROM t ORDER BY -1;", 1, 26, SYNTAX),
    ("SELECT a FROM t LIMIT a;", 1, 23, SYNTAX),
    ("UPDATE t SET a + 1;", 1, 16, SYNTAX),
    ("DELETE t;", 1, 8, SYNTAX),
    ("INSERT INTO t VALUES (9223372036854775808);", 1, 23, BIG),
    ("INSERT INTO t VALUES (-9223372036854775809);", 1, 24, BIG),
    ("SELECT 1 - 9223372036854775808 FROM t;", 1, 12, BIG),
    // where no number may stand, too
    ("CREATE 9223372036854775808;", 1, 8, BIG),
    ("SELECT a FROM t LIMIT 9223372036854775808;", 1, 23, BIG),
];

#[test]
fn refused_at_the_first_place(rt: HostRuntime) -> Result<(), Fail> {
    for (text, line, column, kind) in REFUSED {
        let bad = ScriptBad { line, column, kind };
        let found = refused(parse_script(rt.alloc(), text.as_bytes()))?;
        assert_eq!(rt; found, Some(bad), "{text}");
    }
    Ok(())
}

/// Statements of all forms.
const ALL_FORMS: &str = "-- all forms\n\
    CREATE TABLE t (a INT, b TEXT) DISTRIBUTE BY b;\n\
    INSERT INTO t VALUES (1, 'it''s'), (-9223372036854775808, NULL), (007, '');\n\
    SELECT * FROM t;\n\
    SELECT a + 1 AS c, b FROM t AS s WHERE NOT (a < 2 OR b IS NOT NULL AND a != -3)\n\
    ORDER BY c DESC, 2 ASC, a LIMIT 9223372036854775807;\n\
    SELECT s.a FROM t s INNER JOIN u ON s.a = u.a AND s.b = u.b JOIN v ON u.c = v.c\n\
    WHERE s.a * 2 >= 1;\n\
    SELECT a, COUNT(*), count(a), SUM(a - 1) AS total, MIN(b), MAX(b) FROM t\n\
    WHERE a <> 1 GROUP BY a, t.b;\n\
    UPDATE t SET a = a * (2 + 1) - - 9223372036854775808, b = NULL WHERE a <= 1 AND b IS NULL;\n\
    DELETE FROM t; DELETE FROM t WHERE a > 1;\n\
    @b BEGIN TRANSACTION; @p COMMIT; ROLLBACK;";

#[test]
fn scripts_are_read(rt: HostRuntime) -> Result<(), Fail> {
    for (text, statements) in [
        ("", 0),
        (" \t\r\n-- only a comment \u{ff}", 0),
        (ALL_FORMS, 12),
        ("select*from t;select count(*)from t;", 2),
        ("SELECT a FROM t at;", 1),
        ("SELECT at.version FROM version at;", 1),
        ("SELECT 1 - -9223372036854775808 FROM t;", 1),
        (
            "DELETE FROM t WHERE a = 9223372036854775807 OR a = -9223372036854775807;",
            1,
        ),
    ] {
        let script = parse_script(rt.alloc(), text.as_bytes())?;
        assert_eq!(rt; script.len(), statements, "{text}");
    }
    Ok(())
}

fn kind_of(statement: &Statement) -> &'static str {
    match statement {
        Statement::Begin => "begin",
        Statement::Commit => "commit",
        Statement::RollBack => "rollback",
        Statement::Delete { .. } => "delete",
        _ => "another",
    }
}

/// The place, the session and the kind of each statement.
fn kinds(alloc: Global, text: &str) -> Result<String, Fail> {
    let mut kinds = String::new(alloc);
    for step in parse_script(alloc, text.as_bytes())?.list() {
        let Step::One(numbered) = step else {
            return Err(Fail::new("a block"));
        };
        let kind = kind_of(&numbered.statement);
        write!(kinds, "{} of {}: {kind}|", numbered.place, numbered.session)?;
    }
    Ok(kinds)
}

#[test]
fn statements_have_the_session_of_their_mark_or_the_first(rt: HostRuntime) -> Result<(), Fail> {
    for (text, wanted) in [
        ("@b BEGIN; COMMIT;", "1 of 2: begin|2 of 1: commit|"),
        ("@a COMMIT;@p\nCOMMIT;", "1 of 1: commit|2 of 16: commit|"),
        (
            "BEGIN TRANSACTION;@c--a comment\nbegin transaction ;@o DELETE FROM t;",
            "1 of 1: begin|2 of 3: begin|3 of 15: delete|",
        ),
        (
            "@h ROLLBACK; rollback;",
            "1 of 8: rollback|2 of 1: rollback|",
        ),
    ] {
        let found = kinds(rt.alloc(), text)?;
        assert_eq!(rt; found.as_str(), wanted, "{text}");
    }
    Ok(())
}
