//! What statements of one session answer: a script is a table of statements, each with its reply.

use crate::runs::{answer, answer_all};
use std::alloc::{AllocError, Global};
use std::test::Fail;

/// Small scripts, of which some are written in another way than the others.
const FORMS: [&[(&str, &str)]; 8] = [
    &[
        ("CREATE TABLE t (a INT);", "created t as 1"),
        ("INSERT INTO t VALUES (2), (1), (1);", "inserted 3 as 2"),
        ("SELECT * FROM t;", "3 rows\n(1)\n(1)\n(2)"),
    ],
    &[],
    &[
        ("-- one table\nCREATE TABLE t (a INT);", "created t as 1"),
        (
            "-- and another\n\nCREATE TABLE u (a INT);",
            "created u as 2",
        ),
        ("\nSELECT * FROM t AS x;", "0 rows"),
        ("SELECT * FROM u y;--", "0 rows"),
    ],
    &[("SELECT * FROM u;", "refused: unknown table u")],
    &[("INSERT INTO u VALUES (1);", "refused: unknown table u")],
    &[
        ("create table T (A int);", "created t as 1"),
        ("\n\tSELECT*from t ;", "0 rows"),
        ("CREATE TABLE t (b INT);", "refused: table exists t"),
    ],
    &[
        ("CREATE TABLE t (a INT);", "created t as 1"),
        ("CREATE TABLE u (a INT);", "created u as 2"),
        (
            "INSERT INTO u VALUES (007), (-9223372036854775808), (9223372036854775807), (- 0);",
            "inserted 4 as 3",
        ),
        ("SELECT * FROM t;", "0 rows"),
        (
            "SELECT * FROM u;",
            "4 rows\n(-9223372036854775808)\n(0)\n(7)\n(9223372036854775807)",
        ),
    ],
    &[
        ("CREATE TABLE t (a INT);", "created t as 1"),
        ("INSERT INTO t VALUES (3);", "inserted 1 as 2"),
        ("INSERT INTO t VALUES (1);", "inserted 1 as 3"),
        ("SELECT * FROM t;", "2 rows\n(1)\n(3)"),
    ],
];

/// NULL is equal to no key, is a group of its own, and makes no condition true; an aggregate over
/// no rows.
const NULLS: [(&str, &str); 8] = [
    ("CREATE TABLE l (k INT, x INT);", "created l as 1"),
    ("CREATE TABLE r (k INT, y TEXT);", "created r as 2"),
    (
        "INSERT INTO l VALUES (1, 10), (NULL, 20), (1, NULL);",
        "inserted 3 as 3",
    ),
    (
        "INSERT INTO r VALUES (1, 'p'), (NULL, 'q');",
        "inserted 2 as 4",
    ),
    (
        "SELECT l.x, r.y FROM l JOIN r ON l.k = r.k;",
        "2 rows\n(NULL,'p')\n(10,'p')",
    ),
    (
        "SELECT k, COUNT(*), COUNT(x), SUM(x) FROM l GROUP BY k;",
        "2 rows\n(NULL,1,1,20)\n(1,2,1,10)",
    ),
    ("SELECT x FROM l WHERE x <> 10;", "1 rows\n(20)"),
    (
        "SELECT SUM(x), COUNT(*) FROM l WHERE k = 9;",
        "1 rows\n(NULL,0)",
    ),
];

/// A condition without arithmetic keeps rows from those with it. A sum may pass 64 bits on the way.
const ARITHMETIC: [(&str, &str); 16] = [
    ("CREATE TABLE m (a INT, ok INT);", "created m as 1"),
    (
        "INSERT INTO m VALUES (9223372036854775807, 0), (5, 1);",
        "inserted 2 as 2",
    ),
    ("SELECT a FROM m WHERE a + 1 > 0 AND ok = 1;", "1 rows\n(5)"),
    ("SELECT a FROM m WHERE a + 1 > 0;", "refused: arithmetic"),
    (
        "SELECT a FROM m WHERE ok = 1 AND (a - 1 = 4 AND a * 2 = 10);",
        "1 rows\n(5)",
    ),
    (
        "SELECT a FROM m WHERE a + 1 > 0 AND (a + 2 > 0 AND ok = 1);",
        "1 rows\n(5)",
    ),
    ("DELETE FROM m WHERE a + 1 > 0;", "refused: arithmetic"),
    ("SELECT a * 2 FROM m;", "refused: arithmetic"),
    (
        "SELECT ok FROM m WHERE ok = 5 OR a + a > 0;",
        "refused: arithmetic",
    ),
    ("SELECT SUM(a) FROM m;", "refused: arithmetic"),
    (
        "INSERT INTO m VALUES (-9223372036854775808, 2), (-1, 3);",
        "inserted 2 as 3",
    ),
    ("SELECT SUM(a), COUNT(*) FROM m;", "1 rows\n(3,4)"),
    ("UPDATE m SET a = a + 1;", "refused: arithmetic"),
    ("UPDATE m SET a = a - 1 WHERE ok <> 2;", "updated 3 as 4"),
    ("SELECT a - 1 FROM m WHERE ok = 2;", "refused: arithmetic"),
    (
        "SELECT * FROM m;",
        "4 rows\n(-9223372036854775808,2)\n(-2,3)\n(4,1)\n(9223372036854775806,0)",
    ),
];

/// Texts with quotes, a distribution column, and the order of an answer.
const TEXTS: [(&str, &str); 5] = [
    (
        "CREATE TABLE p (name TEXT, n INT) DISTRIBUTE BY n;",
        "created p as 1",
    ),
    (
        "INSERT INTO p VALUES ('it''s', 3), ('b', -4), ('', 3);",
        "inserted 3 as 2",
    ),
    (
        "UPDATE p SET n = n * 2 WHERE name <> 'b';",
        "updated 2 as 3",
    ),
    (
        "SELECT n, name FROM p ORDER BY n DESC LIMIT 2;",
        "2 rows\n(6,'')\n(6,'it''s')",
    ),
    ("SELECT * FROM p WHERE n = 'x';", "refused: type mismatch"),
];

/// Refusals of statements, in the order in which they are looked for.
const REFUSALS: [(&str, &str); 16] = [
    ("CREATE TABLE t (a INT);", "created t as 1"),
    ("CREATE TABLE t (b INT);", "refused: table exists t"),
    ("CREATE TABLE u (a INT, a TEXT);", "refused: ambiguous a"),
    ("INSERT INTO t VALUES (1, 2);", "refused: column count"),
    ("SELECT a, COUNT(*) FROM t;", "refused: not grouped"),
    ("DELETE FROM t WHERE a = 4;", "deleted 0"),
    ("SELECT * FROM v WHERE b = 1;", "refused: unknown table v"),
    ("SELECT b FROM t;", "refused: unknown column b"),
    ("SELECT v.a FROM t;", "refused: unknown column v.a"),
    (
        "CREATE TABLE u (a INT) DISTRIBUTE BY b;",
        "refused: unknown column b",
    ),
    (
        "SELECT a FROM t JOIN t AS s ON t.a = s.a;",
        "refused: ambiguous a",
    ),
    ("UPDATE t SET b = 1;", "refused: unknown column b"),
    ("UPDATE t SET a = 'x';", "refused: type mismatch"),
    ("INSERT INTO t VALUES ('x');", "refused: type mismatch"),
    ("DELETE FROM v;", "refused: unknown table v"),
    ("SELECT * FROM t;", "0 rows"),
];

/// Conditions of three-valued logic.
const CONDITIONS: [(&str, &str); 21] = [
    ("CREATE TABLE t (a INT, b INT, c TEXT);", "created t as 1"),
    (
        "INSERT INTO t VALUES (1, 10, 'x'), (2, NULL, 'y'), (3, 30, NULL), (NULL, 40, \
         'x'), (5, 50, 'it''s'), (2, 20, '');",
        "inserted 6 as 2",
    ),
    (
        "SELECT a FROM t WHERE a > 1 AND b > 20;",
        "2 rows\n(3)\n(5)",
    ),
    (
        "SELECT a FROM t WHERE a > 1 OR b > 20;",
        "5 rows\n(NULL)\n(2)\n(2)\n(3)\n(5)",
    ),
    ("SELECT a FROM t WHERE NOT b > 20;", "2 rows\n(1)\n(2)"),
    (
        "SELECT a FROM t WHERE NOT (a > 1 AND b > 20);",
        "2 rows\n(1)\n(2)",
    ),
    (
        "SELECT a FROM t WHERE NOT (a > 4 OR b > 20);",
        "2 rows\n(1)\n(2)",
    ),
    ("SELECT a FROM t WHERE a = NULL;", "0 rows"),
    (
        "SELECT a FROM t WHERE a <> NULL OR a = 2;",
        "2 rows\n(2)\n(2)",
    ),
    ("SELECT a FROM t WHERE b IS NULL;", "1 rows\n(2)"),
    (
        "SELECT a FROM t WHERE b IS NOT NULL AND a IS NOT NULL;",
        "4 rows\n(1)\n(2)\n(3)\n(5)",
    ),
    (
        "SELECT a FROM t WHERE a + b IS NULL;",
        "2 rows\n(NULL)\n(2)",
    ),
    (
        "SELECT a FROM t WHERE NOT a IS NULL AND (c = 'x' OR c = 'y');",
        "2 rows\n(1)\n(2)",
    ),
    ("SELECT a FROM t WHERE c < 'x';", "2 rows\n(2)\n(5)"),
    (
        "SELECT a FROM t WHERE c >= 'x';",
        "3 rows\n(NULL)\n(1)\n(2)",
    ),
    ("SELECT a FROM t WHERE c = '';", "1 rows\n(2)"),
    ("SELECT c FROM t WHERE c = 'it''s';", "1 rows\n('it''s')"),
    (
        "SELECT a FROM t WHERE a <= 2 AND 1 = 1;",
        "3 rows\n(1)\n(2)\n(2)",
    ),
    ("SELECT a FROM t WHERE 1 = 2;", "0 rows"),
    (
        "SELECT a FROM t WHERE NULL IS NULL AND a >= 3;",
        "2 rows\n(3)\n(5)",
    ),
    (
        "SELECT a FROM t WHERE (a = 1 OR b = 20) AND (c = 'x' OR a = 2);",
        "2 rows\n(1)\n(2)",
    ),
];

/// Items and their arithmetic.
const EXPRESSIONS: [(&str, &str); 14] = [
    ("CREATE TABLE t (a INT, b INT, c TEXT);", "created t as 1"),
    (
        "INSERT INTO t VALUES (1, 10, 'x'), (2, NULL, 'y'), (3, 30, NULL), (NULL, 40, \
         'x'), (5, 50, 'it''s'), (2, 20, '');",
        "inserted 6 as 2",
    ),
    (
        "SELECT a + b, a - b, a * b FROM t WHERE c = 'x';",
        "2 rows\n(NULL,NULL,NULL)\n(11,-9,10)",
    ),
    (
        "SELECT a * -3, -2 * -4 FROM t WHERE a = 2;",
        "2 rows\n(-6,8)\n(-6,8)",
    ),
    (
        "SELECT (a + 1) * (b - 1) AS p FROM t WHERE a < 4;",
        "4 rows\n(NULL)\n(18)\n(57)\n(116)",
    ),
    ("SELECT a - b - 1 FROM t WHERE a = 1;", "1 rows\n(-10)"),
    ("SELECT 2 + 3 * 4 FROM t WHERE a = 1;", "1 rows\n(14)"),
    (
        "SELECT NULL, 'a', 7 FROM t WHERE a = 1;",
        "1 rows\n(NULL,'a',7)",
    ),
    (
        "SELECT c, a, a FROM t WHERE a = 2;",
        "2 rows\n('',2,2)\n('y',2,2)",
    ),
    ("SELECT * FROM t WHERE a = 5;", "1 rows\n(5,50,'it''s')"),
    ("SELECT a FROM t WHERE a * a > a + a;", "2 rows\n(3)\n(5)"),
    (
        "SELECT a FROM t WHERE a * 10 = b;",
        "4 rows\n(1)\n(2)\n(3)\n(5)",
    ),
    ("SELECT t.a FROM t WHERE t.b = 40;", "1 rows\n(NULL)"),
    ("SELECT s.c FROM t AS s WHERE s.a = 3;", "1 rows\n(NULL)"),
];

/// Aggregates and groups.
const AGGREGATES: [(&str, &str); 19] = [
    ("CREATE TABLE t (a INT, b INT, c TEXT);", "created t as 1"),
    (
        "INSERT INTO t VALUES (1, 10, 'x'), (2, NULL, 'y'), (3, 30, NULL), (NULL, 40, \
         'x'), (5, 50, 'it''s'), (2, 20, '');",
        "inserted 6 as 2",
    ),
    ("SELECT COUNT(*) FROM t;", "1 rows\n(6)"),
    (
        "SELECT COUNT(a), COUNT(b), COUNT(c) FROM t;",
        "1 rows\n(5,5,5)",
    ),
    ("SELECT SUM(a), SUM(b) FROM t;", "1 rows\n(13,150)"),
    (
        "SELECT MIN(a), MAX(a), MIN(c), MAX(c) FROM t;",
        "1 rows\n(1,5,'','y')",
    ),
    ("SELECT COUNT(a + b) FROM t;", "1 rows\n(4)"),
    ("SELECT SUM(a * -1) FROM t;", "1 rows\n(-13)"),
    (
        "SELECT COUNT(*), SUM(a), MIN(c) FROM t WHERE a > 100;",
        "1 rows\n(0,NULL,NULL)",
    ),
    (
        "SELECT c, COUNT(*) FROM t GROUP BY c;",
        "5 rows\n(NULL,1)\n('',1)\n('it''s',1)\n('x',2)\n('y',1)",
    ),
    (
        "SELECT a, SUM(b), COUNT(b) FROM t GROUP BY a;",
        "5 rows\n(NULL,40,1)\n(1,10,1)\n(2,20,1)\n(3,30,1)\n(5,50,1)",
    ),
    (
        "SELECT COUNT(*) FROM t GROUP BY a;",
        "5 rows\n(1)\n(1)\n(1)\n(1)\n(2)",
    ),
    (
        "SELECT a, c, MAX(b) FROM t GROUP BY c, a;",
        "6 rows\n(NULL,'x',40)\n(1,'x',10)\n(2,'',20)\n(2,'y',NULL)\n(3,NULL,30)\n\
         (5,'it''s',50)",
    ),
    (
        "SELECT c FROM t GROUP BY c;",
        "5 rows\n(NULL)\n('')\n('it''s')\n('x')\n('y')",
    ),
    (
        "SELECT a, COUNT(*) FROM t WHERE a > 100 GROUP BY a;",
        "0 rows",
    ),
    (
        "SELECT c, MIN(b), MAX(b) FROM t WHERE b > 10 GROUP BY c;",
        "4 rows\n(NULL,30,30)\n('',20,20)\n('it''s',50,50)\n('x',40,40)",
    ),
    (
        "SELECT (a), COUNT(*) FROM t WHERE a < 3 GROUP BY a ORDER BY a DESC;",
        "2 rows\n(2,2)\n(1,1)",
    ),
    ("SELECT MAX(a + b) AS m FROM t;", "1 rows\n(55)"),
    ("SELECT SUM(NULL) FROM t;", "1 rows\n(NULL)"),
];

/// The order of rows and LIMIT.
const ORDERS: [(&str, &str); 14] = [
    ("CREATE TABLE t (a INT, b TEXT);", "created t as 1"),
    (
        "INSERT INTO t VALUES (2, 'b'), (1, 'b'), (NULL, 'a'), (2, NULL), (2, 'b'), (3, \
         'a');",
        "inserted 6 as 2",
    ),
    (
        "SELECT * FROM t;",
        "6 rows\n(NULL,'a')\n(1,'b')\n(2,NULL)\n(2,'b')\n(2,'b')\n(3,'a')",
    ),
    (
        "SELECT * FROM t ORDER BY a;",
        "6 rows\n(NULL,'a')\n(1,'b')\n(2,NULL)\n(2,'b')\n(2,'b')\n(3,'a')",
    ),
    (
        "SELECT * FROM t ORDER BY a DESC;",
        "6 rows\n(3,'a')\n(2,NULL)\n(2,'b')\n(2,'b')\n(1,'b')\n(NULL,'a')",
    ),
    (
        "SELECT * FROM t ORDER BY b DESC, a ASC;",
        "6 rows\n(1,'b')\n(2,'b')\n(2,'b')\n(NULL,'a')\n(3,'a')\n(2,NULL)",
    ),
    (
        "SELECT * FROM t ORDER BY 2, 1 DESC;",
        "6 rows\n(2,NULL)\n(3,'a')\n(NULL,'a')\n(2,'b')\n(2,'b')\n(1,'b')",
    ),
    (
        "SELECT * FROM t ORDER BY b LIMIT 2;",
        "2 rows\n(2,NULL)\n(NULL,'a')",
    ),
    ("SELECT * FROM t LIMIT 0;", "0 rows"),
    (
        "SELECT * FROM t LIMIT 3;",
        "3 rows\n(NULL,'a')\n(1,'b')\n(2,NULL)",
    ),
    (
        "SELECT a FROM t ORDER BY a DESC LIMIT 4;",
        "4 rows\n(3)\n(2)\n(2)\n(2)",
    ),
    (
        "SELECT b, a AS n FROM t ORDER BY n, b DESC LIMIT 100;",
        "6 rows\n('a',NULL)\n('b',1)\n('b',2)\n('b',2)\n(NULL,2)\n('a',3)",
    ),
    (
        "SELECT b, COUNT(*) AS n FROM t GROUP BY b ORDER BY n DESC;",
        "3 rows\n('b',3)\n('a',2)\n(NULL,1)",
    ),
    ("SELECT b FROM t ORDER BY 1 DESC LIMIT 1;", "1 rows\n('b')"),
];

/// Joins of up to four tables.
const JOINS: [(&str, &str); 17] = [
    ("CREATE TABLE t (k INT, x TEXT);", "created t as 1"),
    ("CREATE TABLE u (k INT, y INT);", "created u as 2"),
    ("CREATE TABLE w (y INT, z TEXT);", "created w as 3"),
    (
        "INSERT INTO t VALUES (1, 'a'), (1, 'b'), (2, 'c'), (NULL, 'd');",
        "inserted 4 as 4",
    ),
    (
        "INSERT INTO u VALUES (1, 5), (2, 6), (2, 7), (NULL, 8), (3, 9);",
        "inserted 5 as 5",
    ),
    (
        "INSERT INTO w VALUES (5, 'p'), (6, 'q'), (6, 'p'), (NULL, 'r');",
        "inserted 4 as 6",
    ),
    (
        "SELECT * FROM t JOIN u ON t.k = u.k;",
        "4 rows\n(1,'a',1,5)\n(1,'b',1,5)\n(2,'c',2,6)\n(2,'c',2,7)",
    ),
    (
        "SELECT x, y FROM t INNER JOIN u ON t.k = u.k WHERE y > 5;",
        "2 rows\n('c',6)\n('c',7)",
    ),
    (
        "SELECT x, z FROM t JOIN u ON t.k = u.k JOIN w ON u.y = w.y;",
        "4 rows\n('a','p')\n('b','p')\n('c','p')\n('c','q')",
    ),
    (
        "SELECT l.x, r.x FROM t l JOIN t r ON l.k = r.k;",
        "5 rows\n('a','a')\n('a','b')\n('b','a')\n('b','b')\n('c','c')",
    ),
    (
        "SELECT l.x, r.x FROM t AS l JOIN t AS r ON l.x = r.x AND l.k = r.k;",
        "3 rows\n('a','a')\n('b','b')\n('c','c')",
    ),
    ("SELECT x, y FROM t JOIN u ON t.k = u.y;", "0 rows"),
    (
        "SELECT x, y FROM t JOIN u ON t.k = u.k WHERE t.k + u.y = 8;",
        "1 rows\n('c',6)",
    ),
    (
        "SELECT x, y FROM t JOIN u ON t.k = u.k ORDER BY y DESC LIMIT 2;",
        "2 rows\n('c',7)\n('c',6)",
    ),
    (
        "SELECT a.x, b.y, c.z, d.k FROM t a JOIN u b ON a.k = b.k JOIN w c ON b.y = c.y \
         JOIN u d ON d.k = a.k;",
        "6 rows\n('a',5,'p',1)\n('b',5,'p',1)\n('c',6,'p',2)\n('c',6,'p',2)\n\
         ('c',6,'q',2)\n('c',6,'q',2)",
    ),
    (
        "SELECT x, y FROM t JOIN u ON u.k = u.k AND t.k = u.k;",
        "4 rows\n('a',5)\n('b',5)\n('c',6)\n('c',7)",
    ),
    (
        "SELECT x FROM t JOIN u ON t.k = u.k WHERE x = 'a' OR y = 7;",
        "2 rows\n('a')\n('c')",
    ),
];

/// INSERT, UPDATE and DELETE.
const CHANGES: [(&str, &str); 17] = [
    ("CREATE TABLE t (a INT, b TEXT);", "created t as 1"),
    (
        "INSERT INTO t VALUES (1, 'x'), (1, 'x'), (2, NULL), (NULL, 'y');",
        "inserted 4 as 2",
    ),
    ("UPDATE t SET a = a + 10 WHERE b = 'x';", "updated 2 as 3"),
    (
        "SELECT * FROM t;",
        "4 rows\n(NULL,'y')\n(2,NULL)\n(11,'x')\n(11,'x')",
    ),
    (
        "UPDATE t SET b = 'z', a = a WHERE a IS NULL;",
        "updated 1 as 4",
    ),
    (
        "SELECT * FROM t;",
        "4 rows\n(NULL,'z')\n(2,NULL)\n(11,'x')\n(11,'x')",
    ),
    ("DELETE FROM t WHERE b = 'w';", "deleted 0"),
    ("UPDATE t SET a = 1 WHERE a = 99;", "updated 0"),
    ("DELETE FROM t WHERE a > 2;", "deleted 2 as 5"),
    ("SELECT * FROM t;", "2 rows\n(NULL,'z')\n(2,NULL)"),
    ("UPDATE t SET a = NULL, b = b;", "updated 2 as 6"),
    ("SELECT * FROM t;", "2 rows\n(NULL,NULL)\n(NULL,'z')"),
    ("DELETE FROM t;", "deleted 2 as 7"),
    ("SELECT * FROM t;", "0 rows"),
    ("DELETE FROM t;", "deleted 0"),
    ("INSERT INTO t VALUES (7, 'again');", "inserted 1 as 8"),
    ("SELECT * FROM t;", "1 rows\n(7,'again')"),
];

#[test]
fn statements_answer(rt: HostRuntime) -> Result<(), Fail> {
    answer_all(&rt, &FORMS)?;
    answer_all(
        &rt,
        &[
            &NULLS,
            &ARITHMETIC,
            &TEXTS,
            &REFUSALS,
            &CONDITIONS,
            &EXPRESSIONS,
            &AGGREGATES,
            &ORDERS,
            &JOINS,
            &CHANGES,
        ],
    )
}

/// An INSERT of 1000 rows of 1.
fn insert_ones(alloc: Global, table: &str) -> Result<String, AllocError> {
    let mut statement = format!(in alloc; "INSERT INTO {table} VALUES (1)")?;
    for _ in 1..1000 {
        statement.push_str(", (1)")?;
    }
    statement.push(';')?;
    Ok(statement)
}

/// Neither a condition with arithmetic nor arithmetic that leaves 64 bits comes before the number
/// of rows.
#[test]
fn a_stage_has_at_most_a_million_rows(rt: HostRuntime) -> Result<(), Fail> {
    let (ones, others) = (insert_ones(rt.alloc(), "t")?, insert_ones(rt.alloc(), "u")?);
    let script = [
        ("CREATE TABLE t (a INT);", "created t as 1"),
        ("CREATE TABLE u (a INT);", "created u as 2"),
        (ones.as_str(), "inserted 1000 as 3"),
        (others.as_str(), "inserted 1000 as 4"),
        (
            "SELECT t.a FROM t JOIN u ON t.a = u.a LIMIT 2;",
            "2 rows\n(1)\n(1)",
        ),
        ("INSERT INTO t VALUES (2);", "inserted 1 as 5"),
        ("INSERT INTO u VALUES (2);", "inserted 1 as 6"),
        (
            "SELECT t.a FROM t JOIN u ON t.a = u.a LIMIT 2;",
            "refused: too many rows",
        ),
        (
            "SELECT t.a * 9223372036854775807 FROM t JOIN u ON t.a = u.a;",
            "refused: too many rows",
        ),
        (
            "SELECT t.a FROM t JOIN u ON t.a = u.a WHERE t.a + 0 = 2;",
            "refused: too many rows",
        ),
        (
            "SELECT t.a FROM t JOIN u ON t.a = u.a WHERE t.a = 2;",
            "1 rows\n(2)",
        ),
    ];
    answer(&rt, &script)
}
