//! Statements bound over two tables, or refused.

ghost use Rattle.std.specs.Prelude.{◌≡◌, IfOk, IsTrue};
ghost use Rattle.sql_model.specs.Form.{IsInForm, is_bindable};

use crate::bound_texts::put_bound;
use lake_model::reply_text;
use lake_values::{ColType, Column, Listed, Schema, Text};
use sql_binder::{BindFault, bind};
use sql_model::{Reply, Schemas, Statement, Step};
use sql_parser::parse_script;
use std::alloc::Global;
use std::process::Abort;
use std::test::Fail;

fn column(alloc: Global, name: &str, kind: ColType) -> Result<Column, Fail>
    ensures { IfOk result (λ column. column.name ≡ name.now) }
{
    let name = Text::new(alloc, name)?;
    Ok(Column { name, kind })
}

/// Table `t` with columns a, b (INT) and n (TEXT), by its second; table `u` with a and c.
fn schemas(alloc: Global) -> Result<Schemas, Fail> {
    let first = vec![in alloc;
        column(alloc, "a", ColType::Int)?,
        column(alloc, "b", ColType::Int)?,
        column(alloc, "n", ColType::Text)?,
    ]?;
    let second = vec![in alloc;
        column(alloc, "a", ColType::Int)?,
        column(alloc, "c", ColType::Int)?,
    ]?;
    let tables = vec![in alloc;
        (Text::new(alloc, "t")?, Schema::new(first, 1)),
        (Text::new(alloc, "u")?, Schema::new(second, 0)),
    ]?;
    Ok(Listed::from_list(tables))
}

/// The statement that a text is.
fn statement(alloc: Global, text: &str) -> Result<Statement, Fail>
    ensures { IfOk result IsInForm }
{
    let mut steps = parse_script(alloc, text.as_bytes())?.into_list();
    match steps.pop() {
        Some(Step::One(numbered)) => Ok(numbered.statement),
        _ => Err(Fail::new("no statement")),
    }
}

fn is_bound_over_schemas(statement: &Statement) -> bool
    ensures { result ≡ is_bindable statement.now }
{
    match statement {
        Statement::Create { .. }
        | Statement::Insert { .. }
        | Statement::Select(_)
        | Statement::Update { .. }
        | Statement::Delete { .. }
        | Statement::Compact { .. }
        | Statement::Checkpoint { .. } => true,
        _ => false,
    }
}

/// What binding answers, as a text: the words of a refusal, or the parts of the bound form.
fn answer(alloc: Global, text: &str, schemas: &Schemas) -> Result<String, Fail> {
    let statement = statement(alloc, text)?;
    if !is_bound_over_schemas(&statement) {
        return Err(Fail::new("a statement of transactions"));
    }
    let mut out = String::new(alloc);
    match bind(alloc, &statement, schemas) {
        Ok(bound) => put_bound(&mut out, &bound)?,
        Err(BindFault::Refused(refusal)) => {
            let mut line = Vec::new(alloc);
            reply_text(1, &Reply::Refused(refusal), &mut line)?;
            let line = str::from_utf8(line.as_slice())?.trim_ascii();
            out.push_str(line.strip_prefix("1: refused: ").unwrap_or(line))?;
        }
        Err(BindFault::NoMemory) => return Err(Fail::new("no memory")),
    }
    Ok(out)
}

/// Compares what each statement answers with what it is to answer.
fn check(rt: &(impl Abort + AllocGlobal), cases: &[(&str, &str)]) -> Result<(), Fail> {
    let schemas = schemas(rt.alloc())?;
    for (text, wanted) in cases {
        let found = answer(rt.alloc(), text, &schemas)?;
        assert_eq!(rt; found.as_str(), *wanted, "at {text}");
    }
    Ok(())
}

const REFUSED: [(&str, &str); 29] = [
    ("SELECT a FROM x;", "unknown table x"),
    ("SELECT z FROM t;", "unknown column z"),
    ("SELECT t.z FROM t;", "unknown column t.z"),
    ("SELECT t.a FROM t x;", "unknown column t.a"),
    ("SELECT a FROM t GROUP BY z;", "unknown column z"),
    ("SELECT a FROM t ORDER BY b;", "unknown column b"),
    ("SELECT a FROM t ORDER BY 0;", "unknown column 0"),
    ("SELECT a FROM t ORDER BY 2;", "unknown column 2"),
    ("SELECT a AS z FROM t ORDER BY a;", "unknown column a"),
    ("SELECT a FROM t JOIN u ON t.a = u.a;", "ambiguous a"),
    ("SELECT c FROM t JOIN u t ON b = c;", "ambiguous t"),
    ("SELECT a, b AS a FROM t ORDER BY a;", "ambiguous a"),
    (
        "SELECT * FROM t x JOIN t y ON x.a = y.a ORDER BY a;",
        "ambiguous a",
    ),
    ("SELECT n + 1 FROM t;", "type mismatch"),
    ("SELECT a = b FROM t;", "type mismatch"),
    ("SELECT a FROM t WHERE n = 1;", "type mismatch"),
    ("SELECT a FROM t WHERE a = 'x';", "type mismatch"),
    ("SELECT a FROM t WHERE a;", "type mismatch"),
    ("SELECT a FROM t WHERE NULL;", "type mismatch"),
    ("SELECT a FROM t WHERE NOT NULL;", "type mismatch"),
    ("SELECT a FROM t WHERE (a = b) IS NULL;", "type mismatch"),
    ("SELECT a FROM t WHERE a = b AND a;", "type mismatch"),
    ("SELECT SUM(n) FROM t;", "type mismatch"),
    ("SELECT MIN(a = b) FROM t;", "type mismatch"),
    ("SELECT b FROM t JOIN u ON n = c;", "type mismatch"),
    ("SELECT a, COUNT(*) FROM t;", "not grouped"),
    ("SELECT b FROM t GROUP BY a;", "not grouped"),
    ("SELECT * FROM t GROUP BY a;", "not grouped"),
    ("SELECT a + 1 FROM t GROUP BY a;", "not grouped"),
];

#[test]
fn each_refusal_alone(rt: HostRuntime) -> Result<(), Fail> {
    check(&rt, REFUSED.as_slice())
}

/// Statements with two refusals.
const REFUSED_TWICE: [(&str, &str); 19] = [
    ("SELECT z FROM x;", "unknown table x"),
    (
        "SELECT a FROM t JOIN u t ON b = c JOIN x ON b = c;",
        "unknown table x",
    ),
    ("SELECT n + 1 FROM x;", "unknown table x"),
    ("SELECT b, COUNT(*) FROM x;", "unknown table x"),
    ("SELECT a FROM t JOIN u ON t.a = z;", "unknown column z"),
    ("SELECT n + 1 FROM t ORDER BY z;", "unknown column z"),
    ("SELECT b FROM t GROUP BY z;", "unknown column z"),
    ("SELECT n + 1, a FROM t JOIN u ON t.a = u.a;", "ambiguous a"),
    (
        "SELECT b AS x, COUNT(*) AS x FROM t ORDER BY x;",
        "ambiguous x",
    ),
    ("SELECT b, SUM(n) FROM t GROUP BY a;", "type mismatch"),
    ("SELECT a FROM x JOIN y ON a = a;", "unknown table x"),
    (
        "SELECT y FROM t WHERE z = 1 ORDER BY w;",
        "unknown column y",
    ),
    (
        "SELECT a FROM t WHERE z = 1 ORDER BY w;",
        "unknown column z",
    ),
    (
        "SELECT a FROM t WHERE z = 1 GROUP BY w;",
        "unknown column z",
    ),
    ("SELECT a FROM t GROUP BY w ORDER BY z;", "unknown column w"),
    ("SELECT t.a FROM t JOIN u t ON b = c;", "ambiguous t.a"),
    ("SELECT * FROM t JOIN u t ON t.a = c;", "ambiguous t"),
    (
        "SELECT c FROM t x JOIN u y ON b = c JOIN t x ON b = b JOIN u y ON c = c;",
        "ambiguous c",
    ),
    (
        "SELECT * FROM t y JOIN u x ON y.b = x.c JOIN u x ON y.b = x.c JOIN t y ON y.b = x.c;",
        "ambiguous y",
    ),
];

#[test]
fn the_higher_refusal_and_its_first_name(rt: HostRuntime) -> Result<(), Fail> {
    check(&rt, REFUSED_TWICE.as_slice())
}

const QUERIES: [(&str, &str); 13] = [
    (
        "SELECT * FROM t;",
        "t widths 3 guards [] computed [] items [#0;#1;#2;] keys aggs [] outputs 0 1 2 order",
    ),
    (
        "SELECT t.b, a AS n, 1 + NULL FROM t ORDER BY n DESC, 1;",
        "t widths 3 guards [] computed [] items [#1;#0;1 NULL +;] \
         keys aggs [] outputs 0 1 2 order -1 +0",
    ),
    (
        "SELECT b AS a FROM t ORDER BY a;",
        "t widths 3 guards [] computed [] items [#1;] keys aggs [] outputs 0 order +0",
    ),
    (
        "SELECT a - b - a * b FROM t WHERE a = 1 OR b = 2 AND a = 3;",
        "t widths 3 guards [#0 1 = #1 2 = #0 3 = AND OR;] computed [] items [#0 #1 - #0 #1 * -;] \
         keys aggs [] outputs 0 order",
    ),
    (
        "SELECT a FROM t WHERE NULL = NULL AND n = NULL AND (a IS NULL OR b + NULL = 1);",
        "t widths 3 guards [NULL NULL =;#2 NULL =;] computed [#0 ISNULL #1 NULL + 1 = OR;] \
         items [#0;] keys aggs [] outputs 0 order",
    ),
    (
        "SELECT a FROM t WHERE a = 1 AND (b = 2 AND a + 1 > 0);",
        "t widths 3 guards [#0 1 =;#1 2 =;] computed [#0 1 + 0 >;] \
         items [#0;] keys aggs [] outputs 0 order",
    ),
    (
        "SELECT * FROM t JOIN u ON u.a = t.a;",
        "t u widths 3 2 join 0=0 guards [][] computed [] items [#0;#1;#2;#3;#4;] \
         keys aggs [] outputs 0 1 2 3 4 order",
    ),
    (
        "SELECT x.a, y.a FROM t x JOIN t y ON x.b = y.a ORDER BY 2;",
        "t t widths 3 3 join 1=0 guards [][] computed [] items [#0;#3;] \
         keys aggs [] outputs 0 1 order +1",
    ),
    (
        "SELECT n FROM t JOIN u ON t.a = u.a AND t.a = b AND u.a = c \
         WHERE c = 1 AND n = 'x' AND 1 = 1;",
        "t u widths 3 2 join 0=0 guards [#2 'x =;1 1 =;][#0 #1 =;#3 #4 =;#4 1 =;] computed [] \
         items [#2;] keys aggs [] outputs 0 order",
    ),
    (
        "SELECT n FROM u JOIN t ON c = b JOIN u x ON b = x.a \
         WHERE u.c = 1 AND b = 2 AND x.c = 3 AND u.a + x.a = 4;",
        "u t u widths 2 3 2 join 1=1 join 3=0 guards [#1 1 =;][#3 2 =;][#6 3 =;] \
         computed [#0 #5 + 4 =;] items [#4;] keys aggs [] outputs 0 order",
    ),
    (
        "SELECT SUM(b), a, COUNT(*) AS c FROM t GROUP BY n, t.a ORDER BY c DESC, a;",
        "t widths 3 guards [] computed [] items [] \
         keys 2 0 aggs [SUM #1;COUNT *;] outputs 2 1 3 order -2 +1",
    ),
    (
        "SELECT MIN(n), MAX(a), COUNT(NULL), SUM(NULL) FROM t;",
        "t widths 3 guards [] computed [] items [] \
         keys aggs [MIN #2;MAX #0;COUNT NULL;SUM NULL;] outputs 0 1 2 3 order",
    ),
    (
        "SELECT a FROM t GROUP BY b, a, a;",
        "t widths 3 guards [] computed [] items [] keys 1 0 0 aggs [] outputs 1 order",
    ),
];

#[test]
fn queries_are_bound(rt: HostRuntime) -> Result<(), Fail> {
    check(&rt, QUERIES.as_slice())
}

const OTHERS: [(&str, &str); 24] = [
    (
        "CREATE TABLE new (a INT, n TEXT) DISTRIBUTE BY n;",
        "named new",
    ),
    ("CREATE TABLE new (a INT, n TEXT);", "named new"),
    ("CREATE TABLE new (a INT, a INT);", "ambiguous a"),
    (
        "CREATE TABLE new (a INT, b INT, b INT, a INT);",
        "ambiguous a",
    ),
    (
        "CREATE TABLE new (a INT, a INT) DISTRIBUTE BY z;",
        "unknown column z",
    ),
    (
        "INSERT INTO t VALUES (1, 2, 'x'), (NULL, NULL, NULL);",
        "insert t rows 2 by 1",
    ),
    ("INSERT INTO t VALUES (1, 2);", "column count"),
    ("INSERT INTO u VALUES (1, 2, 3);", "column count"),
    ("INSERT INTO u VALUES (1, 2), (1);", "column count"),
    ("INSERT INTO u VALUES (1), ('x', 2);", "type mismatch"),
    ("INSERT INTO u VALUES (1, 2, 'x');", "column count"),
    ("INSERT INTO x VALUES (1), ('x', 2);", "unknown table x"),
    (
        "UPDATE u SET c = a + 1 WHERE a = c AND c + 1 = 2;",
        "update u guards [#0 #1 =;] computed [#1 1 + 2 =;] items [#0;#0 1 +;] by 0",
    ),
    ("UPDATE t SET n = NULL, b = u.a;", "unknown column u.a"),
    (
        "UPDATE t SET n = NULL, b = t.b;",
        "update t guards [] computed [] items [#0;#1;NULL;] by 1",
    ),
    ("UPDATE t SET z = y, a = b;", "unknown column z"),
    ("UPDATE t SET a = b, b = a, b = 1, a = 1;", "ambiguous a"),
    ("UPDATE t SET a = 1, a = n WHERE n;", "ambiguous a"),
    ("UPDATE t SET a = n;", "type mismatch"),
    ("UPDATE t SET n = 1;", "type mismatch"),
    ("UPDATE t SET a = 1 = 1;", "type mismatch"),
    (
        "DELETE FROM t WHERE a = 1 OR n = 'x';",
        "delete t guards [#0 1 = #2 'x = OR;] computed []",
    ),
    ("DELETE FROM t;", "delete t guards [] computed []"),
    ("DELETE FROM x WHERE a = 1;", "unknown table x"),
];

#[test]
fn other_statements_are_bound(rt: HostRuntime) -> Result<(), Fail> {
    check(&rt, OTHERS.as_slice())
}
