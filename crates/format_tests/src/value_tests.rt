//! The order of rows, their printed text, and copies.

use crate::rows::text;
use lake_values::{
    ColType, Column, Columns, Listed, Row, Rows, Schema, Text, TextFault, Value, compare_lent,
    compare_rows, compare_values, copy_columns, copy_rows, row_text,
};
use std::alloc::Global;
use std::cmp::Ordering;
use std::test::Fail;

fn row(values: Vec<Value>) -> Row {
    Row::from_values(values)
}

/// Rows in ascending order, of different widths.
fn ascending(alloc: Global) -> Result<Vec<Row>, Fail> {
    let mut rows = Vec::new(alloc);
    rows.push(row(Vec::new(alloc)))?;
    rows.push(row(vec![in alloc; Value::Null]?))?;
    rows.push(row(vec![in alloc; Value::Null, Value::Null]?))?;
    for number in [i64::MIN, -10] {
        rows.push(row(vec![in alloc; Value::Int(number)]?))?;
    }
    rows.push(row(vec![in alloc; Value::Int(9)]?))?;
    rows.push(row(vec![in alloc; Value::Int(9), Value::Null]?))?;
    rows.push(row(vec![in alloc; Value::Int(10)]?))?;
    for letters in ["", "10", "9", "Z", "a"] {
        rows.push(row(vec![in alloc; text(alloc, letters)?]?))?;
    }
    rows.push(row(vec![in alloc; text(alloc, "a")?, Value::Int(1)]?))?;
    for letters in ["ab", "é"] {
        rows.push(row(vec![in alloc; text(alloc, letters)?]?))?;
    }
    Ok(rows)
}

#[test]
fn rows_stand_by_their_first_difference(rt: HostRuntime) -> Result<(), Fail> {
    let rows = ascending(rt.alloc())?;
    for (i, a) in rows.iter().enumerate() {
        for (j, b) in rows.iter().enumerate() {
            assert_eq!(rt; compare_rows(a, b), i.cmp(&j), "{i} with {j}");
        }
    }
    let (number, letters) = (Value::Int(10), text(rt.alloc(), "")?);
    assert_eq!(rt; compare_values(&number, &letters), Ordering::Less);
    assert_eq!(rt;
        compare_lent(letters.lend(), number.lend()),
        Ordering::Greater
    );
    Ok(())
}

fn column(alloc: Global, name: &str, kind: ColType) -> Result<Column, TextFault> {
    Ok(Column {
        name: Text::new(alloc, name)?,
        kind,
    })
}

fn are_same(columns: &[Column], others: &[Column]) -> bool {
    columns.len() == others.len()
        && columns
            .iter()
            .zip(others)
            .all(|(a, b)| a.name == b.name && a.kind == b.kind)
}

#[test]
fn copies_are_equal(rt: HostRuntime) -> Result<(), Fail> {
    let alloc = rt.alloc();
    let rows = ascending(alloc)?;
    for row in &rows {
        assert_eq!(rt; row.copy(alloc)?, *row);
        for value in row.values() {
            assert_eq!(rt; value.copy()?, *value);
        }
    }
    let copies = copy_rows(alloc, rows.as_slice())?;
    assert_eq!(rt; copies, rows);
    let rows = Rows::from_rows(rows);
    assert_eq!(rt; rows.copy(alloc)?.into_rows(), copies);

    let columns = vec![in alloc;
        column(alloc, "id", ColType::Int)?,
        column(alloc, "name", ColType::Text)?,
    ]?;
    let copies = copy_columns(alloc, columns.as_slice())?;
    assert!(rt; are_same(copies.as_slice(), columns.as_slice()));

    let schema = Schema::new(vec![in alloc; column(alloc, "id", ColType::Int)?]?, 0);
    let copy = schema.copy(alloc)?;
    assert!(rt; are_same(copy.columns(), schema.columns()));
    assert_eq!(rt; copy.distribution(), 0);
    Ok(())
}

#[test]
fn lists_grow_at_their_end(rt: HostRuntime) -> Result<(), Fail> {
    let alloc = rt.alloc();
    let mut numbers: Listed<u32> = Listed::empty(alloc);
    assert!(rt; numbers.is_empty());
    numbers.push(7)?;
    numbers.append(vec![in alloc; 3, 7]?)?;
    numbers.append(Vec::new(alloc))?;
    assert_eq!(rt; numbers.as_slice(), [7, 3, 7].as_slice());

    let mut columns: Columns = Listed::from_list(Vec::new(alloc));
    columns.push(column(alloc, "id", ColType::Int)?)?;
    columns.append(vec![in alloc; column(alloc, "name", ColType::Text)?]?)?;
    assert_eq!(rt; columns.len(), 2);
    for (column, name) in columns.into_list().iter().zip(["id", "name"]) {
        assert_eq!(rt; column.name.as_str(), name);
    }
    Ok(())
}

#[test]
fn rows_are_printed(rt: HostRuntime) -> Result<(), Fail> {
    let alloc = rt.alloc();
    let bounds = vec![in alloc;
        Value::Int(i64::MIN),
        Value::Int(-1),
        Value::Int(0),
        Value::Int(i64::MAX),
    ]?;
    let quotes = vec![in alloc; text(alloc, "it's")?, text(alloc, "")?, text(alloc, "'")?]?;
    let mixed = vec![in alloc; Value::Null, text(alloc, "a,\n\"é\"\\")?, Value::Int(3)]?;
    let rows = [
        row(Vec::new(alloc)),
        row(vec![in alloc; Value::Null]?),
        row(bounds),
        row(quotes),
        row(mixed),
    ];
    let mut out = b"1: 5 rows".to_vec(alloc)?;
    for row in &rows {
        out.push(b'\n')?;
        row_text(row, &mut out)?;
    }
    assert_eq!(rt;
        str::from_utf8(out.as_slice())?,
        "1: 5 rows\n\
         ()\n\
         (NULL)\n\
         (-9223372036854775808,-1,0,9223372036854775807)\n\
         ('it''s','','''')\n\
         (NULL,'a,\n\"é\"\\',3)"
    );
    Ok(())
}
