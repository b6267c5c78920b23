//! Column files.

ghost use Rattle.column_file.specs.Spelling.{HasKind};

use crate::bytes::{FORM, SHORT, TAG, Verdict, bad, each_change, each_prefix};
use crate::rows::text;
use column_file::{decode_file, encode};
use lake_values::{BadKind, ColType, Column, Row, Rows, Schema, Text, Value};
use std::alloc::Global;
use std::test::Fail;

// The file of one INT column and the row (1).
const NUMBER: [u8; 26] = [
    0x4c, 0x43, 0x46, 0x31, 0, 0, 0, 1, 0, 0, 0, 0, 0, 0, 0, 1, 1, 0, 0, 0, 0, 0, 0, 0, 0, 1,
];

// The file of one TEXT column and the row ('ab').
const LETTERS: [u8; 28] = [
    0x4c, 0x43, 0x46, 0x31, 0, 0, 0, 1, 0, 0, 0, 0, 0, 0, 0, 1, 2, 0, 0, 0, 0, 0, 0, 0, 0, 2, 0x61,
    0x62,
];

// The file of an INT and a TEXT column and the rows (NULL, 'ab') and (7, NULL).
const BOTH: [u8; 56] = [
    0x4c, 0x43, 0x46, 0x31, 0, 0, 0, 2, 0, 0, 0, 0, 0, 0, 0, 2, 1, 1, 0, 0, 0, 0, 0, 0, 0, 0, 0, 0,
    0, 0, 0, 0, 0, 0, 7, 2, 0, 1, 0, 0, 0, 0, 0, 0, 0, 2, 0, 0, 0, 0, 0, 0, 0, 2, 0x61, 0x62,
];

// A file of one column and one row.
fn file_of(alloc: Global, kind: ColType, value: Value) -> Result<Vec<u8>, Fail>
    requires { HasKind kind value }
{
    let name = Text::new(alloc, "c")?;
    let columns = vec![in alloc; Column { name, kind }]?;
    let schema = Schema::new(columns, 0);
    let values = vec![in alloc; value]?;
    let rows = vec![in alloc; Row::from_values(values)]?;
    Ok(encode(alloc, &schema, &Rows::from_rows(rows))?)
}

#[test]
fn one_row_is_written(rt: HostRuntime) -> Result<(), Fail> {
    let number = file_of(rt.alloc(), ColType::Int, Value::Int(1))?;
    assert_eq!(rt; number.as_slice(), NUMBER.as_slice());
    let letters = Value::Text(Text::new(rt.alloc(), "ab")?);
    let letters = file_of(rt.alloc(), ColType::Text, letters)?;
    assert_eq!(rt; letters.as_slice(), LETTERS.as_slice());
    Ok(())
}

#[test]
fn two_rows_are_read(rt: HostRuntime) -> Result<(), Fail> {
    let alloc = rt.alloc();
    let file = decode_file(alloc, &BOTH)?;
    assert_eq!(rt;
        file.kinds.as_slice(),
        [ColType::Int, ColType::Text].as_slice()
    );
    let first = Row::from_values(vec![in alloc; Value::Null, text(alloc, "ab")?]?);
    let second = Row::from_values(vec![in alloc; Value::Int(7), Value::Null]?);
    let rows = Rows::from_rows(vec![in alloc; first, second]?);
    assert!(rt; file.rows.rows() == rows.rows());
    Ok(())
}

fn verdict(alloc: Global, bytes: &[u8]) -> Verdict {
    decode_file(alloc, bytes).map(|_| ())
}

// What the file of the row (1) is read as with one byte changed.
fn expected(place: usize, byte: u8) -> Verdict {
    let rows = u64::from(byte);
    match place {
        0..4 => bad(0, TAG),
        7 if byte >= 2 && byte <= 64 => bad(26, SHORT),
        4..8 => bad(4, FORM),
        15 if byte == 0 => bad(17, BadKind::Trailing),
        15 if byte <= 9 => bad(17 + rows, SHORT),
        8..16 => bad(17, SHORT),
        16 if byte == 2 => bad(26, SHORT),
        16 => bad(16, TAG),
        17 if byte == 1 => bad(18, FORM),
        17 => bad(17, TAG),
        _ => Ok(()),
    }
}

#[test]
fn damaged_files_are_refused(rt: HostRuntime) -> Result<(), Fail> {
    each_change(&rt, &NUMBER, verdict, expected)?;
    each_prefix(&rt, &NUMBER, &[0, 4, 8, 16, 17, 18], verdict);
    Ok(())
}

// A byte of the file of two rows, what it is changed to, and the first bad field then.
#[test]
fn arrays_are_checked(rt: HostRuntime) {
    let cases = [
        (15, 3, 44, TAG),
        (15, 40, 17, SHORT),
        (18, 1, 27, FORM),
        (18, 2, 18, TAG),
        (35, 1, 46, FORM),
        (36, 1, 38, FORM),
        (44, 15, 46, FORM),
        (44, 16, 38, FORM),
        (45, 3, 46, FORM),
        (53, 1, 46, FORM),
        (54, 0xc3, 54, BadKind::BadUtf8),
        (7, 1, 35, BadKind::Trailing),
    ];
    for (at, byte, place, kind) in cases {
        let mut bytes = BOTH;
        if at < bytes.len() {
            bytes[at] = byte;
        }
        assert_eq!(rt;
            verdict(rt.alloc(), &bytes),
            bad(place, kind),
            "{byte} at {at}"
        );
    }
}
