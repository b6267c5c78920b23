//! How values, names and numbers are written, and the cells of values.

use crate::bytes::{FORM, SHORT, TAG, bad};
use crate::rows::text;
use lake_values::{
    Bad, BadKind, Kind, Name, Text, TextFault, Value, cell_of, read_end, read_name, read_text,
    read_u32, read_u64, read_value, write_name, write_text, write_u32, write_u64, write_value,
};
use std::test::Fail;

// The cell is FNV-1a of the spelling, modulo 16, as another program computes it.
#[test]
fn spellings_and_cells(rt: HostRuntime) -> Result<(), Fail> {
    let alloc = rt.alloc();
    let spelled: [(Value, &[u8], u32); 7] = [
        (Value::Null, &[0], 15),
        (Value::Int(0), &[1, 0, 0, 0, 0, 0, 0, 0, 0], 12),
        (Value::Int(1), &[1, 0, 0, 0, 0, 0, 0, 0, 1], 15),
        (Value::Int(2), &[1, 0, 0, 0, 0, 0, 0, 0, 2], 2),
        (Value::Int(3), &[1, 0, 0, 0, 0, 0, 0, 0, 3], 5),
        (Value::Int(16), &[1, 0, 0, 0, 0, 0, 0, 0, 16], 12),
        (text(alloc, "abc")?, &[2, 0, 0, 0, 3, 97, 98, 99], 4),
    ];
    for (value, bytes, cell) in &spelled {
        let mut out = Vec::new(alloc);
        write_value(value, &mut out)?;
        assert_eq!(rt; out.as_slice(), *bytes);
        assert_eq!(rt; cell_of(value), *cell);
        let (read, end) = read_value(alloc, &out, 0)?;
        assert!(rt; read == *value);
        assert!(rt; read_end(&out, end).is_ok());
    }
    Ok(())
}

#[test]
fn names_and_numbers(rt: HostRuntime) -> Result<(), Fail> {
    let alloc = rt.alloc();
    let name = Name {
        kind: Kind::Vector,
        txn: 0x0102,
        part: 3,
        task: 4,
        attempt: 5,
    };
    let mut out = Vec::new(alloc);
    write_name(&name, &mut out)?;
    let spelled = [
        2, 0, 0, 0, 0, 0, 0, 1, 2, 0, 0, 0, 3, 0, 0, 0, 4, 0, 0, 0, 5,
    ];
    assert_eq!(rt; out.as_slice(), spelled.as_slice());
    assert_eq!(rt; read_name(&out, 0, Kind::Vector), Ok((name, 21)));
    let other = Bad {
        place: 0,
        kind: TAG,
    };
    assert_eq!(rt; read_name(&out, 0, Kind::File), Err(other));

    let mut numbers = Vec::new(alloc);
    write_u32(0x0102_0304, &mut numbers)?;
    write_u64(0x0506_0708_090a_0b0c, &mut numbers)?;
    assert_eq!(rt;
        numbers.as_slice(),
        [1, 2, 3, 4, 5, 6, 7, 8, 9, 10, 11, 12].as_slice()
    );
    assert_eq!(rt; read_u32(&numbers, 0), Ok((0x0102_0304, 4)));
    assert_eq!(rt; read_u64(&numbers, 4), Ok((0x0506_0708_090a_0b0c, 12)));
    Ok(())
}

#[test]
fn a_text_has_at_most_4096_bytes(rt: HostRuntime) -> Result<(), Fail> {
    let alloc = rt.alloc();
    for (letter, count, fits) in [
        ("a", 0, true),
        ("a", 4096, true),
        ("a", 4097, false),
        ("é", 2048, true),
        ("é", 2049, false),
    ] {
        let mut string = String::new(alloc);
        for _ in 0..count {
            string.push_str(letter)?;
        }
        match Text::new(alloc, string.as_str()) {
            Ok(text) => {
                assert!(rt; fits, "{count} of {letter} taken");
                assert_eq!(rt; text.as_str(), string.as_str());
                let mut out = Vec::new(alloc);
                write_text(&text, &mut out)?;
                let (read, end) = read_text(alloc, &out, 0)?;
                assert!(rt; read == text && text.copy()? == text);
                assert_eq!(rt; end, out.len());
            }
            Err(fault) => {
                assert!(rt; !fits, "{count} of {letter} refused");
                assert_eq!(rt; fault, TextFault::TooLong);
            }
        }
    }
    Ok(())
}

#[test]
fn first_bad_fields(rt: HostRuntime) {
    let cases: [(&[u8], u64, BadKind); 8] = [
        (&[], 0, SHORT),
        (&[3], 0, TAG),
        (&[1, 0, 0], 1, SHORT),
        (&[2, 0, 0], 1, SHORT),
        (&[2, 0, 0, 16, 1], 1, FORM),
        (&[2, 0, 0, 0, 2, 97], 5, SHORT),
        (&[2, 0, 0, 0, 1, 255], 5, BadKind::BadUtf8),
        (&[2, 0, 0, 0, 2, 0xc3, 97], 5, BadKind::BadUtf8),
    ];
    for (bytes, place, kind) in cases {
        let read = read_value(rt.alloc(), bytes, 0).map(|_| ());
        assert_eq!(rt; read, bad(place, kind));
    }
    let behind = Bad {
        place: 1,
        kind: BadKind::Trailing,
    };
    assert_eq!(rt; read_end(&[0, 0], 1), Err(behind));
}
