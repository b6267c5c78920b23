ghost use Rattle.std.specs.Prelude.{◌≡◌, ◌++◌, length, take, map, OnOk, OnErr};
ghost use Rattle.std.specs.List.{flat_map, join_with_byte};
ghost use Rattle.lake_values.specs.Print.{text_of_row, value_text, later_value_text, quoted};

use crate::{NoMemory, Row, Text, Value};

/// Appends the text of a row: its values between parentheses, separated by commas. NULL prints as `NULL`,
/// a number in decimal, a text between quotes with each quote doubled.
pub fn row_text(row: &Row, out: &mut Vec<u8>) -> Result<(), NoMemory>
    ensures ok { OnOk result (out.new.items ≡ out.old.items ++ text_of_row row.now) }
    ensures err { OnErr result (out.new.items ≡ out.old.items) }
{
    let start = out.len();
    let printed = put_row(row, out);
    if printed.is_err() {
        out.truncate(start);
    }
    printed
}

#[tactic(auto, using(crate::proofs::Kept::kept_append, crate::proofs::Kept::kept_through))]
fn put_row(row: &Row, out: &mut Vec<u8>) -> Result<(), NoMemory>
    ensures ok { OnOk result (out.new.items ≡ out.old.items ++ text_of_row row.now) }
    ensures err { OnErr result (take (length out.old.items) out.new.items ≡ out.old.items) }
{
    out.push(b'(')?;
    put_values(row.values(), out)?;
    out.push(b')')?;
    Ok(())
}

#[tactic(auto, using(crate::proofs::Kept::kept_append, crate::proofs::Kept::kept_through))]
fn put_values(values: &[Value], out: &mut Vec<u8>) -> Result<(), NoMemory>
    ensures ok { OnOk result (out.new.items ≡ out.old.items ++ join_with_byte 44 (map value_text values.now)) }
    ensures err { OnErr result (take (length out.old.items) out.new.items ≡ out.old.items) }
{
    let Some((first, others)) = values.split_first() else {
        return Ok(());
    };
    put_value(first, out)?;
    put_others(others, out)?;
    Ok(())
}

#[tactic(auto, using(crate::proofs::Kept::kept_append, crate::proofs::Kept::kept_through))]
fn put_others(values: &[Value], out: &mut Vec<u8>) -> Result<(), NoMemory>
    ensures ok { OnOk result (out.new.items ≡ out.old.items ++ flat_map later_value_text values.now) }
    ensures err { OnErr result (take (length out.old.items) out.new.items ≡ out.old.items) }
{
    for value in values {
        put_later(value, out)?;
    }
    Ok(())
}

#[tactic(auto, using(crate::proofs::Kept::kept_append, crate::proofs::Kept::kept_through))]
fn put_later(value: &Value, out: &mut Vec<u8>) -> Result<(), NoMemory>
    ensures ok { OnOk result (out.new.items ≡ out.old.items ++ later_value_text value.now) }
    ensures err { OnErr result (take (length out.old.items) out.new.items ≡ out.old.items) }
{
    out.push(b',')?;
    put_value(value, out)?;
    Ok(())
}

#[tactic(auto, using(crate::proofs::Kept::kept_append, crate::proofs::Kept::kept_through))]
fn put_value(value: &Value, out: &mut Vec<u8>) -> Result<(), NoMemory>
    ensures ok { OnOk result (out.new.items ≡ out.old.items ++ value_text value.now) }
    ensures err { OnErr result (take (length out.old.items) out.new.items ≡ out.old.items) }
{
    match value {
        Value::Null => Ok(out.extend_from_slice(b"NULL")?),
        Value::Int(number) => {
            let number = *number;
            let digits = number.to_string(*out.allocator())?;
            Ok(out.extend_from_slice(digits.as_bytes())?)
        }
        Value::Text(text) => put_quoted(text, out),
    }
}

#[tactic(auto, using(crate::proofs::Kept::kept_append, crate::proofs::Kept::kept_through))]
fn put_quoted(text: &Text, out: &mut Vec<u8>) -> Result<(), NoMemory>
    ensures ok { OnOk result (out.new.items ≡ out.old.items ++ quoted text.now) }
    ensures err { OnErr result (take (length out.old.items) out.new.items ≡ out.old.items) }
{
    out.push(b'\'')?;
    for byte in text.as_str().as_bytes() {
        if *byte == b'\'' {
            out.push(b'\'')?;
        }
        out.push(*byte)?;
    }
    out.push(b'\'')?;
    Ok(())
}
