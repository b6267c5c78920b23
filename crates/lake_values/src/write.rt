ghost use Rattle.std.specs.Prelude.{◌≡◌, ◌++◌, length, take, OnOk, OnErr};
ghost use Rattle.lake_values.specs.Spelling.{u32_spelling, u64_spelling, text_spelling, value_spelling, name_spelling, kind_byte as byte_of_kind};

use crate::{Kind, Name, NoMemory, Text, Value};

/// Appends a number as its 4 bytes, the highest first.
#[tactic(auto, unfolding(crate::specs::Spelling::u32_spelling))]
pub fn write_u32(number: u32, out: &mut Vec<u8>) -> Result<(), NoMemory>
    ensures ok { OnOk result (out.new.items ≡ out.old.items ++ u32_spelling number) }
    ensures err { OnErr result (out.new.items ≡ out.old.items) }
{
    out.extend_from_slice(&number.to_be_bytes())?;
    Ok(())
}

/// Appends a number as its 8 bytes, the highest first.
#[tactic(auto, unfolding(crate::specs::Spelling::u64_spelling))]
pub fn write_u64(number: u64, out: &mut Vec<u8>) -> Result<(), NoMemory>
    ensures ok { OnOk result (out.new.items ≡ out.old.items ++ u64_spelling number) }
    ensures err { OnErr result (out.new.items ≡ out.old.items) }
{
    out.extend_from_slice(&number.to_be_bytes())?;
    Ok(())
}

/// Appends a text: the number of its bytes, and these.
pub fn write_text(text: &Text, out: &mut Vec<u8>) -> Result<(), NoMemory>
    ensures ok { OnOk result (out.new.items ≡ out.old.items ++ text_spelling text.now) }
    ensures err { OnErr result (out.new.items ≡ out.old.items) }
{
    let start = out.len();
    let written = put_text(text, out);
    take_back(start, written, out)
}

/// Appends a value: 0 for NULL; 1 and the 8 bytes of a number, in two's complement; 2 and a text.
pub fn write_value(value: &Value, out: &mut Vec<u8>) -> Result<(), NoMemory>
    ensures ok { OnOk result (out.new.items ≡ out.old.items ++ value_spelling value.now) }
    ensures err { OnErr result (out.new.items ≡ out.old.items) }
{
    let start = out.len();
    let written = put_value(value, out);
    take_back(start, written, out)
}

/// Appends a name: the byte of its kind (1 to 4), and its four numbers.
pub fn write_name(name: &Name, out: &mut Vec<u8>) -> Result<(), NoMemory>
    ensures ok { OnOk result (out.new.items ≡ out.old.items ++ name_spelling name.now) }
    ensures err { OnErr result (out.new.items ≡ out.old.items) }
{
    let start = out.len();
    let written = put_name(name, out);
    take_back(start, written, out)
}

// Takes back what was written from a place on, where not all of it was.
fn take_back(start: usize, written: Result<(), NoMemory>, out: &mut Vec<u8>) -> Result<(), NoMemory>
    ensures same { result ≡ written }
    ensures ok { OnOk result (out.new.items ≡ out.old.items) }
    ensures err { OnErr result (out.new.items ≡ take start out.old.items) }
{
    if written.is_err() {
        out.truncate(start);
    }
    written
}

#[tactic(auto, using(crate::proofs::Kept::kept_append, crate::proofs::Kept::kept_through))]
fn put_text(text: &Text, out: &mut Vec<u8>) -> Result<(), NoMemory>
    ensures ok { OnOk result (out.new.items ≡ out.old.items ++ text_spelling text.now) }
    ensures err { OnErr result (take (length out.old.items) out.new.items ≡ out.old.items) }
{
    let text = text.as_str();
    write_u32(text.len() as u32, out)?;
    out.extend_from_slice(text.as_bytes())?;
    Ok(())
}

#[tactic(auto, using(crate::proofs::Kept::kept_append, crate::proofs::Kept::kept_through))]
fn put_value(value: &Value, out: &mut Vec<u8>) -> Result<(), NoMemory>
    ensures ok { OnOk result (out.new.items ≡ out.old.items ++ value_spelling value.now) }
    ensures err { OnErr result (take (length out.old.items) out.new.items ≡ out.old.items) }
{
    match value {
        Value::Null => Ok(out.push(0)?),
        Value::Int(number) => {
            out.push(1)?;
            write_u64(number.cast_unsigned(), out)?;
            Ok(())
        }
        Value::Text(text) => {
            out.push(2)?;
            put_text(text, out)?;
            Ok(())
        }
    }
}

#[tactic(auto, using(crate::proofs::Kept::kept_append, crate::proofs::Kept::kept_through))]
fn put_name(name: &Name, out: &mut Vec<u8>) -> Result<(), NoMemory>
    ensures ok { OnOk result (out.new.items ≡ out.old.items ++ name_spelling name.now) }
    ensures err { OnErr result (take (length out.old.items) out.new.items ≡ out.old.items) }
{
    out.push(kind_byte(name.kind))?;
    write_u64(name.txn, out)?;
    write_u32(name.part, out)?;
    write_u32(name.task, out)?;
    write_u32(name.attempt, out)?;
    Ok(())
}

/// The byte that a kind of blob is spelled with.
pub fn kind_byte(kind: Kind) -> u8
    ensures { result ≡ byte_of_kind kind }
{
    match kind {
        Kind::File => 1,
        Kind::Vector => 2,
        Kind::Manifest => 3,
        Kind::Checkpoint => 4,
    }
}
