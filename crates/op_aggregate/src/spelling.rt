//! The spellings of lent values, which tell them apart.

ghost use Rattle.std.specs.Prelude.{◌≡◌, ◌++◌, ◌≤◌, length, OnOk};
ghost use Rattle.lake_values.specs.Lending.{owned, IsShort};
ghost use Rattle.lake_values.specs.Spelling.{int_spelling, text_spelling, value_spelling, IsText, IsValue};

use lake_values::{NoMemory, ValueRef, write_u32, write_u64};

/// Puts the spelling of a value at the end.
pub fn put_spelling(value: ValueRef<'_>, out: &mut Vec<u8>) -> Result<(), NoMemory>
    requires { IsShort value }
    ensures bytes { OnOk result (out.new.items ≡ out.old.items ++ value_spelling (owned value.entry)) }
    ensures value { OnOk result (IsValue (owned value.entry)) }
{
    match value {
        ValueRef::Null => Ok(out.push(0)?),
        ValueRef::Int(number) => {
            out.push(1)?;
            write_u64(number.cast_unsigned(), out)?;
            Ok(())
        }
        ValueRef::Text(text) => {
            out.push(2)?;
            put_text(text, out)?;
            Ok(())
        }
    }
}

fn put_text(text: &str, out: &mut Vec<u8>) -> Result<(), NoMemory>
    requires { length text.now ≤ 4096 }
    ensures bytes { OnOk result (out.new.items ≡ out.old.items ++ text_spelling text.now) }
    ensures text { OnOk result (IsText text.now) }
{
    write_u32(text.len() as u32, out)?;
    out.extend_from_slice(text.as_bytes())?;
    Ok(())
}
