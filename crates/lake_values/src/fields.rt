//! Readers of fields, and the readers that `read` lends to the crates above.

ghost use Rattle.std.specs.Prelude.{◌≡◌, ◌+◌, ◌*◌, ◌≤◌, length, drop, IfOk, IfSome, IfNone, true, false};
ghost use Rattle.std.specs.Str.{is_utf8};
ghost use Rattle.std.specs.Int.{w32, w64};
ghost use Rattle.lake_values.specs.Reading.{Tells, Gives, with_rest, bytes_at, byte_at, u32_at, u64_at, room_at, utf8_at, text_at, value_at, name_at, magic_at};

use crate::write::kind_byte;
use crate::{Bad, BadKind, DecodeFault, Kind, Name, NoMemory, Text, TextFault, Value};
use std::alloc::Global;

/// The next `size` bytes, and the place behind them. Short where fewer are left.
#[tactic(auto, unfolding(crate::specs::Reading::bytes_at, crate::specs::Reading::room_at))]
pub fn read_bytes(bytes: &[u8], at: usize, size: usize) -> Result<(&[u8], usize), Bad>
    requires { at ≤ length bytes.now }
    ensures exact { Tells (λ x. (x.0.now, x.1, drop x.1 bytes.now)) result (bytes_at size at (drop at bytes.now)) }
    ensures within { IfOk result (λ x. x.1 ≤ length bytes.now) }
    ensures size { IfOk result (λ x. length x.0.now ≡ size) }
    ensures behind { IfOk result (λ x. x.1 ≡ at + size) }
{
    let (_, rest) = bytes.split_at(at);
    if rest.len() < size {
        return Err(Bad::at(at, BadKind::Short));
    }
    let (field, _) = rest.split_at(size);
    Ok((field, at + size))
}

/// Ok where `size` bytes are left, else Short.
#[tactic(auto, unfolding(crate::specs::Reading::room_at))]
pub fn check_left(bytes: &[u8], at: usize, size: u64) -> Result<(), Bad>
    requires { at ≤ length bytes.now }
    ensures { Tells (λ x. x) result (room_at size at (drop at bytes.now)) }
{
    let left = (bytes.len() - at) as u64;
    if left < size {
        return Err(Bad::at(at, BadKind::Short));
    }
    Ok(())
}

/// Ok where `count` elements of `size` bytes are left, else Short.
#[tactic(auto, unfolding(crate::specs::Reading::room_at))]
pub fn check_room(bytes: &[u8], at: usize, count: u64, size: u64) -> Result<(), Bad>
    requires { at ≤ length bytes.now }
    ensures { Tells (λ x. x) result (room_at (count * size) at (drop at bytes.now)) }
{
    match count.checked_mul(size) {
        Some(needed) => check_left(bytes, at, needed),
        None => Err(Bad::at(at, BadKind::Short)),
    }
}

/// The next byte, and the place behind it.
#[tactic(auto, unfolding(crate::specs::Reading::byte_at))]
pub fn read_byte(bytes: &[u8], at: usize) -> Result<(u8, usize), Bad>
    requires { at ≤ length bytes.now }
    ensures exact { Tells (with_rest bytes.now) result (byte_at at (drop at bytes.now)) }
    ensures within { IfOk result (λ x. x.1 ≤ length bytes.now) }
    ensures behind { IfOk result (λ x. x.1 ≡ at + 1) }
{
    let (field, next) = read_bytes(bytes, at, 1)?;
    Ok((field[0], next))
}

#[tactic(auto, unfolding(crate::specs::Reading::u32_at))]
pub fn u32_field(bytes: &[u8], at: usize) -> Result<(u32, usize), Bad>
    requires { at ≤ length bytes.now }
    ensures exact { Tells (with_rest bytes.now) result (u32_at at (drop at bytes.now)) }
    ensures within { IfOk result (λ x. x.1 ≤ length bytes.now) }
{
    let (field, next) = read_bytes(bytes, at, 4)?;
    let number = u32::from_be_bytes([field[0], field[1], field[2], field[3]]);
    Ok((number, next))
}

#[tactic(auto, unfolding(crate::specs::Reading::u64_at))]
pub fn u64_field(bytes: &[u8], at: usize) -> Result<(u64, usize), Bad>
    requires { at ≤ length bytes.now }
    ensures exact { Tells (with_rest bytes.now) result (u64_at at (drop at bytes.now)) }
    ensures within { IfOk result (λ x. x.1 ≤ length bytes.now) }
{
    let (field, next) = read_bytes(bytes, at, 8)?;
    let number = u64::from_be_bytes([
        field[0], field[1], field[2], field[3], field[4], field[5], field[6], field[7],
    ]);
    Ok((number, next))
}

/// The text of the next `size` bytes, and the place behind it. Short where fewer are left, BadUtf8 where they
/// aren't UTF-8.
pub fn read_utf8(bytes: &[u8], at: usize, size: usize) -> Result<(&str, usize), Bad>
    requires { at ≤ length bytes.now }
    ensures exact { Tells (λ x. (x.0.now, x.1, drop x.1 bytes.now)) result (utf8_at size at (drop at bytes.now)) }
    ensures within { IfOk result (λ x. x.1 ≤ length bytes.now) }
    ensures size { IfOk result (λ x. length x.0.now ≡ size) }
    ensures behind { IfOk result (λ x. x.1 ≡ at + size) }
{
    let (field, next) = read_bytes(bytes, at, size)?;
    let Some(text) = as_text(field) else {
        return Err(Bad::at(at, BadKind::BadUtf8));
    };
    Ok((text, next))
}

fn as_text(bytes: &[u8]) -> Option<&str>
    ensures some { IfSome result (λ text. (text.now ≡ bytes.now) × (is_utf8 bytes.now ≡ true)) }
    ensures none { IfNone result (is_utf8 bytes.now ≡ false) }
{
    match str::from_utf8(bytes) {
        Ok(text) => Some(text),
        Err(_) => None,
    }
}

#[tactic(auto, unfolding(crate::specs::Reading::text_at))]
pub fn text_field(alloc: Global, bytes: &[u8], at: usize) -> Result<(Text, usize), DecodeFault>
    requires { at ≤ length bytes.now }
    ensures exact { Gives (with_rest bytes.now) result (text_at at (drop at bytes.now)) }
    ensures within { IfOk result (λ x. x.1 ≤ length bytes.now) }
{
    let (size, start) = u32_field(bytes, at)?;
    if size > 4096 {
        return Err(DecodeFault::Bad(Bad::at(at, BadKind::NotCanonical)));
    }
    let (text, next) = read_utf8(bytes, start, size as usize)?;
    Ok((short_text(alloc, text)?, next))
}

#[tactic(auto, unfolding(crate::specs::Reading::value_at))]
pub fn value_field(alloc: Global, bytes: &[u8], at: usize) -> Result<(Value, usize), DecodeFault>
    requires { at ≤ length bytes.now }
    ensures exact { Gives (with_rest bytes.now) result (value_at at (drop at bytes.now)) }
    ensures within { IfOk result (λ x. x.1 ≤ length bytes.now) }
{
    let (tag, next) = read_byte(bytes, at)?;
    match tag {
        0 => Ok((Value::Null, next)),
        1 => {
            let (number, next) = u64_field(bytes, next)?;
            Ok((Value::Int(number.cast_signed()), next))
        }
        2 => {
            let (text, next) = text_field(alloc, bytes, next)?;
            Ok((Value::Text(text), next))
        }
        _ => Err(DecodeFault::Bad(Bad::at(at, BadKind::BadTag))),
    }
}

#[tactic(auto, unfolding(crate::specs::Reading::name_at))]
pub fn name_field(bytes: &[u8], at: usize, kind: Kind) -> Result<(Name, usize), Bad>
    requires { at ≤ length bytes.now }
    ensures exact { Tells (with_rest bytes.now) result (name_at kind at (drop at bytes.now)) }
    ensures within { IfOk result (λ x. x.1 ≤ length bytes.now) }
    ensures kind { IfOk result (λ x. x.0.kind ≡ kind) }
{
    let (tag, next) = read_byte(bytes, at)?;
    if tag != kind_byte(kind) {
        return Err(Bad::at(at, BadKind::BadTag));
    }
    let (txn, next) = u64_field(bytes, next)?;
    let (part, next) = u32_field(bytes, next)?;
    let (task, next) = u32_field(bytes, next)?;
    let (attempt, next) = u32_field(bytes, next)?;
    let name = Name {
        kind,
        txn,
        part,
        task,
        attempt,
    };
    Ok((name, next))
}

/// The place behind the bytes by which a format begins. BadTag where others stand there.
pub fn read_magic(bytes: &[u8], at: usize, magic: &[u8]) -> Result<usize, Bad>
    requires { at ≤ length bytes.now }
    ensures exact { Tells (λ next. (magic.now, next, drop next bytes.now)) result (magic_at magic.now at (drop at bytes.now)) }
    ensures within { IfOk result (λ next. next ≤ length bytes.now) }
    ensures behind { IfOk result (λ next. next ≡ at + length magic.now) }
{
    let (field, next) = read_bytes(bytes, at, magic.len())?;
    if field != magic {
        return Err(Bad::at(at, BadKind::BadTag));
    }
    Ok(next)
}

/// A text of bytes that are known to be few enough.
pub fn short_text(alloc: Global, text: &str) -> Result<Text, NoMemory>
    requires { length text.now ≤ 4096 }
    ensures { IfOk result (λ made. made ≡ text.now) }
{
    match Text::new(alloc, text) {
        Ok(made) => Ok(made),
        Err(TextFault::NoMemory) => Err(NoMemory),
        Err(TextFault::TooLong) => unreachable!(),
    }
}
