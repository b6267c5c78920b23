//! Reading columns, whose texts the bytes lend.

ghost use Rattle.std.specs.Prelude.{◌≡◌, ◌≤◌, ◌*◌, ℕ, Option, length, map, drop, IfOk};
ghost use Rattle.lake_values.specs.Reading.{Tells, Gives, with_rest, repeated_at};
ghost use Rattle.column_file.specs.Lent.{owned, lent_column};
ghost use Rattle.column_file.specs.Reading.{kind_at, flag_at, flags_at, number_cell_at, numbers_at, text_end_at, ends_at, piece_at, pieces_at, values_at, column_at, last_of};

use lake_values::{
    Bad, BadKind, ColType, DecodeFault, ValueRef, check_left, check_room, read_byte, read_u64,
    read_utf8,
};
use std::alloc::Global;

/// A column whose texts are lent.
#[derive(Drop)]
pub struct LentColumn<'a> {
    pub kind: ColType,
    pub values: Vec<ValueRef<'a>>,
}

pub fn read_columns(
    alloc: Global,
    count: u32,
    rows: u64,
    bytes: &[u8],
    at: usize,
) -> Result<(Vec<LentColumn<'_>>, usize), DecodeFault>
    requires { at ≤ length bytes.now }
    ensures exact { Gives (λ x. (map lent_column x.0.items, x.1, drop x.1 bytes.now)) result (repeated_at count (column_at rows) at (drop at bytes.now)) }
    ensures within { IfOk result (λ x. x.1 ≤ length bytes.now) }
{
    let mut columns = Vec::with_capacity(alloc, (count as usize).min(64))?;
    let mut next = at;
    for _ in 0..count {
        let (column, behind) = read_column(alloc, rows, bytes, next)?;
        columns.push(column)?;
        next = behind;
    }
    Ok((columns, next))
}

#[tactic(auto, unfolding(crate::specs::Reading::column_at))]
fn read_column(
    alloc: Global,
    rows: u64,
    bytes: &[u8],
    at: usize,
) -> Result<(LentColumn<'_>, usize), DecodeFault>
    requires { at ≤ length bytes.now }
    ensures exact { Gives (λ x. (lent_column x.0, x.1, drop x.1 bytes.now)) result (column_at rows at (drop at bytes.now)) }
    ensures within { IfOk result (λ x. x.1 ≤ length bytes.now) }
{
    let (kind, next) = read_kind(bytes, at)?;
    let (flags, next) = read_flags(alloc, rows, bytes, next)?;
    let (values, next) = read_values(alloc, kind, &flags, bytes, next)?;
    Ok((LentColumn { kind, values }, next))
}

#[tactic(auto, unfolding(crate::specs::Reading::kind_at))]
fn read_kind(bytes: &[u8], at: usize) -> Result<(ColType, usize), Bad>
    requires { at ≤ length bytes.now }
    ensures exact { Tells (with_rest bytes.now) result (kind_at at (drop at bytes.now)) }
    ensures within { IfOk result (λ x. x.1 ≤ length bytes.now) }
{
    let (byte, next) = read_byte(bytes, at)?;
    match byte {
        1 => Ok((ColType::Int, next)),
        2 => Ok((ColType::Text, next)),
        _ => Err(Bad::at(at, BadKind::BadTag)),
    }
}

fn read_flags(
    alloc: Global,
    rows: u64,
    bytes: &[u8],
    at: usize,
) -> Result<(Vec<bool>, usize), DecodeFault>
    requires { at ≤ length bytes.now }
    ensures exact { Gives (λ x. (x.0.items, x.1, drop x.1 bytes.now)) result (flags_at rows at (drop at bytes.now)) }
    ensures within { IfOk result (λ x. x.1 ≤ length bytes.now) }
{
    check_left(bytes, at, rows)?;
    let mut flags = Vec::with_capacity(alloc, rows as usize)?;
    let mut next = at;
    for _ in 0..rows {
        let (null, behind) = read_flag(bytes, next)?;
        flags.push(null)?;
        next = behind;
    }
    Ok((flags, next))
}

#[tactic(auto, unfolding(crate::specs::Reading::flag_at))]
fn read_flag(bytes: &[u8], at: usize) -> Result<(bool, usize), Bad>
    requires { at ≤ length bytes.now }
    ensures exact { Tells (with_rest bytes.now) result (flag_at at (drop at bytes.now)) }
    ensures within { IfOk result (λ x. x.1 ≤ length bytes.now) }
{
    let (byte, next) = read_byte(bytes, at)?;
    match byte {
        0 => Ok((false, next)),
        1 => Ok((true, next)),
        _ => Err(Bad::at(at, BadKind::BadTag)),
    }
}

#[tactic(auto, unfolding(crate::specs::Reading::values_at))]
fn read_values<'a>(
    alloc: Global,
    kind: ColType,
    flags: &[bool],
    bytes: &'a [u8],
    at: usize,
) -> Result<(Vec<ValueRef<'a>>, usize), DecodeFault>
    requires { at ≤ length bytes.now }
    ensures exact { Gives (λ x. (map owned x.0.items, x.1, drop x.1 bytes.now)) result (values_at kind flags.now at (drop at bytes.now)) }
    ensures within { IfOk result (λ x. x.1 ≤ length bytes.now) }
{
    match kind {
        ColType::Int => read_numbers(alloc, flags, bytes, at),
        ColType::Text => {
            let (ends, next) = read_ends(alloc, flags, bytes, at)?;
            read_pieces(alloc, flags, &ends, bytes, next)
        }
    }
}

fn read_numbers<'a>(
    alloc: Global,
    flags: &[bool],
    bytes: &'a [u8],
    at: usize,
) -> Result<(Vec<ValueRef<'a>>, usize), DecodeFault>
    requires { at ≤ length bytes.now }
    ensures exact { Gives (λ x. (map owned x.0.items, x.1, drop x.1 bytes.now)) result (numbers_at flags.now at (drop at bytes.now)) }
    ensures within { IfOk result (λ x. x.1 ≤ length bytes.now) }
{
    check_room(bytes, at, flags.len() as u64, 8)?;
    let mut values = Vec::with_capacity(alloc, flags.len())?;
    let mut next = at;
    for null in flags {
        let (value, behind) = read_number(*null, bytes, next)?;
        values.push(value)?;
        next = behind;
    }
    Ok((values, next))
}

#[tactic(auto, unfolding(crate::specs::Reading::number_cell_at))]
fn read_number<'a>(null: bool, bytes: &'a [u8], at: usize) -> Result<(ValueRef<'a>, usize), Bad>
    requires { at ≤ length bytes.now }
    ensures exact { Tells (λ x. (owned x.0, x.1, drop x.1 bytes.now)) result (number_cell_at null at (drop at bytes.now)) }
    ensures within { IfOk result (λ x. x.1 ≤ length bytes.now) }
{
    let (bits, next) = read_u64(bytes, at)?;
    if !null {
        return Ok((ValueRef::Int(bits.cast_signed()), next));
    }
    if bits != 0 {
        return Err(Bad::at(at, BadKind::NotCanonical));
    }
    Ok((ValueRef::Null, next))
}

fn read_ends(
    alloc: Global,
    flags: &[bool],
    bytes: &[u8],
    at: usize,
) -> Result<(Vec<u64>, usize), DecodeFault>
    requires { at ≤ length bytes.now }
    ensures exact { Gives (λ x. (x.0.items, x.1, drop x.1 bytes.now)) result (ends_at flags.now at (drop at bytes.now)) }
    ensures within { IfOk result (λ x. x.1 ≤ length bytes.now) }
    ensures count { IfOk result (λ x. length x.0.items ≡ length flags.now) }
{
    check_room(bytes, at, flags.len() as u64, 8)?;
    let mut ends = Vec::with_capacity(alloc, flags.len())?;
    let mut next = at;
    let mut before = None;
    for null in flags {
        let (end, behind) = read_text_end(before, *null, bytes, next)?;
        ends.push(end)?;
        before = Some(end);
        next = behind;
    }
    Ok((ends, next))
}

fn read_text_end(
    before: Option<u64>,
    null: bool,
    bytes: &[u8],
    at: usize,
) -> Result<(u64, usize), Bad>
    requires { at ≤ length bytes.now }
    ensures exact { Tells (with_rest bytes.now) result (text_end_at before null at (drop at bytes.now)) }
    ensures within { IfOk result (λ x. x.1 ≤ length bytes.now) }
{
    let (end, next) = read_u64(bytes, at)?;
    let start = before.unwrap_or(0);
    let most = if null { 0 } else { 4096 };
    if end < start || end - start > most {
        return Err(Bad::at(at, BadKind::NotCanonical));
    }
    Ok((end, next))
}

fn read_pieces<'a>(
    alloc: Global,
    flags: &[bool],
    ends: &[u64],
    bytes: &'a [u8],
    at: usize,
) -> Result<(Vec<ValueRef<'a>>, usize), DecodeFault>
    requires within { at ≤ length bytes.now }
    requires count { length ends.now ≡ length flags.now }
    ensures exact { Gives (λ x. (map owned x.0.items, x.1, drop x.1 bytes.now)) result (pieces_at flags.now ends.now at (drop at bytes.now)) }
    ensures within { IfOk result (λ x. x.1 ≤ length bytes.now) }
{
    check_left(bytes, at, last_end(ends))?;
    let mut values = Vec::with_capacity(alloc, flags.len())?;
    let mut next = at;
    let mut before = 0;
    for i in 0..flags.len() {
        let size = ends[i].saturating_sub(before);
        let (value, behind) = read_piece(flags[i], size as usize, bytes, next)?;
        values.push(value)?;
        before = ends[i];
        next = behind;
    }
    Ok((values, next))
}

fn last_end(ends: &[u64]) -> u64
    ensures { result ≡ last_of ends.now }
{
    ends.last().copied().unwrap_or(0)
}

#[tactic(auto, unfolding(crate::specs::Reading::piece_at))]
fn read_piece<'a>(
    null: bool,
    size: usize,
    bytes: &'a [u8],
    at: usize,
) -> Result<(ValueRef<'a>, usize), Bad>
    requires { at ≤ length bytes.now }
    ensures exact { Tells (λ x. (owned x.0, x.1, drop x.1 bytes.now)) result (piece_at (null, size) at (drop at bytes.now)) }
    ensures within { IfOk result (λ x. x.1 ≤ length bytes.now) }
{
    if null {
        return Ok((ValueRef::Null, at));
    }
    let (text, next) = read_utf8(bytes, at, size)?;
    Ok((ValueRef::Text(text), next))
}
