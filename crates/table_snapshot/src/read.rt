ghost use Rattle.std.specs.Prelude.{◌≡◌, ◌≤◌, length, drop, IfOk, Ok};
ghost use Rattle.lake_values.specs.Reading.{Gives, Tells, with_rest, whole};
ghost use Rattle.table_snapshot.specs.declared.files.Checkpoint.{Checkpoint as Kept};
ghost use Rattle.table_snapshot.specs.Spelling.{checkpoint_spelling, IsCheckpoint};
ghost use Rattle.table_snapshot.specs.Reading.{next_name_at, vector_at, name_of, file_at, files_at};
ghost use Rattle.table_snapshot.specs.Reading.{checkpoint_at};

use crate::{Checkpoint, FileRow, Files};
use lake_values::{
    Bad, BadKind, DecodeFault, Kind, Name, read_byte, read_end, read_magic, read_name, read_text,
    read_u32, read_u64,
};
use std::alloc::Global;

// The fewest bytes that a file takes.
const LEAST: usize = 46;

/// The checkpoint whose spelling the bytes are, all of the bytes; else the first bad field. A name
/// that isn't above the one before it is NotCanonical at the number that is too low.
pub fn decode_checkpoint(alloc: Global, bytes: &[u8]) -> Result<Checkpoint, DecodeFault>
    ensures exact { Gives (λ c. c) result (whole checkpoint_at bytes.now) }
    ensures found { IfOk result (λ c. bytes.now ≡ checkpoint_spelling c) }
    ensures fits { IfOk result IsCheckpoint }
    ensures only { (c : Kept) → IsCheckpoint c → bytes.now ≡ checkpoint_spelling c
        → Gives (λ x. x) result (Ok c) }
{
    read_checkpoint(alloc, bytes)
}

#[tactic(auto, unfolding(crate::specs::Reading::checkpoint_at))]
fn read_checkpoint(alloc: Global, bytes: &[u8]) -> Result<Checkpoint, DecodeFault>
    ensures { Gives (λ c. c) result (whole checkpoint_at bytes.now) }
{
    let next = read_magic(bytes, 0, b"LCP1")?;
    let (table, next) = read_text(alloc, bytes, next)?;
    let (at, next) = read_u64(bytes, next)?;
    let (count, next) = read_u64(bytes, next)?;
    let (files, next) = read_files(alloc, count, bytes, next)?;
    read_end(bytes, next)?;
    Ok(Checkpoint {
        table,
        at,
        files: Files::from_list(files),
    })
}

fn read_files(
    alloc: Global,
    count: u64,
    bytes: &[u8],
    at: usize,
) -> Result<(Vec<FileRow>, usize), DecodeFault>
    requires { at ≤ length bytes.now }
    ensures exact { Gives (λ x. (x.0.items, x.1, drop x.1 bytes.now)) result
        (files_at count at (drop at bytes.now)) }
    ensures within { IfOk result (λ x. x.1 ≤ length bytes.now) }
{
    let most = (bytes.len() - at) / LEAST;
    let mut files = Vec::with_capacity(alloc, most.min(count as usize))?;
    let mut next = at;
    let mut before = None;
    for _ in 0..count {
        let (file, behind) = read_file(before, bytes, next)?;
        files.push(file)?;
        before = Some(file);
        next = behind;
    }
    Ok((files, next))
}

#[tactic(auto, unfolding(crate::specs::Reading::file_at))]
fn read_file(before: Option<FileRow>, bytes: &[u8], at: usize) -> Result<(FileRow, usize), Bad>
    requires { at ≤ length bytes.now }
    ensures exact { Tells (with_rest bytes.now) result (file_at before at (drop at bytes.now)) }
    ensures within { IfOk result (λ x. x.1 ≤ length bytes.now) }
{
    let (file, next) = read_next_name(file_name(before), bytes, at)?;
    let (seq, next) = read_u64(bytes, next)?;
    let (part, start) = read_u32(bytes, next)?;
    let (cell, next) = read_u32(bytes, start)?;
    if cell > 15 {
        return Err(Bad::at(start, BadKind::NotCanonical));
    }
    let (rows, next) = read_u64(bytes, next)?;
    let (vector, next) = read_vector(bytes, next)?;
    let file = FileRow {
        file,
        seq,
        part,
        cell,
        rows,
        vector,
    };
    Ok((file, next))
}

fn file_name(file: Option<FileRow>) -> Option<Name>
    ensures { result ≡ name_of file }
{
    match file {
        Some(file) => Some(file.file),
        None => None,
    }
}

#[tactic(auto, unfolding(crate::specs::Reading::vector_at))]
fn read_vector(bytes: &[u8], at: usize) -> Result<(Option<(Name, u64)>, usize), Bad>
    requires { at ≤ length bytes.now }
    ensures exact { Tells (with_rest bytes.now) result (vector_at at (drop at bytes.now)) }
    ensures within { IfOk result (λ x. x.1 ≤ length bytes.now) }
{
    let (byte, next) = read_byte(bytes, at)?;
    match byte {
        0 => Ok((None, next)),
        1 => {
            let (name, next) = read_name(bytes, next, Kind::Vector)?;
            let (removed, next) = read_u64(bytes, next)?;
            Ok((Some((name, removed)), next))
        }
        _ => Err(Bad::at(at, BadKind::BadTag)),
    }
}

// The name of a file, behind this one.
#[tactic(auto, unfolding(crate::specs::Reading::next_name_at))]
fn read_next_name(before: Option<Name>, bytes: &[u8], at: usize) -> Result<(Name, usize), Bad>
    requires { at ≤ length bytes.now }
    ensures exact { Tells (with_rest bytes.now) result
        (next_name_at before at (drop at bytes.now)) }
    ensures within { IfOk result (λ x. x.1 ≤ length bytes.now) }
{
    let (kind, txn_at) = read_byte(bytes, at)?;
    if kind != 1 {
        return Err(Bad::at(at, BadKind::BadTag));
    }
    let (txn, part_at) = read_u64(bytes, txn_at)?;
    if let Some(before) = before
        && txn < before.txn
    {
        return Err(Bad::at(txn_at, BadKind::NotCanonical));
    }
    let (part, task_at) = read_u32(bytes, part_at)?;
    if let Some(before) = before
        && txn == before.txn
        && part < before.part
    {
        return Err(Bad::at(part_at, BadKind::NotCanonical));
    }
    let (task, attempt_at) = read_u32(bytes, task_at)?;
    if let Some(before) = before
        && txn == before.txn
        && part == before.part
        && task < before.task
    {
        return Err(Bad::at(task_at, BadKind::NotCanonical));
    }
    let (attempt, next) = read_u32(bytes, attempt_at)?;
    if let Some(before) = before
        && txn == before.txn
        && part == before.part
        && task == before.task
        && attempt <= before.attempt
    {
        return Err(Bad::at(attempt_at, BadKind::NotCanonical));
    }
    let name = Name {
        kind: Kind::File,
        txn,
        part,
        task,
        attempt,
    };
    Ok((name, next))
}
