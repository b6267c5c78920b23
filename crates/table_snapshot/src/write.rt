ghost use Rattle.std.specs.Prelude.{◌≡◌, ◌++◌, true, All, OnOk, IfOk};
ghost use Rattle.lake_values.specs.Spelling.{NoneBegins};
ghost use Rattle.table_snapshot.specs.declared.files.Checkpoint.{Checkpoint as Kept};
ghost use Rattle.table_snapshot.specs.Files.{in_order};
ghost use Rattle.table_snapshot.specs.Spelling.{checkpoint_of, checkpoint_spelling, file_spelling};
ghost use Rattle.table_snapshot.specs.Spelling.{vector_spelling, IsCheckpoint, IsInForm};

use crate::{FileRow, Files};
use lake_values::{Name, NoMemory, Text, write_name, write_text, write_u32, write_u64};
use std::alloc::Global;

// The most bytes that a file takes.
const MOST: usize = 75;

/// The one spelling of the files that a table had in version `at`. Files are named as files, in
/// order of name, and each has a cell of at most 15 and a vector that is named as a vector.
pub fn checkpoint_bytes(
    alloc: Global,
    table: &Text,
    at: u64,
    files: &Files,
) -> Result<Vec<u8>, NoMemory>
    requires order { in_order files.now ≡ true }
    requires form { All IsInForm files.now }
    ensures { IfOk result
        (λ bytes. bytes.items ≡ checkpoint_spelling (checkpoint_of table.now at files.now)) }
{
    let size = files
        .len()
        .saturating_mul(MOST)
        .saturating_add(table.as_str().len())
        .saturating_add(24);
    let mut out = Vec::with_capacity(alloc, size)?;
    out.extend_from_slice(b"LCP1")?;
    write_text(table, &mut out)?;
    write_u64(at, &mut out)?;
    write_u64(files.len() as u64, &mut out)?;
    for file in files.list() {
        put_file(file, &mut out)?;
    }
    Ok(out)
}

fn put_file(file: &FileRow, out: &mut Vec<u8>) -> Result<(), NoMemory>
    ensures { OnOk result (out.new.items ≡ out.old.items ++ file_spelling file.now) }
{
    write_name(&file.file, out)?;
    write_u64(file.seq, out)?;
    write_u32(file.part, out)?;
    write_u32(file.cell, out)?;
    write_u64(file.rows, out)?;
    put_vector(file.vector, out)?;
    Ok(())
}

fn put_vector(vector: Option<(Name, u64)>, out: &mut Vec<u8>) -> Result<(), NoMemory>
    ensures { OnOk result (out.new.items ≡ out.old.items ++ vector_spelling vector) }
{
    match vector {
        None => {
            out.push(0)?;
            Ok(())
        }
        Some((name, removed)) => {
            out.push(1)?;
            write_name(&name, out)?;
            write_u64(removed, out)?;
            Ok(())
        }
    }
}

/// No spelling of a checkpoint begins another.
pub fn one_checkpoint_spelling()
    ensures { NoneBegins IsCheckpoint checkpoint_spelling }
{}
