ghost use Rattle.std.specs.Prelude.{◌≡◌, ◌<◌, ◌≤◌, ◌^◌, ◌++◌, length, All, OnOk, IfOk};
ghost use Rattle.lake_values.specs.Spelling.{NoneBegins};
ghost use Rattle.manifest_block.specs.Spelling.{item_spelling, block_spelling, IsInForm, IsBlock};

use crate::Item;
use lake_values::{NoMemory, write_name, write_text, write_u32, write_u64};
use std::alloc::Global;

/// The one spelling of a block of items. A block has 1 to 4,294,967,295 items, each with a cell of at most 15, a
/// file that is named as a file and a vector that is named as a vector.
pub fn encode_block(alloc: Global, items: &Vec<Item>) -> Result<Vec<u8>, NoMemory>
    requires some { 1 ≤ length items.now.items }
    requires count { length items.now.items < 2 ^ 32 }
    requires form { All IsInForm items.now.items }
    ensures { IfOk result (λ bytes. bytes.items ≡ block_spelling items.now.items) }
{
    let mut out = Vec::with_capacity(alloc, size_of_block(items))?;
    out.extend_from_slice(b"LMB1")?;
    write_u32(items.len() as u32, &mut out)?;
    for item in items {
        put_item(item, &mut out)?;
    }
    Ok(out)
}

fn put_item(item: &Item, out: &mut Vec<u8>) -> Result<(), NoMemory>
    ensures { OnOk result (out.new.items ≡ out.old.items ++ item_spelling item.now) }
{
    match item {
        Item::Add {
            table,
            cell,
            part,
            file,
            rows,
        } => {
            out.push(1)?;
            write_text(table, out)?;
            write_u32(*cell, out)?;
            write_u32(*part, out)?;
            write_name(file, out)?;
            write_u64(*rows, out)?;
            Ok(())
        }
        Item::Remove { table, file } => {
            out.push(2)?;
            write_text(table, out)?;
            write_name(file, out)?;
            Ok(())
        }
        Item::SetVector {
            table,
            file,
            vector,
            removed,
        } => {
            out.push(3)?;
            write_text(table, out)?;
            write_name(file, out)?;
            write_name(vector, out)?;
            write_u64(*removed, out)?;
            Ok(())
        }
    }
}

// How many bytes to reserve: the length of the spelling, or the type's end.
fn size_of_block(items: &[Item]) -> usize {
    let mut size = 8usize;
    for item in items {
        size = size.saturating_add(size_of_item(item));
    }
    size
}

fn size_of_item(item: &Item) -> usize {
    let (table, fields) = match item {
        Item::Add { table, .. } => (table, 42),
        Item::Remove { table, .. } => (table, 26),
        Item::SetVector { table, .. } => (table, 55),
    };
    table.as_str().len() + fields
}

/// No spelling of a block begins another.
pub fn one_block_spelling()
    ensures { NoneBegins IsBlock block_spelling }
{}
