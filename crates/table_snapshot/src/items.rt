ghost use Rattle.std.specs.Prelude.{◌≡◌, true, OnOk, IfOk};
ghost use Rattle.table_snapshot.specs.Files.{after_item, in_order, item_table, items_in, items_of};
ghost use Rattle.table_snapshot.specs.Files.{replay as replayed, replay_dated};
ghost use Rattle.table_snapshot.specs.Files.{replay_manifest as replay_manifest_items};

use crate::by_name::ByName;
use crate::{Dated, FileRow, Files};
use lake_values::{NoMemory, Text};
use manifest_block::{Item, ItemBlock};
use std::alloc::Global;

/// What the manifests make of a table's files, one after another. It takes the time of
/// (n + m) log (n + m) for n files and m items.
pub fn replay(base: Files, table: &Text, manifests: &Vec<Dated>) -> Result<Files, NoMemory>
    requires { in_order base ≡ true }
    ensures files { IfOk result
        (λ files. files ≡ replay_dated table.now manifests.now.items base) }
    ensures order { IfOk result (λ files. in_order files ≡ true) }
{
    let alloc = *manifests.allocator();
    let mut files = by_name(alloc, base)?;
    for manifest in manifests {
        replay_manifest(&mut files, table, manifest)?;
    }
    files.into_files(alloc)
}

fn by_name(alloc: Global, base: Files) -> Result<ByName, NoMemory>
    requires { in_order base ≡ true }
    ensures { IfOk result (λ files. files ≡ base) }
{
    let mut files = ByName::empty(alloc);
    for file in base.list() {
        files.put(*file)?;
    }
    Ok(files)
}

fn replay_manifest(files: &mut ByName, table: &Text, manifest: &Dated) -> Result<(), NoMemory>
    ensures { OnOk result
        (files.new ≡ replay_manifest_items table.now manifest.now files.old) }
{
    for block in manifest.blocks.list() {
        replay_block(files, manifest.seq, table, block)?;
    }
    Ok(())
}

fn replay_block(
    files: &mut ByName,
    seq: u64,
    table: &Text,
    block: &ItemBlock,
) -> Result<(), NoMemory>
    ensures { OnOk result (files.new ≡ replayed seq (items_of table.now block.now) files.old) }
{
    for item in block.list() {
        if table_of(item) == table {
            replay_item(files, seq, item)?;
        }
    }
    Ok(())
}

fn table_of(item: &Item) -> &Text
    ensures { result.now ≡ item_table item.now }
{
    match item {
        Item::Add { table, .. } => table,
        Item::Remove { table, .. } => table,
        Item::SetVector { table, .. } => table,
    }
}

fn replay_item(files: &mut ByName, seq: u64, item: &Item) -> Result<(), NoMemory>
    ensures { OnOk result (files.new ≡ after_item seq files.old item.now) }
{
    match item {
        Item::Add {
            table: _,
            cell,
            part,
            file,
            rows,
        } => files.put(FileRow {
            file: *file,
            seq,
            part: *part,
            cell: *cell,
            rows: *rows,
            vector: None,
        }),
        Item::Remove { table: _, file } => {
            files.take_out(file);
            Ok(())
        }
        Item::SetVector {
            table: _,
            file,
            vector,
            removed,
        } => {
            files.set_vector(file, *vector, *removed);
            Ok(())
        }
    }
}
