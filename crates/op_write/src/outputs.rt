//! Files of rows, and how an attempt's blob and items are staged.

ghost use Rattle.std.specs.Prelude.{◌≡◌, ◌<◌, ◌≤◌, ◌+◌, ◌^◌, ◌∷◌, length, map, IfOk, IsErrOf};
ghost use Rattle.std.specs.Prelude.{IsTrue, All, Some};
ghost use Rattle.lake_values.specs.declared.names.Kind.TheVariants.{File as FileKind};
ghost use Rattle.lake_outside.specs.Counts.{Rises};
ghost use Rattle.lake_outside.specs.Ports.{IsBlockOf};
ghost use Rattle.column_file.specs.Spelling.{kinds_of, FitsKinds};
ghost use Rattle.manifest_block.specs.declared.items.Item.TheVariants.{Remove as Removal};
ghost use Rattle.manifest_block.specs.Spelling.{IsInForm};
ghost use Rattle.op_write.specs.Staging.{names_staged, staged};
ghost use Rattle.op_write.specs.Writes.{add_item as item_of_file, file_blob, file_output};
ghost use Rattle.op_write.specs.Writes.{merge_output};

use crate::blocks::{Encoded, stage_blocks, stage_items};
use crate::{Staging, WriteFault, WriteKey};
use column_file::encode_rows;
use lake_outside::Port;
use lake_values::{Kind, Name, NoMemory, Schema, Text};
use manifest_block::{Item, ItemBlock};
use row_packet::{Packet, PacketView};
use std::alloc::Global;

/// Stages a file of the rows for the key's cell, and the block with the item that adds it. Where
/// there are no rows, there is nothing to write.
pub fn stage_file<P: Port>(
    alloc: Global,
    port: &mut P,
    key: &WriteKey,
    schema: &Schema,
    rows: &Packet,
) -> Result<Staging<P>, WriteFault>
    requires cell { key.now.cell < 16 }
    requires fit { All (FitsKinds (kinds_of schema.now)) rows.now.rows }

    ensures told { IsTrue P.tells → IfOk result
        (λ s. s ≡ staged key.now (file_output key.now schema.now rows.now.rows)) }
    ensures named { IfOk result (λ s. names_staged s
        ≡ names_staged (staged key.now (file_output key.now schema.now rows.now.rows))) }

    ensures never_falls { P.faults port.old ≤ P.faults port.new }
    ensures failed { IsErrOf result WriteFault.StoreFault
        → Rises (P.faults port.old) (P.faults port.new) }
    ensures listings { P.listings port.new ≡ P.listings port.old }
    ensures deletions { P.deletions port.new ≡ P.deletions port.old }
{
    let rows = rows.view();
    if rows.rows() == 0 {
        return Ok(Staging::nothing(alloc));
    }
    let file = encode_file(alloc, key, schema, &rows)?;
    let items = vec![in alloc; add_item(key, &rows)?]?;
    stage(alloc, port, key, file, items)
}

/// Stages a file of the rows for the key's cell in place of other files, and the block with the
/// items that add it and then remove each of these.
pub fn stage_merge<P: Port>(
    alloc: Global,
    port: &mut P,
    key: &WriteKey,
    schema: &Schema,
    rows: &Packet,
    replaced: &Vec<Name>,
) -> Result<Staging<P>, WriteFault>
    requires cell { key.now.cell < 16 }
    requires fit { All (FitsKinds (kinds_of schema.now)) rows.now.rows }
    requires files { All (λ name. name.kind ≡ FileKind) replaced.now.items }
    requires count { length replaced.now.items + 1 < 2 ^ 32 }

    ensures told { IsTrue P.tells → IfOk result (λ s. s
        ≡ staged key.now (merge_output key.now schema.now rows.now.rows replaced.now.items)) }
    ensures named { IfOk result (λ s. names_staged s ≡ names_staged
        (staged key.now (merge_output key.now schema.now rows.now.rows replaced.now.items))) }

    ensures never_falls { P.faults port.old ≤ P.faults port.new }
    ensures failed { IsErrOf result WriteFault.StoreFault
        → Rises (P.faults port.old) (P.faults port.new) }
    ensures listings { P.listings port.new ≡ P.listings port.old }
    ensures deletions { P.deletions port.new ≡ P.deletions port.old }
{
    let rows = rows.view();
    let file = encode_file(alloc, key, schema, &rows)?;
    let items = merge_items(alloc, key, &rows, replaced)?;
    stage(alloc, port, key, file, items)
}

fn encode_file(
    alloc: Global,
    key: &WriteKey,
    schema: &Schema,
    rows: &PacketView<'_>,
) -> Result<Encoded, NoMemory>
    requires { All (FitsKinds (kinds_of schema.now)) rows.now.rows }
    ensures { IfOk result (λ file. file ≡ file_blob key.now schema.now rows.now.rows) }
{
    Ok(Encoded {
        name: key.name(Kind::File),
        bytes: encode_rows(alloc, schema, rows.list())?,
    })
}

fn add_item(key: &WriteKey, rows: &PacketView<'_>) -> Result<Item, NoMemory>
    ensures { IfOk result (λ item. item ≡ item_of_file key.now rows.now.rows) }
{
    Ok(Item::Add {
        table: key.table.copy()?,
        cell: key.cell,
        part: key.part,
        file: key.name(Kind::File),
        rows: rows.rows(),
    })
}

/// The item that removes a file from a table.
pub fn remove_item(table: &Text, file: &Name) -> Result<Item, NoMemory>
    ensures { IfOk result (λ item. item ≡ Removal table.now file.now) }
{
    Ok(Item::Remove {
        table: table.copy()?,
        file: *file,
    })
}

/// The item that adds the file, and those that remove the others.
fn merge_items(
    alloc: Global,
    key: &WriteKey,
    rows: &PacketView<'_>,
    replaced: &[Name],
) -> Result<Vec<Item>, NoMemory>
    ensures { IfOk result (λ items. items.items
        ≡ item_of_file key.now rows.now.rows ∷ map (Removal key.now.table) replaced.now) }
{
    let mut items = Vec::with_capacity(alloc, replaced.len() + 1)?;
    items.push(add_item(key, rows)?)?;
    for file in replaced {
        items.push(remove_item(&key.table, file)?)?;
    }
    Ok(items)
}

/// Stages a blob of the attempt, and then the block with its items.
pub fn stage<P: Port>(
    alloc: Global,
    port: &mut P,
    key: &WriteKey,
    blob: Encoded,
    items: Vec<Item>,
) -> Result<Staging<P>, WriteFault>
    requires bytes { 0 < length blob.bytes }
    requires some { 1 ≤ length items.items }
    requires count { length items.items < 2 ^ 32 }
    requires form { All IsInForm items.items }

    ensures told { IsTrue P.tells → IfOk result
        (λ s. s ≡ staged key.now (record { blob = Some blob; items = items.items })) }
    ensures named { IfOk result (λ s. names_staged s
        ≡ names_staged (staged key.now (record { blob = Some blob; items = items.items }))) }

    ensures never_falls { P.faults port.old ≤ P.faults port.new }
    ensures failed { IsErrOf result WriteFault.StoreFault
        → Rises (P.faults port.old) (P.faults port.new) }
    ensures listings { P.listings port.new ≡ P.listings port.old }
    ensures deletions { P.deletions port.new ≡ P.deletions port.old }
{
    let blocks = stage_blocks(alloc, port, &blob)?;
    let block = stage_items(alloc, port, key, &items)?;
    Ok(Staging {
        name: Some(blob.name),
        blocks,
        block: Some(block),
        items: ItemBlock::from_list(items),
    })
}
