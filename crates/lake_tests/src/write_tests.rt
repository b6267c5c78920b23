//! What attempts write: names and bytes over a shelf, blocks in the order in which they are staged,
//! and calls of a port that fail in turn.

ghost use Rattle.std.specs.Prelude.{◌≡◌, ◌<◌, ◌+◌, ◌∷◌, [], All, IfOk};
ghost use Rattle.lake_values.specs.declared.schemas.ColType.{ColType as Kinds};
ghost use Rattle.column_file.specs.Spelling.{FitsKinds, kinds_of};

use crate::noting::NotingPort;
use deletion_vector::Vector;
use lake_outside::{Blocks, Port, Staged, Stored};
use lake_shelf::Shelf;
use lake_values::{ColType, Column, Kind, Listed, Name, Row, Schema, Text, Value};
use op_write::{Staging, WriteFault, WriteKey, seal, stage_file, stage_merge, stage_vector};
use row_packet::Packet;
use std::alloc::Global;
use std::process::Abort;
use std::test::Fail;

/// The file of one column of numbers with the row 1.
const FILE: &[u8] = b"LCF1\0\0\0\x01\0\0\0\0\0\0\0\x01\x01\0\0\0\0\0\0\0\0\x01";

/// The block that adds it.
const ADDITION: &[u8] = b"LMB1\0\0\0\x01\
    \x01\0\0\0\x01t\0\0\0\x02\0\0\0\x01\
    \x01\0\0\0\0\0\0\0\x01\0\0\0\x01\0\0\0\x05\0\0\0\x01\0\0\0\0\0\0\0\x01";

/// The vector of the positions 1 and 3.
const VECTOR: &[u8] = b"LDV1\0\0\0\0\0\0\0\x02\0\0\0\0\0\0\0\x01\0\0\0\0\0\0\0\x03";

/// The block that gives it to the file of task 2.
const SETTING: &[u8] = b"LMB1\0\0\0\x01\
    \x03\0\0\0\x01t\
    \x01\0\0\0\0\0\0\0\x01\0\0\0\x01\0\0\0\x02\0\0\0\x01\
    \x02\0\0\0\0\0\0\0\x01\0\0\0\x01\0\0\0\x05\0\0\0\x01\0\0\0\0\0\0\0\x02";

/// The block that removes this file.
const REMOVAL: &[u8] = b"LMB1\0\0\0\x01\
    \x02\0\0\0\x01t\
    \x01\0\0\0\0\0\0\0\x01\0\0\0\x01\0\0\0\x02\0\0\0\x01";

/// The block that adds the file in place of those of tasks 2 and 3.
const MERGE: &[u8] = b"LMB1\0\0\0\x03\
    \x01\0\0\0\x01t\0\0\0\x02\0\0\0\x01\
    \x01\0\0\0\0\0\0\0\x01\0\0\0\x01\0\0\0\x05\0\0\0\x01\0\0\0\0\0\0\0\x01\
    \x02\0\0\0\x01t\x01\0\0\0\0\0\0\0\x01\0\0\0\x01\0\0\0\x02\0\0\0\x01\
    \x02\0\0\0\x01t\x01\0\0\0\0\0\0\0\x01\0\0\0\x01\0\0\0\x03\0\0\0\x01";

/// The name of what a task of the part writes.
fn name(kind: Kind, task: u32) -> Name
    ensures { result.kind ≡ kind }
{
    Name {
        kind,
        txn: 1,
        part: 1,
        task,
        attempt: 1,
    }
}

/// The first attempt of task 5, for cell 2 of table t.
fn key(alloc: Global) -> Result<WriteKey, Fail>
    ensures { IfOk result (λ key. key.cell < 16) }
{
    Ok(WriteKey {
        txn: 1,
        part: 1,
        task: 5,
        attempt: 1,
        table: Text::new(alloc, "t")?,
        cell: 2,
    })
}

/// The schema of one column of this kind.
fn schema(alloc: Global, kind: ColType) -> Result<Schema, Fail>
    ensures { IfOk result (λ schema. kinds_of schema ≡ kind ∷ []) }
{
    let columns = vec![in alloc;
        Column {
            name: Text::new(alloc, "a")?,
            kind
        },
    ]?;
    Ok(Schema::new(columns, 0))
}

/// The packet of one column with this value.
fn packet(alloc: Global, value: Value) -> Result<Packet, Fail>
    ensures width { IfOk result (λ packet. packet.width ≡ 1) }
    ensures rows { IfOk result (λ packet. packet.rows ≡ (value ∷ []) ∷ []) }
{
    let mut packet = Packet::empty(alloc, 1);
    packet.push(Row::from_values(vec![in alloc; value]?))?;
    Ok(packet)
}

/// Seals a staging, and checks the blob and the bytes of the manifest's block.
fn writes<P: Port>(
    rt: &impl Abort,
    alloc: Global,
    port: &mut P,
    staging: Staging<P>,
    blob: Option<(Kind, &[u8])>,
    manifest: Option<&[u8]>,
) -> Result<(), Fail> {
    let (blobs, block, items) = seal(alloc, port, staging)?.into_parts();
    assert_eq!(rt; blobs.len(), usize::from(blob.is_some()));
    if let (Some((kind, want)), [found]) = (blob, blobs.as_slice()) {
        assert_eq!(rt; found.name(), name(kind, 5));
        assert_eq!(rt; port.read(found)?.as_slice(), want);
    }
    assert_eq!(rt; block.is_some(), manifest.is_some());
    assert_eq!(rt; items.is_empty(), manifest.is_none());
    if let (Some(block), Some(want)) = (block, manifest) {
        assert!(rt; block.name() == name(Kind::Manifest, 5) && block.number() == 1);
        let name = Name {
            part: 0,
            task: 0,
            ..block.name()
        };
        let mut blocks: Blocks<P> = Listed::empty(alloc);
        blocks.push(block)?;
        let blob = port.commit(&name, blocks.list())?;
        assert_eq!(rt; port.read(&blob)?.as_slice(), want);
    }
    Ok(())
}

#[test]
fn attempts_write_what_their_tasks_do(rt: HostRuntime) -> Result<(), Fail> {
    let alloc = rt.alloc();
    let shelf = Shelf::new(alloc, rt)?;
    let port = &mut shelf.sure_port();
    let key = key(alloc)?;
    let schema = schema(alloc, ColType::Int)?;
    let row = packet(alloc, Value::Int(1))?;
    let file = Some((Kind::File, FILE));

    let staging = stage_file(alloc, port, &key, &schema, &row)?;
    writes(&rt, alloc, port, staging, file, Some(ADDITION))?;
    let staging = stage_file(alloc, port, &key, &schema, &Packet::empty(alloc, 1))?;
    writes(&rt, alloc, port, staging, None, None)?;
    let replaced = vec![in alloc; name(Kind::File, 2), name(Kind::File, 3)]?;
    let staging = stage_merge(alloc, port, &key, &schema, &row, &replaced)?;
    writes(&rt, alloc, port, staging, file, Some(MERGE))
}

/// The vector of this position.
fn position(alloc: Global, position: u64) -> Result<Vector, Fail>
    ensures { IfOk result (All (λ p. p < position + 1)) }
{
    let mut vector = Vector::empty(alloc);
    vector.add(position)?;
    Ok(vector)
}

#[test]
fn vectors_have_all_positions_that_are_gone(rt: HostRuntime) -> Result<(), Fail> {
    let alloc = rt.alloc();
    let shelf = Shelf::new(alloc, rt)?;
    let port = &mut shelf.sure_port();
    let key = key(alloc)?;
    let file = name(Kind::File, 2);
    let first = position(alloc, 0)?;
    let before = position(alloc, 1)?;
    let gone = position(alloc, 3)?;

    let staging = stage_vector(alloc, port, &key, &file, 5, &before, &gone)?;
    writes(
        &rt,
        alloc,
        port,
        staging,
        Some((Kind::Vector, VECTOR)),
        Some(SETTING),
    )?;
    let staging = stage_vector(alloc, port, &key, &file, 5, &before, &before)?;
    writes(&rt, alloc, port, staging, None, None)?;
    let staging = stage_vector(alloc, port, &key, &file, 2, &first, &before)?;
    writes(&rt, alloc, port, staging, None, Some(REMOVAL))
}

/// A column file of 2,100,000 bytes is staged in three blocks, and then the manifest's block.
#[test]
fn files_are_staged_before_their_items(rt: HostRuntime) -> Result<(), Fail> {
    let alloc = rt.alloc();
    let mut port = NotingPort {
        alloc,
        notes: Vec::new(alloc),
    };
    let rows = long_rows(alloc)?;
    let schema = schema(alloc, ColType::Text)?;
    let staging = stage_file(alloc, &mut port, &key(alloc)?, &schema, &rows)?;
    drop(staging);
    let file = name(Kind::File, 5);
    let want = [
        (file, 1, 1_048_576),
        (file, 2, 1_048_576),
        (file, 3, 2_848),
        (name(Kind::Manifest, 5), 1, 51),
    ];
    assert_eq!(rt; port.notes.as_slice(), want.as_slice());
    Ok(())
}

/// 511 texts of 4,096 bytes and one of 2,319. Each row has a byte of flag and 8 of its end besides,
/// and the file 17 bytes.
fn long_rows(alloc: Global) -> Result<Packet, Fail>
    ensures width { IfOk result (λ packet. packet.width ≡ 1) }
    ensures rows { IfOk result (λ packet. All (FitsKinds (Kinds.Text ∷ [])) packet.rows) }
{
    let mut packet = packet(alloc, letters(alloc, 2_319)?)?;
    for _ in 0..511 {
        let value = letters(alloc, 4_096)?;
        packet.push(Row::from_values(vec![in alloc; value]?))?;
    }
    Ok(packet)
}

/// A text of so many bytes.
fn letters(alloc: Global, size: usize) -> Result<Value, Fail>
    ensures { IfOk result (λ value. FitsKinds (Kinds.Text ∷ []) (value ∷ [])) }
{
    let letters = "a".repeat(alloc, size)?;
    Ok(Value::Text(Text::new(alloc, &letters)?))
}

/// Each of the port's calls fails in turn: the file's block, the manifest's block, and the commit.
#[test]
fn a_failed_attempt_leaves_the_shelf_as_it_was(rt: HostRuntime) -> Result<(), Fail> {
    let alloc = rt.alloc();
    let shelf = Shelf::new(alloc, rt)?;
    let schema = schema(alloc, ColType::Int)?;
    let row = packet(alloc, Value::Int(1))?;
    for call in 1..=4u64 {
        let mut port = shelf.port(vec![in alloc; call]?);
        let failed = fails(alloc, &mut port, &key(alloc)?, &schema, &row);
        assert_eq!(rt; failed, call < 4);
        assert_eq!(rt; shelf.names()?.is_empty(), call < 4);
    }
    assert_eq!(rt; shelf.names()?.as_slice(), [name(Kind::File, 5)].as_slice());
    Ok(())
}

/// Whether the port fails while a file is staged and sealed.
fn fails<P: Port>(
    alloc: Global,
    port: &mut P,
    key: &WriteKey,
    schema: &Schema,
    rows: &Packet,
) -> bool
    requires cell { key.now.cell < 16 }
    requires fit { All (FitsKinds (kinds_of schema.now)) rows.now.rows }
{
    let fault = match stage_file(alloc, port, key, schema, rows) {
        Ok(staging) => seal(alloc, port, staging).err(),
        Err(fault) => Some(fault),
    };
    fault == Some(WriteFault::StoreFault)
}
