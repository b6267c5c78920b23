//! Staging bytes in blocks.

ghost use Rattle.std.specs.Prelude.{◌≡◌, ◌<◌, ◌≤◌, ◌^◌, ◌+◌, ◌*◌, length, map, IfOk, IsErrOf};
ghost use Rattle.std.specs.Prelude.{IsTrue, All};
ghost use Rattle.lake_outside.specs.Counts.{Rises};
ghost use Rattle.manifest_block.specs.Spelling.{block_spelling, IsInForm};
ghost use Rattle.lake_outside.specs.Ports.{told_block};
ghost use Rattle.op_write.specs.Staging.{block_at, block_count, blocks_of, piece_at};
ghost use Rattle.op_write.specs.Staging.{without_bytes};
ghost use Rattle.op_write.specs.Writes.{name_of};

use crate::{WriteFault, WriteKey};
use lake_outside::{Blocks, Port};
use lake_values::{Kind, Name, NoMemory};
use manifest_block::{Item, encode_block};
use std::alloc::Global;
use std::marker::Model;

/// How many bytes of a blob a block has; the last one has what is left.
const BLOCK_SIZE: usize = 1_048_576;

/// A blob that is not staged yet.
#[derive(Debug, Drop)]
pub struct Encoded {
    pub name: Name,
    pub bytes: Vec<u8>,
}

impl Model for Encoded {
    ghost use Rattle.lake_outside.specs.Ports.{ToldBlob};

    ghost Value = { ToldBlob };

    ghost view = { λ e. record { name = e.name; bytes = e.bytes.items } };
}

/// The bytes of the block at a place, counted from 0.
fn piece(bytes: &[u8], place: usize) -> &[u8]
    requires { place * 1048576 < length bytes.now }
    ensures { result.now ≡ piece_at bytes.now place }
{
    let rest = &bytes[place * BLOCK_SIZE..];
    &rest[..BLOCK_SIZE.min(rest.len())]
}

/// Stages the bytes of a blob in its blocks, numbered from 1.
pub fn stage_blocks<P: Port>(
    alloc: Global,
    port: &mut P,
    blob: &Encoded,
) -> Result<Blocks<P>, WriteFault>
    ensures told { IsTrue P.tells → IfOk result (λ blocks.
        map (told_block P.Block.name P.Block.number P.Block.bytes) blocks ≡ blocks_of blob.now) }
    ensures named { IfOk result (λ blocks.
        map without_bytes (map (told_block P.Block.name P.Block.number P.Block.bytes) blocks)
        ≡ map without_bytes (blocks_of blob.now)) }

    ensures never_falls { P.faults port.old ≤ P.faults port.new }
    ensures failed { IsErrOf result WriteFault.StoreFault
        → Rises (P.faults port.old) (P.faults port.new) }
    ensures listings { P.listings port.new ≡ P.listings port.old }
    ensures deletions { P.deletions port.new ≡ P.deletions port.old }
{
    let count = blob.bytes.len().div_ceil(BLOCK_SIZE);
    let mut blocks = Vec::with_capacity(alloc, count)?;
    for place in 0..count {
        let number = number_at(place)?;
        blocks.push(port.stage(&blob.name, number, piece(&blob.bytes, place))?)?;
    }
    Ok(Blocks::<P>::from_list(blocks))
}

/// The number of the block at a place. More blocks than numbers are out of memory.
fn number_at(place: usize) -> Result<u32, NoMemory>
    ensures { IfOk result (λ number. number ≡ place + 1) }
{
    match u32::try_from(place) {
        Ok(before) => before.checked_add(1).ok_or(NoMemory),
        Err(_) => Err(NoMemory),
    }
}

/// Stages the manifest's block of the items.
pub fn stage_items<P: Port>(
    alloc: Global,
    port: &mut P,
    key: &WriteKey,
    items: &Vec<Item>,
) -> Result<P::Block, WriteFault>
    requires some { 1 ≤ length items.now.items }
    requires count { length items.now.items < 2 ^ 32 }
    requires form { All IsInForm items.now.items }

    ensures name { IfOk result (λ block. P.Block.name block ≡ name_of Kind.Manifest key.now) }
    ensures number { IfOk result (λ block. P.Block.number block ≡ 1) }
    ensures bytes { IsTrue P.tells → IfOk result
        (λ block. P.Block.bytes block ≡ block_spelling items.now.items) }

    ensures never_falls { P.faults port.old ≤ P.faults port.new }
    ensures failed { IsErrOf result WriteFault.StoreFault
        → Rises (P.faults port.old) (P.faults port.new) }
    ensures listings { P.listings port.new ≡ P.listings port.old }
    ensures deletions { P.deletions port.new ≡ P.deletions port.old }
{
    let bytes = encode_block(alloc, items)?;
    let block = port.stage(&key.name(Kind::Manifest), 1, &bytes)?;
    Ok(block)
}
