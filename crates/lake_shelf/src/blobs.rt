ghost use Rattle.std.specs.Prelude.{◌≡◌, IfOk};
ghost use Rattle.std.specs.List.{flat_map};

use crate::bytes::SharedBytes;
use lake_outside::{Staged, Stored};
use lake_values::{Name, NoMemory};
use std::alloc::Global;

/// A block that a port of a shelf staged. It keeps its bytes.
#[derive(Drop)]
pub struct ShelfBlock {
    name: Name,
    number: u32,
    bytes: SharedBytes,
}

impl ShelfBlock {
    pub(crate) fn new(name: Name, number: u32, bytes: Vec<u8>) -> Result<ShelfBlock, NoMemory>
        ensures name { IfOk result (λ block. block.name ≡ name) }
        ensures number { IfOk result (λ block. block.number ≡ number) }
        ensures bytes { IfOk result (λ block. block.bytes ≡ bytes.items) }
    {
        let bytes = SharedBytes::new(bytes)?;
        Ok(ShelfBlock {
            name,
            number,
            bytes,
        })
    }
}

impl Staged for ShelfBlock {
    ghost name = { λ block. block.name };

    ghost number = { λ block. block.number };

    ghost bytes = { λ block. block.bytes };

    fn name(&self) -> Name {
        self.name
    }

    fn number(&self) -> u32 {
        self.number
    }

    fn copy(&self) -> Result<ShelfBlock, NoMemory> {
        let bytes = self.bytes.copy()?;
        Ok(ShelfBlock {
            name: self.name,
            number: self.number,
            bytes,
        })
    }
}

/// A blob that a port of a shelf committed. It keeps its bytes.
#[derive(Drop)]
pub struct ShelfBlob {
    name: Name,
    bytes: SharedBytes,
}

impl ShelfBlob {
    /// The blob whose bytes are those of the blocks in their order.
    pub(crate) fn of_blocks(
        alloc: Global,
        name: Name,
        blocks: &[ShelfBlock],
    ) -> Result<ShelfBlob, NoMemory>
        ensures name { IfOk result (λ blob. blob.name ≡ name) }
        ensures bytes { IfOk result (λ blob. blob.bytes ≡ flat_map (λ block. block.bytes) blocks.now) }
    {
        let bytes = SharedBytes::new(joined_bytes(alloc, blocks)?)?;
        Ok(ShelfBlob { name, bytes })
    }

    /// The bytes, shared with the blob.
    pub(crate) fn bytes(&self) -> &SharedBytes
        ensures { result.now ≡ self.now.bytes }
    {
        &self.bytes
    }
}

fn joined_bytes(alloc: Global, blocks: &[ShelfBlock]) -> Result<Vec<u8>, NoMemory>
    ensures { IfOk result (λ bytes. bytes.items ≡ flat_map (λ block. block.bytes) blocks.now) }
{
    let mut bytes = Vec::new(alloc);
    for block in blocks {
        bytes.extend_from_slice(block.bytes.as_slice())?;
    }
    Ok(bytes)
}

impl Stored for ShelfBlob {
    ghost name = { λ blob. blob.name };

    ghost bytes = { λ blob. blob.bytes };

    fn name(&self) -> Name {
        self.name
    }

    fn copy(&self) -> Result<ShelfBlob, NoMemory> {
        let bytes = self.bytes.copy()?;
        Ok(ShelfBlob {
            name: self.name,
            bytes,
        })
    }
}
