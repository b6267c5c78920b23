//! Putting what was staged into the store.

ghost use Rattle.std.specs.Prelude.{◌≡◌, ◌<◌, ◌≤◌, [], ◌∷◌, length, map, IfOk, IsErrOf, IsTrue};
ghost use Rattle.std.specs.Prelude.{All};
ghost use Rattle.std.specs.Option.{option_map};
ghost use Rattle.lake_outside.specs.Counts.{Rises};
ghost use Rattle.lake_outside.specs.Ports.{told_blob, told_block};
ghost use Rattle.op_write.specs.Staging.{names_staged, names_written, sealed};

use crate::{Staging, WriteFault};
use lake_outside::{Blobs, Port};
use manifest_block::ItemBlock;
use std::alloc::Global;
use std::marker::Model;

/// What an attempt that won has written: its blob, if it writes one, the staged block of the
/// manifest, if it has items, and these items. Contracts see a blob as its name and the bytes that
/// its port tells.
#[derive(Drop)]
pub struct Wrote<P: Port> {
    blobs: Blobs<P>,
    block: Option<P::Block>,
    items: ItemBlock,
}

impl<P: Port> Model for Wrote<P> {
    ghost use Rattle.std.specs.Prelude.{map};
    ghost use Rattle.std.specs.Option.{option_map};
    ghost use Rattle.lake_outside.specs.Ports.{told_blob, told_block};
    ghost use Rattle.op_write.specs.Staging.{Written};

    ghost Value = { Written };

    ghost view = { λ w. record {
      blobs = map (told_blob P.Blob.name P.Blob.bytes) w.blobs;
      block = option_map (told_block P.Block.name P.Block.number P.Block.bytes) w.block;
      items = w.items;
    } };
}

impl<P: Port> Wrote<P> {
    /// The blobs, the staged block and the items.
    pub fn into_parts(self) -> (Blobs<P>, Option<P::Block>, ItemBlock)
        ensures blobs { map (told_blob P.Blob.name P.Blob.bytes) result.0 ≡ self.blobs }
        ensures block { option_map (told_block P.Block.name P.Block.number P.Block.bytes) result.1
            ≡ self.block }
        ensures items { result.2 ≡ self.items }
    {
        (self.blobs, self.block, self.items)
    }
}

/// Puts the blob of a staging into the store. The staging is spent in any case.
pub fn seal<P: Port>(
    alloc: Global,
    port: &mut P,
    staging: Staging<P>,
) -> Result<Wrote<P>, WriteFault>
    ensures told { IsTrue P.tells → IfOk result (λ w. w ≡ sealed staging) }
    ensures named { IfOk result (λ w. names_written w ≡ names_written (sealed staging)) }

    ensures never_falls { P.faults port.old ≤ P.faults port.new }
    ensures failed { IsErrOf result WriteFault.StoreFault
        → Rises (P.faults port.old) (P.faults port.new) }
    ensures listings { P.listings port.new ≡ P.listings port.old }
    ensures deletions { P.deletions port.new ≡ P.deletions port.old }
{
    let blobs = commit(alloc, port, &staging)?;
    Ok(Wrote {
        blobs,
        block: staging.block,
        items: staging.items,
    })
}

/// Commits the blob of a staging, if it has one.
fn commit<P: Port>(
    alloc: Global,
    port: &mut P,
    staging: &Staging<P>,
) -> Result<Blobs<P>, WriteFault>
    ensures told { IsTrue P.tells → IfOk result (λ blobs.
        map (told_blob P.Blob.name P.Blob.bytes) blobs ≡ (sealed staging.now).blobs) }
    ensures named { IfOk result (λ blobs.
        map P.Blob.name blobs ≡ (names_written (sealed staging.now)).blobs) }

    ensures never_falls { P.faults port.old ≤ P.faults port.new }
    ensures failed { IsErrOf result WriteFault.StoreFault
        → Rises (P.faults port.old) (P.faults port.new) }
    ensures listings { P.listings port.new ≡ P.listings port.old }
    ensures deletions { P.deletions port.new ≡ P.deletions port.old }
{
    let mut blobs = Blobs::<P>::empty(alloc);
    let Some(name) = &staging.name else {
        return Ok(blobs);
    };
    let blob = port.commit(name, staging.blocks.list())?;
    blobs.push(blob)?;
    Ok(blobs)
}
