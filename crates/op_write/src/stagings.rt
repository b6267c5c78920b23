ghost use Rattle.std.specs.Prelude.{◌≡◌, [], None};
ghost use Rattle.op_write.specs.Staging.{staged};
ghost use Rattle.op_write.specs.Writes.{nothing};

use lake_outside::{Blocks, Port};
use lake_values::Name;
use manifest_block::ItemBlock;
use std::alloc::Global;
use std::marker::Model;

/// What an attempt has staged: the blocks of its blob, if it writes one, the block of the manifest,
/// if it has items, and these items. Contracts see each block as its name, its number and the bytes
/// that its port tells.
#[derive(Drop)]
pub struct Staging<P: Port> {
    pub(crate) name: Option<Name>,
    pub(crate) blocks: Blocks<P>,
    pub(crate) block: Option<P::Block>,
    pub(crate) items: ItemBlock,
}

impl<P: Port> Model for Staging<P> {
    ghost use Rattle.std.specs.Prelude.{map};
    ghost use Rattle.std.specs.Option.{option_map};
    ghost use Rattle.lake_outside.specs.Ports.{told_block};
    ghost use Rattle.op_write.specs.Staging.{Staged, AreBlocksOf};

    ghost Value = { Staged };

    ghost view = { λ s. record {
      name = s.name;
      blocks = map (told_block P.Block.name P.Block.number P.Block.bytes) s.blocks;
      block = option_map (told_block P.Block.name P.Block.number P.Block.bytes) s.block;
      items = s.items;
    } };

    ghost invariant = { λ s. AreBlocksOf s.name
        (map (told_block P.Block.name P.Block.number P.Block.bytes) s.blocks) };
}

impl<P: Port> Staging<P> {
    /// The staging of an attempt that writes nothing.
    pub(crate) fn nothing(alloc: Global) -> Staging<P>
        ensures { result ≡ record { name = None; blocks = []; block = None; items = [] } }
    {
        Staging {
            name: None,
            blocks: Blocks::<P>::empty(alloc),
            block: None,
            items: ItemBlock::empty(alloc),
        }
    }
}
