ghost use Rattle.std.specs.Prelude.{◌≡◌, []};

use crate::notes::Notes;
use crate::{Shelf, ShelfBlob, ShelfBlock};
use lake_outside::{Port, PortError};
use lake_values::Name;
use std::marker::Model;
use std::sync::Wait;

/// A port of a shelf that never fails. It tells its bytes, its listings and its deletions.
#[derive(Drop)]
pub struct SurePort<'a, R> {
    shelf: &'a Shelf<R>,
    notes: Notes,
}

impl<'a, R> Model for SurePort<'a, R> {
    ghost use Rattle.lake_shelf.specs.Told.{Told};

    ghost Value = { Told };

    ghost view = { λ p. p.notes };
}

impl<'a, R: Wait> SurePort<'a, R> {
    pub(crate) fn new(shelf: &'a Shelf<R>) -> SurePort<'a, R>
        ensures { result ≡ record { listings = []; deletions = [] } }
    {
        SurePort {
            shelf,
            notes: Notes::new(shelf.alloc()),
        }
    }
}

impl<'a, R: Wait + Sync> Port for SurePort<'a, R> {
    type Block = ShelfBlock;

    type Blob = ShelfBlob;

    ghost use Rattle.std.specs.Prelude.{true};

    ghost tells = { true };

    ghost faults = { λ _. 0 };

    ghost listings = { λ p. p.listings };

    ghost deletions = { λ p. p.deletions };

    fn stage(&mut self, name: &Name, no: u32, bytes: &[u8]) -> Result<ShelfBlock, PortError> {
        let kept = bytes.to_vec(self.shelf.alloc())?;
        Ok(ShelfBlock::new(*name, no, kept)?)
    }

    fn commit(&mut self, name: &Name, blocks: &Vec<ShelfBlock>) -> Result<ShelfBlob, PortError> {
        let blob = ShelfBlob::of_blocks(self.shelf.alloc(), *name, blocks)?;
        let bytes = blob.bytes().copy()?;
        self.shelf.lock().put(*name, bytes)?;
        Ok(blob)
    }

    fn read(&mut self, blob: &ShelfBlob) -> Result<Vec<u8>, PortError> {
        Ok(blob.bytes().to_vec(self.shelf.alloc())?)
    }

    fn list(&mut self) -> Result<Vec<Name>, PortError> {
        let names = self.shelf.names()?;
        self.notes.add_listing(&names)?;
        Ok(names)
    }

    fn delete(&mut self, name: &Name) -> Result<(), PortError> {
        self.notes.add_deletion(*name)?;
        self.shelf.lock().remove(name);
        Ok(())
    }
}
