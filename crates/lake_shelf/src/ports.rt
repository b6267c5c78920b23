ghost use Rattle.std.specs.Prelude.{◌≡◌, ◌≤◌, [], ◌∷◌, ◌++◌, ◌↔◌, IfOk, OnOk, OnErr, IsErr, IsErrOf};
ghost use Rattle.std.specs.List.{flat_map};
ghost use Rattle.std.specs.List.Sorted.{IsStrictlySortedBy};
ghost use Rattle.lake_outside.specs.Counts.{FailsNext, Rises};
ghost use Rattle.lake_shelf.specs.Directories.{name_cmp};
ghost use Rattle.lake_shelf.specs.Told.{IsCounted};

use crate::notes::Notes;
use crate::{Shelf, ShelfBlob, ShelfBlock, under_lock};
use lake_outside::{CallCount, Port, PortError, Staged, Stored};
use lake_values::Name;
use std::marker::Model;
use std::sync::Wait;

/// A port of a shelf, some of whose calls fail. It tells its bytes, its listings and its deletions. A call
/// that finds no memory isn't counted.
#[derive(Drop)]
pub struct ShelfPort<'a, R> {
    shelf: &'a Shelf<R>,
    calls: CallCount,
    notes: Notes,
}

impl<'a, R> Model for ShelfPort<'a, R> {
    ghost use Rattle.lake_shelf.specs.Told.{CountedTold};

    ghost Value = { CountedTold };

    ghost view = { λ p. record { calls = p.calls; told = p.notes } };
}

impl<'a, R: Wait> ShelfPort<'a, R> {
    pub(crate) fn new(shelf: &'a Shelf<R>, fails: Vec<u64>) -> ShelfPort<'a, R>
        ensures calls { result.calls ≡ record { fails = fails.items; made = 0; failed = 0 } }
        ensures told { result.told ≡ record { listings = []; deletions = [] } }
    {
        ShelfPort {
            shelf,
            calls: CallCount::new(fails),
            notes: Notes::new(shelf.alloc()),
        }
    }
}

impl<'a, R: Wait + Sync> Port for ShelfPort<'a, R> {
    type Block = ShelfBlock;

    type Blob = ShelfBlob;

    ghost use Rattle.std.specs.Prelude.{true};

    ghost tells = { true };

    ghost faults = { λ p. p.calls.failed };

    ghost listings = { λ p. p.told.listings };

    ghost deletions = { λ p. p.told.deletions };

    fn stage(&mut self, name: &Name, no: u32, bytes: &[u8]) -> Result<ShelfBlock, PortError>
        ensures name { IfOk result (λ block. ⟦<ShelfBlock as Staged>⟧.name block ≡ name.now) }
        ensures number { IfOk result (λ block. ⟦<ShelfBlock as Staged>⟧.number block ≡ no) }
        ensures bytes { IfOk result (λ block. ⟦<ShelfBlock as Staged>⟧.bytes block ≡ bytes.now) }

        ensures fails { IsErrOf result PortError.Failed ↔ FailsNext self.old.calls }
        ensures counted { IsCounted result self.old.calls self.new.calls }
        ensures never_falls { self.old.calls.failed ≤ self.new.calls.failed }
        ensures failed { IsErrOf result PortError.Failed → Rises self.old.calls.failed self.new.calls.failed }
        ensures told { self.new.told ≡ self.old.told }
    {
        if self.calls.fails_next() {
            self.calls.fail();
            return Err(PortError::Failed);
        }
        let kept = bytes.to_vec(self.shelf.alloc())?;
        let block = ShelfBlock::new(*name, no, kept)?;
        self.calls.pass();
        Ok(block)
    }

    fn commit(&mut self, name: &Name, blocks: &Vec<ShelfBlock>) -> Result<ShelfBlob, PortError>
        ensures name { IfOk result (λ blob. ⟦<ShelfBlob as Stored>⟧.name blob ≡ name.now) }
        ensures bytes { IfOk result (λ blob. ⟦<ShelfBlob as Stored>⟧.bytes blob
            ≡ flat_map (λ block. ⟦<ShelfBlock as Staged>⟧.bytes block) blocks.now.items) }

        ensures fails { FailsNext self.old.calls → IsErr result }
        ensures counted { IsCounted result self.old.calls self.new.calls }
        ensures never_falls { self.old.calls.failed ≤ self.new.calls.failed }
        ensures failed { IsErrOf result PortError.Failed → Rises self.old.calls.failed self.new.calls.failed }
        ensures told { self.new.told ≡ self.old.told }
    {
        let blob = ShelfBlob::of_blocks(self.shelf.alloc(), *name, blocks)?;
        let bytes = blob.bytes().copy()?;
        under_lock::commit(&mut *self.shelf.lock(), &mut self.calls, *name, bytes)?;
        Ok(blob)
    }

    fn read(&mut self, blob: &ShelfBlob) -> Result<Vec<u8>, PortError>
        ensures bytes { IfOk result (λ bytes. bytes.items ≡ ⟦<ShelfBlob as Stored>⟧.bytes blob.now) }

        ensures fails { FailsNext self.old.calls → IsErr result }
        ensures counted { IsCounted result self.old.calls self.new.calls }
        ensures never_falls { self.old.calls.failed ≤ self.new.calls.failed }
        ensures failed { IsErrOf result PortError.Failed → Rises self.old.calls.failed self.new.calls.failed }
        ensures told { self.new.told ≡ self.old.told }
    {
        let bytes = blob.bytes().to_vec(self.shelf.alloc())?;
        under_lock::find(&*self.shelf.lock(), &mut self.calls, &blob.name())?;
        Ok(bytes)
    }

    fn list(&mut self) -> Result<Vec<Name>, PortError>
        ensures ascending { IfOk result (λ names. IsStrictlySortedBy name_cmp names.items) }
        ensures listed { IfOk result (λ names. self.new.told.listings ≡ self.old.told.listings ++ names.items ∷ []) }
        ensures not_listed { OnErr result (self.new.told.listings ≡ self.old.told.listings) }
        ensures deletions { self.new.told.deletions ≡ self.old.told.deletions }

        ensures fails { IsErrOf result PortError.Failed ↔ FailsNext self.old.calls }
        ensures counted { IsCounted result self.old.calls self.new.calls }
        ensures never_falls { self.old.calls.failed ≤ self.new.calls.failed }
        ensures failed { IsErrOf result PortError.Failed → Rises self.old.calls.failed self.new.calls.failed }
    {
        if self.calls.fails_next() {
            self.calls.fail();
            return Err(PortError::Failed);
        }
        let names = self.shelf.names()?;
        self.notes.add_listing(&names)?;
        self.calls.pass();
        Ok(names)
    }

    fn delete(&mut self, name: &Name) -> Result<(), PortError>
        ensures deleted { OnOk result (self.new.told.deletions ≡ self.old.told.deletions ++ name.now ∷ []) }
        ensures also_failed { IsErrOf result PortError.Failed
            → self.new.told.deletions ≡ self.old.told.deletions ++ name.now ∷ [] }
        ensures no_memory { IsErrOf result PortError.NoMemory → self.new.told.deletions ≡ self.old.told.deletions }
        ensures listings { self.new.told.listings ≡ self.old.told.listings }

        ensures fails { FailsNext self.old.calls → IsErr result }
        ensures counted { IsCounted result self.old.calls self.new.calls }
        ensures never_falls { self.old.calls.failed ≤ self.new.calls.failed }
        ensures failed { IsErrOf result PortError.Failed → Rises self.old.calls.failed self.new.calls.failed }
    {
        self.notes.add_deletion(*name)?;
        under_lock::delete(&mut *self.shelf.lock(), &mut self.calls, name)?;
        Ok(())
    }
}
