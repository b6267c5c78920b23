ghost use Rattle.std.specs.Prelude.{◌≡◌, [], IfOk};
ghost use Rattle.std.specs.List.Sorted.{IsStrictlySortedBy};
ghost use Rattle.lake_shelf.specs.Directories.{name_cmp};

use crate::directories::Directory;
use crate::{ShelfPort, SurePort};
use lake_values::{Name, NoMemory};
use std::alloc::Global;
use std::sync::{Mutex, MutexGuard, Wait};

/// A store of blobs in memory, behind a lock.
#[derive(Drop)]
pub struct Shelf<R> {
    rt: R,
    alloc: Global,
    directory: Mutex<Directory>,
}

impl<R: Wait> Shelf<R> {
    /// An empty store.
    pub fn new(alloc: Global, rt: R) -> Result<Shelf<R>, NoMemory> {
        Ok(Shelf {
            rt,
            alloc,
            directory: Mutex::new(Directory::new(alloc)),
        })
    }

    /// A port whose k-th call of any kind, counted from 1, fails where `fails` has k. Committing a name
    /// that is listed, and reading or deleting one that isn't, fails too.
    pub fn port(&self, fails: Vec<u64>) -> ShelfPort<'_, R>
        ensures fails { result.calls.fails ≡ fails.items }
        ensures made { result.calls.made ≡ 0 }
        ensures failed { result.calls.failed ≡ 0 }
        ensures listings { result.told.listings ≡ [] }
        ensures deletions { result.told.deletions ≡ [] }
    {
        ShelfPort::new(self, fails)
    }

    /// A port that never fails: a commit under a listed name replaces that blob, and deleting a name that
    /// isn't listed does nothing.
    pub fn sure_port(&self) -> SurePort<'_, R>
        ensures listings { result.listings ≡ [] }
        ensures deletions { result.deletions ≡ [] }
    {
        SurePort::new(self)
    }

    /// The names that are listed, ascending.
    pub fn names(&self) -> Result<Vec<Name>, NoMemory>
        ensures ascending { IfOk result (λ names. IsStrictlySortedBy name_cmp names.items) }
    {
        self.lock().names(self.alloc)
    }

    /// How many bytes the listed blobs have together.
    pub fn total(&self) -> u64 {
        self.lock().total()
    }

    pub(crate) fn alloc(&self) -> Global {
        self.alloc
    }

    pub(crate) fn lock(&self) -> MutexGuard<'_, Directory> {
        self.directory.lock(&self.rt)
    }
}
